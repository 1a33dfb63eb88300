//! What a machine knows of processes: each is here, leaves, comes or has gone on, or nothing is known; and which machines may send on to
//! this one.
#![tactic(auto)]

pub mod machines;
pub mod record;
pub mod records;

pub use dm_memory::NoMemory;
pub use machines::Machines;
pub use record::Record;
pub use records::Records;
