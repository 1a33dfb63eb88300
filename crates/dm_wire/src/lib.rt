//! The wires between machines: each packet that was ever put on one stays there, and may be delivered again.
#![tactic(auto)]

mod packets;
mod wire;

pub use dm_memory::NoMemory;
pub use wire::Wire;
