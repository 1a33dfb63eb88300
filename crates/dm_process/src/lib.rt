//! Processes: registers, memory, links, and the messages that wait for them.
#![tactic(auto)]

mod channels;
pub mod mailbox;
pub mod process;

pub use dm_memory::NoMemory;
pub use mailbox::Mailbox;
pub use process::{Direction, Process, Service, Status};
