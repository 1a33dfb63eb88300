//! A stream of numbered messages from one machine to another, over a network that may lose, repeat and reorder.
#![tactic(auto)]

mod law;
mod receiver;
mod sender;

pub use dm_memory::NoMemory;
pub use law::{any_schedule, one_step, while_it_stands};
pub use receiver::{Arrived, Receiver};
pub use sender::{GiveError, Sender, WINDOW};
