//! The room of a machine: a slot for each process that stands there, and blocks of memory.
//!
//! A process takes one slot and its blocks before it stands, and gives them back when it ends or leaves.
#![tactic(auto)]

mod law;
mod room;

pub use law::any_reservations;
pub use room::{Lacks, Room};
