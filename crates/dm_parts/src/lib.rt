//! The parts of a system: the processes that the boot file's links join, and the switchboard where one has a link to it.
#![tactic(auto)]

pub mod laws;
mod parts;

pub use parts::parts_of;
