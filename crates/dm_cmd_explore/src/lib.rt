//! The command `explore`: it looks through the schedules of a system, and says whether there is one in which a line is printed, or a
//! process gets stuck.
#![tactic(auto)]

pub mod explore;
mod named;
