//! How a run ends, and how the program does: why it stopped, its status, and the status's number and line.
#![tactic(auto)]

pub mod status;
pub mod stop;
