//! Laws of the kernel without machines: what holds of all its runs.
#![tactic(auto)]

pub mod laws;
