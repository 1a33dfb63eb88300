//! The machines and their wires stand for what was printed, and every run of them is good.
#![tactic(auto)]

pub mod laws;
