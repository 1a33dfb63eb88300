//! The command `run`: it runs a schedule on the system of a boot file, and writes what happens.
#![tactic(auto)]

pub mod run;
