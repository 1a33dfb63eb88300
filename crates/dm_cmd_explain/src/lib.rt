//! The command `explain`: it says what a boot file and a schedule say, or what is wrong with them.
#![tactic(auto)]

pub mod explain;
