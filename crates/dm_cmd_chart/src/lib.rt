//! The command `chart`: it draws the run of a schedule on the system of a boot file.
#![tactic(auto)]

pub mod chart;
