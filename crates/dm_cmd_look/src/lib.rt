//! The command `look`: it says where the run of a schedule stands behind so many groups, and what is in the messages.
#![tactic(auto)]

pub mod look;
