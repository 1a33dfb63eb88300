//! A system and a schedule drawn from a number.
#![tactic(auto)]

pub mod boot;
pub mod directives;
pub mod draw;
pub mod drill;
pub mod own;
