//! The lines that a run prints, and what is left to do of its directives.
#![tactic(auto)]

pub mod end_line;
pub mod line;
pub mod pass;
