//! The commands that judge what is given to them: `check`, of a trace or of labels, and `explain`, of a trace.
#![tactic(auto)]

pub mod check;
pub mod judge;
pub mod label_check;
pub mod trace;
