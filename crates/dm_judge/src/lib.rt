//! What is said of a trace that is refused: its first bad line, what is wrong with that, and what was due there.
#![tactic(auto)]

pub mod report;

pub use report::put_refusal;
