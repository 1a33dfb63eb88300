//! A run that is counted, as a drill is, and what is said of it.
#![tactic(auto)]

pub mod counts;
pub mod drill;
pub mod kinds;
pub mod report;
pub mod schedule;
pub mod summary;
pub mod tally;
