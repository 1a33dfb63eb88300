//! The words of the command line.
#![tactic(auto)]

mod argument;
mod chart;
mod drill;
pub mod explore;
mod files;
pub mod form;
mod look;
pub mod option;
pub mod said;
pub mod usage;
pub mod walk;
pub mod words;
mod written;

pub use drill::MOST_LINES;
