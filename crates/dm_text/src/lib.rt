//! What a run prints: the text of its lines, and the lines of a text.
#![tactic(auto)]

pub mod back;
pub mod ends;
mod labels;
mod rows;
pub mod text;
mod within;
pub mod word;
