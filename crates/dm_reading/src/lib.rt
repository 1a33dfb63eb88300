//! Texts as they are read: their lines, words, pieces and numbers.
#![tactic(auto)]

mod lines;
mod numbers;
mod pieces;
mod words;

pub use lines::{first_line, first_source_line};
pub use numbers::{Base, capped_number, exact_number, printed_number};
pub use pieces::split;
pub use words::{Gap, count_words, next_word};
