//! The program `demosmp`, but for its `main`: the command that its words ask for, and how it ends. Here the law of runs is proved,
//! by which the commands go, and what they promise is said by the rule.
#![tactic(auto)]

mod ending;
mod entry;
pub mod laws;
mod program;
mod request;

pub use dm_ending::status::{Input, Status, status_line, status_text};
pub use dm_memory::of_args::args;
pub use dm_words::words::WordsError;
pub use entry::{finish, run_given, words_of};
pub use program::run_program;
