//! A look into a run: where everything stands behind so many groups, and what is in the messages.
#![tactic(auto)]

mod contents;
mod groups;
mod letters;
mod look;
mod names;
mod waiting;

pub use look::look_at;
