//! Link update (1983): a machine that sends a message on tells the sender where the receiver has gone, and the
//! sender's links follow.
#![tactic(auto)]

mod following;
mod telling;

pub use following::apply;
pub use telling::{is_told_back, notice};
