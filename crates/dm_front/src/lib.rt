//! What stands before the commands, which are crates of their own (dm_cmd_*) and named nowhere here: the boot file and the schedule, read
//! whole or refused, and what is said first of one that is refused; how a text is written; and what a command promises, whichever it is
//! (`Promise`, specs/Promise.antt).
#![tactic(auto)]

mod first;
pub mod inputs;
pub mod read;
pub mod tell;
pub mod write;
