//! What holds of every good run, and what that says of the commands. Each run comes to an end, each other is a beginning of it, and
//! where nothing moves messages are received in the order in which they were sent. What is printed is judged good by the rule; a look
//! says what the kernel without machines holds; and what exploring leaves out comes to the same.
#![tactic(auto)]

pub mod check;
pub mod explore;
pub mod look;
pub mod run;
