//! What holds wherever the rule of several machines leads: each directive has its group, and what the
//! kernel without machines and the printed lines say of processes and messages agrees.
#![tactic(auto)]

pub mod laws;
