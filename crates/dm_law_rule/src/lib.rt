//! What printed lines say of machines, and which lines may follow which: the view, the addresses and the group rule.
#![tactic(auto)]

pub mod laws;
