//! The kernel without machines with places: its functions are those of the machines' code, and its places are what the
//! printed lines say.
#![tactic(auto)]

pub mod laws;
