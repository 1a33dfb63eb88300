//! Names of messages mean nothing: kernels without machines that differ in the numbers of messages alone do the same.
#![tactic(auto)]

pub mod laws;
