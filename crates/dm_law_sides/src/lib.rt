//! Only connectivity begets connectivity: what holds of sides of a system between which the boot file has no link, whoever runs
//! it. They never come to have one.
#![tactic(auto)]

pub mod laws;
