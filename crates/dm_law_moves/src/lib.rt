//! What holds of migrations wherever the rule of several machines leads: the trail that leads to each process, what an update
//! does and promises, the steps in their order, and what is at rest. And of a settle: it comes to an end, that is where nothing is
//! on its way any more, and each pass before has something to do.
#![tactic(auto)]

pub mod laws;
pub mod settle;
