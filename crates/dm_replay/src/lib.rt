//! The kernel without machines, as it runs: it takes labels one by one, and refuses what is no step.
#![tactic(auto)]

mod apply;
pub mod by_name;
mod ending;
pub mod kernel;
pub mod life;
mod make;
mod messages;
mod moves;
pub mod processes;
mod servers;
mod service;
mod start;
mod steps;

pub use kernel::{HERE, Kernel, MOST_LABELS, Note, Refusal};
