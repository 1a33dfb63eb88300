//! Whether a text is what the system prints.
//!
//! The checker is the system itself: it takes each head of the text as a directive, steps a world, and compares what the world
//! prints with the text, line by line.
#![tactic(auto)]

mod classes;
pub mod fault;
mod follow;
pub mod refusal;
mod stop;
mod told;
pub mod trace;

pub use fault::TraceFault;
pub use refusal::{Group, JudgeError, Refusal, WasDue};
pub use stop::CheckError;
pub use trace::{Good, check_trace, judge_trace};

/// The most bytes of a trace.
pub const MOST_TRACE: u32 = 16_777_216;
