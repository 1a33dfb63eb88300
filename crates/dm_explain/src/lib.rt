//! What is wrong with a boot file or a schedule, or else what they say, in words.
#![tactic(auto)]

pub mod explain;
mod faults;
pub mod laws;
mod line;
mod naming;
mod part;
mod program;
mod schedule;
mod source;
mod system;
mod system_parts;
mod told;
mod wanted;
mod wrong;

pub use explain::{BootTold, ScheduleTold, explain_boot, explain_schedule};
pub use naming::explain_name;
