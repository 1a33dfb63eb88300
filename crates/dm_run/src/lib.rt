//! Runs of a system: a world that is stepped directive by directive, the writing of what it prints, and its picture.
#![tactic(auto)]

mod collect;
pub mod directives;
mod drawing;
mod fit;
pub mod offering;
pub mod running;
pub mod way;
pub mod write;

pub use directives::run_to_end;
pub use drawing::{Drawn, draw_run};
pub use fit::lines_fit;
pub use offering::{offer, offer_bytes, offer_ends};
pub use running::{begin, begin_again, do_step, end_lines, step_on};
pub use way::{Way, next_step};
pub use write::write_all;
