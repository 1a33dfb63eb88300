//! Which lines of an image's text are refused, and why.

mod place;
mod refusals;

pub use place::line_before;
pub use refusals::line_why;
