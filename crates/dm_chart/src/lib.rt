//! A picture of a run: what its lines say, machine by machine, down the page.
#![tactic(auto)]

mod bars;
mod chart;
mod draw;
mod frame;
mod headings;
mod kept;
mod key;
pub mod laws;
mod layers;
mod left;
mod lines;
mod notes;
mod role;
mod scan;
mod spot;
mod starts;
mod stay;
mod style;
mod ways;
mod xml;

pub use chart::{Reach, picture};
pub use kept::{ALL_GROUPS, Kept, Part, keep};
pub use spot::MOST_ROWS;
pub use starts::{Starts, starts_of};
