//! Lists inside public values, which contracts see as lists.
#![tactic(auto)]

pub mod bounded;
pub mod bytes;
pub mod items;
pub mod parcels;
pub mod queue;

pub use bounded::Bounded;
pub use bytes::is_over;
pub use items::Items;
pub use parcels::Parcels;
pub use queue::{Queue, put_before};
