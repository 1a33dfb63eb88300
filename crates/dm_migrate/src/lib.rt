//! Migration (1983): the two states that a process or a server has on its way, where it leaves and where it comes to.
#![tactic(auto)]

pub mod answer;
pub mod arriving;
mod asker;
mod laws;
pub mod leaving;

pub use answer::{Ask, Asked, answer_ask, release};
pub use arriving::{Arriving, Wanted};
pub use asker::{asker_of, moved_answer, request_of};
pub use dm_memory::NoMemory;
pub use laws::{arrives_whole, can_move, comes_by_pieces};
pub use leaving::{Leaving, freeze};
