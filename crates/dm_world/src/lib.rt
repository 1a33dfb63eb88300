//! All machines and the wires between them.
#![tactic(auto)]

pub mod cursor;
mod end_holding;
mod end_lines;
mod end_messages;
mod end_process;
mod end_servers;
mod quiet;
mod step;
pub mod world;

pub use cursor::{Cursor, Place};
pub use dm_memory::NoMemory;
pub use dm_node::Stop;
pub use world::World;
