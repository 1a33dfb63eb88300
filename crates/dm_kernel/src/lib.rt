//! The kernel of one machine: its processes and its servers, and what a turn does to them. It says lines and routes
//! messages; how messages come to other machines is not its part.
#![tactic(auto)]

mod arrive;
mod ask;
mod begin;
mod bury;
mod call_off;
mod depart;
mod ending;
mod follow;
mod handle;
pub mod kernel;
mod law;
mod make;
mod own;
pub mod part;
mod read;
mod residents;
mod ring;
pub mod run;
mod runnable;
mod serve;
mod servers;
mod service;
mod turn;

pub use dm_memory::NoMemory;
pub use kernel::Kernel;
pub use law::{
    calls_off_lawfully, machines_open_lawfully, moves_are_asked_lawfully, turns_are_lawful,
};
pub use part::Part;
