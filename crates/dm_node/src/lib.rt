//! One machine: its kernel, and its streams with the other machines. An event is a turn, a tick or the arrival of a
//! packet; its packets go on the machine's own wires, and its lines come behind those that were said.
#![tactic(auto)]

mod arrive;
mod begin;
mod ends;
pub mod envelope;
mod law;
pub mod node;
pub mod out;
mod packets;
mod read;
mod route;
mod speak;
pub mod stop;
mod streams;
mod turn;

pub use dm_memory::NoMemory;
pub use envelope::Envelope;
pub use law::events_send_lawfully;
pub use node::Node;
pub use out::Out;
pub use stop::Stop;
