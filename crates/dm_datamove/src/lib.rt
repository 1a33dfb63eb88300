//! Data moves, piece by piece: requests, their service where the area is, and their landing. Memory is taken for the bytes alone
//! that a message carries.
#![tactic(auto)]

ghost use Rattle.std.specs.Prelude.{◌≡◌, ◌+◌, ◌≤◌, IfOk, drop, length, take};
ghost use Rattle.dm_datamove.specs.Requests.{address_of};

mod landing;
mod requests;
mod serving;

use dm_link::Addr;
use dm_memory::NoMemory;
use dm_message::{Body, Message};
use dm_onekernel::Reply;
use dm_process::{Direction, Process};
use dm_processor::{BLOCK, Cells, Memory};
pub use landing::land;
pub use requests::request;
pub use serving::{answer, gone, serve};
use std::alloc::Global;

/// What is left of a data move: `left` bytes, 1 to 65,536, from `base` in the owner's memory and from `own` in the
/// mover's.
#[derive(Clone, Copy)]
pub struct Rest {
    pub dir: Direction,
    pub owner: Addr,
    pub base: u32,
    pub own: u32,
    pub left: u32,
}

/// What a landing comes to.
#[derive(Drop)]
pub enum Landed {
    /// The request for the next piece is to be routed.
    Next(Message),
    /// The move is over, with this reply in register 0.
    Done(Reply),
}

/// Where a process of machine `here` says that it is.
pub fn address_of(process: &Process, here: u8) -> Addr
    ensures { result ≡ address_of here process.now }
{
    Addr {
        pid: process.pid,
        at: here,
        moves: process.moves,
    }
}

/// A copy of so many bytes at an address.
pub fn body_at(alloc: Global, memory: &Memory, base: u32, len: u32) -> Result<Body, NoMemory>
    requires short { len ≤ BLOCK }
    requires within { base + len ≤ length memory.now }
    ensures { IfOk result (λ body. body ≡ record { items = take len (drop base memory.now) }) }
{
    let mut bytes = [0; 256];
    let part = &mut bytes[..len as usize];
    memory.copy_out(base, part);
    Body::from_slice(alloc, part)
}
