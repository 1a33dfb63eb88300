//! A process.
ghost use Rattle.std.specs.Prelude.{◌≡◌, ◌*◌, ◌-◌, ◌≤◌, ◌++◌, IfOk, IfSome, is_some, length, option_map, replicate};
ghost use Rattle.dm_process.specs.Begun.{begun_process};
ghost use Rattle.dm_process.specs.Directions.{direction_numbered, number_of_direction};
ghost use Rattle.dm_process.specs.Process.{is_runnable};
ghost use Rattle.dm_process.specs.Service.{IsServiceOf};

use crate::mailbox::Mailbox;
use dm_link::{Addr, Pid};
use dm_linktable::Table;
use dm_memory::NoMemory;
use dm_processor::{BLOCK, MOST_BLOCKS, Memory, Regs};
use std::alloc::Global;

/// What a process does when it is served.
#[derive(Clone, Copy)]
pub enum Status {
    /// It executes instructions.
    Ready,
    /// It takes a message on a channel of the mask into its buffer of `cap` bytes at `base`.
    Waiting {
        mask: u32,
        base: u32,
        cap: u32,
    },
    /// It moves data between its own memory and an area of the owner's, piece by piece. `base` and `own` are where the
    /// piece under way begins, in the owner's memory and in its own; `left` is how many bytes are left with that piece,
    /// 1 to 65,536; `pending` is the number of the request that is under way.
    Moving {
        dir: Direction,
        owner: Addr,
        base: u32,
        own: u32,
        left: u32,
        pending: u32,
    },
}

/// What a process does where it is served.
#[derive(Clone, Copy)]
pub enum Service {
    /// It executes instructions.
    Execute,
    /// It takes the message at a place of its queue, the first on a channel of the mask.
    Receive { mask: u32, place: usize },
}

/// Which way a data move goes.
#[derive(Clone, Copy)]
pub enum Direction {
    /// From the area into the mover's memory.
    FromArea,
    /// From the mover's memory into the area.
    IntoArea,
}

impl Direction {
    /// The number that stands for it in register 2, in state bytes and in printed lines: 0 or 1.
    pub fn number(self) -> u8
        ensures { result ≡ number_of_direction self }
    {
        match self {
            Direction::FromArea => 0,
            Direction::IntoArea => 1,
        }
    }

    /// The direction that this number stands for, if one has it.
    pub fn numbered(number: u32) -> Option<Direction>
        ensures { result ≡ direction_numbered number }
    {
        match number {
            0 => Some(Direction::FromArea),
            1 => Some(Direction::IntoArea),
            _ => None,
        }
    }
}

/// A process (1977), at home on any machine (1983).
#[derive(Drop)]
pub struct Process {
    pub pid: Pid,
    pub regs: Regs,
    pub memory: Memory,
    pub table: Table,
    pub status: Status,
    /// A stopped process isn't served.
    pub stopped: bool,
    /// How many messages it has sent.
    pub sent: u32,
    /// How often it has moved.
    pub moves: u32,
    /// The messages that it has not received yet, in the order in which they came.
    pub queue: Mailbox,
}

impl Process {
    /// A process that hasn't executed anything yet: its memory is an image, then zeros up to so many blocks of 256
    /// bytes.
    pub fn new(
        alloc: Global,
        pid: Pid,
        image: &[u8],
        blocks: u16,
        table: Table,
    ) -> Result<Process, NoMemory>
        requires least { 1 ≤ blocks }
        requires most { blocks ≤ MOST_BLOCKS }
        requires fits { length image.now ≤ BLOCK * blocks }
        ensures ok { IfOk result (λ p. p ≡ begun_process pid (image.now ++ replicate (BLOCK * blocks - length image.now) 0) table) }
    {
        Ok(Process {
            pid,
            regs: Regs::new(),
            memory: Memory::from_image(alloc, image, blocks)?,
            table,
            status: Status::Ready,
            stopped: false,
            sent: 0,
            moves: 0,
            queue: Mailbox::new(alloc),
        })
    }

    /// Whether it can be served now: it isn't stopped, and is ready, or waits for a message that is in its queue.
    pub fn is_runnable(&self) -> bool
        ensures { result ≡ is_runnable self.now }
    {
        if self.stopped {
            return false;
        }
        match self.status {
            Status::Ready => true,
            Status::Waiting { mask, .. } => self.queue.has_match(mask),
            Status::Moving { .. } => false,
        }
    }

    /// What it does where it is served now; nothing where it can't be served.
    pub fn service(&mut self) -> Option<Service>
        ensures unchanged { self.new ≡ self.old }
        ensures runnable { is_some result ≡ is_runnable self.old }
        ensures service { IfSome result (IsServiceOf self.old) }
    {
        if self.stopped {
            return None;
        }
        match self.status {
            Status::Ready => Some(Service::Execute),
            Status::Waiting { mask, .. } => receiving(mask, self.queue.first_match(mask)),
            Status::Moving { .. } => None,
        }
    }
}

/// What a process does that waits on a mask, by where the first message on it stands.
fn receiving(mask: u32, place: Option<usize>) -> Option<Service>
    ensures { result ≡ option_map (λ p. Service.Receive mask p) place }
{
    match place {
        Some(place) => Some(Service::Receive { mask, place }),
        None => None,
    }
}
