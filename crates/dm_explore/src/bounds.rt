//! What is looked for, and within which bounds.
use dm_link::Pid;
use dm_schedule::Step;

/// The most directives of a schedule that is tried.
pub const MOST_DEPTH: u8 = 64;

/// Within what is looked.
#[derive(Drop)]
pub struct Bounds {
    /// The most directives of a schedule, 1 to 64.
    pub depth: u8,
    /// The most schedules that are tried, from 1 on.
    pub most: u32,
    /// Requests to move, and then callings off, each to be made once at most.
    pub requests: Vec<Step>,
    /// How many ticks a schedule has at most.
    pub ticks: u8,
    /// How many times a packet is delivered again in it, at most.
    pub repeats: u8,
    /// Whether each acknowledgement may be delivered, and not only one for which a message waits.
    pub acks: bool,
}

/// What is looked for.
#[derive(Clone, Copy)]
pub enum Question<'a> {
    /// A line that begins with these words.
    Line(&'a [u8]),
    /// That all is at rest while one of these processes waits or moves data.
    Stuck(&'a [Pid]),
}
