//! The call of a command that fails, and what must come of that.

use crate::tried::Calls;
use std::alloc::{AllocError, Global};

/// The call of a command that fails, and how many of its kind go well before it.
#[derive(Clone, Copy)]
pub enum Failed {
    Nothing,
    Read(u64),
    Write(u64),
}

impl Failed {
    /// What fails.
    pub fn name(self) -> &'static str {
        match self {
            Failed::Nothing => "nothing",
            Failed::Read(_) => "read",
            Failed::Write(_) => "write",
        }
    }

    /// How many calls of its kind go well before it.
    pub fn before(self) -> u64 {
        match self {
            Failed::Nothing => 0,
            Failed::Read(before) | Failed::Write(before) => before,
        }
    }

    /// The numbers of the reads that fail, counted from 1.
    pub fn reads(self, alloc: Global) -> Result<Vec<u64>, AllocError> {
        match self {
            Failed::Read(before) => number_behind(alloc, before),
            _ => Ok(Vec::new(alloc)),
        }
    }

    /// The numbers of the writes that fail, counted from 1.
    pub fn writes(self, alloc: Global) -> Result<Vec<u64>, AllocError> {
        match self {
            Failed::Write(before) => number_behind(alloc, before),
            _ => Ok(Vec::new(alloc)),
        }
    }

    /// The status that the program must end with.
    pub fn status(self) -> u8 {
        match self {
            Failed::Nothing => 0,
            Failed::Read(_) => 3,
            Failed::Write(_) => 5,
        }
    }

    /// The line that it must say on standard error.
    pub fn line(self) -> &'static str {
        match self {
            Failed::Nothing => "",
            Failed::Read(_) => "read fault",
            Failed::Write(_) => "write fault",
        }
    }

    /// How many reads must be made, of those that are made where nothing fails: the one that fails is the last call.
    pub fn reads_of(self, all: Calls) -> u64 {
        match self {
            Failed::Read(before) => before.saturating_add(1),
            _ => all.reads,
        }
    }

    /// How many writes must be made.
    pub fn writes_of(self, all: Calls) -> u64 {
        match self {
            Failed::Nothing => all.writes,
            Failed::Read(_) => 0,
            Failed::Write(before) => before.saturating_add(1),
        }
    }
}

/// The number of the call behind so many.
fn number_behind(alloc: Global, before: u64) -> Result<Vec<u64>, AllocError> {
    Vec::from_slice(alloc, &[before.saturating_add(1)])
}
