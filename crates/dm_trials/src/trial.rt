//! A command over files and output in memory, and what comes of it where one of its calls fails.

use crate::done::Done;
use crate::failed::Failed;
use crate::pair::{Pair, failing_sink};
use crate::program::{Program, run_over};
use crate::tried::{Calls, Tried};
use anyhow::Result;
use dm_outside::{MemShelf, MemSink};
use std::alloc::{AllocError, Global};

/// More bytes than any of the commands writes.
const ROOM: usize = 8_192;

/// A command, and what it comes to where nothing fails.
#[derive(Clone, Copy)]
pub struct Trial<'a> {
    pub tried: &'a Tried,
    /// Whether each call gives or takes one byte.
    pub by_byte: bool,
    pub calls: Calls,
    /// What it writes.
    pub whole: &'a [u8],
}

impl Trial<'_> {
    /// What comes of it where this call fails.
    pub fn ending<P: Program>(
        &self,
        rt: &HostRuntime,
        program: &P,
        failed: Failed,
    ) -> Result<Ended> {
        let mut shelf = self.shelf(rt, failed)?;
        let out = self.sink(rt.alloc(), failed)?;
        let done = run_over(rt.alloc(), program, self.tried.words, &mut shelf, out)?;
        let reads = shelf.calls();
        Ok(Ended { done, reads })
    }

    /// Whether it ended as it must where this call failed.
    pub fn is_right(&self, ended: &Ended, failed: Failed) -> bool {
        ended.is_right(failed, self.calls, self.whole)
    }

    /// Its shelf, where a read may fail.
    fn shelf(&self, rt: &HostRuntime, failed: Failed) -> Result<MemShelf> {
        let files = Pair::read(rt, "hi.boot", self.tried.other)?;
        self.shelf_of(rt.alloc(), files, failed)
    }

    /// The shelf of these files.
    fn shelf_of(&self, alloc: Global, files: Pair, failed: Failed) -> Result<MemShelf> {
        let fails = failed.reads(alloc)?;
        let mut shelf = files.shelf(alloc, fails)?;
        if self.by_byte {
            shelf.cut(1);
        }
        Ok(shelf)
    }

    /// Its standard output, where a write may fail.
    fn sink(&self, alloc: Global, failed: Failed) -> Result<MemSink, AllocError> {
        let fails = failed.writes(alloc)?;
        let mut out = failing_sink(alloc, ROOM, fails)?;
        if self.by_byte {
            out.cut(1);
        }
        Ok(out)
    }
}

/// How a command ended.
#[derive(Drop)]
pub struct Ended {
    done: Done,
    reads: u64,
}

impl Ended {
    /// Whether it ended as it must, with these calls of those that are made where nothing fails, and wrote a beginning of its output.
    fn is_right(&self, failed: Failed, all: Calls, whole: &[u8]) -> bool {
        self.done.end.is(failed.status(), failed.line())
            && self.reads == failed.reads_of(all)
            && self.done.out.calls() == failed.writes_of(all)
            && whole.starts_with(self.done.out.bytes())
    }

    /// How many bytes it wrote.
    pub fn written(&self) -> usize {
        self.done.out.bytes().len()
    }
}
