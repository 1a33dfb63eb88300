//! Counting.
ghost use Rattle.std.specs.Prelude.{◌≡◌, ◌+◌, OnErr, OnOk, vec_len};

use dm_memory::{NoMemory, push};
use std::alloc::Global;

/// A count, as a list of nothing: its places take no room, and the library says where a list's length ends.
#[derive(Drop)]
pub struct Tally {
    marks: Vec<()>,
}

impl Tally {
    /// Nothing is counted yet.
    pub fn new(alloc: Global) -> Tally
        ensures { vec_len result.marks ≡ 0 }
    {
        Tally {
            marks: Vec::new(alloc),
        }
    }

    /// One more.
    pub fn add_one(&mut self) -> Result<(), NoMemory>
        ensures more { OnOk result (vec_len self.new.marks ≡ vec_len self.old.marks + 1) }
        ensures same { OnErr result (vec_len self.new.marks ≡ vec_len self.old.marks) }
    {
        push(&mut self.marks, ())
    }

    /// How many.
    pub fn count(&self) -> u64
        ensures { result ≡ vec_len self.now.marks }
    {
        self.marks.len() as u64
    }
}
