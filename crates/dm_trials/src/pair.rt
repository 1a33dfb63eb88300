//! Shelves and sinks in memory. A shelf has two files, `boot` and `other`.

ghost use Rattle.std.specs.Prelude.{◌≡◌, ◌++◌, ◌∷◌, [], IfOk, IsTrue, OnOk};
ghost use Rattle.dm_outside.specs.Memory.{entries, names_differ};

use dm_outside::{MemShelf, MemSink};
use std::alloc::{AllocError, Global};
use std::{fs, io};

/// The bytes of the two files of a shelf.
#[derive(Drop)]
pub struct Pair {
    pub boot: Vec<u8>,
    pub other: Vec<u8>,
}

impl Pair {
    /// Copies of two files.
    pub fn read(rt: &HostRuntime, boot: &str, other: &str) -> io::Result<Pair> {
        let boot = fs::read(rt, boot)?;
        let other = fs::read(rt, other)?;
        Ok(Pair { boot, other })
    }

    /// Their shelf, on which the reads of these numbers fail, counted from 1.
    pub fn shelf(self, alloc: Global, fails: Vec<u64>) -> Result<MemShelf, AllocError> {
        let files = self.named(alloc)?;
        Ok(MemShelf::new(files, fails))
    }

    /// Each with its name.
    fn named(self, alloc: Global) -> Result<Vec<(String, Vec<u8>)>, AllocError>
        ensures { IfOk result (λ files. IsTrue (names_differ (entries files.items))) }
    {
        let mut files = Vec::new(alloc);
        push_file(alloc, &mut files, "boot", self.boot)?;
        push_file(alloc, &mut files, "other", self.other)?;
        Ok(files)
    }
}

/// Adds a file of this name.
fn push_file(
    alloc: Global,
    files: &mut Vec<(String, Vec<u8>)>,
    name: &str,
    bytes: Vec<u8>,
) -> Result<(), AllocError>
    ensures { OnOk result (entries files.new.items ≡ entries files.old.items ++ ((name.now, bytes.items) ∷ [])) }
{
    let name = String::from_str(alloc, name)?;
    files.push((name, bytes))?;
    Ok(())
}

/// A sink that takes so many bytes.
pub fn sink_of(alloc: Global, room: usize) -> Result<MemSink, AllocError> {
    failing_sink(alloc, room, Vec::new(alloc))
}

/// A sink that takes so many bytes, and fails at the writes of these numbers, counted from 1.
pub fn failing_sink(alloc: Global, room: usize, fails: Vec<u64>) -> Result<MemSink, AllocError> {
    Ok(MemSink::new(Vec::with_capacity(alloc, room)?, fails))
}
