//! The real shelf and sink by themselves.

use anyhow::Result;
use dm_outside::{Failed, Opens, RealShelf, RealSink, Shelf, Sink};
use std::alloc::{AllocError, Global};
use std::io::{self, Write};

/// Reads of real files: on in one, from the start of another, those that don't go on where the last one ended, a name with a blank
/// at its end, a file that can't be opened for writing, since it runs, and names that are nearly those of a file: with a capital, with
/// a blank before it, in another folder, the one that elsewhere stands for standard input, with a slash or a line feed at its end, and
/// as an address.
const READS: [(&str, u64); 20] = [
    ("first", 0),
    ("first", 4),
    ("first", 6),
    ("second", 0),
    ("second", 4),
    ("first", 5),
    ("second", 5),
    ("first", 0),
    ("first", 6),
    ("nowhere", 4),
    ("nowhere", 0),
    ("first ", 0),
    ("/proc/self/exe", 0),
    ("First", 0),
    (" first", 0),
    ("../first", 0),
    ("-", 0),
    ("first/", 0),
    ("first\n", 0),
    ("file:first", 0),
];

/// How often "./" stands before "first" in the longest name that the system opens: 4,095 bytes.
const MOST_STEPS: usize = 2_045;

/// So many parts of so many bytes are more than the lines at the end of sixteen large machines, which are written as one piece: 33
/// megabytes, and a part.
const PARTS: usize = 33_793;

const PART: usize = 1_024;

/// Reads two files of data/ in turn, those that aren't there, and one by long names.
pub fn read_files(rt: &HostRuntime) -> Result<()> {
    read_all(rt, &mut RealShelf::new(rt))
}

/// Does the reads over a shelf of files.
fn read_all<R: Opens>(rt: &HostRuntime, shelf: &mut RealShelf<R>) -> Result<()> {
    say_reads(rt, shelf)?;
    say_long_read(rt, shelf, MOST_STEPS)?;
    say_long_read(rt, shelf, MOST_STEPS + 1)?;
    Ok(say_faults(rt, "read", shelf.faults())?)
}

/// Does the reads of the table, and says what came of them.
fn say_reads<F: Shelf>(rt: &HostRuntime, shelf: &mut F) -> io::Result<()> {
    for (name, from) in &READS {
        say_read(rt, shelf, name, *from)?;
    }
    Ok(())
}

/// Reads four bytes of a file, and says what came of it.
fn say_read<F: Shelf>(rt: &HostRuntime, shelf: &mut F, name: &str, from: u64) -> io::Result<()> {
    let mut bytes = *b"....";
    match shelf.read(name, from, &mut bytes) {
        Ok(count) => println!(rt; "read {name} from {from}: {count} of {bytes:?}"),
        Err(Failed) => println!(rt; "read {name} from {from}: a fault"),
    }
}

/// Reads four bytes of a file by a name with so many steps to where it is already, and says what came of it.
fn say_long_read<F: Shelf>(rt: &HostRuntime, shelf: &mut F, steps: usize) -> Result<()> {
    let name = long_name(rt.alloc(), steps)?;
    Ok(say_named_read(rt, shelf, name.as_str())?)
}

/// A name with so many steps to where it is already.
fn long_name(alloc: Global, steps: usize) -> Result<String, AllocError> {
    let mut name = "./".repeat(alloc, steps)?;
    name.push_str("first")?;
    Ok(name)
}

/// Reads four bytes of a file by its name, of which the length is said, and says what came of it.
fn say_named_read<F: Shelf>(rt: &HostRuntime, shelf: &mut F, name: &str) -> io::Result<()> {
    let read = shelf.read(name, 0, &mut [0; 4]);
    let length = name.len();
    println!(rt; "read first by a name of {length} bytes: {read:?}")
}

/// Writes a line, and nothing; and a large piece, into memory.
pub fn write_out(rt: &HostRuntime) -> Result<()> {
    write_both(rt, &mut RealSink::new(io::writer(rt)))?;
    let part = ".".repeat(rt.alloc(), PART)?;
    let piece = part.as_str().repeat(rt.alloc(), PARTS)?;
    Ok(say_large_write(rt, piece.as_bytes())?)
}

/// Writes a line, and nothing.
fn write_both<W: Write>(rt: &HostRuntime, sink: &mut RealSink<W>) -> io::Result<()> {
    say_writes(rt, sink)?;
    say_faults(rt, "write", sink.faults())
}

/// Does both writes, and says what came of them.
fn say_writes<K: Sink>(rt: &HostRuntime, sink: &mut K) -> io::Result<()> {
    let line = sink.write(b"a line of the real sink\n");
    let nothing = sink.write(b"");
    println!(rt; "written: {line:?}, {nothing:?}")
}

/// Writes a large piece at once, into memory, and says what came of it.
fn say_large_write(rt: &HostRuntime, piece: &[u8]) -> io::Result<()> {
    let written = RealSink::new(Vec::new(rt.alloc())).write(piece);
    println!(rt; "written at once: {written:?}")
}

/// How many calls of a kind were faults.
fn say_faults(rt: &HostRuntime, of: &str, faults: u64) -> io::Result<()> {
    println!(rt; "{of} faults: {faults}")
}
