//! The first run over files of the system, and into a writer, of which one call fails, each in turn, and then none. The call behind the
//! failed one would go well.

use crate::done::{Done, End, verdict};
use crate::failed::Failed;
use crate::once::{Failing, Fault, Once};
use crate::pair::sink_of;
use crate::program::{Program, run_into, run_over};
use anyhow::Result;
use dm_outside::{MemSink, RealShelf, RealSink};
use std::alloc::AllocError;
use std::cell::Cell;
use std::io::Write;
use std::{fs, io};

/// The first run, by real files.
const FIRST: &str = "run --boot hi.boot --schedule hi.schedule";

/// What it writes.
const OUTPUT: &str = "hi.out";

/// More bytes than that has.
const ROOM: usize = 4_096;

/// How many calls the system gets for the files of the first run: each is opened, and read twice.
const FILE_CALLS: u64 = 6;

/// How many writes the first run makes.
const WRITES: u64 = 9;

/// Does the first run over real files and a writer of which one call fails, each in turn, and then none.
pub fn fail_once<P: Program>(rt: &HostRuntime, program: &P) -> Result<()> {
    let whole = fs::read(rt, OUTPUT)?;
    fail_all(rt, program, whole.as_slice())?;
    mistake_once(rt, program)
}

/// Does the first run over files and then into a writer, where each call fails in each way.
fn fail_all<P: Program>(rt: &HostRuntime, program: &P, whole: &[u8]) -> Result<()> {
    for fault in [Fault::Broken, Fault::Interrupted] {
        fail_files(rt, program, fault, whole)?;
    }
    for fault in [Fault::Broken, Fault::Interrupted, Fault::Nothing] {
        fail_writer(rt, program, fault, whole)?;
    }
    Ok(())
}

/// Holds the first run against another output than its own, where no file and where the second write fails: both are wrong.
fn mistake_once<P: Program>(rt: &HostRuntime, program: &P) -> Result<()> {
    let other = fs::read(rt, "nobody.out")?;
    let none = failing(FILE_CALLS, Fault::Broken);
    say_files(rt, program, "another output, file", none, other.as_slice())?;
    let second = failing(1, Fault::Broken);
    say_writer(
        rt,
        program,
        "another output, writer",
        second,
        other.as_slice(),
    )
}

/// Does the first run over files of which each call fails in this way in turn, and then none.
fn fail_files<P: Program>(rt: &HostRuntime, program: &P, fault: Fault, whole: &[u8]) -> Result<()> {
    for before in 0..=FILE_CALLS {
        say_files(rt, program, "file", failing(before, fault), whole)?;
    }
    Ok(())
}

/// Does the first run into a writer of which each call fails in this way in turn, and then none.
fn fail_writer<P: Program>(
    rt: &HostRuntime,
    program: &P,
    fault: Fault,
    whole: &[u8],
) -> Result<()> {
    for before in 0..=WRITES {
        say_writer(rt, program, "writer", failing(before, fault), whole)?;
    }
    Ok(())
}

/// The call behind so many fails.
fn failing(before: u64, fault: Fault) -> Failing {
    Failing {
        call: before.saturating_add(1),
        fault,
    }
}

/// Whether a run ended as it must, and how many bytes it wrote.
#[derive(Clone, Copy)]
struct Tally {
    right: bool,
    written: usize,
}

/// Does the first run over files of which a call fails, and says what came of it.
fn say_files<P: Program>(
    rt: &HostRuntime,
    program: &P,
    of: &str,
    failing: Failing,
    whole: &[u8],
) -> Result<()> {
    let tally = files_once(rt, program, failing, whole)?;
    Ok(say_once(rt, of, failing, tally)?)
}

/// Does the first run into a writer of which a call fails, and says what came of it.
fn say_writer<P: Program>(
    rt: &HostRuntime,
    program: &P,
    of: &str,
    failing: Failing,
    whole: &[u8],
) -> Result<()> {
    let tally = writer_once(rt, program, failing, whole)?;
    Ok(say_once(rt, of, failing, tally)?)
}

/// Says what came of the first run, of which a call fails.
fn say_once(rt: &HostRuntime, of: &str, failing: Failing, tally: Tally) -> io::Result<()> {
    let (call, fault) = (failing.call, failing.fault.name());
    let (right, written) = (verdict(tally.right), tally.written);
    println!(rt; "{of}, call {call} {fault}: {right}, {written} bytes")
}

/// The first run over files of which a call fails.
fn files_once<P: Program>(
    rt: &HostRuntime,
    program: &P,
    failing: Failing,
    whole: &[u8],
) -> Result<Tally, AllocError> {
    let calls = Cell::new(0);
    let out = sink_of(rt.alloc(), ROOM)?;
    let done = run_files_once(rt, program, failing, &calls, out)?;
    Ok(tally_of_files(&done, calls.get(), failing, whole))
}

/// Does the first run over files of which a call fails. Their calls are counted.
fn run_files_once<P: Program>(
    rt: &HostRuntime,
    program: &P,
    failing: Failing,
    calls: &Cell<u64>,
    out: MemSink,
) -> Result<Done, AllocError> {
    let files = Once::new(rt, calls, failing);
    let mut shelf = RealShelf::new(&files);
    run_over(rt.alloc(), program, FIRST, &mut shelf, out)
}

/// What came of so many calls of files: where there is one that fails it is the last one, and nothing is written.
fn tally_of_files(done: &Done, calls: u64, failing: Failing, whole: &[u8]) -> Tally {
    let (failed, output) = if failing.call > FILE_CALLS {
        (Failed::Nothing, whole)
    } else {
        (Failed::Read(0), &whole[..0])
    };
    let written = done.out.bytes();
    Tally {
        right: is_end(&done.end, failed)
            && calls == failing.call.min(FILE_CALLS)
            && written == output,
        written: written.len(),
    }
}

/// The first run into a writer of which a call fails.
fn writer_once<P: Program>(
    rt: &HostRuntime,
    program: &P,
    failing: Failing,
    whole: &[u8],
) -> Result<Tally, AllocError> {
    let calls = Cell::new(0);
    let mut writer = Once::new(Vec::new(rt.alloc()), &calls, failing);
    let end = run_into_writer(rt, program, &mut writer)?;
    let written = writer.inner.as_slice();
    Ok(tally_of_writer(&end, written, calls.get(), failing, whole))
}

/// Does the first run into a writer.
fn run_into_writer<P: Program, W: Write>(
    rt: &HostRuntime,
    program: &P,
    writer: &mut W,
) -> Result<End, AllocError> {
    let mut sink = RealSink::new(writer);
    run_into(
        rt.alloc(),
        program,
        FIRST,
        &mut RealShelf::new(rt),
        &mut sink,
    )
}

/// What came of so many calls of a writer: where there is one that fails it is the last one.
fn tally_of_writer(end: &End, written: &[u8], calls: u64, failing: Failing, whole: &[u8]) -> Tally {
    let failed = if failing.call > WRITES {
        Failed::Nothing
    } else {
        Failed::Write(0)
    };
    Tally {
        right: is_end(end, failed)
            && calls == failing.call.min(WRITES)
            && whole.starts_with(written),
        written: written.len(),
    }
}

/// Whether the program ended with the status and the line of what failed.
fn is_end(end: &End, failed: Failed) -> bool {
    end.is(failed.status(), failed.line())
}
