//! Commands of which one call of the outside fails, each call in turn, and then none: over files and output in memory, as they are
//! and with one byte a call. The call behind the failed one would go well. What is written by then, with which status the program
//! ends, and that no call was made behind it, is compared with stored outputs and their beginnings; the number of bytes is said.

use crate::bytewise::fail_bytes;
use crate::done::verdict;
use crate::failed::Failed;
use crate::program::Program;
use crate::trial::Trial;
use crate::tried::{Calls, MISTAKEN, TRIED, Tried};
use anyhow::Result;
use std::{fs, io};

/// No call.
const NONE: Calls = Calls {
    reads: 0,
    writes: 0,
};

/// Does each command where one of its reads and then where one of its writes fails, each in turn, and says what came of it. Of those
/// of which something is told wrongly none fails.
pub fn fail_in_turn<P: Program>(rt: &HostRuntime, program: &P) -> Result<()> {
    for tried in &TRIED {
        fail_command(rt, program, tried, tried.calls)?;
    }
    for tried in &MISTAKEN {
        fail_command(rt, program, tried, NONE)?;
    }
    Ok(())
}

/// Does a command where each of these calls fails in turn, as they are, and where each fails with one byte a call.
fn fail_command<P: Program>(
    rt: &HostRuntime,
    program: &P,
    tried: &Tried,
    fails: Calls,
) -> Result<()> {
    let whole = fs::read(rt, tried.output)?;
    fail_calls(rt, program, tried, fails, whole.as_slice())?;
    fail_bytes(rt, program, tried, whole.as_slice())
}

/// Does a command where each of these reads, each of these writes and then nothing fails, and says what came of it.
fn fail_calls<P: Program>(
    rt: &HostRuntime,
    program: &P,
    tried: &Tried,
    fails: Calls,
    whole: &[u8],
) -> Result<()> {
    let trial = Trial {
        tried,
        by_byte: false,
        calls: tried.calls,
        whole,
    };
    for before in 0..fails.reads {
        say_failed(rt, program, &trial, Failed::Read(before))?;
    }
    for before in 0..fails.writes {
        say_failed(rt, program, &trial, Failed::Write(before))?;
    }
    say_failed(rt, program, &trial, Failed::Nothing)
}

/// Does a command where a call fails, and says what came of it.
fn say_failed<P: Program>(
    rt: &HostRuntime,
    program: &P,
    trial: &Trial<'_>,
    failed: Failed,
) -> Result<()> {
    let ended = trial.ending(rt, program, failed)?;
    let right = trial.is_right(&ended, failed);
    Ok(say_ended(rt, trial.tried.name, failed, right, ended.written())?)
}

/// Says what came of a command where a call fails.
fn say_ended(
    rt: &HostRuntime,
    name: &str,
    failed: Failed,
    right: bool,
    written: usize,
) -> io::Result<()> {
    let (what, before, verdict) = (failed.name(), failed.before(), verdict(right));
    println!(rt; "{name}, {what} fails behind {before}: {verdict}, {written} bytes")
}
