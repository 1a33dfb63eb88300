//! Commands with one byte a call, of which each call fails in turn: a byte of a file is a read, and so is its end; a byte of the output
//! is a write.

use crate::done::verdict;
use crate::failed::Failed;
use crate::pair::Pair;
use crate::program::Program;
use crate::trial::Trial;
use crate::tried::{Calls, Tried};
use anyhow::Result;
use std::io;

/// Does a command with one byte a call, where nothing and then where each of them fails, and says what came of it.
pub fn fail_bytes<P: Program>(
    rt: &HostRuntime,
    program: &P,
    tried: &Tried,
    whole: &[u8],
) -> Result<()> {
    let reads = reads_by_byte(rt, tried)?;
    let writes = whole.len() as u64;
    let trial = Trial {
        tried,
        by_byte: true,
        calls: Calls { reads, writes },
        whole,
    };
    fail_each(rt, program, &trial)
}

/// The reads of a command with one byte a read.
fn reads_by_byte(rt: &HostRuntime, tried: &Tried) -> io::Result<u64> {
    if tried.calls.reads == 0 {
        return Ok(0);
    }
    let files = Pair::read(rt, "hi.boot", tried.other)?;
    let (boot, other) = (files.boot.len() as u64, files.other.len() as u64);
    Ok(boot.saturating_add(other).saturating_add(2))
}

/// Does a command where nothing and where each call fails, and says what came of it.
fn fail_each<P: Program>(rt: &HostRuntime, program: &P, trial: &Trial<'_>) -> Result<()> {
    fail_none(rt, program, trial)?;
    fail_reads(rt, program, trial)?;
    fail_writes(rt, program, trial)
}

/// Does a command where nothing fails, and says whether it ended as it must.
fn fail_none<P: Program>(rt: &HostRuntime, program: &P, trial: &Trial<'_>) -> Result<()> {
    let right = is_right_where(rt, program, trial, Failed::Nothing)?;
    Ok(say_right(rt, trial.tried.name, right)?)
}

/// Does a command where each read fails in turn, and says how often that ended otherwise than it must: nothing may be written.
fn fail_reads<P: Program>(rt: &HostRuntime, program: &P, trial: &Trial<'_>) -> Result<()> {
    let mut wrong = 0u64;
    for before in 0..trial.calls.reads {
        if !is_right_where(rt, program, trial, Failed::Read(before))? {
            wrong = wrong.saturating_add(1);
        }
    }
    Ok(say_wrong(rt, trial.tried.name, trial.calls.reads, "reads", wrong)?)
}

/// Does a command where each write fails in turn, and says the same: the bytes before it must be written.
fn fail_writes<P: Program>(rt: &HostRuntime, program: &P, trial: &Trial<'_>) -> Result<()> {
    let mut wrong = 0u64;
    for before in 0..trial.calls.writes {
        if !is_right_where(rt, program, trial, Failed::Write(before))? {
            wrong = wrong.saturating_add(1);
        }
    }
    Ok(say_wrong(rt, trial.tried.name, trial.calls.writes, "writes", wrong)?)
}

/// Whether a command ends as it must where this call fails.
fn is_right_where<P: Program>(
    rt: &HostRuntime,
    program: &P,
    trial: &Trial<'_>,
    failed: Failed,
) -> Result<bool> {
    let ended = trial.ending(rt, program, failed)?;
    Ok(trial.is_right(&ended, failed) && ended.written() as u64 == must_write(trial.calls, failed))
}

/// How many bytes a command must write where this call fails: each write but that one writes a byte.
fn must_write(calls: Calls, failed: Failed) -> u64 {
    match failed {
        Failed::Nothing => calls.writes,
        Failed::Read(_) => 0,
        Failed::Write(before) => before,
    }
}

/// Says whether a command ended as it must.
fn say_right(rt: &HostRuntime, name: &str, right: bool) -> io::Result<()> {
    let verdict = verdict(right);
    println!(rt; "{name}, one byte a call: {verdict}")
}

/// Says how many of a kind of call, each of which fails in turn, end otherwise than they must.
fn say_wrong(rt: &HostRuntime, name: &str, of: u64, calls: &str, wrong: u64) -> io::Result<()> {
    println!(rt; "{name}, one byte a call, each of {of} {calls} fails: wrong {wrong} times")
}
