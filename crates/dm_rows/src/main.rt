//! What is shown by running alone: the program as it is, tried by dm_trials, with the tables of runs and rows and the files that they
//! name in data/. Then what errors of a trace say of themselves, and last a system that is stepped from outside (docs/EMBEDDING.md).
#![tactic(auto)]

mod embedding;

use anyhow::Result;
use dm_check::{CheckError, TraceFault};
use dm_outside::{MemSink, Shelf, Sink};
use dm_program::finish;
use dm_trials::{Program, say_numbered, try_parts, try_program, try_servers};
use embedding::step_system;
use std::alloc::Global;
use std::io;
use std::process::ExitCode;

/// The program `demosmp`.
struct Demosmp;

impl Program for Demosmp {
    fn finish<F: Shelf, K: Sink>(
        &self,
        alloc: Global,
        words: Vec<String>,
        shelf: &mut F,
        out: &mut K,
        errors: &mut MemSink,
    ) -> ExitCode {
        finish(alloc, Ok(words), shelf, out, errors)
    }
}

const TRACE_FAULTS: [TraceFault; 4] = [
    TraceFault::NotALine,
    TraceFault::NotDue,
    TraceFault::NotAStep,
    TraceFault::NotTheEnd,
];

fn main(rt: HostRuntime) -> Result<()> {
    try_program(&rt, &Demosmp)?;
    try_parts(&rt)?;
    say_trace_faults(&rt)?;
    try_servers(&rt)?;
    step_system(&rt)
}

/// What each fault of a line of a trace says of itself.
fn say_trace_faults(rt: &HostRuntime) -> io::Result<()> {
    for fault in &TRACE_FAULTS {
        let refused = CheckError::Refused {
            line: 7,
            fault: *fault,
        };
        say_numbered(rt, "trace", fault.number(), &refused)?;
    }
    Ok(())
}
