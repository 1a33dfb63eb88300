//! A run of the program, and what it must come to.

use crate::done::Done;
use crate::pair::sink_of;
use crate::program::{Program, run_over_files};
use anyhow::Result;
use std::alloc::AllocError;
use std::process::ExitCode;
use std::str::Split;
use std::{fmt, fs};

/// A row of the table of runs.
#[derive(Clone, Copy)]
pub struct Run<'a> {
    pub name: &'a str,
    pub expected: Expected<'a>,
    /// How many bytes standard output takes before it is full.
    pub room: usize,
    /// The words behind the program's name, with a space between.
    pub words: &'a str,
}

/// What a run must come to.
#[derive(Clone, Copy)]
pub struct Expected<'a> {
    /// The exit status.
    pub status: u8,
    /// The lines on standard error, with `~` between: empty for none.
    pub lines: &'a str,
    /// The file of what is written to standard output.
    pub output: &'a str,
}

/// How a run ended.
#[derive(Clone, Copy, PartialEq, Eq)]
pub enum Ending {
    AsSaid,
    OtherStatus,
    OtherLines,
    OtherOutput,
}

impl fmt::Display for Ending {
    fn fmt<W: fmt::Write>(&self, f: &mut fmt::Formatter<W>) -> fmt::Result {
        f.write_str(match self {
            Ending::AsSaid => "as it should be",
            Ending::OtherStatus => "another exit status",
            Ending::OtherLines => "another line on standard error",
            Ending::OtherOutput => "another output",
        })
    }
}

impl<'a> Run<'a> {
    /// The run that a line of the table tells.
    pub fn of_line(line: &'a str) -> Option<Run<'a>> {
        let mut columns = line.split('\t');
        Some(Run {
            name: columns.next()?,
            expected: Expected::of_columns(&mut columns)?,
            room: columns.next()?.parse().ok()?,
            words: columns.next()?,
        })
    }

    /// Runs the program, and compares its exit status, its lines on standard error and its whole output with what they
    /// must be.
    pub fn ending<P: Program>(&self, rt: &HostRuntime, program: &P) -> Result<Ending> {
        let output = fs::read(rt, self.expected.output)?;
        let done = self.done(rt, program)?;
        Ok(self.expected.ending(&done, output.as_slice()))
    }

    /// Runs the program.
    fn done<P: Program>(&self, rt: &HostRuntime, program: &P) -> Result<Done, AllocError> {
        let out = sink_of(rt.alloc(), self.room)?;
        run_over_files(rt, program, self.words, out)
    }
}

impl<'a> Expected<'a> {
    /// What the next three columns of a line tell.
    fn of_columns(columns: &mut Split<'a, char>) -> Option<Expected<'a>> {
        Some(Expected {
            status: columns.next()?.parse().ok()?,
            lines: columns.next()?,
            output: columns.next()?,
        })
    }

    /// How a run ended that came to this, where its whole output must be these bytes.
    fn ending(&self, done: &Done, output: &[u8]) -> Ending {
        if done.end.status != ExitCode::from(self.status) {
            Ending::OtherStatus
        } else if !are_lines(done.end.errors.bytes(), self.lines) {
            Ending::OtherLines
        } else if done.out.bytes() != output {
            Ending::OtherOutput
        } else {
            Ending::AsSaid
        }
    }
}

/// Whether the bytes are these lines, each with its line feed, or nothing where there are none.
fn are_lines(bytes: &[u8], lines: &str) -> bool {
    if lines.is_empty() {
        return bytes.is_empty();
    }
    let mut left = bytes;
    for line in lines.split('~') {
        match behind_line(left, line) {
            Some(rest) => left = rest,
            None => return false,
        }
    }
    left.is_empty()
}

/// What stands behind this line and its line feed, where the bytes begin with both.
fn behind_line<'b>(bytes: &'b [u8], line: &str) -> Option<&'b [u8]> {
    let rest = bytes.strip_prefix(line.as_bytes())?;
    rest.strip_prefix(b"\n")
}
