//! The program that is tried: on some words, over a shelf, and what it comes to.

use crate::done::{Done, End};
use crate::pair::sink_of;
use dm_outside::{MemSink, RealShelf, Shelf, Sink};
use std::alloc::{AllocError, Global};
use std::process::ExitCode;

/// The most bytes of the lines on standard error.
const LONGEST: usize = 16_384;

/// A program that is tried.
pub trait Program {
    /// Runs it on these words, its name first, over a shelf, into a standard output and a standard error: its status.
    fn finish<F: Shelf, K: Sink>(
        &self,
        alloc: Global,
        words: Vec<String>,
        shelf: &mut F,
        out: &mut K,
        errors: &mut MemSink,
    ) -> ExitCode;
}

/// Runs the program over real files, into this standard output. Between its words stands a space, and its name isn't among them.
pub fn run_over_files<P: Program>(
    rt: &HostRuntime,
    program: &P,
    words: &str,
    out: MemSink,
) -> Result<Done, AllocError> {
    run_over(rt.alloc(), program, words, &mut RealShelf::new(rt), out)
}

/// Runs the program over a shelf, into this standard output.
pub fn run_over<P: Program, F: Shelf>(
    alloc: Global,
    program: &P,
    words: &str,
    shelf: &mut F,
    mut out: MemSink,
) -> Result<Done, AllocError> {
    let end = run_into(alloc, program, words, shelf, &mut out)?;
    Ok(Done { end, out })
}

/// Runs the program over a shelf, into any standard output.
pub fn run_into<P: Program, F: Shelf, K: Sink>(
    alloc: Global,
    program: &P,
    words: &str,
    shelf: &mut F,
    out: &mut K,
) -> Result<End, AllocError> {
    let words = given(alloc, words)?;
    let mut errors = sink_of(alloc, LONGEST)?;
    let status = program.finish(alloc, words, shelf, out, &mut errors);
    Ok(End { status, errors })
}

/// The words that the program is given, its name first.
fn given(alloc: Global, words: &str) -> Result<Vec<String>, AllocError> {
    let mut given = Vec::new(alloc);
    push_words(alloc, &mut given, words)?;
    Ok(given)
}

/// Adds the program's name, and then the words.
fn push_words(alloc: Global, given: &mut Vec<String>, words: &str) -> Result<(), AllocError> {
    push_word(alloc, given, "demosmp")?;
    if words.is_empty() {
        return Ok(());
    }
    for word in words.split(' ') {
        push_word(alloc, given, word)?;
    }
    Ok(())
}

/// Adds a word, in which a `~` stands for a space.
fn push_word(alloc: Global, words: &mut Vec<String>, word: &str) -> Result<(), AllocError> {
    words.push(word.replace(alloc, '~', " ")?)?;
    Ok(())
}
