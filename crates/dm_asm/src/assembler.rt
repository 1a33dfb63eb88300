//! Assembling a text, line by line.
ghost use Rattle.std.specs.Prelude.{◌≡◌, ◌≤◌, [], IfOk, OnOk, length, nat_lt};
ghost use Rattle.dm_reading.specs.Lines.{source_lines};
ghost use Rattle.dm_asm.specs.Assembled.{Answers, assembled, at_line, with_line, with_lines};
ghost use Rattle.dm_asm.specs.Labels.{place_in};
ghost use Rattle.dm_asm.specs.Refusals.{Gives};
ghost use Rattle.dm_asm.specs.Statements.{line_bytes};

use crate::image::Image;
use crate::labels::{Labels, is_misplaced, split_label};
use crate::lines::uncommented;
use crate::refusals::{AssembleError, Stop, Why};
use crate::statements::add_statement;
use dm_processor::MOST_MEMORY;
use dm_reading::first_source_line;
use std::alloc::Global;

/// Whether an image of so many bytes is too long.
fn is_too_long(bytes: usize) -> bool
    ensures { result ≡ nat_lt MOST_MEMORY bytes }
{
    bytes > MOST_MEMORY as usize
}

/// Adds a line, by its number.
#[tactic(auto, unfolding(crate::specs::Assembled::with_line, crate::specs::Statements::line_bytes))]
fn add_line(labels: &Labels, image: &mut Vec<u8>, number: usize, line: &[u8]) -> Result<(), Stop>
    ensures exact { Gives (λ _. image.new.items) result (with_line (place_in labels.now) number image.old.items line.now) }
    ensures most { OnOk result (length image.new.items ≤ MOST_MEMORY) }
{
    let line = uncommented(line);
    if is_misplaced(line) {
        return Err(Stop::Fault(Why::UnknownWord));
    }
    let (label, statement) = split_label(line);
    let twice = labels.is_twice(number, label);
    add_statement(labels, image, twice, line, statement)?;
    if is_too_long(image.len()) {
        return Err(Stop::Fault(Why::TooLong));
    }
    Ok(())
}

/// Why a line stops all.
fn stopped(line: usize, stop: Stop) -> AssembleError
    ensures { result ≡ at_line line stop }
{
    match stop {
        Stop::Fault(why) => AssembleError::Fault { line, why },
        Stop::NoMemory(no) => AssembleError::NoMemory(no),
    }
}

/// The bytes of all lines.
fn all_lines(alloc: Global, labels: &Labels, text: &[u8]) -> Result<Vec<u8>, AssembleError>
    ensures exact { Answers (λ image. image.items) result (with_lines (place_in labels.now) 1 [] (source_lines text.now)) }
    ensures most { IfOk result (λ image. length image.items ≤ MOST_MEMORY) }
{
    let mut image = Vec::new(alloc);
    let mut rest = text;
    let mut number = 1;
    while !rest.is_empty() {
        let (line, others) = first_source_line(rest);
        if let Err(stop) = add_line(labels, &mut image, number, line) {
            return Err(stopped(number, stop));
        }
        number += 1;
        rest = others;
    }
    Ok(image)
}

/// Assembles a text: the image that it means, or the first line that is refused. It reads the text
/// twice, first for the labels.
pub fn assemble(alloc: Global, text: &str) -> Result<Image, AssembleError>
    ensures exact { Answers (λ image. image) result (assembled text.now) }
{
    let text = text.as_bytes();
    let labels = match Labels::of(alloc, text) {
        Ok(labels) => labels,
        Err(no) => return Err(AssembleError::NoMemory(no)),
    };
    match all_lines(alloc, &labels, text) {
        Ok(bytes) => Ok(Image::new(bytes)),
        Err(no) => Err(no),
    }
}
