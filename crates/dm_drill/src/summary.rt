//! The summary of a drill.
ghost use Rattle.std.specs.Prelude.{◌≡◌, ◌++◌, OnOk, vec_len};
ghost use Rattle.std.specs.Fmt.{decimal};
ghost use Rattle.dm_drill.specs.Counts.{shown};
ghost use Rattle.dm_drill.specs.Summary.{arrivals, counted_line, first_line, moves, quiet_line, summary, traffic};

use crate::counts::Counts;
use crate::tally::Tally;
use dm_memory::{NoMemory, extend_from_slice};
use itoa::Buffer;

/// Writes the summary at the end of a text: what the drill was drawn from, its counts, and whether all is quiet.
#[tactic(auto, unfolding(crate::specs::Summary::summary))]
pub fn write_summary(
    seed: u32,
    machines: u8,
    lines: u32,
    counts: &Counts,
    quiet: bool,
    into: &mut Vec<u8>,
) -> Result<(), NoMemory>
    ensures { OnOk result (into.new.items ≡ into.old.items ++ summary seed machines lines (shown counts.now) quiet) }
{
    write_first(seed, machines, lines, into)?;
    write_traffic(counts, into)?;
    write_arrivals(counts, into)?;
    write_moves(counts, into)?;
    write_quiet(quiet, into)
}

/// Writes what was done.
pub(crate) fn write_traffic(counts: &Counts, into: &mut Vec<u8>) -> Result<(), NoMemory>
    ensures { OnOk result (into.new.items ≡ into.old.items ++ traffic (shown counts.now)) }
{
    write_count("groups", &counts.groups, into)?;
    write_count("puts", &counts.puts, into)?;
    write_count("packets", &counts.packets, into)
}

/// Writes what came.
pub(crate) fn write_arrivals(counts: &Counts, into: &mut Vec<u8>) -> Result<(), NoMemory>
    ensures { OnOk result (into.new.items ≡ into.old.items ++ arrivals (shown counts.now)) }
{
    write_count("taken", &counts.taken, into)?;
    write_count("old", &counts.repeated, into)?;
    write_count("early", &counts.early, into)?;
    write_count("received", &counts.received, into)
}

/// Writes what became of moves.
pub(crate) fn write_moves(counts: &Counts, into: &mut Vec<u8>) -> Result<(), NoMemory>
    ensures { OnOk result (into.new.items ≡ into.old.items ++ moves (shown counts.now)) }
{
    write_count("moved", &counts.moved, into)?;
    write_count("stayed", &counts.stayed, into)?;
    write_count("forwarded", &counts.forwarded, into)?;
    write_count("held", &counts.held, into)
}

/// Writes what the drill was drawn from.
fn write_first(seed: u32, machines: u8, lines: u32, into: &mut Vec<u8>) -> Result<(), NoMemory>
    ensures { OnOk result (into.new.items ≡ into.old.items ++ first_line seed machines lines) }
{
    extend_from_slice(into, b"drill ")?;
    write_number(u64::from(seed), into)?;
    extend_from_slice(into, b" ")?;
    write_number(u64::from(machines), into)?;
    extend_from_slice(into, b" ")?;
    write_number(u64::from(lines), into)?;
    extend_from_slice(into, b"\n")?;
    Ok(())
}

/// Writes a count behind its word.
fn write_count(word: &str, tally: &Tally, into: &mut Vec<u8>) -> Result<(), NoMemory>
    ensures { OnOk result (into.new.items ≡ into.old.items ++ counted_line word.now (vec_len tally.now.marks)) }
{
    extend_from_slice(into, word.as_bytes())?;
    extend_from_slice(into, b" ")?;
    write_number(tally.count(), into)?;
    extend_from_slice(into, b"\n")?;
    Ok(())
}

/// Writes whether all is quiet.
pub(crate) fn write_quiet(quiet: bool, into: &mut Vec<u8>) -> Result<(), NoMemory>
    ensures { OnOk result (into.new.items ≡ into.old.items ++ quiet_line quiet) }
{
    if quiet {
        extend_from_slice(into, b"quiet yes\n")?;
    } else {
        extend_from_slice(into, b"quiet no\n")?;
    }
    Ok(())
}

/// Writes a number in decimal digits.
pub(crate) fn write_number(n: u64, into: &mut Vec<u8>) -> Result<(), NoMemory>
    ensures { OnOk result (into.new.items ≡ into.old.items ++ decimal n) }
{
    let mut buffer = Buffer::new();
    extend_from_slice(into, buffer.format(n).as_bytes())?;
    Ok(())
}
