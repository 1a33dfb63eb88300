//! What is said behind the groups of a run that is counted.
ghost use Rattle.std.specs.Prelude.{◌≡◌, ◌++◌, OnOk};
ghost use Rattle.dm_drill.specs.Counts.{shown};
ghost use Rattle.dm_drill.specs.Reported.{counts_told, told};

use crate::counts::Counts;
use crate::summary::{write_arrivals, write_moves, write_quiet, write_summary, write_traffic};
use dm_memory::NoMemory;

/// What a report is of.
#[derive(Clone, Copy)]
pub enum Report {
    /// A drill: what it was drawn from stands before its counts.
    OfDrill { seed: u32, machines: u8, lines: u32 },
    /// A run: how many messages of each kind were put stands behind its counts.
    OfRun,
}

/// Writes a report at the end of a text.
pub fn write_report(
    report: &Report,
    counts: &Counts,
    quiet: bool,
    into: &mut Vec<u8>,
) -> Result<(), NoMemory>
    ensures { OnOk result (into.new.items ≡ into.old.items ++ told report.now (shown counts.now) quiet) }
{
    match *report {
        Report::OfDrill {
            seed,
            machines,
            lines,
        } => write_summary(seed, machines, lines, counts, quiet, into),
        Report::OfRun => write_counts(counts, quiet, into),
    }
}

/// Writes the counts of a run.
#[tactic(auto, unfolding(crate::specs::Reported::counts_told))]
fn write_counts(counts: &Counts, quiet: bool, into: &mut Vec<u8>) -> Result<(), NoMemory>
    ensures { OnOk result (into.new.items ≡ into.old.items ++ counts_told (shown counts.now) quiet) }
{
    write_traffic(counts, into)?;
    write_arrivals(counts, into)?;
    write_moves(counts, into)?;
    counts.kinds.write(into)?;
    write_quiet(quiet, into)
}
