//! The command `chart`: it draws the run of a schedule on the system of a boot file.
ghost use Rattle.std.specs.Prelude.{◌≡◌, ◌≤◌, None, length};
ghost use Rattle.std.specs.List.{All};
ghost use Rattle.dm_onekernel.specs.Boot.{IsValid};
ghost use Rattle.dm_run.specs.Notion.{by_world};
ghost use Rattle.dm_run.specs.Runs.{IsFor};
ghost use Rattle.dm_run.specs.Went.{RunsGo};
ghost use Rattle.dm_front.specs.Firsts.{FirstOfFiles};
ghost use Rattle.dm_cmd_chart.specs.Charts.{ChartMeets, ChartSays, number_or, part_of};
ghost use Rattle.dm_front.specs.Meets.{MeetsSink};
ghost use Rattle.dm_front.specs.Outside.{around, shelf_around, sink_around};

use dm_chart::{ALL_GROUPS, Part};
use dm_ending::status::Status;
use dm_front::inputs::{Inputs, read_files};
use dm_front::write::ended;
use dm_outside::{Shelf, Sink};
use dm_run::{Drawn, draw_run, write_all};
use dm_schedule::MOST_SCHEDULE;
use std::alloc::Global;

/// Draws the run of the schedule of the second name on the system of the boot file of the first, the groups from a number to a number
/// where these are there, and writes the picture.
pub fn chart_files<F: Shelf, K: Sink>(
    alloc: Global,
    boot: &str,
    schedule: &str,
    first: Option<u32>,
    last: Option<u32>,
    shelf: &mut F,
    out: &mut K,
    said: &mut Vec<u8>,
) -> Status
    requires law { RunsGo }
    ensures meets { ChartMeets (ChartSays (part_of first last) by_world) boot.now schedule.now
        (around (shelf_around F.asked F.told F.faults F.last_failed shelf.old shelf.new)
        (sink_around K.told K.faults K.last_failed out.old out.new)) None result }
    ensures said { FirstOfFiles (F.told shelf.old) boot.now schedule.now result said.new.items }
{
    chart_part(
        alloc,
        boot,
        schedule,
        part_of(first, last),
        shelf,
        out,
        said,
    )
}

/// Draws these groups.
fn chart_part<F: Shelf, K: Sink>(
    alloc: Global,
    boot: &str,
    schedule: &str,
    part: Part,
    shelf: &mut F,
    out: &mut K,
    said: &mut Vec<u8>,
) -> Status
    requires law { RunsGo }
    ensures meets { ChartMeets (ChartSays part by_world) boot.now schedule.now
        (around (shelf_around F.asked F.told F.faults F.last_failed shelf.old shelf.new)
        (sink_around K.told K.faults K.last_failed out.old out.new)) None result }
    ensures said { FirstOfFiles (F.told shelf.old) boot.now schedule.now result said.new.items }
{
    match read_files(alloc, boot, schedule, shelf, said) {
        Ok(inputs) => chart(alloc, inputs, part, out),
        Err(status) => status,
    }
}

/// Draws these groups of the run of a system by these directives, and writes the picture.
fn chart<K: Sink>(alloc: Global, inputs: Inputs, part: Part, out: &mut K) -> Status
    requires law { RunsGo }
    requires valid { IsValid inputs.boot }
    requires each { All (IsFor (length inputs.boot.machines)) inputs.directives.items }
    requires few { length inputs.directives.items ≤ MOST_SCHEDULE }
    ensures says { ChartSays part by_world inputs.boot inputs.directives.items (K.told out.old) (K.told out.new) None result }
    ensures sink { MeetsSink (sink_around K.told K.faults K.last_failed out.old out.new) result }
{
    let Inputs { boot, directives } = inputs;
    match draw_run(alloc, boot, directives.as_slice(), part) {
        Ok(Drawn::Whole(text)) => ended(write_all(out, text.as_slice()), Status::Done),
        Ok(Drawn::Worn { text, from, to }) => {
            ended(write_all(out, text.as_slice()), Status::Worn { from, to })
        }
        Err(no) => Status::NoMemory(no),
    }
}

/// The groups that the words ask for: from the first on, and to the last, where they say no number.
fn part_of(first: Option<u32>, last: Option<u32>) -> Part
    ensures { result ≡ part_of first last }
{
    Part {
        first: number_or(ALL_GROUPS.first, first),
        last: number_or(ALL_GROUPS.last, last),
    }
}

/// A number, or else another.
fn number_or(other: u64, number: Option<u32>) -> u64
    ensures { result ≡ number_or other number }
{
    match number {
        Some(n) => u64::from(n),
        None => other,
    }
}
