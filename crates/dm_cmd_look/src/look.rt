//! The command `look`: it says where the run of a schedule stands behind so many groups, and what is in the messages.
ghost use Rattle.std.specs.Prelude.{◌≤◌, None, length};
ghost use Rattle.std.specs.List.{All};
ghost use Rattle.dm_onekernel.specs.Boot.{IsValid};
ghost use Rattle.dm_look.specs.Looked.{held_by_world};
ghost use Rattle.dm_run.specs.Notion.{by_world};
ghost use Rattle.dm_run.specs.Runs.{IsFor};
ghost use Rattle.dm_run.specs.Went.{RunsGo};
ghost use Rattle.dm_front.specs.Firsts.{FirstOfFiles};
ghost use Rattle.dm_cmd_look.specs.Looks.{LookMeets, LookSays};
ghost use Rattle.dm_front.specs.Meets.{MeetsSink};
ghost use Rattle.dm_front.specs.Outside.{around, shelf_around, sink_around};

use dm_ending::status::Status;
use dm_front::inputs::{Inputs, read_files};
use dm_front::write::ended;
use dm_look::look_at;
use dm_outside::{Shelf, Sink};
use dm_run::write_all;
use dm_schedule::MOST_SCHEDULE;
use dm_world::Stop;
use std::alloc::Global;

/// Runs the schedule of the second name on the system of the boot file of the first up to so many groups, and writes where everything
/// stands then, and what is in the messages, behind the names of the boot file's processes where they are asked for.
pub fn look_files<F: Shelf, K: Sink>(
    alloc: Global,
    boot: &str,
    schedule: &str,
    groups: u32,
    names: bool,
    shelf: &mut F,
    out: &mut K,
    said: &mut Vec<u8>,
) -> Status
    requires law { RunsGo }
    ensures meets { LookMeets (LookSays by_world held_by_world groups names) boot.now schedule.now
        (around (shelf_around F.asked F.told F.faults F.last_failed shelf.old shelf.new)
        (sink_around K.told K.faults K.last_failed out.old out.new)) None result }
    ensures said { FirstOfFiles (F.told shelf.old) boot.now schedule.now result said.new.items }
{
    match read_files(alloc, boot, schedule, shelf, said) {
        Ok(inputs) => look(alloc, inputs, groups, names, out),
        Err(status) => status,
    }
}

/// Runs a system by these directives up to so many groups, and writes what is seen.
fn look<K: Sink>(alloc: Global, inputs: Inputs, groups: u32, names: bool, out: &mut K) -> Status
    requires law { RunsGo }
    requires valid { IsValid inputs.boot }
    requires each { All (IsFor (length inputs.boot.machines)) inputs.directives.items }
    requires few { length inputs.directives.items ≤ MOST_SCHEDULE }
    ensures says { LookSays by_world held_by_world groups names inputs.boot inputs.directives.items (K.told out.old) (K.told out.new) None result }
    ensures sink { MeetsSink (sink_around K.told K.faults K.last_failed out.old out.new) result }
{
    let Inputs { boot, directives } = inputs;
    match look_at(alloc, boot, directives.as_slice(), groups, names) {
        Ok(text) => ended(write_all(out, text.as_slice()), Status::Done),
        Err(Stop::Worn { from, to }) => Status::Worn { from, to },
        Err(Stop::NoMemory(no)) => Status::NoMemory(no),
    }
}
