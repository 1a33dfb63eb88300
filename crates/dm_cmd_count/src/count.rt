//! The command `count`: it runs a schedule on the system of a boot file, and counts what happens.
ghost use Rattle.std.specs.Prelude.{◌≤◌, length};
ghost use Rattle.std.specs.List.{All};
ghost use Rattle.dm_onekernel.specs.Boot.{IsValid};
ghost use Rattle.dm_run.specs.Notion.{by_world};
ghost use Rattle.dm_run.specs.Runs.{IsFor};
ghost use Rattle.dm_run.specs.Went.{RunsGo};
ghost use Rattle.dm_front.specs.Firsts.{FirstOfFiles};
ghost use Rattle.dm_cmd_count.specs.Drills.{CountSays};
ghost use Rattle.dm_front.specs.Meets.{MeetsSink};
ghost use Rattle.dm_front.specs.Outside.{around, shelf_around, sink_around};
ghost use Rattle.dm_front.specs.Runs.{RunMeets};

use dm_drill::drill::run_counted;
use dm_drill::report::Report;
use dm_ending::status::{Status, status_of};
use dm_front::inputs::{Inputs, read_files};
use dm_outside::{Shelf, Sink};
use dm_run::begin;
use dm_schedule::MOST_SCHEDULE;
use dm_world::World;
use std::alloc::Global;

/// Runs the schedule of the second name on the system of the boot file of the first, counts what happens, and writes the counts. The
/// world of the run is left in `world`, which is empty where there was no run.
pub fn count_files<F: Shelf, K: Sink>(
    alloc: Global,
    boot: &str,
    schedule: &str,
    shelf: &mut F,
    out: &mut K,
    world: &mut Option<World>,
    said: &mut Vec<u8>,
) -> Status
    requires law { RunsGo }
    ensures meets { RunMeets (CountSays by_world) boot.now schedule.now
        (around (shelf_around F.asked F.told F.faults F.last_failed shelf.old shelf.new)
        (sink_around K.told K.faults K.last_failed out.old out.new)) world.new result }
    ensures said { FirstOfFiles (F.told shelf.old) boot.now schedule.now result said.new.items }
{
    *world = None;
    match read_files(alloc, boot, schedule, shelf, said) {
        Ok(inputs) => count(alloc, inputs, out, world),
        Err(status) => status,
    }
}

/// Runs a system by these directives, and writes the counts.
fn count<K: Sink>(alloc: Global, inputs: Inputs, out: &mut K, world: &mut Option<World>) -> Status
    requires law { RunsGo }
    requires valid { IsValid inputs.boot }
    requires each { All (IsFor (length inputs.boot.machines)) inputs.directives.items }
    requires few { length inputs.directives.items ≤ MOST_SCHEDULE }
    ensures says { CountSays by_world inputs.boot inputs.directives.items (K.told out.old) (K.told out.new) world.new result }
    ensures sink { MeetsSink (sink_around K.told K.faults K.last_failed out.old out.new) result }
{
    let Inputs { boot, directives } = inputs;
    match begin(alloc, boot) {
        Ok(mut begun) => {
            let ended = run_counted(
                alloc,
                false,
                &Report::OfRun,
                directives.as_slice(),
                &mut begun,
                out,
            );
            *world = Some(begun);
            status_of(ended)
        }
        Err(no) => Status::NoMemory(no),
    }
}
