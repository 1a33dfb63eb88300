//! Running directives, and writing what happens.
ghost use Rattle.std.specs.Prelude.{◌≤◌, Some, length};
ghost use Rattle.std.specs.List.{All};
ghost use Rattle.dm_run.specs.Runs.{IsFor};
ghost use Rattle.dm_run.specs.Coming.{Blames, Came, Ended, StopsThere};
ghost use Rattle.dm_run.specs.Notion.{by_world};
ghost use Rattle.dm_run.specs.Running.{IsAtStart};
ghost use Rattle.dm_run.specs.Went.{RunsGo};

use crate::offering::{offer, offer_ends};
use crate::running::{do_step, end_lines};
use crate::way::{Way, next_step};
use dm_ending::stop::Stop;
use dm_outside::Sink;
use dm_schedule::{Directive, MOST_SCHEDULE};
use dm_world::World;
use std::alloc::Global;

/// Does these directives, and writes the lines of each and the lines at the end.
pub fn run_to_end<K: Sink>(
    alloc: Global,
    directives: &[Directive],
    world: &mut World,
    out: &mut K,
) -> Result<(), Stop>
    requires law { RunsGo }
    requires fresh { IsAtStart world.old }
    requires each { All (IsFor (length world.old.boot.machines)) directives.now }
    requires few { length directives.now ≤ MOST_SCHEDULE }
    ensures ended { Ended by_world world.old.boot directives.now (K.told out.old) (K.told out.new) (Some world.new) result }
    ensures blames { Blames (K.faults out.old) (K.faults out.new) result }
    ensures last { StopsThere (K.last_failed out.new) result }
    ensures writes { K.faults out.old ≤ K.faults out.new }
{
    let mut page = Vec::new(alloc);
    run_directives(directives, world, &mut page, out)?;
    match end_lines(world) {
        Ok(ends) => offer_ends(ends.as_slice(), &mut page, out),
        Err(no) => Err(Stop::NoMemory(no)),
    }
}

/// Does these directives, and writes the lines of each. Nothing is written of the end.
fn run_directives<K: Sink>(
    directives: &[Directive],
    world: &mut World,
    page: &mut Vec<u8>,
    out: &mut K,
) -> Result<(), Stop>
    requires law { RunsGo }
    requires fresh { IsAtStart world.old }
    requires each { All (IsFor (length world.old.boot.machines)) directives.now }
    requires few { length directives.now ≤ MOST_SCHEDULE }
    ensures came { Came world.old.boot directives.now (K.told out.old) (K.told out.new) world.new result }
    ensures blames { Blames (K.faults out.old) (K.faults out.new) result }
    ensures last { StopsThere (K.last_failed out.new) result }
    ensures writes { K.faults out.old ≤ K.faults out.new }
{
    let mut way = Way::new();
    'groups: while let Some(step) = next_step(world, directives, &mut way) {
        let lines = do_step(world, &step)?;
        let offered = offer(lines.as_slice(), page, out);
        world.keep(lines);
        offered?;
    }
    Ok(())
}
