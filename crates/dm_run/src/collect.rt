//! Running directives, and keeping what a picture shows of their groups.
ghost use Rattle.std.specs.Prelude.{◌≡◌, ◌≤◌, length};
ghost use Rattle.std.specs.List.{All};
ghost use Rattle.dm_chart.specs.Kept.{none_kept};
ghost use Rattle.dm_run.specs.Runs.{IsFor};
ghost use Rattle.dm_world.specs.Meets.{world_state};
ghost use Rattle.dm_run.specs.Pictured.{IsCollected};
ghost use Rattle.dm_run.specs.Running.{IsAtStart};
ghost use Rattle.dm_run.specs.Went.{RunsGo};

use crate::running::step_on;
use crate::way::{Way, next_step};
use dm_chart::{Kept, keep};
use dm_schedule::{Directive, MOST_SCHEDULE};
use dm_world::{Stop, World};

/// Does these directives, and keeps what a picture shows of their groups.
pub fn collect(directives: &[Directive], world: &mut World, kept: &mut Kept) -> Result<(), Stop>
    requires law { RunsGo }
    requires fresh { IsAtStart world.old }
    requires none { kept.old ≡ none_kept kept.old.part }
    requires each { All (IsFor (length world.old.boot.machines)) directives.now }
    requires few { length directives.now ≤ MOST_SCHEDULE }
    ensures came { IsCollected kept.old.part world.old.boot directives.now kept.new (world_state world.new) result }
{
    let mut way = Way::new();
    'groups: while let Some(step) = next_step(world, directives, &mut way) {
        let lines = step_on(world, &step)?;
        keep(kept, lines)?;
    }
    Ok(())
}
