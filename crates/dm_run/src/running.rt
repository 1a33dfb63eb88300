//! A world that is stepped: it begins, goes on with any directive for its machines, and says where all stands.
ghost use Rattle.std.specs.Prelude.{◌≡◌, ◌<◌, ◌+◌, ◌^◌, IfErr, IfOk, OnErr, OnOk, length, true};
ghost use Rattle.std.specs.List.{All};
ghost use Rattle.dm_onekernel.specs.Boot.{IsValid};
ghost use Rattle.dm_run.specs.Runs.{IsStep};
ghost use Rattle.dm_text.specs.Fits.{EndFits, LineFits};
ghost use Rattle.dm_world.specs.Ends.{end_lines as ends_of};
ghost use Rattle.dm_world.specs.Local.{ActsAlone, acts_on};
ghost use Rattle.dm_world.specs.Meets.{world_state};
ghost use Rattle.dm_run.specs.Running.{IsAtStart, IsRunning, StopsSo, StopsWorn};
ghost use Rattle.dm_run.specs.Went.{Does, RunsGo};

use crate::fit::{ends_fit, lines_fit};
use dm_ending::stop::Stop;
use dm_line::end_line::EndLine;
use dm_line::line::Line;
use dm_memory::NoMemory;
use dm_onekernel::Boot;
use dm_schedule::Step;
use dm_world::{Stop as WorldStop, World};
use std::alloc::Global;

/// The system of a boot file, before its first directive.
pub fn begin(alloc: Global, boot: Boot) -> Result<World, NoMemory>
    requires { IsValid boot }
    ensures fresh { IfOk result IsAtStart }
    ensures running { IfOk result IsRunning }
    ensures boot { IfOk result (λ w. w.boot ≡ boot) }
    ensures groups { IfOk result (λ w. w.groups ≡ 0) }
{
    let world = World::boot(alloc, boot)?;
    Ok(world)
}

/// The system of its boot file once more, before its first directive.
pub fn begin_again(world: &mut World) -> Result<(), NoMemory>
    requires { IsValid world.old.boot }
    ensures fresh { OnOk result (IsAtStart world.new) }
    ensures running { OnOk result (IsRunning world.new) }
    ensures boot { world.new.boot ≡ world.old.boot }
    ensures groups { OnOk result (world.new.groups ≡ 0) }
{
    world.restart()?;
    Ok(())
}

/// Does an elementary directive: the lines of its group, its head first. A world that stops takes no further directive.
pub fn step_on(world: &mut World, step: &Step) -> Result<Vec<Line>, WorldStop>
    requires law { RunsGo }
    requires running { IsRunning world.old }
    requires step { IsStep (length world.old.boot.machines) step.now }
    requires groups { world.old.groups < 2 ^ 127 }
    ensures does { IfOk result (λ lines. Does world.old.boot (world_state world.old) step.now lines.items (world_state world.new)) }
    ensures running { OnOk result (IsRunning world.new) }
    ensures groups { OnOk result (world.new.groups ≡ world.old.groups + 1) }
    ensures fits { IfOk result (λ lines. All LineFits lines.items) }
    ensures alone { OnOk result (ActsAlone (acts_on world.old.boot (world_state world.old) step.now) (world_state world.old) (world_state world.new)) }
    ensures boot { world.new.boot ≡ world.old.boot }
    ensures worn { IfErr result (λ stop. StopsWorn world.old.boot (world_state world.old) step.now stop) }
    ensures stopped { OnErr result (world.new.stopped ≡ true) }
{
    let lines = go_on(world, step)?;
    lines_fit(lines.as_slice());
    Ok(lines)
}

/// Does an elementary directive, whose lines aren't looked at.
fn go_on(world: &mut World, step: &Step) -> Result<Vec<Line>, WorldStop>
    requires law { RunsGo }
    requires running { IsRunning world.old }
    requires step { IsStep (length world.old.boot.machines) step.now }
    requires groups { world.old.groups < 2 ^ 127 }
    ensures does { IfOk result (λ lines. Does world.old.boot (world_state world.old) step.now lines.items (world_state world.new)) }
    ensures running { OnOk result (IsRunning world.new) }
    ensures groups { OnOk result (world.new.groups ≡ world.old.groups + 1) }
    ensures alone { OnOk result (ActsAlone (acts_on world.old.boot (world_state world.old) step.now) (world_state world.old) (world_state world.new)) }
    ensures boot { world.new.boot ≡ world.old.boot }
    ensures worn { IfErr result (λ stop. StopsWorn world.old.boot (world_state world.old) step.now stop) }
    ensures stopped { OnErr result (world.new.stopped ≡ true) }
{
    let lines = world.step(step)?;
    Ok(lines)
}

/// The same, for a command that may stop for other reasons too.
pub fn do_step(world: &mut World, step: &Step) -> Result<Vec<Line>, Stop>
    requires law { RunsGo }
    requires running { IsRunning world.old }
    requires step { IsStep (length world.old.boot.machines) step.now }
    requires groups { world.old.groups < 2 ^ 127 }
    ensures does { IfOk result (λ lines. Does world.old.boot (world_state world.old) step.now lines.items (world_state world.new)) }
    ensures running { OnOk result (IsRunning world.new) }
    ensures groups { OnOk result (world.new.groups ≡ world.old.groups + 1) }
    ensures boot { world.new.boot ≡ world.old.boot }
    ensures stops { IfErr result (λ stop. StopsSo world.old.boot (world_state world.old) step.now stop) }
{
    match go_on(world, step) {
        Ok(lines) => Ok(lines),
        Err(WorldStop::NoMemory(no)) => Err(Stop::NoMemory(no)),
        Err(WorldStop::Worn { from, to }) => Err(Stop::Worn { from, to }),
    }
}

/// The lines at the end of a run: where everything stands then.
pub fn end_lines(world: &World) -> Result<Vec<EndLine>, NoMemory>
    requires law { RunsGo }
    requires running { IsRunning world.now }
    ensures ends { IfOk result (λ ends. ends.items ≡ ends_of world.now.boot (world_state world.now)) }
    ensures fits { IfOk result (λ ends. All EndFits ends.items) }
{
    let ends = world.end_lines()?;
    ends_fit(ends.as_slice());
    Ok(ends)
}
