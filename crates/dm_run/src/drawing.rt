//! The picture of a run.
ghost use Rattle.std.specs.Prelude.{◌≡◌, ◌≤◌, IfOk, length};
ghost use Rattle.std.specs.List.{All};
ghost use Rattle.dm_onekernel.specs.Boot.{IsValid};
ghost use Rattle.dm_chart.specs.Picture.{boot_pids, names_drawn};
ghost use Rattle.dm_run.specs.Runs.{IsFor};
ghost use Rattle.dm_run.specs.Notion.{by_world};
ghost use Rattle.dm_run.specs.Pictured.{IsDrawn};
ghost use Rattle.dm_run.specs.Running.{IsAtStart};
ghost use Rattle.dm_run.specs.Went.{RunsGo};

use crate::collect::collect;
use crate::running::begin;
use dm_chart::{Kept, Part, Reach, Starts, picture, starts_of};
use dm_memory::NoMemory;
use dm_onekernel::Boot;
use dm_schedule::{Directive, MOST_SCHEDULE};
use dm_world::{Stop, World};
use std::alloc::Global;

/// The picture of a run, a document in the form SVG.
#[derive(Drop)]
pub enum Drawn {
    /// Of all of it.
    Whole(Vec<u8>),
    /// Of what comes before two machines count as many messages as they may.
    Worn { text: Vec<u8>, from: u8, to: u8 },
}

/// Does these directives on the system of a boot file, and draws what happens in these groups.
pub fn draw_run(
    alloc: Global,
    boot: Boot,
    directives: &[Directive],
    part: Part,
) -> Result<Drawn, NoMemory>
    requires law { RunsGo }
    requires valid { IsValid boot }
    requires each { All (IsFor (length boot.machines)) directives.now }
    requires few { length directives.now ≤ MOST_SCHEDULE }
    ensures { IfOk result (λ d. IsDrawn part by_world boot directives.now d) }
{
    let machines = count_of(&boot);
    let starts = starts_of(alloc, &boot)?;
    let mut world = begin(alloc, boot)?;
    draw_world(alloc, machines, &starts, directives, part, &mut world)
}

/// How many machines there are, at most 16.
fn count_of(boot: &Boot) -> u8
    requires { IsValid boot.now }
    ensures { result ≡ length boot.now.machines }
{
    boot.machines.len() as u8
}

/// Draws what happens on a world before its first directive.
fn draw_world(
    alloc: Global,
    machines: u8,
    starts: &Starts,
    directives: &[Directive],
    part: Part,
    world: &mut World,
) -> Result<Drawn, NoMemory>
    requires law { RunsGo }
    requires fresh { IsAtStart world.old }
    requires machines { machines ≡ length world.old.boot.machines }
    requires pids { starts.now.pids ≡ boot_pids world.old.boot }
    requires names { starts.now.names.items ≡ names_drawn world.old.boot.processes }
    requires each { All (IsFor (length world.old.boot.machines)) directives.now }
    requires few { length directives.now ≤ MOST_SCHEDULE }
    ensures { IfOk result (λ d. IsDrawn part by_world world.old.boot directives.now d) }
{
    let mut kept = Kept::new(alloc, part);
    match collect(directives, world, &mut kept) {
        Ok(()) => {
            let whole = picture(alloc, machines, starts, &kept, Reach::Whole)?;
            Ok(Drawn::Whole(whole))
        }
        Err(Stop::Worn { from, to }) => {
            let reach = Reach::BeforeWorn { from, to };
            let text = picture(alloc, machines, starts, &kept, reach)?;
            Ok(Drawn::Worn { text, from, to })
        }
        Err(Stop::NoMemory(no)) => Err(no),
    }
}
