//! Where everything stands behind so many groups of a run, and what is in the messages.
ghost use Rattle.std.specs.Prelude.{◌≤◌, ◌++◌, IfOk, length};
ghost use Rattle.std.specs.List.{All};
ghost use Rattle.dm_onekernel.specs.Boot.{IsValid};
ghost use Rattle.dm_run.specs.Notion.{by_world};
ghost use Rattle.dm_run.specs.Running.{IsRunning};
ghost use Rattle.dm_text.specs.Text.{text_of_ends, text_of_lines};
ghost use Rattle.dm_world.specs.Ends.{end_lines as ends_of};
ghost use Rattle.dm_world.specs.Meets.{world_state};
ghost use Rattle.dm_look.specs.Waiting.{waiting};
ghost use Rattle.dm_run.specs.Runs.{IsFor};
ghost use Rattle.dm_run.specs.Went.{RunsGo};
ghost use Rattle.dm_look.specs.Looked.{IsLooked, TellsLetters, held_by_world};

use crate::contents::write_contents;
use crate::groups::go_to;
use crate::names::names_if;
use dm_line::line::Line;
use dm_memory::NoMemory;
use dm_onekernel::Boot;
use dm_run::{begin, end_lines};
use dm_schedule::{Directive, MOST_SCHEDULE};
use dm_text::text::{write_ends, write_lines};
use dm_world::{Stop, World};
use std::alloc::Global;

/// Does these directives on the system of a boot file until so many groups have come, and says where everything stands then; first the
/// names of its processes, where they are asked for.
pub fn look_at(
    alloc: Global,
    boot: Boot,
    directives: &[Directive],
    most: u32,
    names: bool,
) -> Result<Vec<u8>, Stop>
    requires law { RunsGo }
    requires valid { IsValid boot }
    requires each { All (IsFor (length boot.machines)) directives.now }
    requires few { length directives.now ≤ MOST_SCHEDULE }
    ensures { IsLooked by_world held_by_world boot directives.now most names result }
{
    let head = match names_if(alloc, names, &boot) {
        Ok(head) => head,
        Err(no) => return Err(Stop::NoMemory(no)),
    };
    let mut world = match begin(alloc, boot) {
        Ok(world) => world,
        Err(no) => return Err(Stop::NoMemory(no)),
    };
    let last = go_to(alloc, directives, most, &mut world)?;
    match tell(alloc, head, last.as_slice(), &world) {
        Ok(text) => Ok(text),
        Err(no) => Err(Stop::NoMemory(no)),
    }
}

/// Behind a text, the lines of a group, where everything stands behind it, and what is in the messages.
fn tell(alloc: Global, mut text: Vec<u8>, last: &[Line], world: &World) -> Result<Vec<u8>, NoMemory>
    requires law { RunsGo }
    requires running { IsRunning world.now }
    ensures { IfOk result (λ t. TellsLetters (waiting (length world.now.boot.machines) (world_state world.now))
        (text.items ++ text_of_lines last.now ++ text_of_ends (ends_of world.now.boot (world_state world.now))) t.items) }
{
    let ends = end_lines(world)?;
    write_lines(last, &mut text)?;
    write_ends(ends.as_slice(), &mut text)?;
    write_contents(alloc, world, &mut text)?;
    Ok(text)
}
