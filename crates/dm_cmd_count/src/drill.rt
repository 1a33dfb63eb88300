//! The command `drill`: a system and its directives are drawn from a number, and what happens is counted.
ghost use Rattle.std.specs.Prelude.{◌≡◌, ◌≤◌, IfOk, length};
ghost use Rattle.std.specs.List.{All};
ghost use Rattle.dm_onekernel.specs.Boot.{IsValid};
ghost use Rattle.dm_run.specs.Notion.{by_world};
ghost use Rattle.dm_run.specs.Runs.{IsFor};
ghost use Rattle.dm_run.specs.Went.{RunsGo};
ghost use Rattle.dm_draw.specs.Boot.{boot_of_machines};
ghost use Rattle.dm_words.specs.DrillWords.{IsWithin};
ghost use Rattle.dm_cmd_count.specs.Drills.{DrillMeets, DrilledSays, Drills, directives_of_drill, report_of};
ghost use Rattle.dm_front.specs.Meets.{MeetsSink};
ghost use Rattle.dm_front.specs.Outside.{around, shelf_around, sink_around};

use dm_draw::boot::drill_boot;
use dm_draw::directives::drill_directives;
use dm_draw::drill::Drill;
use dm_drill::drill::run_counted;
use dm_drill::report::Report;
use dm_ending::status::{Status, status_of};
use dm_memory::NoMemory;
use dm_onekernel::Boot;
use dm_outside::{Shelf, Sink};
use dm_run::begin;
use dm_schedule::{Directive, MOST_SCHEDULE};
use dm_world::World;
use std::alloc::Global;

/// What is drawn from a number.
#[derive(Drop)]
struct Drawn {
    boot: Boot,
    directives: Vec<Directive>,
}

/// Does a drill: its numbers are in their ranges, and no file is asked for.
pub fn drill_drawn<F: Shelf, K: Sink>(
    alloc: Global,
    drawn: &Drill,
    _shelf: &mut F,
    out: &mut K,
    world: &mut Option<World>,
) -> Status
    requires law { RunsGo }
    requires within { IsWithin drawn.now }
    ensures meets { Drills by_world drawn.now
        (around (shelf_around F.asked F.told F.faults F.last_failed _shelf.old _shelf.new)
        (sink_around K.told K.faults K.last_failed out.old out.new)) world.new result }
{
    drill(alloc, drawn, out, world)
}

/// Draws a system and its directives, does them, writes the groups where that is asked for, and then the summary. The world is
/// left in `world`, which is empty where there was none.
fn drill<K: Sink>(alloc: Global, drill: &Drill, out: &mut K, world: &mut Option<World>) -> Status
    requires law { RunsGo }
    requires within { IsWithin drill.now }
    ensures meets { DrillMeets (DrilledSays by_world) drill.now (sink_around K.told K.faults K.last_failed out.old out.new) world.new result }
{
    *world = None;
    match draw(alloc, drill) {
        Ok(drawn) => run(alloc, drill, drawn, out, world),
        Err(no) => Status::NoMemory(no),
    }
}

/// Draws a system and its directives.
fn draw(alloc: Global, drill: &Drill) -> Result<Drawn, NoMemory>
    requires { IsWithin drill.now }
    ensures boot { IfOk result (λ d. d.boot ≡ boot_of_machines drill.now.machines) }
    ensures valid { IfOk result (λ d. IsValid d.boot) }
    ensures directives { IfOk result (λ d. d.directives.items ≡ directives_of_drill drill.now) }
    ensures each { IfOk result (λ d. All (IsFor (length d.boot.machines)) d.directives.items) }
    ensures few { IfOk result (λ d. length d.directives.items ≤ MOST_SCHEDULE) }
{
    let boot = drill_boot(alloc, drill.machines)?;
    let directives = drill_directives(alloc, drill.seed, drill.machines, drill.lines)?;
    Ok(Drawn { boot, directives })
}

/// Runs a system by its directives.
fn run<K: Sink>(
    alloc: Global,
    drill: &Drill,
    drawn: Drawn,
    out: &mut K,
    world: &mut Option<World>,
) -> Status
    requires law { RunsGo }
    requires valid { IsValid drawn.boot }
    requires each { All (IsFor (length drawn.boot.machines)) drawn.directives.items }
    requires few { length drawn.directives.items ≤ MOST_SCHEDULE }
    ensures says { DrilledSays by_world drill.now drawn.boot drawn.directives.items (K.told out.old) (K.told out.new) world.new result }
    ensures sink { MeetsSink (sink_around K.told K.faults K.last_failed out.old out.new) result }
{
    let Drawn { boot, directives } = drawn;
    match begin(alloc, boot) {
        Ok(mut begun) => {
            let report = report_of(drill);
            let ended = run_counted(
                alloc,
                drill.trace,
                &report,
                directives.as_slice(),
                &mut begun,
                out,
            );
            *world = Some(begun);
            status_of(ended)
        }
        Err(no) => Status::NoMemory(no),
    }
}

/// What the report of a drill is of.
fn report_of(drill: &Drill) -> Report
    ensures { result ≡ report_of drill.now }
{
    Report::OfDrill {
        seed: drill.seed,
        machines: drill.machines,
        lines: drill.lines,
    }
}
