//! The command `drill` with a boot file: directives are drawn for its system, and are done, or written.
ghost use Rattle.std.specs.Prelude.{◌≡◌, ◌≤◌, None, IfErr, IfOk, Option, length};
ghost use Rattle.std.specs.List.{All};
ghost use Rattle.dm_draw.specs.Own.{own_directives_drawn};
ghost use Rattle.dm_onekernel.specs.Boot.{IsValid};
ghost use Rattle.dm_onekernel.specs.declared.boot.Boot.{Boot as TheBoot};
ghost use Rattle.dm_run.specs.Notion.{by_world};
ghost use Rattle.dm_run.specs.Runs.{IsFor};
ghost use Rattle.dm_run.specs.Went.{RunsGo};
ghost use Rattle.dm_world.specs.declared.world.World.{World as TheWorld};
ghost use Rattle.dm_words.specs.DrillWords.{OwnIsWithin};
ghost use Rattle.dm_drill.specs.Schedules.{schedule_text};
ghost use Rattle.dm_ending.specs.declared.status.Input.TheVariants as input_;
ghost use Rattle.dm_front.specs.Firsts.{FirstOfBoot};
ghost use Rattle.dm_front.specs.Asked.{Alone};
ghost use Rattle.dm_cmd_count.specs.Drills.{CountedSays};
ghost use Rattle.dm_front.specs.Inputs.{NoBoot, SaysBoot};
ghost use Rattle.dm_front.specs.Meets.{MeetsShelf, MeetsSink, status_so_far};
ghost use Rattle.dm_cmd_count.specs.OwnDrills.{OwnMeets, OwnSays, ScheduleSays, directives_for, own_report};
ghost use Rattle.dm_front.specs.Outside.{around, shelf_around, sink_around};

use dm_draw::drill::{OwnDrill, Shows};
use dm_draw::own::own_directives;
use dm_drill::drill::run_counted;
use dm_drill::report::Report;
use dm_drill::schedule::write_schedule;
use dm_ending::status::{Status, status_of};
use dm_front::inputs::{Inputs, read_system};
use dm_link::MACHINES;
use dm_memory::NoMemory;
use dm_onekernel::Boot;
use dm_onekernel::boot::BootProcess;
use dm_outside::{Shelf, Sink};
use dm_run::{begin, write_all};
use dm_schedule::{Directive, MOST_SCHEDULE};
use dm_world::World;
use std::alloc::Global;

/// Draws directives for the system of the boot file of this name, and does them or writes them. The world of a run is left in
/// `world`, which is empty where there was no run.
pub fn drill_file<F: Shelf, K: Sink>(
    alloc: Global,
    boot: &str,
    drill: &OwnDrill,
    shelf: &mut F,
    out: &mut K,
    world: &mut Option<World>,
    said: &mut Vec<u8>,
) -> Status
    requires law { RunsGo }
    requires within { OwnIsWithin drill.now }
    ensures meets { OwnMeets (OwnSays by_world drill.now) boot.now drill.now
        (around (shelf_around F.asked F.told F.faults F.last_failed shelf.old shelf.new)
        (sink_around K.told K.faults K.last_failed out.old out.new)) world.new result }
    ensures said { FirstOfBoot (F.told shelf.old) boot.now result said.new.items }
{
    *world = None;
    match read_drawn(alloc, boot, drill, shelf, said) {
        Ok(inputs) => show(alloc, drill, inputs, out, world),
        Err(status) => status,
    }
}

/// The system of the boot file of this name, and the directives that are drawn for it.
fn read_drawn<F: Shelf>(
    alloc: Global,
    boot: &str,
    drill: &OwnDrill,
    shelf: &mut F,
    said: &mut Vec<u8>,
) -> Result<Inputs, Status>
    requires within { OwnIsWithin drill.now }
    ensures says { IfOk result (λ i. SaysBoot (F.told shelf.old) boot.now i.boot) }
    ensures valid { IfOk result (λ i. IsValid i.boot) }
    ensures drawn { IfOk result (λ i. i.directives.items ≡ directives_for i.boot drill.now) }
    ensures each { IfOk result (λ i. All (IsFor (length i.boot.machines)) i.directives.items) }
    ensures few { IfOk result (λ i. length i.directives.items ≤ MOST_SCHEDULE) }
    ensures none { IfErr result (λ s. NoBoot (F.told shelf.old) boot.now (F.faults shelf.old) (F.faults shelf.new) s) }
    ensures shelf { MeetsShelf (Alone input_.Boot boot.now)
        (shelf_around F.asked F.told F.faults F.last_failed shelf.old shelf.new) (status_so_far result) }
    ensures said { FirstOfBoot (F.told shelf.old) boot.now (status_so_far result) said.new.items }
{
    let boot = read_system(alloc, boot, shelf, said)?;
    let machines = boot.machines.len() as u8;
    match draw_for(alloc, machines, boot.processes.as_slice(), drill) {
        Ok(directives) => Ok(Inputs { boot, directives }),
        Err(no) => Err(Status::NoMemory(no)),
    }
}

/// The directives that are drawn for so many machines and these processes.
fn draw_for(
    alloc: Global,
    machines: u8,
    processes: &[BootProcess],
    drill: &OwnDrill,
) -> Result<Vec<Directive>, NoMemory>
    requires machines { (1 ≤ machines) × (machines ≤ MACHINES) }
    requires within { OwnIsWithin drill.now }
    ensures drawn { IfOk result (λ ds. ds.items ≡ own_directives_drawn machines processes.now drill.now.seed drill.now.lines) }
    ensures each { IfOk result (λ ds. All (IsFor machines) ds.items) }
    ensures few { IfOk result (λ ds. length ds.items ≤ MOST_SCHEDULE) }
{
    let directives = own_directives(alloc, drill.seed, machines, processes, drill.lines)?;
    Ok(directives)
}

/// Does what is to be shown of a drill, a row each.
fn show<K: Sink>(
    alloc: Global,
    drill: &OwnDrill,
    inputs: Inputs,
    out: &mut K,
    world: &mut Option<World>,
) -> Status
    requires law { RunsGo }
    requires empty { world.old ≡ None }
    requires valid { IsValid inputs.boot }
    requires each { All (IsFor (length inputs.boot.machines)) inputs.directives.items }
    requires few { length inputs.directives.items ≤ MOST_SCHEDULE }
    ensures says { OwnSays by_world drill.now inputs.boot inputs.directives.items (K.told out.old) (K.told out.new) world.new result }
    ensures sink { MeetsSink (sink_around K.told K.faults K.last_failed out.old out.new) result }
{
    match drill.shows {
        Shows::Summary => run(alloc, drill, false, inputs, out, world),
        Shows::Groups => run(alloc, drill, true, inputs, out, world),
        Shows::Directives => write(alloc, inputs.directives.as_slice(), out),
    }
}

/// Runs a system by directives that were drawn for it.
fn run<K: Sink>(
    alloc: Global,
    drill: &OwnDrill,
    trace: bool,
    inputs: Inputs,
    out: &mut K,
    world: &mut Option<World>,
) -> Status
    requires law { RunsGo }
    requires valid { IsValid inputs.boot }
    requires each { All (IsFor (length inputs.boot.machines)) inputs.directives.items }
    requires few { length inputs.directives.items ≤ MOST_SCHEDULE }
    ensures says { CountedSays by_world trace (own_report inputs.boot drill.now) inputs.boot inputs.directives.items (K.told out.old) (K.told out.new) world.new result }
    ensures sink { MeetsSink (sink_around K.told K.faults K.last_failed out.old out.new) result }
{
    let Inputs { boot, directives } = inputs;
    let report = report_for(&boot, drill);
    match begin(alloc, boot) {
        Ok(mut begun) => {
            let ended = run_counted(
                alloc,
                trace,
                &report,
                directives.as_slice(),
                &mut begun,
                out,
            );
            *world = Some(begun);
            status_of(ended)
        }
        Err(no) => Status::NoMemory(no),
    }
}

/// What the report of a drill of this system is of.
fn report_for(boot: &Boot, drill: &OwnDrill) -> Report
    requires { IsValid boot.now }
    ensures { result ≡ own_report boot.now drill.now }
{
    Report::OfDrill {
        seed: drill.seed,
        machines: boot.machines.len() as u8,
        lines: drill.lines,
    }
}

/// Writes directives as a schedule. No world is left.
fn write<K: Sink>(alloc: Global, directives: &[Directive], out: &mut K) -> Status
    ensures says { (b : TheBoot) (w : Option TheWorld) → w ≡ None → ScheduleSays b directives.now (K.told out.old) (K.told out.new) w result }
    ensures sink { MeetsSink (sink_around K.told K.faults K.last_failed out.old out.new) result }
{
    match text_of(alloc, directives) {
        Ok(text) => match write_all(out, text.as_slice()) {
            Ok(()) => Status::Done,
            Err(_) => Status::WriteFault,
        },
        Err(no) => Status::NoMemory(no),
    }
}

/// The text of directives.
fn text_of(alloc: Global, directives: &[Directive]) -> Result<Vec<u8>, NoMemory>
    ensures { IfOk result (λ text. text.items ≡ schedule_text directives.now) }
{
    let mut text = Vec::new(alloc);
    write_schedule(directives, &mut text)?;
    Ok(text)
}
