//! A run that is counted, as a drill is: directives are done one by one, what happens is counted, and a report is written.
ghost use Rattle.std.specs.Prelude.{◌≡◌, ◌≤◌, ℕ, List, OnOk, Option, Some, length};
ghost use Rattle.std.specs.List.{All};
ghost use Rattle.dm_onekernel.specs.declared.boot.Boot.{Boot as TheBoot};
ghost use Rattle.dm_schedule.specs.declared.Directive.{Directive as TheDirective};
ghost use Rattle.dm_run.specs.Runs.{IsFor};
ghost use Rattle.dm_text.specs.Fits.{LineFits};
ghost use Rattle.dm_world.specs.Meets.{IsWorld};
ghost use Rattle.dm_run.specs.Coming.{Blames, Offered, StopsThere};
ghost use Rattle.dm_run.specs.Notion.{by_world};
ghost use Rattle.dm_run.specs.Running.{IsAtStart};
ghost use Rattle.dm_run.specs.Went.{RunsGo};
ghost use Rattle.dm_drill.specs.Counts.{nothing, shown, with_group};
ghost use Rattle.dm_drill.specs.Drilled.{Came, Ended, IsThrough, text_shown};
ghost use Rattle.dm_drill.specs.declared.report.Report.{Report as TheReport};
ghost use Rattle.dm_drill.specs.Reported.{told};

use crate::counts::Counts;
use crate::report::{Report, write_report};
use dm_ending::stop::Stop;
use dm_line::line::Line;
use dm_memory::NoMemory;
use dm_outside::Sink;
use dm_run::{Way, do_step, lines_fit, next_step, offer, offer_bytes};
use dm_schedule::{Directive, MOST_SCHEDULE};
use dm_world::World;
use std::alloc::Global;

/// Does these directives, counts what happens, writes the lines of each where that is asked for, and then the report.
pub fn run_counted<K: Sink>(
    alloc: Global,
    trace: bool,
    report: &Report,
    directives: &[Directive],
    world: &mut World,
    out: &mut K,
) -> Result<(), Stop>
    requires law { RunsGo }
    requires fresh { IsAtStart world.old }
    requires each { All (IsFor (length world.old.boot.machines)) directives.now }
    requires few { length directives.now ≤ MOST_SCHEDULE }
    ensures ended { Ended by_world trace report.now world.old.boot directives.now (K.told out.old) (K.told out.new) (Some world.new) result }
    ensures blames { Blames (K.faults out.old) (K.faults out.new) result }
    ensures last { StopsThere (K.last_failed out.new) result }
    ensures writes { K.faults out.old ≤ K.faults out.new }
{
    let mut counts = Counts::new(alloc);
    let mut page = Vec::new(alloc);
    drill_directives(trace, directives, world, &mut counts, &mut page, out)?;
    sum_up(trace, report, world, &counts, &mut page, out)
}

/// Does these directives, counts their lines, and writes them where that is asked for.
fn drill_directives<K: Sink>(
    trace: bool,
    directives: &[Directive],
    world: &mut World,
    counts: &mut Counts,
    page: &mut Vec<u8>,
    out: &mut K,
) -> Result<(), Stop>
    requires law { RunsGo }
    requires fresh { IsAtStart world.old }
    requires none { shown counts.old ≡ nothing }
    requires each { All (IsFor (length world.old.boot.machines)) directives.now }
    requires few { length directives.now ≤ MOST_SCHEDULE }
    ensures came { (report : TheReport) → Came trace report world.old.boot directives.now (K.told out.old) (K.told out.new) (shown counts.new) world.new result }
    ensures blames { Blames (K.faults out.old) (K.faults out.new) result }
    ensures last { StopsThere (K.last_failed out.new) result }
    ensures writes { K.faults out.old ≤ K.faults out.new }
{
    let mut way = Way::new();
    'groups: while let Some(step) = next_step(world, directives, &mut way) {
        let lines = do_step(world, &step)?;
        let taken = take_lines(lines.as_slice(), trace, counts, page, out);
        world.keep(lines);
        taken?;
    }
    Ok(())
}

/// Counts the lines of a group, and writes them where that is asked for.
fn take_lines<K: Sink>(
    lines: &[Line],
    trace: bool,
    counts: &mut Counts,
    page: &mut Vec<u8>,
    out: &mut K,
) -> Result<(), Stop>
    ensures says { Offered (K.told out.old) (text_shown trace lines.now) (K.told out.new) result }
    ensures counted { OnOk result (shown counts.new ≡ with_group (shown counts.old) lines.now) }
    ensures fits { All LineFits lines.now }
    ensures blames { Blames (K.faults out.old) (K.faults out.new) result }
    ensures last { StopsThere (K.last_failed out.new) result }
    ensures writes { K.faults out.old ≤ K.faults out.new }
{
    if let Err(no) = counts.add_group(lines) {
        lines_fit(lines);
        return Err(Stop::NoMemory(no));
    }
    if trace {
        offer(lines, page, out)
    } else {
        Ok(())
    }
}

/// Writes the report. The page holds it meanwhile.
fn sum_up<K: Sink>(
    trace: bool,
    report: &Report,
    world: &World,
    counts: &Counts,
    page: &mut Vec<u8>,
    out: &mut K,
) -> Result<(), Stop>
    requires world { IsWorld world.now }
    ensures ended { (b : TheBoot) (ds : List TheDirective) (before : Option (List ℕ)) →
        IsThrough trace b ds before (K.told out.old) (shown counts.now) world.now →
        Ended by_world trace report.now b ds before (K.told out.new) (Some world.now) result }
    ensures blames { Blames (K.faults out.old) (K.faults out.new) result }
    ensures last { StopsThere (K.last_failed out.new) result }
    ensures writes { K.faults out.old ≤ K.faults out.new }
{
    let quiet = world.is_quiet();
    match fill_page(report, counts, quiet, page) {
        Ok(()) => offer_bytes(page.as_slice(), out),
        Err(no) => Err(Stop::NoMemory(no)),
    }
}

/// Puts the report alone onto a page.
fn fill_page(
    report: &Report,
    counts: &Counts,
    quiet: bool,
    page: &mut Vec<u8>,
) -> Result<(), NoMemory>
    ensures { OnOk result (page.new.items ≡ told report.now (shown counts.now) quiet) }
{
    page.clear();
    write_report(report, counts, quiet, page)
}
