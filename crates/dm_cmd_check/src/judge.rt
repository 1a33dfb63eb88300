//! The command `explain` with a trace: it checks the trace, and says what was due where it isn't what the system prints.
ghost use Rattle.std.specs.Prelude.{◌≡◌, ◌≤◌, IfErr, IfOk, None, length};
ghost use Rattle.dm_onekernel.specs.declared.boot.Boot.{Boot as TheBoot};
ghost use Rattle.dm_onekernel.specs.Boot.{IsValid};
ghost use Rattle.dm_check.specs.Judged.{JudgedBy};
ghost use Rattle.dm_check.specs.declared.refusal.JudgeError.TheVariants as error;
ghost use Rattle.dm_front.specs.Asked.{Both};
ghost use Rattle.dm_cmd_check.specs.Judges.{JudgeMeets, JudgeTells, NoneJudged, TellsTrace};
ghost use Rattle.dm_front.specs.Meets.{MeetsShelf, status_so_far};
ghost use Rattle.dm_front.specs.Outside.{around, shelf_around, sink_around};
ghost use Rattle.dm_cmd_check.specs.ByWorld.{traced_by_world};
ghost use Rattle.dm_ending.specs.declared.status.Input.TheVariants as input_;
ghost use Rattle.dm_run.specs.Went.{RunsGo};

use crate::check::good_line;
use crate::trace::read_trace;
use dm_check::{JudgeError, MOST_TRACE, Refusal, judge_trace};
use dm_ending::status::Status;
use dm_explain::BootTold;
use dm_front::tell::{Told, say, tell_boot};
use dm_judge::put_refusal;
use dm_memory::{NoMemory, from_slice};
use dm_onekernel::Boot;
use dm_outside::{Shelf, Sink};
use std::alloc::Global;

/// Checks that the trace of the second name is what the system of the boot file of the first prints, and says so, or what was due
/// in its first bad line. Of a boot file that breaks a rule it says what is wrong with it.
pub fn judge_files<F: Shelf, K: Sink>(
    alloc: Global,
    boot: &str,
    trace: &str,
    shelf: &mut F,
    out: &mut K,
) -> Status
    requires law { RunsGo }
    ensures meets { JudgeMeets traced_by_world boot.now trace.now
        (around (shelf_around F.asked F.told F.faults F.last_failed shelf.old shelf.new)
        (sink_around K.told K.faults K.last_failed out.old out.new)) None result }
{
    match tell_trace_files(alloc, boot, trace, shelf) {
        Ok(told) => say(&told, out),
        Err(status) => status,
    }
}

/// What is said of a trace and a boot file of these names, or why nothing is.
fn tell_trace_files<F: Shelf>(
    alloc: Global,
    boot: &str,
    trace: &str,
    shelf: &mut F,
) -> Result<Told, Status>
    requires law { RunsGo }
    ensures tells { IfOk result (λ t. JudgeTells traced_by_world (F.told shelf.old) boot.now trace.now t.due t.text.items) }
    ensures none { IfErr result (λ s. NoneJudged (F.told shelf.old) boot.now trace.now (F.faults shelf.old) (F.faults shelf.new) s) }
    ensures shelf { MeetsShelf (Both boot.now input_.Trace trace.now)
        (shelf_around F.asked F.told F.faults F.last_failed shelf.old shelf.new) (status_so_far result) }
{
    match tell_boot(alloc, boot, shelf) {
        Ok(BootTold::Refused { rule, place, text }) => Ok(Told {
            due: Status::BootRefused {
                number: rule.number(),
                place,
            },
            text,
        }),
        Ok(BootTold::System { boot: system, .. }) => match read_trace(alloc, trace, shelf) {
            Ok(bytes) => match tell_trace(alloc, system, bytes.as_slice()) {
                Ok(told) => Ok(told),
                Err(no) => Err(Status::NoMemory(no)),
            },
            Err(status) => Err(status),
        },
        Err(status) => Err(status),
    }
}

/// What is said of a trace of a system.
fn tell_trace(alloc: Global, boot: Boot, trace: &[u8]) -> Result<Told, NoMemory>
    requires law { RunsGo }
    requires valid { IsValid boot }
    requires short { length trace.now ≤ MOST_TRACE }
    ensures tells { IfOk result (λ t. TellsTrace traced_by_world boot trace.now t.due t.text.items) }
{
    match judge_trace(alloc, boot, trace) {
        Ok(good) => Ok(Told {
            due: Status::Done,
            text: from_slice(alloc, good_line(good).as_bytes())?,
        }),
        Err(JudgeError::Refused(refusal)) => tell_refusal(alloc, trace, &refusal),
        Err(JudgeError::NoMemory(no)) => Err(no),
    }
}

/// What is said of a refused trace.
fn tell_refusal(alloc: Global, trace: &[u8], refusal: &Refusal) -> Result<Told, NoMemory>
    ensures tells { (b : TheBoot) → JudgedBy b trace.now (error.Refused refusal.now) →
        IfOk result (λ t. TellsTrace traced_by_world b trace.now t.due t.text.items) }
{
    let mut text = Vec::new(alloc);
    put_refusal(&mut text, trace, refusal)?;
    Ok(Told {
        due: Status::TraceRefused {
            line: refusal.line,
            why: refusal.fault.number(),
        },
        text,
    })
}
