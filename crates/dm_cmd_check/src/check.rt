//! The command `check`: it checks that a trace is what the system of a boot file prints.
ghost use Rattle.std.specs.Prelude.{◌≡◌, ◌≤◌, ℕ, List, None, length};
ghost use Rattle.dm_onekernel.specs.declared.boot.Boot.{Boot as TheBoot};
ghost use Rattle.dm_onekernel.specs.Boot.{IsValid};
ghost use Rattle.dm_front.specs.Firsts.{FirstOfBoot};
ghost use Rattle.dm_cmd_check.specs.Checks.{CheckMeets, CheckSays, IsGoodTrace, end_word, good_line};
ghost use Rattle.dm_front.specs.Meets.{MeetsSink};
ghost use Rattle.dm_run.specs.Went.{RunsGo};
ghost use Rattle.dm_cmd_check.specs.ByWorld.{traced_by_world};
ghost use Rattle.dm_front.specs.Outside.{around, shelf_around, sink_around};

use crate::trace::{Traced, read_trace_files};
use arrayvec::ArrayString;
use dm_check::{CheckError, Good, MOST_TRACE, check_trace};
use dm_ending::status::{LONGEST_LINE, Status, push_number, words};
use dm_outside::{Shelf, Sink};
use dm_run::write_all;
use std::alloc::Global;

/// Checks that the trace of the second name is what the system of the boot file of the first prints, and says so.
pub fn check_files<F: Shelf, K: Sink>(
    alloc: Global,
    boot: &str,
    trace: &str,
    shelf: &mut F,
    out: &mut K,
    said: &mut Vec<u8>,
) -> Status
    requires law { RunsGo }
    ensures meets { CheckMeets (CheckSays traced_by_world) boot.now trace.now
        (around (shelf_around F.asked F.told F.faults F.last_failed shelf.old shelf.new)
        (sink_around K.told K.faults K.last_failed out.old out.new)) None result }
    ensures said { FirstOfBoot (F.told shelf.old) boot.now result said.new.items }
{
    match read_trace_files(alloc, boot, trace, shelf, said) {
        Ok(traced) => check(alloc, traced, out),
        Err(status) => status,
    }
}

/// Checks a trace, and says that it is good.
fn check<K: Sink>(alloc: Global, traced: Traced, out: &mut K) -> Status
    requires law { RunsGo }
    requires valid { IsValid traced.boot }
    requires short { length traced.trace.items ≤ MOST_TRACE }
    ensures says { CheckSays traced_by_world traced.boot traced.trace.items (K.told out.old) (K.told out.new) result }
    ensures sink { MeetsSink (sink_around K.told K.faults K.last_failed out.old out.new) result }
{
    let Traced { boot, trace } = traced;
    match check_trace(alloc, boot, trace.as_slice()) {
        Ok(good) => say_good(good, out),
        Err(CheckError::Refused { line, fault }) => Status::TraceRefused {
            line,
            why: fault.number(),
        },
        Err(CheckError::NoMemory(no)) => Status::NoMemory(no),
    }
}

/// Says that a trace is good.
fn say_good<K: Sink>(good: Good, out: &mut K) -> Status
    ensures says { (b : TheBoot) (bytes : List ℕ) → IsGoodTrace traced_by_world b bytes good.groups good.ended →
        CheckSays traced_by_world b bytes (K.told out.old) (K.told out.new) result }
    ensures sink { MeetsSink (sink_around K.told K.faults K.last_failed out.old out.new) result }
{
    let line = good_line(good);
    match write_all(out, line.as_bytes()) {
        Ok(()) => Status::Done,
        Err(_) => Status::WriteFault,
    }
}

/// The line of a good trace, with its line feed.
pub(crate) fn good_line(good: Good) -> ArrayString<LONGEST_LINE>
    ensures { result.bytes ≡ good_line good.groups good.ended }
{
    let mut line = words("good ");
    push_number(&mut line, good.groups);
    line.push_str(end_word(good.ended));
    line
}

/// What stands behind the number of groups.
fn end_word(ended: bool) -> &'static str
    ensures word { result.now ≡ end_word ended }
    ensures short { length result.now ≤ 7 }
{
    if ended { " ended\n" } else { " open\n" }
}
