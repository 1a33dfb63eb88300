//! A whole text.
ghost use Rattle.std.specs.Prelude.{◌≡◌, ◌+◌, ◌^◌, ◌<◌, ◌≤◌, List, IfErr, IfOk, None, OnOk, Some, length, true};
ghost use Rattle.std.specs.List.{All};
ghost use Rattle.dm_line.specs.declared.line.Line.{Line as TheLine};
ghost use Rattle.dm_onekernel.specs.Boot.{IsValid};
ghost use Rattle.dm_schedule.specs.declared.Step.{Step as TheStep};
ghost use Rattle.dm_text.specs.Fits.{LineFits};
ghost use Rattle.dm_text.specs.Reading.{pieces};
ghost use Rattle.dm_world.specs.Ends.{end_lines as ends_of};
ghost use Rattle.dm_world.specs.Meets.{world_state};
ghost use Rattle.dm_run.specs.Running.{IsRunning};
ghost use Rattle.dm_run.specs.Went.{Does, RunsGo, Went};
ghost use Rattle.dm_check.specs.Checked.{HasChecked};
ghost use Rattle.dm_check.specs.Checking.{first_line, head_of_line, is_final};
ghost use Rattle.dm_check.specs.Good.{EndsFit, IsPrinted, good_verdict, text_behind};
ghost use Rattle.dm_check.specs.Judge as judge;
ghost use Rattle.dm_check.specs.Judge.{Course, can_hold, judged_from};
ghost use Rattle.dm_check.specs.Judged.{JudgedBy, JudgedThere, LacksGroup, told_of_none};
ghost use Rattle.dm_check.specs.Says.{ComesTo, RefusedBy, SaysAs};

use crate::MOST_TRACE;
use crate::fault::TraceFault;
use crate::follow::{behind_lines, follow_ends, refuse_stray, unless_none};
use crate::refusal::{JudgeError, Refusal, WasDue, due_end, refuse};
use crate::stop::CheckError;
use dm_line::line::Line;
use dm_memory::NoMemory;
use dm_onekernel::Boot;
use dm_reading::split;
use dm_run::{begin, end_lines, step_on};
use dm_schedule::Step;
use dm_shape::head::head;
use dm_world::{Stop, World};
use std::alloc::Global;

/// A text that is what the system prints.
#[derive(Clone, Copy)]
pub struct Good {
    /// How many groups it has.
    pub groups: u64,
    /// Whether the lines at the end stand behind them.
    pub ended: bool,
}

/// Checks that a text is what the system of a boot file prints, for the directives that its heads are: what it comes to by whatever
/// says what the machines say.
pub fn check_trace(alloc: Global, boot: Boot, trace: &[u8]) -> Result<Good, CheckError>
    requires law { RunsGo }
    requires valid { IsValid boot }
    requires short { length trace.now ≤ MOST_TRACE }
    ensures verdict { IfOk result (λ g. ComesTo boot trace.now (good_verdict g.groups g.ended)) }
    ensures good { IfOk result (λ g. IsPrinted boot trace.now g.groups g.ended) }
    ensures refused { IfErr result (RefusedBy boot trace.now) }
{
    match judge_trace(alloc, boot, trace) {
        Ok(good) => Ok(good),
        Err(JudgeError::Refused(Refusal { line, fault, .. })) => {
            Err(CheckError::Refused { line, fault })
        }
        Err(JudgeError::NoMemory(no)) => Err(CheckError::NoMemory(no)),
    }
}

/// The same, with what was due where a text is refused.
pub fn judge_trace(alloc: Global, boot: Boot, trace: &[u8]) -> Result<Good, JudgeError>
    requires law { RunsGo }
    requires valid { IsValid boot }
    requires short { length trace.now ≤ MOST_TRACE }
    ensures verdict { IfOk result (λ g. ComesTo boot trace.now (good_verdict g.groups g.ended)) }
    ensures good { IfOk result (λ g. IsPrinted boot trace.now g.groups g.ended) }
    ensures refused { IfErr result (JudgedBy boot trace.now) }
{
    let quantum = boot.quantum;
    let machines = boot.machines.len() as u8;
    match begin(alloc, boot) {
        Ok(mut world) => judge_on(alloc, quantum, machines, &mut world, trace),
        Err(no) => Err(JudgeError::NoMemory(no)),
    }
}

/// Judges a text from its beginning on, with a world that has done nothing yet.
fn judge_on(
    alloc: Global,
    quantum: u32,
    machines: u8,
    world: &mut World,
    trace: &[u8],
) -> Result<Good, JudgeError>
    requires law { RunsGo }
    requires running { IsRunning world.old }
    requires begun { HasChecked world.old.boot trace.now trace.now 1 0 (world_state world.old) }
    requires groups { world.old.groups ≡ 0 }
    requires quantum { world.old.boot.quantum ≡ quantum }
    requires machines { length world.old.boot.machines ≡ machines }
    requires short { length trace.now ≤ MOST_TRACE }
    ensures verdict { IfOk result (λ g. ComesTo world.old.boot trace.now (good_verdict g.groups g.ended)) }
    ensures good { IfOk result (λ g. IsPrinted world.old.boot trace.now g.groups g.ended) }
    ensures refused { IfErr result (JudgedBy world.old.boot trace.now) }
{
    let mut page = Vec::new(alloc);
    let mut rest = trace;
    let mut number: u64 = 1;
    let mut groups: u64 = 0;
    'groups: while let Some(step) = first_head(rest) {
        let lines = match group(machines, &step, world) {
            Ok(lines) => lines,
            Err(none) => return Err(refuse_head(none, step, number)),
        };
        let due = lines.as_slice();
        rest = match behind_lines(due, rest, &mut page) {
            Ok(Some(others)) => others,
            Ok(None) => return Err(refuse_stray(quantum, step, due, rest, number, &mut page)),
            Err(no) => return Err(JudgeError::NoMemory(no)),
        };
        number += lines.len() as u64;
        groups += 1;
        world.keep(lines);
    }
    let ended = is_ended(world, rest, number, &mut page)?;
    Ok(Good { groups, ended })
}

/// The directive of the head with which a text begins.
fn first_head(text: &[u8]) -> Option<Step>
    ensures { result ≡ head_of_line (first_line (pieces 10 text.now)) }
{
    let (line, others) = split(text, b'\n');
    match others {
        Some(_) => head(line),
        None => None,
    }
}

/// Why no group is due behind a head.
#[derive(Clone, Copy)]
pub(crate) enum NoneDue {
    /// No schedule for so many machines can hold its directive.
    Unheld,
    /// It would route a message between two machines that count as many as they may.
    Worn { from: u8, to: u8 },
    NoMemory(NoMemory),
}

/// The group of a head, if one is due.
fn group(machines: u8, step: &Step, world: &mut World) -> Result<Vec<Line>, NoneDue>
    requires law { RunsGo }
    requires running { IsRunning world.old }
    requires groups { world.old.groups < 2 ^ 127 }
    requires machines { length world.old.boot.machines ≡ machines }
    ensures held { OnOk result (can_hold machines step.now ≡ true) }
    ensures does { IfOk result (λ lines. Does world.old.boot (world_state world.old) step.now lines.items (world_state world.new)) }
    ensures fits { IfOk result (λ lines. All LineFits lines.items) }
    ensures running { OnOk result (IsRunning world.new) }
    ensures counts { OnOk result (world.new.groups ≡ world.old.groups + 1) }
    ensures boot { world.new.boot ≡ world.old.boot }
    ensures none { IfErr result (LacksGroup world.old.boot (world_state world.old) step.now) }
{
    if !can_hold(machines, step) {
        return Err(NoneDue::Unheld);
    }
    match step_on(world, step) {
        Ok(lines) => Ok(lines),
        Err(Stop::Worn { from, to }) => Err(NoneDue::Worn { from, to }),
        Err(Stop::NoMemory(no)) => Err(NoneDue::NoMemory(no)),
    }
}

/// What a text is refused for at a head that stands in the line of this number, where no group is due.
#[inline(never)]
fn refuse_head(none: NoneDue, head: Step, number: u64) -> JudgeError
    ensures { result ≡ told_of_none none head number }
{
    match none {
        NoneDue::Unheld => refuse(number, TraceFault::NotDue, WasDue::Head),
        NoneDue::Worn { from, to } => {
            refuse(number, TraceFault::NotDue, WasDue::Worn { from, to, head })
        }
        NoneDue::NoMemory(no) => JudgeError::NoMemory(no),
    }
}

/// Whether a schedule for so many machines can hold a directive, whatever the number of its packet.
fn can_hold(machines: u8, step: &Step) -> bool
    ensures { result ≡ can_hold machines step.now }
{
    match *step {
        Step::Turn(m) => m < machines,
        Step::Tick(m) => m < machines,
        Step::Deliver { a, b, .. } => a < machines && b < machines && a != b,
        Step::Migrate { pid, to } => pid.home < machines && to < machines,
        Step::CallOff { pid, at } => pid.home < machines && at < machines,
    }
}

/// Whether the lines at the end stand behind whole groups, where a text isn't over. No head begins it.
fn is_ended(world: &World, text: &[u8], number: u64, page: &mut Vec<u8>) -> Result<bool, JudgeError>
    requires law { RunsGo }
    requires running { IsRunning world.now }
    requires no_head { head_of_line (first_line (pieces 10 text.now)) ≡ None }
    requires room { number + length text.now < 2 ^ 62 }
    ensures verdict { (k : Course) (es : List TheStep) (gs : List (List TheLine)) → SaysAs world.now.boot k → Went world.now.boot es gs (world_state world.now) →
        IfOk result (λ ended. judged_from k (judge.Head es) number (pieces 10 text.now) ≡ good_verdict (length es) ended) }
    ensures text { IfOk result (λ ended. text.now ≡ text_behind ended (ends_of world.now.boot (world_state world.now))) }
    ensures fits { IfOk result (λ ended. EndsFit ended (ends_of world.now.boot (world_state world.now))) }
    ensures refused { IfErr result (JudgedThere world.now.boot (world_state world.now) number (pieces 10 text.now)) }
{
    if text.is_empty() {
        return Ok(false);
    }
    if !begins_end(text) {
        return Err(refuse(number, unless_none(text, TraceFault::NotDue), WasDue::Head));
    }
    match end_lines(world) {
        Ok(ends) => match follow_ends(ends.as_slice(), text, number, page) {
            Ok(()) => Ok(true),
            Err(CheckError::Refused { line, fault }) => {
                let index = (line - number) as usize;
                Err(refuse(line, fault, due_end(ends, index)))
            }
            Err(CheckError::NoMemory(no)) => Err(JudgeError::NoMemory(no)),
        },
        Err(no) => Err(JudgeError::NoMemory(no)),
    }
}

/// Whether a text begins with the line `final`.
fn begins_end(text: &[u8]) -> bool
    ensures { result ≡ is_final (first_line (pieces 10 text.now)) }
{
    let (line, others) = split(text, b'\n');
    match others {
        Some(_) => line == "final".as_bytes(),
        None => false,
    }
}
