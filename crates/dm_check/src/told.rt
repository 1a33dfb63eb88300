//! A line that isn't the one that is due.
ghost use Rattle.std.specs.Prelude.{◌≡◌};
ghost use Rattle.dm_text.specs.Reading.{pieces};
ghost use Rattle.dm_check.specs.Judge.{falls_as_step, told, told_count, told_label};
ghost use Rattle.dm_check.specs.Checking.{fault_of, taken_of};

use crate::classes::{tells_call, tells_made, tells_reception, told_ran};
use crate::fault::TraceFault;
use dm_line::line::Line;
use dm_link::Pid;
use dm_onekernel::Label;

/// What another line comes to than the one that is due.
#[derive(Clone, Copy)]
pub(crate) enum Other {
    /// It is a step of this process, which ran fewer instructions by it, and no line can follow.
    Fewer(Pid),
    Falls(TraceFault),
}

/// What the words of another line come to than the one that is due.
pub(crate) fn told(quantum: u32, due: &Line, line: &[u8]) -> Other
    ensures { taken_of result ≡ told quantum due.now (pieces 32 line.now) }
{
    match *due {
        Line::Label(label) => told_label(quantum, label, line),
        _ => Other::Falls(TraceFault::NotDue),
    }
}

/// The same where a step of the kernel without machines is due.
fn told_label(quantum: u32, label: Label, line: &[u8]) -> Other
    ensures { taken_of result ≡ told_label quantum label (pieces 32 line.now) }
{
    match label {
        Label::Ran { pid, count } => told_count(quantum, pid, count, told_ran(pid, line)),
        Label::Call { pid, .. } => as_step(tells_call(pid, line)),
        Label::Send { pid, .. } => as_step(tells_call(pid, line)),
        Label::Wait { pid } => as_step(tells_call(pid, line)),
        Label::Out { pid, .. } => as_step(tells_call(pid, line)),
        Label::End { pid, .. } => as_step(tells_call(pid, line)),
        Label::Receive { pid, id } => as_step(tells_reception(pid, id, line)),
        Label::Refuse { pid, id, .. } => as_step(tells_reception(pid, id, line)),
        Label::Created { id, .. } => as_step(tells_made(id, line)),
        _ => Other::Falls(TraceFault::NotDue),
    }
}

/// What it comes to where a process is told to have run otherwise than so many instructions.
fn told_count(quantum: u32, pid: Pid, count: u32, told: Option<u32>) -> Other
    ensures { taken_of result ≡ told_count quantum pid count told }
{
    match told {
        None => Other::Falls(TraceFault::NotDue),
        Some(n) if n < count => Other::Fewer(pid),
        Some(n) => as_step(count < n && n <= quantum),
    }
}

/// What a line comes to that isn't due: whether it is one of those that might be a step.
fn as_step(might_be: bool) -> Other
    ensures { taken_of result ≡ falls_as_step might_be }
{
    Other::Falls(step_fault(might_be))
}

/// What is wrong with it.
pub(crate) fn step_fault(might_be: bool) -> TraceFault
    ensures { fault_of result ≡ falls_as_step might_be }
{
    if might_be {
        TraceFault::NotAStep
    } else {
        TraceFault::NotDue
    }
}
