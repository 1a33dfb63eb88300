//! What was due where a text is refused.
ghost use Rattle.std.specs.Prelude.{◌≡◌, drop};
ghost use Rattle.dm_check.specs.DueThere.{end_told};
ghost use Rattle.dm_check.specs.Judged.{strayed};

use crate::fault::TraceFault;
use crate::follow::Stray;
use dm_line::end_line::EndLine;
use dm_line::line::Line;
use dm_memory::NoMemory;
use dm_schedule::Step;

/// A group that was begun: the line of its head, counted from 1, and the directive of that.
#[derive(Clone, Copy)]
pub struct Group {
    pub line: u64,
    pub head: Step,
}

/// What was due in the line at which a text is refused.
#[derive(Drop)]
pub enum WasDue {
    /// This line of a group.
    Line { line: Line, group: Group },
    /// This line of a group in place of the line before, which says of a process that it ran fewer instructions than it does: no
    /// line can follow that one.
    Before { line: Line, group: Group },
    /// A head, or `final`.
    Head,
    /// No group: that of the head that stands there would route a message between two machines that count as many as they may.
    Worn { from: u8, to: u8, head: Step },
    /// This line at the end.
    End(EndLine),
    /// Nothing: the text stands whole before it.
    Nothing,
}

/// A refused text: its first bad line, counted from 1, what is wrong with it, and what was due there; where the text ends too
/// early, the line behind its last.
#[derive(Drop)]
pub struct Refusal {
    pub line: u64,
    pub fault: TraceFault,
    pub due: WasDue,
}

/// Why a text isn't what the system prints, with what was due there.
#[derive(Drop)]
pub enum JudgeError {
    Refused(Refusal),
    NoMemory(NoMemory),
}

/// A refusal at this line.
pub(crate) fn refuse(line: u64, fault: TraceFault, due: WasDue) -> JudgeError
    ensures { result ≡ JudgeError.Refused (record { line = line; fault = fault; due = due }) }
{
    JudgeError::Refused(Refusal { line, fault, due })
}

/// What a text is refused for that strays from this group.
pub(crate) fn strayed(stray: Stray, group: Group) -> JudgeError
    ensures { result ≡ strayed stray group }
{
    match stray {
        Stray::Here { line, fault, due } => {
            refuse(line, fault, WasDue::Line { line: due, group })
        }
        Stray::Behind { line, fault, due } => {
            refuse(line, fault, WasDue::Before { line: due, group })
        }
        Stray::NoMemory(no) => JudgeError::NoMemory(no),
    }
}

/// What was due behind so many lines at the end.
pub(crate) fn due_end(ends: Vec<EndLine>, index: usize) -> WasDue
    ensures { result ≡ end_told (drop index ends.items) }
{
    let mut ends = ends;
    if index < ends.len() {
        WasDue::End(ends.swap_remove(index))
    } else {
        WasDue::Nothing
    }
}
