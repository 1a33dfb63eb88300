//! Lines that are due, compared with those of a text.
ghost use Rattle.std.specs.Prelude.{◌≡◌, ◌∷◌, ◌++◌, ◌+◌, ◌^◌, ◌<◌, ℕ, List, IfErr, IfNone, IfOk, IfSome, OnOk, length};
ghost use Rattle.std.specs.List.{All};
ghost use Rattle.dm_line.specs.declared.end_line.EndLine.{EndLine as TheEndLine};
ghost use Rattle.dm_line.specs.declared.line.Line.{Line as TheLine};
ghost use Rattle.dm_schedule.specs.declared.Step.{Step as TheStep};
ghost use Rattle.dm_text.specs.Fits.{EndFits, LineFits};
ghost use Rattle.dm_text.specs.Reading.{pieces};
ghost use Rattle.dm_text.specs.Text.{end_text, text as line_text, text_of_ends, text_of_lines};
ghost use Rattle.dm_shape.specs.Full.{IsFull};
ghost use Rattle.dm_check.specs.Checking.{FallsBy, RefusedSo, StandsAs};
ghost use Rattle.dm_check.specs.Judge as judge;
ghost use Rattle.dm_check.specs.Judge.{Course, Due, Ended, Refused, behind_line, judged_from};
ghost use Rattle.dm_check.specs.Judged.{EndsStray, GroupStrays, IsAt, IsStray, LineStrays, StrayedSo};

use crate::classes::tells_call;
use crate::fault::TraceFault;
use crate::refusal::{Group, JudgeError, strayed};
use crate::stop::CheckError;
use crate::told::{Other, step_fault, told};
use dm_line::end_line::EndLine;
use dm_line::line::Line;
use dm_link::Pid;
use dm_memory::NoMemory;
use dm_reading::split;
use dm_schedule::Step;
use dm_shape::has_shape;
use dm_text::text::{write_end, write_line, write_over};

/// Why a text strays from the lines of a group.
#[derive(Clone, Copy)]
pub(crate) enum Stray {
    /// It is refused at this line, where this one was due.
    Here {
        line: u64,
        fault: TraceFault,
        due: Line,
    },
    /// It is refused at this line, since the one before, where this one was due, says that the process ran fewer instructions.
    Behind {
        line: u64,
        fault: TraceFault,
        due: Line,
    },
    NoMemory(NoMemory),
}

/// The text behind the lines of a group, if it begins with them. They are written over the page.
pub(crate) fn behind_lines<'a>(
    lines: &[Line],
    text: &'a [u8],
    page: &mut Vec<u8>,
) -> Result<Option<&'a [u8]>, NoMemory>
    ensures some { IfOk result (λ others. IfSome others (λ rest. text.now ≡ text_of_lines lines.now ++ rest.now)) }
    ensures none { IfOk result (λ others. IfNone others ((rest : List ℕ) → text.now ≡ text_of_lines lines.now ++ rest → ⊥)) }
{
    let end = write_over(lines, page)?;
    Ok(behind(text, &page.as_slice()[..end]))
}

/// What a text is refused for that begins with the head of a group, in the line of this number, and not with all its lines:
/// they are followed one by one.
#[inline(never)]
pub(crate) fn refuse_stray(
    quantum: u32,
    head: Step,
    lines: &[Line],
    text: &[u8],
    number: u64,
    page: &mut Vec<u8>,
) -> JudgeError
    requires fits { All LineFits lines.now }
    requires room { number + length text.now < 2 ^ 62 }
    requires other { (rest : List ℕ) → text.now ≡ text_of_lines lines.now ++ rest → ⊥ }
    ensures { IsStray quantum head lines.now text.now number result }
{
    match follow_lines(quantum, lines, text, number, page) {
        Ok(_) => unreachable!(),
        Err(stray) => {
            let group = Group { line: number, head };
            strayed(stray, group)
        }
    }
}

/// Follows the lines of a group one by one.
fn follow_lines<'a>(
    quantum: u32,
    lines: &[Line],
    text: &'a [u8],
    number: u64,
    page: &mut Vec<u8>,
) -> Result<&'a [u8], Stray>
    requires fits { All LineFits lines.now }
    requires room { number + length text.now < 2 ^ 62 }
    ensures read { IfOk result (λ rest. text.now ≡ text_of_lines lines.now ++ rest.now) }
    ensures refused { (c : Course) (es : List TheStep) → c.quantum ≡ quantum →
        IfErr result (StrayedSo (judged_from c (behind_line lines.now es) number (pieces 10 text.now))) }
    ensures stray { IfErr result (GroupStrays quantum lines.now text.now number) }
{
    let mut rest = text;
    let mut at = number;
    'lines: for due in lines {
        rest = follow_line(quantum, due, rest, at, page)?;
        at += 1;
    }
    Ok(rest)
}

/// Follows one line through a text that begins with the line of this number.
fn follow_line<'a>(
    quantum: u32,
    due: &Line,
    text: &'a [u8],
    number: u64,
    page: &mut Vec<u8>,
) -> Result<&'a [u8], Stray>
    requires { number + length text.now < 2 ^ 62 }
    ensures read { IfOk result (λ rest. text.now ≡ line_text due.now ++ rest.now) }
    ensures goes { (c : Course) (ls : List TheLine) (es : List TheStep) → LineFits due.now → IfOk result (λ rest.
        judged_from c (judge.InGroup due.now ls es) number (pieces 10 text.now) ≡ judged_from c (behind_line ls es) (number + 1) (pieces 10 rest.now)) }
    ensures refused { (c : Course) (ls : List TheLine) (es : List TheStep) → c.quantum ≡ quantum →
        IfErr result (StrayedSo (judged_from c (judge.InGroup due.now ls es) number (pieces 10 text.now))) }
    ensures stray { IfErr result (LineStrays quantum due.now text.now number) }
{
    page.clear();
    if let Err(no) = write_line(due, page) {
        return Err(Stray::NoMemory(no));
    }
    match behind(text, page.as_slice()) {
        Some(rest) => Ok(rest),
        None => Err(otherwise(quantum, due, text, number)),
    }
}

/// Follows the lines at the end of a run through a text whose first line has this number: behind them nothing may stand.
pub(crate) fn follow_ends(
    ends: &[EndLine],
    text: &[u8],
    number: u64,
    page: &mut Vec<u8>,
) -> Result<(), CheckError>
    requires fits { All EndFits ends.now }
    requires room { number + length text.now < 2 ^ 62 }
    ensures read { OnOk result (text.now ≡ text_of_ends ends.now) }
    ensures ended { (c : Course) (n : ℕ) → All IsFull ends.now → OnOk result (judged_from c (judge.End ends.now n) number (pieces 10 text.now) ≡ Ended n) }
    ensures refused { (c : Course) (n : ℕ) → All IsFull ends.now → IfErr result (RefusedSo (judged_from c (judge.End ends.now n) number (pieces 10 text.now))) }
    ensures stray { IfErr result (EndsStray ends.now text.now number) }
{
    let mut rest = text;
    let mut at = number;
    'ends: for due in ends {
        rest = follow_end(due, rest, at, page)?;
        at += 1;
    }
    if rest.is_empty() {
        Ok(())
    } else {
        Err(refused(at, unless_none(rest, TraceFault::NotTheEnd)))
    }
}

/// Follows one of the lines at the end of a run through a text that begins with the line of this number.
fn follow_end<'a>(
    due: &EndLine,
    text: &'a [u8],
    number: u64,
    page: &mut Vec<u8>,
) -> Result<&'a [u8], CheckError>
    ensures read { IfOk result (λ rest. text.now ≡ end_text due.now ++ rest.now) }
    ensures refused { (c : Course) (others : List TheEndLine) (n : ℕ) →
        IfErr result (RefusedSo (judged_from c (judge.End (due.now ∷ others) n) number (pieces 10 text.now))) }
    ensures there { IfErr result (IsAt number) }
{
    page.clear();
    if let Err(no) = write_end(due, page) {
        return Err(CheckError::NoMemory(no));
    }
    match behind(text, page.as_slice()) {
        Some(rest) => Ok(rest),
        None => Err(refused(number, unless_none(text, TraceFault::NotTheEnd))),
    }
}

/// The text behind its beginning, if it begins so.
fn behind<'a>(text: &'a [u8], begin: &[u8]) -> Option<&'a [u8]>
    ensures some { IfSome result (λ others. text.now ≡ begin.now ++ others.now) }
    ensures none { IfNone result ((others : List ℕ) → text.now ≡ begin.now ++ others → ⊥) }
{
    if text.starts_with(begin) {
        Some(&text[begin.len()..])
    } else {
        None
    }
}

/// A refusal.
pub(crate) fn refused(line: u64, fault: TraceFault) -> CheckError
    ensures { result ≡ CheckError.Refused line fault }
{
    CheckError::Refused { line, fault }
}

/// What is wrong at the beginning of a text where this is wrong with each line of the format, and with the end of the text.
pub(crate) fn unless_none(text: &[u8], fault: TraceFault) -> TraceFault
    ensures { (c : Course) (due : Due) (number : ℕ) → FallsBy c due number text.now fault →
        judged_from c due number (pieces 10 text.now) ≡ Refused number result }
{
    match stands(text) {
        Standing::Nothing => fault,
        Standing::Line(_, _) => fault,
        Standing::NoLine => TraceFault::NotALine,
    }
}

/// What stands at the beginning of a text.
#[derive(Clone, Copy)]
pub(crate) enum Standing<'a> {
    /// The text is empty.
    Nothing,
    /// A line of the format, and the text behind its line feed.
    Line(&'a [u8], &'a [u8]),
    /// Something else.
    NoLine,
}

/// What stands at the beginning of a text.
fn stands(text: &[u8]) -> Standing<'_>
    ensures { StandsAs text.now result }
{
    if text.is_empty() {
        return Standing::Nothing;
    }
    let (line, others) = split(text, b'\n');
    match others {
        None => Standing::NoLine,
        Some(others) => {
            if has_shape(line) {
                Standing::Line(line, others)
            } else {
                Standing::NoLine
            }
        }
    }
}

/// How a text strays that doesn't begin with the line that is due.
fn otherwise(quantum: u32, due: &Line, text: &[u8], number: u64) -> Stray
    requires other { (rest : List ℕ) → text.now ≡ line_text due.now ++ rest → ⊥ }
    requires room { number < 2 ^ 62 }
    ensures refused { (c : Course) (ls : List TheLine) (es : List TheStep) → c.quantum ≡ quantum →
        StrayedSo (judged_from c (judge.InGroup due.now ls es) number (pieces 10 text.now)) result }
    ensures stray { LineStrays quantum due.now text.now number result }
{
    match stands(text) {
        Standing::Nothing => here(number, TraceFault::NotDue, *due),
        Standing::NoLine => here(number, TraceFault::NotALine, *due),
        Standing::Line(line, others) => match told(quantum, due, line) {
            Other::Falls(fault) => here(number, fault, *due),
            Other::Fewer(pid) => Stray::Behind {
                line: number + 1,
                fault: behind_fewer(pid, others),
                due: *due,
            },
        },
    }
}

/// It strays at this line.
fn here(line: u64, fault: TraceFault, due: Line) -> Stray
    ensures { result ≡ Stray.Here line fault due }
{
    Stray::Here { line, fault, due }
}

/// What is wrong behind a line that tells of fewer instructions of a process than are due.
fn behind_fewer(pid: Pid, text: &[u8]) -> TraceFault
    ensures { (c : Course) (number : ℕ) → judged_from c (judge.Nothing pid) number (pieces 10 text.now) ≡ Refused number result }
{
    match stands(text) {
        Standing::Nothing => TraceFault::NotDue,
        Standing::NoLine => TraceFault::NotALine,
        Standing::Line(line, _) => step_fault(tells_call(pid, line)),
    }
}
