//! Writing what is said of a refused trace.
ghost use Rattle.std.specs.Prelude.{◌≡◌, ◌++◌, ◌-◌, OnOk, codes, decimal, drop, option_map};
ghost use Rattle.dm_text.specs.Reading.{pieces};
ghost use Rattle.dm_judge.specs.Refusals.{due_line_told, due_told, due_words, fault_told, fault_words, group_told, line_told, number_told, pair_told, pieces_of, refusal_told, shown, shown_byte, standing_told, where_told, worn_told};

use dm_check::{Group, Refusal, TraceFault, WasDue};
use dm_line::line::Line;
use dm_memory::{NoMemory, push};
use dm_reading::split;
use dm_schedule::Step;
use dm_text::text::{write_end, write_line};
use dm_text::word::{Word, put_bare};

/// The most bytes of a line that are told.
const LONGEST_TOLD: usize = 95;

/// Writes what is said of a refusal of a trace of these bytes.
#[tactic(auto, unfolding(crate::specs::Refusals::refusal_told))]
pub fn put_refusal(into: &mut Vec<u8>, trace: &[u8], refusal: &Refusal) -> Result<(), NoMemory>
    ensures { OnOk result (into.new.items ≡ into.old.items ++ refusal_told trace.now refusal.now) }
{
    put_where(into, trace, refusal.line)?;
    put_fault(into, refusal.fault)?;
    put_due(into, refusal.line, &refusal.due)
}

/// Writes words of the program.
fn put(into: &mut Vec<u8>, text: &'static str) -> Result<(), NoMemory>
    ensures { OnOk result (into.new.items ≡ into.old.items ++ text.now) }
{
    put_bare(into, &Word::Name(text))
}

/// Writes a number.
fn put_count(into: &mut Vec<u8>, n: u64) -> Result<(), NoMemory>
    ensures { OnOk result (into.new.items ≡ into.old.items ++ decimal n) }
{
    put_bare(into, &Word::Wide(n))
}

/// Writes the number of a line.
#[tactic(auto, unfolding(crate::specs::Refusals::number_told))]
fn put_number(into: &mut Vec<u8>, line: u64) -> Result<(), NoMemory>
    ensures { OnOk result (into.new.items ≡ into.old.items ++ number_told line) }
{
    put(into, "line ")?;
    put_count(into, line)
}

/// Writes the first bad line, with its number.
#[tactic(auto, unfolding(crate::specs::Refusals::where_told))]
fn put_where(into: &mut Vec<u8>, trace: &[u8], line: u64) -> Result<(), NoMemory>
    ensures { OnOk result (into.new.items ≡ into.old.items ++ where_told trace.now line) }
{
    put_number(into, line)?;
    put(into, ": ")?;
    put_standing(into, rest_at(trace, line))?;
    put(into, "\n")
}

/// The text from a line on, counted from 1; nothing where there are fewer lines.
fn rest_at(text: &[u8], line: u64) -> Option<&[u8]>
    ensures { pieces_of (option_map (λ t. t.now) result) ≡ drop (line - 1) (pieces 10 text.now) }
{
    let mut rest = text;
    let mut left = line.saturating_sub(1);
    'lines: while left > 0 {
        let (_, others) = split(rest, b'\n');
        match others {
            Some(more) => rest = more,
            None => return None,
        }
        left -= 1;
    }
    Some(rest)
}

/// Writes the line with which the rest of a text begins, or that the text ends.
fn put_standing(into: &mut Vec<u8>, rest: Option<&[u8]>) -> Result<(), NoMemory>
    ensures { OnOk result (into.new.items ≡ into.old.items ++ standing_told (pieces_of (option_map (λ t. t.now) rest.entry))) }
{
    match rest {
        None => put(into, "the text ends"),
        Some(text) => {
            if text.is_empty() {
                return put(into, "the text ends");
            }
            let (line, _) = split(text, b'\n');
            put_line(into, line)
        }
    }
}

/// Writes a line of a text, or its beginning.
#[tactic(auto, unfolding(crate::specs::Refusals::line_told))]
fn put_line(into: &mut Vec<u8>, line: &[u8]) -> Result<(), NoMemory>
    ensures { OnOk result (into.new.items ≡ into.old.items ++ line_told line.now) }
{
    if line.len() <= LONGEST_TOLD {
        return put_shown(into, line);
    }
    let first = &line[..LONGEST_TOLD];
    put_shown(into, first)?;
    put(into, "..")
}

/// Writes bytes of a text; one that isn't printed is shown as a question mark.
#[tactic(auto, unfolding(crate::specs::Refusals::shown), using(crate::proofs::Pieces::map_lemmas))]
fn put_shown(into: &mut Vec<u8>, text: &[u8]) -> Result<(), NoMemory>
    ensures { OnOk result (into.new.items ≡ into.old.items ++ shown text.now) }
{
    for byte in text {
        push(into, shown_byte(*byte))?;
    }
    Ok(())
}

/// A byte as it is shown.
fn shown_byte(b: u8) -> u8
    ensures { result ≡ shown_byte b }
{
    if 32 <= b && b <= 126 { b } else { b'?' }
}

/// Writes what is wrong with the line.
#[tactic(auto, unfolding(crate::specs::Refusals::fault_told))]
fn put_fault(into: &mut Vec<u8>, fault: TraceFault) -> Result<(), NoMemory>
    ensures { OnOk result (into.new.items ≡ into.old.items ++ fault_told fault) }
{
    put(into, fault_words(fault))?;
    put(into, " (why ")?;
    put_count(into, u64::from(fault.number()))?;
    put(into, ")\n")
}

/// What is wrong with a line, in words.
fn fault_words(fault: TraceFault) -> &'static str
    ensures { result.now ≡ fault_words fault }
{
    match fault {
        TraceFault::NotALine => "not a line",
        TraceFault::NotDue => "not the line that is due",
        TraceFault::NotAStep => "not what the process does",
        TraceFault::NotTheEnd => "not where everything stands",
    }
}

/// Writes what was due in the line of this number.
#[tactic(auto, unfolding(crate::specs::Refusals::due_told))]
fn put_due(into: &mut Vec<u8>, line: u64, due: &WasDue) -> Result<(), NoMemory>
    ensures { OnOk result (into.new.items ≡ into.old.items ++ due_told line due.now) }
{
    put(into, "due: ")?;
    put_due_words(into, line, due)
}

/// Writes the words of what was due.
fn put_due_words(into: &mut Vec<u8>, line: u64, due: &WasDue) -> Result<(), NoMemory>
    ensures { OnOk result (into.new.items ≡ into.old.items ++ due_words line due.now) }
{
    match due {
        WasDue::Line { line: due, group } => put_due_line(into, due, group),
        WasDue::Before { line: due, group } => {
            put_number(into, line.saturating_sub(1))?;
            put(into, ", ")?;
            put_due_line(into, due, group)
        }
        WasDue::Head => put(into, "a head, or final\n"),
        WasDue::Worn { from, to, head } => {
            put_worn(into, *from, *to)?;
            put_group(into, line, *head)
        }
        WasDue::End(end) => write_end(end, into),
        WasDue::Nothing => put(into, "nothing\n"),
    }
}

/// Writes a line of a group, and the head of that.
fn put_due_line(into: &mut Vec<u8>, due: &Line, group: &Group) -> Result<(), NoMemory>
    ensures { OnOk result (into.new.items ≡ into.old.items ++ due_line_told due.now group.now) }
{
    write_line(due, into)?;
    put_group(into, group.line, group.head)
}

/// Writes that no group is due, since a pair is worn.
#[tactic(auto, unfolding(crate::specs::Refusals::worn_told))]
fn put_worn(into: &mut Vec<u8>, from: u8, to: u8) -> Result<(), NoMemory>
    ensures { OnOk result (into.new.items ≡ into.old.items ++ worn_told from to) }
{
    put(into, "no group, the pair ")?;
    put_pair(into, from, to)?;
    put(into, " is worn\n")
}

/// Writes a pair of machines.
#[tactic(auto, unfolding(crate::specs::Refusals::pair_told))]
fn put_pair(into: &mut Vec<u8>, from: u8, to: u8) -> Result<(), NoMemory>
    ensures { OnOk result (into.new.items ≡ into.old.items ++ pair_told from to) }
{
    put_count(into, u64::from(from))?;
    put(into, " ")?;
    put_count(into, u64::from(to))
}

/// Writes the head of a group, with the number of its line.
#[tactic(auto, unfolding(crate::specs::Refusals::group_told))]
fn put_group(into: &mut Vec<u8>, line: u64, head: Step) -> Result<(), NoMemory>
    ensures { OnOk result (into.new.items ≡ into.old.items ++ group_told line head) }
{
    put(into, "group: ")?;
    put_number(into, line)?;
    put(into, ", ")?;
    write_line(&Line::Head(head), into)
}
