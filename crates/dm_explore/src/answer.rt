//! What comes of exploring, and how it is told.
ghost use Rattle.std.specs.Prelude.{◌≡◌, ◌++◌, OnOk, map};
ghost use Rattle.std.specs.Fmt.{decimal};
ghost use Rattle.dm_line.specs.declared.line.Line.TheVariants as line;
ghost use Rattle.dm_text.specs.Text.{text_of_lines};
ghost use Rattle.dm_explore.specs.Answers.{Found, NoneWithin, Undecided, answer_said};
ghost use Rattle.dm_explore.specs.AnswerText.{answer_text, schedules_told};

use dm_line::line::Line;
use dm_memory::{NoMemory, extend_from_slice};
use dm_schedule::Step;
use dm_text::text::write_line;
use itoa::Buffer;

/// What comes of exploring.
#[derive(Drop)]
pub enum Answer {
    /// The first of the shortest schedules in which it is found.
    Found(Vec<Step>),
    /// There is none within so many directives; so many schedules were tried.
    None { depth: u8, tried: u32 },
    /// More schedules than so many would be tried.
    Undecided { most: u32 },
}

/// Writes an answer at the end of a text, so that it is a schedule.
pub fn write_answer(answer: &Answer, into: &mut Vec<u8>) -> Result<(), NoMemory>
    ensures { OnOk result (into.new.items ≡ into.old.items ++ answer_text (answer_said answer.now)) }
{
    match answer {
        Answer::Found(steps) => write_found(steps.as_slice(), into),
        Answer::None { depth, tried } => write_none(*depth, *tried, into),
        Answer::Undecided { most } => write_undecided(*most, into),
    }
}

/// Writes the schedule that was found.
fn write_found(steps: &[Step], into: &mut Vec<u8>) -> Result<(), NoMemory>
    ensures { OnOk result (into.new.items ≡ into.old.items ++ answer_text (Found steps.now)) }
{
    extend_from_slice(into, b"# found in ")?;
    write_number(steps.len() as u64, into)?;
    extend_from_slice(into, b" directives\n")?;
    write_heads(steps, into)
}

/// Writes directives, a line each.
fn write_heads(steps: &[Step], into: &mut Vec<u8>) -> Result<(), NoMemory>
    ensures { OnOk result (into.new.items ≡ into.old.items ++ text_of_lines (map line.Head steps.now)) }
{
    for step in steps {
        write_line(&Line::Head(*step), into)?;
    }
    Ok(())
}

/// Writes that there is none.
fn write_none(depth: u8, tried: u32, into: &mut Vec<u8>) -> Result<(), NoMemory>
    ensures { OnOk result (into.new.items ≡ into.old.items ++ answer_text (NoneWithin depth tried)) }
{
    extend_from_slice(into, b"# none within ")?;
    write_number(u64::from(depth), into)?;
    extend_from_slice(into, b" directives: ")?;
    write_schedules(tried, into)
}

/// Writes that it is undecided.
fn write_undecided(most: u32, into: &mut Vec<u8>) -> Result<(), NoMemory>
    ensures { OnOk result (into.new.items ≡ into.old.items ++ answer_text (Undecided most)) }
{
    extend_from_slice(into, b"# undecided: ")?;
    write_schedules(most, into)
}

/// Writes how many schedules were tried.
fn write_schedules(count: u32, into: &mut Vec<u8>) -> Result<(), NoMemory>
    ensures { OnOk result (into.new.items ≡ into.old.items ++ schedules_told count) }
{
    write_number(u64::from(count), into)?;
    extend_from_slice(into, b" schedules\n")
}

/// Writes a number in decimal digits.
fn write_number(n: u64, into: &mut Vec<u8>) -> Result<(), NoMemory>
    ensures { OnOk result (into.new.items ≡ into.old.items ++ decimal n) }
{
    let mut digits = Buffer::new();
    extend_from_slice(into, digits.format(n).as_bytes())
}
