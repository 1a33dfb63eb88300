//! What an explanation is made of.
ghost use Rattle.std.specs.Prelude.{◌≡◌, ◌++◌, OnOk, map};
ghost use Rattle.std.specs.List.{concat};
ghost use Rattle.dm_explain.specs.Parts.{integer_text, integer_word, part_text, quoted, shown, shown_byte};

use dm_link::Pid;
use dm_memory::{NoMemory, extend_from_slice, push};
use dm_text::word::{Word, put_bare};

/// A part of an explanation.
#[derive(Clone, Copy)]
pub enum Part<'a> {
    /// Words of the program.
    Text(&'static str),
    Count(u64),
    Number(u32),
    Byte(u8),
    Process(Pid),
    /// An integer of a file, nothing where there is none.
    Integer(Option<i64>),
    /// A name of a file, as it is.
    Name(&'a [u8]),
    /// A text of a file, in quotation marks.
    Quoted(&'a str),
    /// A line of a file, in quotation marks.
    Line(&'a [u8]),
}

/// Writes parts, one behind another.
pub fn put_parts(into: &mut Vec<u8>, parts: &[Part]) -> Result<(), NoMemory>
    ensures { OnOk result (into.new.items ≡ into.old.items ++ concat (map part_text parts.now)) }
{
    for part in parts {
        put_part(into, part)?;
    }
    Ok(())
}

/// Writes a part.
#[tactic(auto, unfolding(crate::specs::Parts::integer_text))]
fn put_part(into: &mut Vec<u8>, part: &Part) -> Result<(), NoMemory>
    ensures { OnOk result (into.new.items ≡ into.old.items ++ part_text part.now) }
{
    match *part {
        Part::Text(text) => put(into, text),
        Part::Count(n) => put_bare(into, &Word::Wide(n)),
        Part::Number(n) => put_bare(into, &Word::Number(n)),
        Part::Byte(n) => put_bare(into, &Word::Byte(n)),
        Part::Process(pid) => put_bare(into, &Word::Process(pid)),
        Part::Integer(Some(n)) => put_integer(into, n),
        Part::Integer(None) => Ok(()),
        Part::Name(name) => extend_from_slice(into, name),
        Part::Quoted(text) => put_quoted(into, text.as_bytes()),
        Part::Line(line) => put_quoted(into, line),
    }
}

/// Writes words of the program.
pub fn put(into: &mut Vec<u8>, text: &'static str) -> Result<(), NoMemory>
    ensures { OnOk result (into.new.items ≡ into.old.items ++ text.now) }
{
    put_bare(into, &Word::Name(text))
}

/// Writes an integer.
fn put_integer(into: &mut Vec<u8>, n: i64) -> Result<(), NoMemory>
    ensures { OnOk result (into.new.items ≡ into.old.items ++ integer_word n) }
{
    if n < 0 {
        put(into, "-")?;
    }
    put_bare(into, &Word::Wide(n.unsigned_abs()))
}

/// Writes a text of a file in quotation marks.
#[tactic(auto, unfolding(crate::specs::Parts::quoted))]
fn put_quoted(into: &mut Vec<u8>, text: &[u8]) -> Result<(), NoMemory>
    ensures { OnOk result (into.new.items ≡ into.old.items ++ quoted text.now) }
{
    put(into, "\"")?;
    put_shown(into, text)?;
    put(into, "\"")
}

/// Writes a text of a file; a byte that isn't printed is shown as a question mark.
#[tactic(auto, unfolding(crate::specs::Parts::shown))]
fn put_shown(into: &mut Vec<u8>, text: &[u8]) -> Result<(), NoMemory>
    ensures { OnOk result (into.new.items ≡ into.old.items ++ shown text.now) }
{
    for byte in text {
        push(into, shown_byte(*byte))?;
    }
    Ok(())
}

/// A byte as it is shown.
fn shown_byte(b: u8) -> u8
    ensures { result ≡ shown_byte b }
{
    if 32 <= b && b <= 126 { b } else { b'?' }
}
