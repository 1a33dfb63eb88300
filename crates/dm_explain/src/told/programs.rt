//! What is said of the lines of an image's text that are refused.
ghost use Rattle.std.specs.Prelude.{◌≡◌, ◌++◌, ◌∷◌, ◌<◌, ◌^◌, [], IfSome, OnOk, codes, option_and_then, option_copied, option_map};
ghost use Rattle.std.specs.Fmt.{decimal};
ghost use Rattle.std.specs.List.{concat};
ghost use Rattle.toml.specs.View.{view};
ghost use Rattle.dm_reading.specs.Lines.{source_lines};
ghost use Rattle.dm_asm.specs.Assembled.{assembled, places_of};
ghost use Rattle.dm_asm.specs.Labels.{place_in};
ghost use Rattle.dm_boot.specs.Tables.{text_at};
ghost use Rattle.dm_explain.specs.BadSources.{bad_word_in, bad_word_of, last_of, source_of};
ghost use Rattle.dm_explain.specs.TextPlace.{line_before};
ghost use Rattle.dm_explain.specs.Told.{again_told, given_label_note, image_line_told, label_note, later_lines, line_fault_told, literal_note, note_told, place_told, program_told, refusal_told, rule_title, whole_program_told};

use crate::part::{Part, put, put_parts};
use crate::program::{line_before, line_why};
use crate::source::{Last, Wrong, bad_word_in, statement_of};
use crate::told::refused::put_refused;
use dm_asm::labels::{Labels, defined_by, line_counted};
use dm_asm::{AssembleError, Why, assemble};
use dm_boot::BootRule;
use dm_boot::tables::text_at;
use dm_memory::NoMemory;
use dm_reading::first_source_line;
use std::alloc::Global;
use toml::Value;

/// An image's text, of whose lines is told.
#[derive(Clone, Copy)]
pub struct Program<'a, 't> {
    image: &'a Value,
    /// The line of the file behind which it begins, if it stands there as it is.
    before: Option<usize>,
    /// The line that was said before; 0 where none was.
    first: usize,
    labels: &'a Labels<'t>,
}

/// Writes how a rule is named.
pub(super) fn put_title(into: &mut Vec<u8>, rule: BootRule) -> Result<(), NoMemory>
    ensures { OnOk result (into.new.items ≡ into.old.items ++ rule_title rule) }
{
    put_parts(
        into,
        &[
            Part::Text("rule "),
            Part::Byte(rule.number()),
            Part::Text(": "),
        ],
    )
}

/// Writes that a line of an image's text is refused, by its number, and why.
#[tactic(auto, using(crate::proofs::Pieces::join_lemmas))]
pub(super) fn put_line(
    into: &mut Vec<u8>,
    image: &Value,
    labels: &Labels,
    number: usize,
    why: Why,
    line: &[u8],
) -> Result<(), NoMemory>
    ensures { OnOk result (into.new.items ≡ into.old.items ++ image_line_told (view image.now) (place_in labels.now) number why line.now) }
{
    put_parts(
        into,
        &[
            Part::Text("image "),
            Part::Quoted(text_at(image, "name")),
            Part::Text(", line "),
            Part::Count(number as u64),
            Part::Text(": "),
        ],
    )?;
    put_refused(into, labels, why, line)
}

/// Writes what is said behind the first line of an image's text that is refused, whose text stands in a file.
pub(super) fn put_program(
    alloc: Global,
    into: &mut Vec<u8>,
    file: &[u8],
    image: &Value,
) -> Result<(), NoMemory>
    ensures { OnOk result (into.new.items ≡ into.old.items ++
        program_told file.now (view image.now) (text_at (codes "text") (view image.now)) (assembled (text_at (codes "text") (view image.now)))) }
{
    let text = text_at(image, "text");
    match assemble(alloc, text) {
        Ok(_) => Ok(()),
        Err(AssembleError::Fault { line, .. }) => {
            put_behind(alloc, into, file, image, text.as_bytes(), line)
        }
        Err(AssembleError::NoMemory(no)) => Err(no),
    }
}

/// Writes each line of the text of an image that is refused, whose text stands in a file, and what more there is to say of each.
pub(super) fn put_whole_program(
    alloc: Global,
    into: &mut Vec<u8>,
    file: &[u8],
    image: &Value,
) -> Result<(), NoMemory>
    ensures { OnOk result (into.new.items ≡ into.old.items ++ whole_program_told file.now (view image.now) (text_at (codes "text") (view image.now))) }
{
    put_behind(
        alloc,
        into,
        file,
        image,
        text_at(image, "text").as_bytes(),
        0,
    )
}

/// Writes each line of a text that is refused behind a line, which was said before, and what more there is to say of each of these.
fn put_behind(
    alloc: Global,
    into: &mut Vec<u8>,
    file: &[u8],
    image: &Value,
    text: &[u8],
    first: usize,
) -> Result<(), NoMemory>
    ensures { OnOk result (into.new.items ≡ into.old.items ++
        later_lines (view image.now) (line_before text.now 1 file.now) first (places_of text.now) 1 0 (source_lines text.now)) }
{
    let labels = Labels::of(alloc, text)?;
    let program = Program {
        image,
        before: line_before(file, text),
        first,
        labels: &labels,
    };
    put_later(into, &program, text)
}

/// Writes what more there is to say of why a line is refused.
fn put_note(into: &mut Vec<u8>, labels: &Labels, why: Why, line: &[u8]) -> Result<(), NoMemory>
    ensures { OnOk result (into.new.items ≡ into.old.items ++ note_told (place_in labels.now) why line.now) }
{
    match why {
        Why::BadNumber => put(into, literal_note_of(labels, line)),
        Why::LabelTwice => put_label_note(into, labels, defined_by(line)),
        Why::UnknownWord
        | Why::BadRegister
        | Why::OutOfRange
        | Why::UnknownLabel
        | Why::OperandCount
        | Why::TooLong => Ok(()),
    }
}

/// What a number or a text is, where one must stand in a line.
fn literal_note_of(labels: &Labels, line: &[u8]) -> &'static str
    ensures { result.now ≡ literal_note (last_of (source_of line.now)) (bad_word_in (place_in labels.now) (source_of line.now)) }
{
    let statement = statement_of(line);
    match statement {
        Some(found) => literal_note(found.takes.last, bad_word_in(labels, statement)),
        None => "",
    }
}

/// Writes on which line a label stands first, where there is one.
fn put_label_note(into: &mut Vec<u8>, labels: &Labels, label: Option<&[u8]>) -> Result<(), NoMemory>
    ensures { OnOk result (into.new.items ≡ into.old.items ++ label_note (option_and_then (place_in labels.now) (option_copied label.entry))) }
{
    match label {
        None => Ok(()),
        Some(name) => match labels.place(name) {
            None => Ok(()),
            Some(place) => put_first_line(into, place.line),
        },
    }
}

/// Writes that a label stands on a line already.
fn put_first_line(into: &mut Vec<u8>, line: usize) -> Result<(), NoMemory>
    ensures { OnOk result (into.new.items ≡ into.old.items ++ concat (codes "    the label stands on line " ∷ decimal line ∷ codes " already\n" ∷ [])) }
{
    put_parts(
        into,
        &[
            Part::Text("    the label stands on line "),
            Part::Count(line as u64),
            Part::Text(" already\n"),
        ],
    )
}

/// What a number is.
const NUMBER_NOTE: &str =
    "    a number has digits alone, or 0x and hexadecimal digits, or is a character, as 'a'\n";

/// What a number or a text is, where one must stand.
fn literal_note(last: Last, bad: Option<Wrong<'_>>) -> &'static str
    ensures { result.now ≡ literal_note last (option_map bad_word_of bad.entry) }
{
    match last {
        Last::Number(_) | Last::Value(_) | Last::Multiple | Last::Bytes | Last::Arguments(_) =>
            NUMBER_NOTE,
        Last::Text => {
            "    a text has printed bytes alone, without quotation marks and semicolons, and nothing stands behind it\n"
        }
        Last::Call => {
            "    a number has digits alone, or 0x and hexadecimal digits, or is a character, as 'a'; a call is EXIT OUT MAKE COPY DROP SEND RECEIVE or MOVE\n"
        }
        Last::GivenLabel => given_label_note(bad),
        Last::Label | Last::Nothing => "",
    }
}

/// What a number is, or the label of `.equ`, where one must stand.
fn given_label_note(bad: Option<Wrong<'_>>) -> &'static str
    ensures { result.now ≡ given_label_note (option_map bad_word_of bad.entry) }
{
    match bad {
        None => "",
        Some(bad) if bad.place == 1 => {
            "    a label has 1 to 16 of a to z, 0 to 9 and _, the first no digit, and is no register\n"
        }
        Some(_) => NUMBER_NOTE,
    }
}

/// Writes each line of a text that is refused, but for the first, and what more there is to say of each.
#[tactic(auto, using(crate::proofs::TextFaults::later_lemmas))]
fn put_later(into: &mut Vec<u8>, program: &Program<'_, '_>, text: &[u8]) -> Result<(), NoMemory>
    requires { IfSome program.now.before (λ n. n < 2 ^ 63) }
    ensures { OnOk result (into.new.items ≡ into.old.items ++
        later_lines (view program.now.image.now) program.now.before program.now.first (place_in program.now.labels.now) 1 0 (source_lines text.now)) }
{
    let mut rest = text;
    let mut number = 1;
    let mut at: u128 = 0;
    while !rest.is_empty() {
        let (line, others) = first_source_line(rest);
        let why = line_why(program.labels, number, at, line);
        put_fault(into, program, number, line, why)?;
        number += 1;
        at += line_counted(at, line) as u128;
        rest = others;
    }
    Ok(())
}

/// Writes that a line is refused, if it is.
fn put_fault(
    into: &mut Vec<u8>,
    program: &Program<'_, '_>,
    number: usize,
    line: &[u8],
    why: Option<Why>,
) -> Result<(), NoMemory>
    requires few { IfSome program.now.before (λ n. n < 2 ^ 63) }
    requires small { number < 2 ^ 63 }
    ensures { OnOk result (into.new.items ≡ into.old.items ++
        line_fault_told (view program.now.image.now) program.now.before program.now.first (place_in program.now.labels.now) number line.now why) }
{
    match why {
        None => Ok(()),
        Some(why) => put_refusal(into, program, number, why, line),
    }
}

/// Writes that a line is refused, unless it is the first, and what more there is to say of it.
fn put_refusal(
    into: &mut Vec<u8>,
    program: &Program<'_, '_>,
    number: usize,
    why: Why,
    line: &[u8],
) -> Result<(), NoMemory>
    requires few { IfSome program.now.before (λ n. n < 2 ^ 63) }
    requires small { number < 2 ^ 63 }
    ensures { OnOk result (into.new.items ≡ into.old.items ++
        refusal_told (view program.now.image.now) program.now.before program.now.first (place_in program.now.labels.now) number why line.now) }
{
    put_again(into, program, number, why, line)?;
    put_note(into, program.labels, why, line)?;
    put_place(into, program.before, number)
}

/// Writes that a line is refused, as a line, unless it is the first, which was said before.
fn put_again(
    into: &mut Vec<u8>,
    program: &Program<'_, '_>,
    number: usize,
    why: Why,
    line: &[u8],
) -> Result<(), NoMemory>
    ensures { OnOk result (into.new.items ≡ into.old.items ++ again_told (view program.now.image.now) program.now.first (place_in program.now.labels.now) number why line.now) }
{
    if program.first < number {
        put_refused_line(into, program, number, why, line)
    } else {
        Ok(())
    }
}

/// Writes that a line is refused, as a line.
fn put_refused_line(
    into: &mut Vec<u8>,
    program: &Program<'_, '_>,
    number: usize,
    why: Why,
    line: &[u8],
) -> Result<(), NoMemory>
    ensures { OnOk result (into.new.items ≡ into.old.items ++ (rule_title BootRule.ImageText ++ image_line_told (view program.now.image.now) (place_in program.now.labels.now) number why line.now ++ codes "\n")) }
{
    put_title(into, BootRule::ImageText)?;
    put_line(into, program.image, program.labels, number, why, line)?;
    put(into, "\n")
}

/// Writes where a line stands in the file, if its text stands there as it is.
fn put_place(into: &mut Vec<u8>, before: Option<usize>, number: usize) -> Result<(), NoMemory>
    requires few { IfSome before (λ n. n < 2 ^ 63) }
    requires small { number < 2 ^ 63 }
    ensures { OnOk result (into.new.items ≡ into.old.items ++ place_told before number) }
{
    match before {
        None => Ok(()),
        Some(before) => put_parts(
            into,
            &[
                Part::Text("    line "),
                Part::Count((before + number) as u64),
                Part::Text(" of the file\n"),
            ],
        ),
    }
}
