//! What is said of a line of an image's text that is refused.
ghost use Rattle.std.specs.Prelude.{◌≡◌, ◌++◌, ◌∷◌, ◌<◌, [], OnOk, IfSome, length, codes, option_copied, option_map};
ghost use Rattle.std.specs.List.{concat};
ghost use Rattle.dm_reading.specs.Words.{source_words};
ghost use Rattle.dm_asm.specs.Labels.{place_in};
ghost use Rattle.dm_explain.specs.BadSources.{arguments_due, bad_word_in, bad_word_of, bad_word_told, bytes_due, counts_of, detail, detail_told, due_told, given_label_words, is_register_told, known_told, label_or_word_told, last_of, last_range, missing_value_words, most_told, no_label_told, no_label_words, no_register_told, no_word_told, refused_told, register_words, seen, source_of, unknown_told, why_words};
ghost use Rattle.dm_explain.specs.Parts.{quoted};

use crate::part::{Part, put, put_parts};
use crate::schedule::{put_counts, put_said};
use crate::source::{Last, Statement, Takes, Wrong, bad_word_in, no_label, statement_of};
use dm_asm::Why;
use dm_asm::calls::CallWord;
use dm_asm::labels::{Labels, is_misplaced, split_label};
use dm_asm::lines::uncommented;
use dm_asm::numbers::register;
use dm_memory::NoMemory;
use dm_reading::{Gap, count_words, next_word};

/// Writes why a line is refused, the line, and what is wrong there.
pub(super) fn put_refused(
    into: &mut Vec<u8>,
    labels: &Labels,
    why: Why,
    line: &[u8],
) -> Result<(), NoMemory>
    ensures { OnOk result (into.new.items ≡ into.old.items ++ refused_told (place_in labels.now) why (source_of line.now) line.now) }
{
    match why {
        Why::UnknownWord => put_unknown(into, line),
        _ => put_with_operand(into, labels, why, line),
    }
}

/// Writes that a line has no word that there is.
fn put_unknown(into: &mut Vec<u8>, line: &[u8]) -> Result<(), NoMemory>
    ensures { OnOk result (into.new.items ≡ into.old.items ++ unknown_told line.now) }
{
    put_said(into, "no such word", line)?;
    put_which_word(into, uncommented(line), no_label(line))
}

/// Writes which word of a line without its comment is none: one that ends as a label does, where it is given, or what stands where
/// an instruction or directive must.
fn put_which_word(into: &mut Vec<u8>, words: &[u8], no_label: Option<&[u8]>) -> Result<(), NoMemory>
    requires { IfSome no_label (λ word. 0 < length word.now) }
    ensures { OnOk result (into.new.items ≡ into.old.items ++ label_or_word_told (option_copied no_label.entry) (source_words words.now)) }
{
    match no_label {
        Some(word) => put_no_label(into, word),
        None if is_misplaced(words) => put(
            into,
            ": no label stands before \".equ\", which has one behind it",
        ),
        None => {
            let (_, statement) = split_label(words);
            put_no_word(into, statement)
        }
    }
}

/// Why a name that stands before a colon is no label.
fn no_label_words(name: &[u8]) -> &'static str
    ensures { result.now ≡ no_label_words name.now }
{
    if register(name).is_some() {
        " is no label, since a register is named so"
    } else {
        " is no label, which has 1 to 16 of a to z, 0 to 9 and _, the first no digit"
    }
}

/// Writes that a word which ends as a label does is none.
fn put_no_label(into: &mut Vec<u8>, word: &[u8]) -> Result<(), NoMemory>
    requires { 0 < length word.now }
    ensures { OnOk result (into.new.items ≡ into.old.items ++ no_label_told word.now) }
{
    put_parts(
        into,
        &[
            Part::Text(": "),
            Part::Line(word),
            Part::Text(no_label_words(&word[..word.len() - 1])),
        ],
    )
}

/// Writes that the first of some words is no instruction and no directive.
fn put_no_word(into: &mut Vec<u8>, words: &[u8]) -> Result<(), NoMemory>
    ensures { OnOk result (into.new.items ≡ into.old.items ++ no_word_told (source_words words.now)) }
{
    match next_word(words, Gap::Separators) {
        Some((word, _)) => put_parts(
            into,
            &[
                Part::Text(": "),
                Part::Line(word),
                Part::Text(" is no instruction and no directive"),
            ],
        ),
        None => Ok(()),
    }
}

/// Writes why a line is refused that has such a word, the line, and what is wrong there.
fn put_with_operand(
    into: &mut Vec<u8>,
    labels: &Labels,
    why: Why,
    line: &[u8],
) -> Result<(), NoMemory>
    ensures { OnOk result (into.new.items ≡ into.old.items ++
        known_told why (bad_word_in (place_in labels.now) (source_of line.now)) (source_of line.now) line.now) }
{
    let statement = statement_of(line);
    let bad = bad_word_in(labels, statement);
    put_known(into, why, bad, statement, line)
}

/// Writes why a line is refused, the line, and what is wrong there, by its operand that is refused.
fn put_known(
    into: &mut Vec<u8>,
    why: Why,
    bad: Option<Wrong<'_>>,
    statement: Option<Statement<'_>>,
    line: &[u8],
) -> Result<(), NoMemory>
    ensures { OnOk result (into.new.items ≡ into.old.items ++
        known_told why (option_map bad_word_of bad.entry) (option_map seen statement.entry) line.now) }
{
    put_why(into, why, bad, statement)?;
    put_line(into, line)?;
    put_detail(into, why, bad, statement)
}

/// Writes the line that is refused.
fn put_line(into: &mut Vec<u8>, line: &[u8]) -> Result<(), NoMemory>
    ensures { OnOk result (into.new.items ≡ into.old.items ++ concat (codes ": " ∷ quoted line.now ∷ [])) }
{
    put_parts(into, &[Part::Text(": "), Part::Line(line)])
}

/// Writes why a line is refused, in words.
fn put_why(
    into: &mut Vec<u8>,
    why: Why,
    bad: Option<Wrong<'_>>,
    statement: Option<Statement<'_>>,
) -> Result<(), NoMemory>
    ensures { OnOk result (into.new.items ≡ into.old.items ++
        why_words why (option_map bad_word_of bad.entry) (option_map seen statement.entry)) }
{
    match why {
        Why::UnknownWord => put(into, "no such word"),
        Why::BadRegister => put_register_words(into, bad),
        Why::BadNumber => put(into, missing_words(last_of(statement), bad)),
        Why::OutOfRange => put(into, "a number is out of range"),
        Why::UnknownLabel => put(into, "no line has this label"),
        Why::LabelTwice => put(into, "an earlier line has this label"),
        Why::OperandCount => put(into, "more or fewer operands than the word has"),
        Why::TooLong => put(into, "the image has more than 65536 bytes with this line"),
    }
}

/// Writes which operand must be a register, or another one.
fn put_register_words(into: &mut Vec<u8>, bad: Option<Wrong<'_>>) -> Result<(), NoMemory>
    ensures { OnOk result (into.new.items ≡ into.old.items ++ register_words (option_map bad_word_of bad.entry)) }
{
    match bad {
        None => Ok(()),
        Some(bad) if register(bad.word).is_some() => put_parts(
            into,
            &[
                Part::Text("operand "),
                Part::Count(bad.place),
                Part::Text(" must not be "),
                Part::Line(bad.word),
                Part::Text(", which an operand before it sets"),
            ],
        ),
        Some(bad) => put_parts(
            into,
            &[
                Part::Text("operand "),
                Part::Count(bad.place),
                Part::Text(" must be a register, not "),
                Part::Line(bad.word),
            ],
        ),
    }
}

/// What stands behind the registers.
fn last_of(statement: Option<Statement<'_>>) -> Last
    ensures { result ≡ last_of (option_map seen statement.entry) }
{
    match statement {
        Some(statement) => statement.takes.last,
        None => Last::Nothing,
    }
}

/// What must stand where a number or a label is refused.
fn missing_words(last: Last, bad: Option<Wrong<'_>>) -> &'static str
    ensures { result.now ≡ missing_value_words last (option_map bad_word_of bad.entry) }
{
    match last {
        Last::Label => "a label must stand where none stands",
        Last::Call => "a number or call must stand where none stands",
        Last::Text => "a text in quotation marks must stand where none stands",
        Last::Number(_) | Last::Multiple | Last::Bytes => "a number must stand where none stands",
        Last::Value(_) | Last::Nothing => "a number or label must stand where none stands",
        Last::Arguments(_) => "a number, label or register must stand where none stands",
        Last::GivenLabel => given_label_words(bad),
    }
}

/// What must stand where a word of `.equ` is refused.
fn given_label_words(bad: Option<Wrong<'_>>) -> &'static str
    ensures { result.now ≡ given_label_words (option_map bad_word_of bad.entry) }
{
    match bad {
        Some(bad) if bad.place == 1 => "a label must stand where none stands",
        _ => "a number must stand where none stands",
    }
}

/// Writes what is wrong in a line, where it has an instruction or directive.
fn put_detail(
    into: &mut Vec<u8>,
    why: Why,
    bad: Option<Wrong<'_>>,
    statement: Option<Statement<'_>>,
) -> Result<(), NoMemory>
    ensures { OnOk result (into.new.items ≡ into.old.items ++
        detail why (option_map bad_word_of bad.entry) (option_map seen statement.entry)) }
{
    match statement {
        Some(statement) => put_wrong(into, why, bad, &statement),
        None => Ok(()),
    }
}

/// Writes what is wrong with an instruction or directive.
fn put_wrong(
    into: &mut Vec<u8>,
    why: Why,
    bad: Option<Wrong<'_>>,
    statement: &Statement<'_>,
) -> Result<(), NoMemory>
    ensures { OnOk result (into.new.items ≡ into.old.items ++
        detail_told why (option_map bad_word_of bad.entry) (seen statement.now)) }
{
    match why {
        Why::BadRegister => put(into, no_register_told(bad)),
        Why::BadNumber => put_bad_word(into, bad),
        Why::UnknownLabel => put_no_place(into, bad, statement),
        Why::OutOfRange => put_out_of_range(into, bad, statement),
        Why::OperandCount => put_operand_count(into, bad, statement),
        Why::UnknownWord | Why::LabelTwice | Why::TooLong => Ok(()),
    }
}

/// What a register is, where the operand that is refused is none.
fn no_register_told(bad: Option<Wrong<'_>>) -> &'static str
    ensures { result.now ≡ no_register_told (option_map bad_word_of bad.entry) }
{
    match bad {
        Some(bad) if register(bad.word).is_none() => ": a register is r0 to r15",
        _ => "",
    }
}

/// That the operand which is refused is a register, if it is.
fn is_register_told(bad: Option<Wrong<'_>>) -> &'static str
    ensures { result.now ≡ is_register_told (option_map bad_word_of bad.entry) }
{
    match bad {
        Some(bad) if register(bad.word).is_some() => ", is a register",
        _ => "",
    }
}

/// Writes which operand is no label.
#[tactic(auto, using(crate::proofs::Pieces::join_lemmas))]
fn put_no_place(
    into: &mut Vec<u8>,
    bad: Option<Wrong<'_>>,
    statement: &Statement<'_>,
) -> Result<(), NoMemory>
    ensures { OnOk result (into.new.items ≡ into.old.items ++
        detail_told Why.UnknownLabel (option_map bad_word_of bad.entry) (seen statement.now)) }
{
    put_bad_word(into, bad)?;
    put(into, is_register_told(bad))
}

/// Writes which operand is out of its range, and the range.
#[tactic(auto, using(crate::proofs::Pieces::join_lemmas))]
fn put_out_of_range(
    into: &mut Vec<u8>,
    bad: Option<Wrong<'_>>,
    statement: &Statement<'_>,
) -> Result<(), NoMemory>
    ensures { OnOk result (into.new.items ≡ into.old.items ++
        detail_told Why.OutOfRange (option_map bad_word_of bad.entry) (seen statement.now)) }
{
    put_bad_word(into, bad)?;
    put_range(into, statement.takes.last)
}

/// Writes an operand that is refused.
fn put_bad_word(into: &mut Vec<u8>, bad: Option<Wrong<'_>>) -> Result<(), NoMemory>
    ensures { OnOk result (into.new.items ≡ into.old.items ++ bad_word_told (option_map bad_word_of bad.entry)) }
{
    match bad {
        Some(bad) => put_parts(
            into,
            &[
                Part::Text(": operand "),
                Part::Count(bad.place),
                Part::Text(", "),
                Part::Line(bad.word),
            ],
        ),
        None => Ok(()),
    }
}

/// Writes in which range what stands behind the registers must lie.
fn put_range(into: &mut Vec<u8>, last: Last) -> Result<(), NoMemory>
    ensures { OnOk result (into.new.items ≡ into.old.items ++ last_range last) }
{
    match last {
        Last::Nothing | Last::Text => Ok(()),
        Last::Multiple => put(into, ", must be 1 to 65536"),
        Last::Number(most) | Last::Value(most) => put_most(into, most),
        Last::Bytes | Last::Call => put(into, ", must be 0 to 255"),
        Last::Arguments(_) => put_most(into, 65_535),
        Last::GivenLabel => put_most(into, u32::MAX),
        Last::Label => put(
            into,
            ", must be -128 to 127 whole words from the next instruction",
        ),
    }
}

/// Writes the most that a number may be.
fn put_most(into: &mut Vec<u8>, most: u32) -> Result<(), NoMemory>
    ensures { OnOk result (into.new.items ≡ into.old.items ++ most_told most) }
{
    put_parts(into, &[Part::Text(", must be 0 to "), Part::Number(most)])
}

/// Writes how many operands there must be, and how many there are.
fn put_operand_count(
    into: &mut Vec<u8>,
    bad: Option<Wrong<'_>>,
    statement: &Statement<'_>,
) -> Result<(), NoMemory>
    ensures { OnOk result (into.new.items ≡ into.old.items ++
        detail_told Why.OperandCount (option_map bad_word_of bad.entry) (seen statement.now)) }
{
    let there = count_words(statement.operands, Gap::Separators) as u64;
    put_due(into, statement.takes, there)
}

/// Writes how many operands there must be, where there are so many.
fn put_due(into: &mut Vec<u8>, takes: Takes, there: u64) -> Result<(), NoMemory>
    ensures { OnOk result (into.new.items ≡ into.old.items ++ due_told takes there) }
{
    let registers = u64::from(takes.registers);
    match takes.last {
        Last::Nothing => put_counts(into, registers, there),
        Last::Bytes => put_no_byte(into, there),
        Last::Number(_) | Last::Value(_) | Last::Label | Last::Call | Last::Multiple | Last::Text =>
            put_counts(into, registers + 1, there),
        Last::Arguments(call) => put_arguments_due(into, call, there),
        Last::GivenLabel => put_counts(into, registers + 2, there),
    }
}

/// How many operands a call has.
fn counts_of(call: CallWord) -> &'static str
    ensures { result.now ≡ counts_of call }
{
    match call {
        CallWord::Exit => "0",
        CallWord::Out | CallWord::Copy | CallWord::Drop => "1",
        CallWord::Make => "3 or 5",
        CallWord::Send => "1, 3 or 5",
        CallWord::Receive => "1 or 3",
        CallWord::Move => "5",
    }
}

/// Writes how many operands a call has, where there are so many.
fn put_arguments_due(into: &mut Vec<u8>, call: CallWord, there: u64) -> Result<(), NoMemory>
    ensures { OnOk result (into.new.items ≡ into.old.items ++ arguments_due call there) }
{
    put_parts(
        into,
        &[
            Part::Text(": the word has "),
            Part::Text(counts_of(call)),
            Part::Text(", not "),
            Part::Count(there),
        ],
    )
}

/// Writes that there must be operands.
fn put_no_byte(into: &mut Vec<u8>, there: u64) -> Result<(), NoMemory>
    ensures { OnOk result (into.new.items ≡ into.old.items ++ bytes_due there) }
{
    put_parts(
        into,
        &[
            Part::Text(": the word has 1 or more, not "),
            Part::Count(there),
        ],
    )
}
