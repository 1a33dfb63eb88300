//! Why a line of an image's text is refused.
ghost use Rattle.std.specs.Prelude.{◌≡◌, ◌≤◌, ◌^◌};
ghost use Rattle.dm_reading.specs.Words.{source_words};
ghost use Rattle.dm_asm.specs.Labels.{place_in};
ghost use Rattle.dm_asm.specs.Texts.{text_in};
ghost use Rattle.dm_explain.specs.TextFaults.{given_label_why, given_why, is_due, is_text, last_why, line_why, long_why, operand_why, operands_why, statement_why, takes_why, text_why, words_why};

use crate::source::{Last, Takes, takes_named};
use dm_asm::calls::argument_of;
use dm_asm::labels::{Labels, is_misplaced, line_counted, split_label};
use dm_asm::lines::uncommented;
use dm_asm::numbers::register;
use dm_asm::operands::{
    call_within, distance_to, multiple_within, name_within, number_within, value_within,
};
use dm_asm::{Why, text_operand};
use dm_processor::MOST_MEMORY;
use dm_reading::{Gap, count_words, next_word};

/// Why a word of `.equ` at a place is refused, if it is.
fn given_label_why(place: u64, word: &[u8]) -> Option<Why>
    ensures { result ≡ given_label_why place word.now }
{
    if place == 1 {
        name_within(word).err()
    } else {
        number_within(word, u32::MAX).err()
    }
}

/// Why a word at a place behind the registers is refused, if it is.
fn last_why(labels: &Labels, at: u128, last: Last, place: u64, word: &[u8]) -> Option<Why>
    requires { at ≤ 2 ^ 127 }
    ensures { result ≡ last_why (place_in labels.now) at last place word.now }
{
    match last {
        Last::Nothing | Last::Text => None,
        Last::Number(most) => number_within(word, most).err(),
        Last::Value(most) => value_within(labels, word, most).err(),
        Last::Label => distance_to(labels, word, at).err(),
        Last::Call => call_within(word).err(),
        Last::Multiple => multiple_within(word).err(),
        Last::Bytes => number_within(word, 255).err(),
        Last::Arguments(call) => argument_of(labels, call, place, word).err(),
        Last::GivenLabel => given_label_why(place, word),
    }
}

/// Why the operand at a place is refused, if it is.
#[tactic(auto, unfolding(crate::specs::TextFaults::operand_why))]
fn operand_why(labels: &Labels, at: u128, takes: Takes, place: u64, word: &[u8]) -> Option<Why>
    requires { at ≤ 2 ^ 127 }
    ensures { result ≡ operand_why (place_in labels.now) at takes place word.now }
{
    if place <= u64::from(takes.registers) {
        register(word).ok_or(Why::BadRegister).err()
    } else {
        last_why(labels, at, takes.last, place, word)
    }
}

/// Why the first operand that is refused is, if one is.
#[tactic(auto, using(crate::proofs::TextFaults::operands_lemmas))]
fn operands_why(labels: &Labels, at: u128, takes: Takes, operands: &[u8]) -> Option<Why>
    requires { at ≤ 2 ^ 127 }
    ensures { result ≡ operands_why (place_in labels.now) at takes 1 (source_words operands.now) }
{
    let mut rest = operands;
    let mut place = 1;
    while let Some((word, others)) = next_word(rest, Gap::Separators) {
        if let Some(why) = operand_why(labels, at, takes, place, word) {
            return Some(why);
        }
        place += 1;
        rest = others;
    }
    None
}

/// Whether so many operands may stand behind an instruction or directive.
fn is_due(takes: Takes, there: usize) -> bool
    ensures { result ≡ is_due takes.registers takes.last there }
{
    let registers = usize::from(takes.registers);
    match takes.last {
        Last::Nothing => there == registers,
        Last::Bytes | Last::Text => there > 0,
        Last::Number(_) | Last::Value(_) | Last::Label | Last::Call | Last::Multiple => {
            there == registers + 1
        }
        Last::Arguments(call) => call.takes(there),
        Last::GivenLabel => there == registers + 2,
    }
}

/// Whether a text stands behind the registers.
fn is_text(last: Last) -> bool
    ensures { result ≡ is_text last }
{
    matches!(last, Last::Text)
}

/// Why no text stands as operand in a line without its comment, if none does.
fn text_why(line: &[u8], operands: &[u8]) -> Option<Why>
    ensures { result ≡ text_why (text_in line.now) (source_words operands.now) }
{
    text_operand(line, operands).ok_or(Why::BadNumber).err()
}

/// Why as many operands as there must be are refused, in a line without its comment, if they are.
fn given_why(labels: &Labels, at: u128, line: &[u8], takes: Takes, operands: &[u8]) -> Option<Why>
    requires { at ≤ 2 ^ 127 }
    ensures { result ≡ given_why (place_in labels.now) at (text_in line.now) takes (source_words operands.now) }
{
    if is_text(takes.last) {
        text_why(line, operands)
    } else {
        operands_why(labels, at, takes, operands)
    }
}

/// Why an instruction or directive is refused, if it is, in a line without its comment; the label before it may be defined before.
fn takes_why(
    labels: &Labels,
    at: u128,
    twice: bool,
    line: &[u8],
    takes: Takes,
    operands: &[u8],
) -> Option<Why>
    requires { at ≤ 2 ^ 127 }
    ensures { result ≡ takes_why (place_in labels.now) at twice (text_in line.now) takes (source_words operands.now) }
{
    if twice {
        Some(Why::LabelTwice)
    } else if is_due(takes, count_words(operands, Gap::Separators)) {
        given_why(labels, at, line, takes, operands)
    } else {
        Some(Why::OperandCount)
    }
}

/// Why what stands behind a label is refused, if it is.
#[tactic(auto, unfolding(crate::specs::TextFaults::statement_why))]
fn statement_why(
    labels: &Labels,
    at: u128,
    twice: bool,
    line: &[u8],
    statement: &[u8],
) -> Option<Why>
    requires { at ≤ 2 ^ 127 }
    ensures { result ≡ statement_why (place_in labels.now) at twice (text_in line.now) (source_words statement.now) }
{
    match next_word(statement, Gap::Separators) {
        None if twice => Some(Why::LabelTwice),
        None => None,
        Some((word, operands)) => match takes_named(word) {
            None => Some(Why::UnknownWord),
            Some(takes) => takes_why(labels, at, twice, line, takes, operands),
        },
    }
}

/// Why the words of a line are refused, by its number and address, if they are.
fn words_why(labels: &Labels, number: usize, at: u128, words: &[u8]) -> Option<Why>
    requires { at ≤ 2 ^ 127 }
    ensures { result ≡ words_why (place_in labels.now) number at (text_in words.now) (source_words words.now) }
{
    if is_misplaced(words) {
        return Some(Why::UnknownWord);
    }
    let (label, statement) = split_label(words);
    statement_why(labels, at, labels.is_twice(number, label), words, statement)
}

/// Whether an image has more bytes than it may have with these, and hadn't before.
fn long_why(at: u128, size: usize) -> Option<Why>
    requires { at ≤ 2 ^ 127 }
    ensures { result ≡ long_why at size }
{
    let most = u128::from(MOST_MEMORY);
    if at <= most && most < at + size as u128 {
        Some(Why::TooLong)
    } else {
        None
    }
}

/// Why a line is refused, by its number and address, if it is.
#[tactic(auto, unfolding(crate::specs::TextFaults::line_why))]
pub fn line_why(labels: &Labels, number: usize, at: u128, line: &[u8]) -> Option<Why>
    requires { at ≤ 2 ^ 127 }
    ensures { result ≡ line_why (place_in labels.now) number at line.now }
{
    match words_why(labels, number, at, uncommented(line)) {
        Some(why) => Some(why),
        None => long_why(at, line_counted(at, line)),
    }
}
