//! Which operand of a line of an image's text is refused.
ghost use Rattle.std.specs.Prelude.{◌≡◌, ◌<◌, IfSome, length, option_copied, option_map};
ghost use Rattle.dm_reading.specs.Words.{source_words};
ghost use Rattle.dm_asm.specs.Labels.{place_in};
ghost use Rattle.dm_explain.specs.BadSources.{bad_word, bad_word_in, bad_word_of, is_fine, is_fine_last, is_no_label, no_label, seen, shape_takes, source_behind, source_of, takes, takes_named, takes_of};

use dm_asm::calls::{CallWord, argument_of};
use dm_asm::forms::{Form, Shape};
use dm_asm::labels::Labels;
use dm_asm::lines::uncommented;
use dm_asm::numbers::{is_label, register};
use dm_asm::operands::number_within;
use dm_reading::{Gap, next_word};

/// What stands behind the registers of an instruction or directive.
#[derive(Clone, Copy)]
pub enum Last {
    Nothing,
    /// A number, at most so large.
    Number(u32),
    /// A number or a label, at most so large.
    Value(u32),
    /// A label that isn't far.
    Label,
    /// A call, by its number or its name.
    Call,
    /// A number of which an address is to be a multiple.
    Multiple,
    /// A text between quotation marks.
    Text,
    /// One or more numbers, each of a byte.
    Bytes,
    /// The operands of a call.
    Arguments(CallWord),
    /// A label, and the number that it is given.
    GivenLabel,
}

/// What an instruction or directive takes: so many registers, and what stands behind them.
#[derive(Clone, Copy)]
pub struct Takes {
    pub registers: u8,
    pub last: Last,
}

/// An instruction or directive: what it takes, and what stands behind it.
#[derive(Clone, Copy)]
pub struct Statement<'a> {
    pub takes: Takes,
    pub operands: &'a [u8],
}

/// An operand that is refused: its place, from 1, and its word.
#[derive(Clone, Copy)]
pub struct Wrong<'a> {
    pub place: u64,
    pub word: &'a [u8],
}

/// So many registers, and what stands behind them.
fn taking(registers: u8, last: Last) -> Takes
    ensures { result ≡ takes registers last }
{
    Takes { registers, last }
}

/// What an instruction with such operands takes.
fn shape_takes(shape: Shape) -> Takes
    ensures { result ≡ shape_takes shape }
{
    match shape {
        Shape::RegisterValue => taking(1, Last::Value(65_535)),
        Shape::TwoRegisters => taking(2, Last::Nothing),
        Shape::ThreeRegisters => taking(3, Last::Nothing),
        Shape::Access => taking(2, Last::Number(255)),
        Shape::Jump => taking(0, Last::Value(65_535)),
        Shape::Branch => taking(2, Last::Label),
        Shape::Call => taking(0, Last::Call),
    }
}

/// What an instruction or directive takes.
fn takes_of(form: Form) -> Takes
    ensures { result ≡ takes_of form }
{
    match form {
        Form::Instruction(op) => shape_takes(Shape::of(op)),
        Form::Calling(call) => taking(0, Last::Arguments(call)),
        Form::Word => taking(0, Last::Value(u32::MAX)),
        Form::Byte => taking(0, Last::Bytes),
        Form::Zero => taking(0, Last::Number(65_536)),
        Form::Align => taking(0, Last::Multiple),
        Form::Ascii => taking(0, Last::Text),
        Form::Equ => taking(0, Last::GivenLabel),
    }
}

/// What the instruction or directive takes that a word names.
#[tactic(auto, unfolding(crate::specs::BadSources::takes_named))]
pub fn takes_named(word: &[u8]) -> Option<Takes>
    ensures { result ≡ takes_named word.now }
{
    Form::from_word(word).map(takes_of)
}

/// Whether a word ends as a label does, and is none.
fn is_no_label(word: &[u8]) -> bool
    requires { 0 < length word.now }
    ensures { result ≡ is_no_label word.now }
{
    word[word.len() - 1] == b':' && !is_label(&word[..word.len() - 1])
}

/// The first word of a line, where it ends as a label does and is none.
#[tactic(auto, unfolding(crate::specs::BadSources::no_label))]
pub fn no_label(line: &[u8]) -> Option<&[u8]>
    ensures value { option_copied result ≡ no_label line.now }
    ensures some { IfSome result (λ word. 0 < length word.now) }
{
    match next_word(uncommented(line), Gap::Separators) {
        None => None,
        Some((word, _)) => { if is_no_label(word) { Some(word) } else { None } }
    }
}

/// The instruction or directive that stands first.
fn statement_first(words: &[u8]) -> Option<Statement<'_>>
    ensures { option_map seen result ≡ source_behind (source_words words.now) }
{
    match next_word(words, Gap::Separators) {
        None => None,
        Some((word, operands)) => match takes_named(word) {
            Some(takes) => Some(Statement { takes, operands }),
            None => None,
        },
    }
}

/// The instruction or directive of a line: it stands first, or behind a label.
#[tactic(auto, unfolding(crate::specs::BadSources::source_of))]
pub fn statement_of(line: &[u8]) -> Option<Statement<'_>>
    ensures { option_map seen result ≡ source_of line.now }
{
    match next_word(uncommented(line), Gap::Separators) {
        None => None,
        Some((word, operands)) => match takes_named(word) {
            Some(takes) => Some(Statement { takes, operands }),
            None => statement_first(operands),
        },
    }
}

/// Whether a word at a place behind the registers can't be the one that is refused.
fn is_fine_last(labels: &Labels, last: Last, place: u64, word: &[u8]) -> bool
    ensures { result ≡ is_fine_last (place_in labels.now) last place word.now }
{
    match last {
        Last::Bytes => number_within(word, 255).is_ok(),
        Last::Arguments(call) => argument_of(labels, call, place, word).is_ok(),
        Last::GivenLabel => place == 1 && is_label(word),
        Last::Nothing
        | Last::Number(_)
        | Last::Value(_)
        | Last::Label
        | Last::Call
        | Last::Multiple
        | Last::Text => false,
    }
}

/// Whether the operand at a place isn't the one that is refused.
#[tactic(auto, unfolding(crate::specs::BadSources::is_fine))]
fn is_fine(labels: &Labels, takes: Takes, place: u64, word: &[u8]) -> bool
    ensures { result ≡ is_fine (place_in labels.now) takes place word.now }
{
    if place <= u64::from(takes.registers) {
        register(word).is_some()
    } else {
        is_fine_last(labels, takes.last, place, word)
    }
}

/// The operand that is refused.
#[tactic(auto, using(crate::proofs::BadWords::bad_word_lemmas))]
fn bad_word<'a>(labels: &Labels, takes: Takes, operands: &'a [u8]) -> Option<Wrong<'a>>
    ensures { option_map bad_word_of result ≡ bad_word (place_in labels.now) takes 1 (source_words operands.now) }
{
    let mut rest = operands;
    let mut place = 1;
    while let Some((word, others)) = next_word(rest, Gap::Separators) {
        if !is_fine(labels, takes, place, word) {
            return Some(Wrong { place, word });
        }
        place += 1;
        rest = others;
    }
    None
}

/// The same of a line, where it has an instruction or directive.
pub fn bad_word_in<'a>(labels: &Labels, statement: Option<Statement<'a>>) -> Option<Wrong<'a>>
    ensures { option_map bad_word_of result ≡ bad_word_in (place_in labels.now) (option_map seen statement.entry) }
{
    match statement {
        None => None,
        Some(statement) => bad_word(labels, statement.takes, statement.operands),
    }
}
