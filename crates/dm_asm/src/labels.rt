//! Where labels stand.
ghost use Rattle.std.specs.Prelude.{◌≡◌, ◌==◌, ◌<◌, ◌≤◌, ◌∷◌, [], ℕ, List, IfOk, None, OnOk, Some, false, if◌then◌else◌, not, option_map, unwrap_or};
ghost use Rattle.std.specs.Option.{option_copied};
ghost use Rattle.std.specs.Str.{bytes_eq};
ghost use Rattle.dm_reading.specs.Words.{source_words};
ghost use Rattle.dm_asm.specs.Assembled.{places_of};
ghost use Rattle.dm_asm.specs.Labels.{place_in};
ghost use Rattle.dm_asm.specs.Lines.{without_comment};
ghost use Rattle.dm_asm.specs.Places.{begins_equ, behind_label, first_of, has_label, is_equ, is_misplaced, label_given, label_in, label_of_words, label_or_given, label_value, line_size, line_value, number_given, padding, padding_size, statement_size, text_size, zeros_size};
ghost use Rattle.dm_asm.specs.Statements.{is_twice};
ghost use Rattle.dm_asm.specs.Texts.{text_in, text_operand};

use crate::forms::Form;
use crate::lines::uncommented;
use crate::numbers::{is_label, number};
use crate::texts::text_operand;
use dm_memory::{NoMemory, insert};
use dm_reading::{Gap, count_words, first_source_line, next_word};
use std::alloc::Global;
use std::collections::BTreeMap;

/// Where a label is defined.
#[derive(Clone, Copy)]
pub struct Place {
    /// The line, from 1.
    pub line: usize,
    /// The label's value. Its byte address, which is how many bytes the lines before it count; or the number that `.equ` gives it.
    pub address: u128,
}

/// The first places of all labels of a text.
#[derive(Drop)]
pub struct Labels<'t> {
    map: BTreeMap<&'t [u8], Place>,
}

#[tactic(auto, unfolding(crate::specs::Labels::place_in))]
impl<'t> Labels<'t> {
    /// No labels.
    fn new(alloc: Global) -> Self
        ensures { (q : List ℕ) → place_in result q ≡ None }
    {
        Labels {
            map: BTreeMap::new(alloc),
        }
    }

    /// Where a label is defined first, if it is.
    pub fn place(&self, name: &[u8]) -> Option<Place>
        ensures { result ≡ place_in self.now name.now }
    {
        self.map.get(name).copied()
    }

    /// Defines a label, unless it is defined.
    fn define(&mut self, name: &'t [u8], place: Place) -> Result<(), NoMemory>
        ensures ok { OnOk result ((q : List ℕ) → place_in self.new q ≡ first_of (place_in self.old q) (if bytes_eq q name.now then Some place else None)) }
    {
        if self.map.contains_key(name) {
            return Ok(());
        }
        insert(&mut self.map, name, place)?;
        Ok(())
    }
}

/// The label that a word is with its colon.
fn label_of_word(word: &[u8]) -> Option<&[u8]>
    ensures { option_copied result ≡ label_in word.now }
{
    if word.is_empty() {
        return None;
    }
    let name = &word[..word.len() - 1];
    if word[word.len() - 1] == b':' && is_label(name) {
        Some(name)
    } else {
        None
    }
}

/// Whether a word is `.equ`, which gives a label a value of its own.
fn is_equ(word: &[u8]) -> bool
    ensures { result ≡ is_equ word.now }
{
    word == b".equ".as_slice()
}

/// The label to which `.equ` gives a value, by what stands behind it.
fn label_given(operands: &[u8]) -> Option<&[u8]>
    ensures { option_copied result ≡ label_given (source_words operands.now) }
{
    match next_word(operands, Gap::Separators) {
        Some((name, _)) if is_label(name) => Some(name),
        _ => None,
    }
}

/// The label to which a line gives a value, whose first word has no colon.
fn given_by<'l>(word: &[u8], rest: &'l [u8]) -> Option<&'l [u8]>
    ensures { option_copied result ≡ label_or_given None word.now (source_words rest.now) }
{
    if is_equ(word) {
        label_given(rest)
    } else {
        None
    }
}

/// The label of a line without its comment, and what stands behind it; all of the line, where it has no colon.
pub fn split_label(line: &[u8]) -> (Option<&[u8]>, &[u8])
    ensures label { option_copied result.0 ≡ label_of_words (source_words line.now) }
    ensures rest { source_words result.1.now ≡ behind_label (source_words line.now) }
{
    match next_word(line, Gap::Separators) {
        None => (None, line),
        Some((word, rest)) => match label_of_word(word) {
            Some(name) => (Some(name), rest),
            None => (given_by(word, rest), line),
        },
    }
}

/// Whether a line begins with `.equ`.
fn begins_equ(line: &[u8]) -> bool
    ensures { result ≡ begins_equ (source_words line.now) }
{
    match next_word(line, Gap::Separators) {
        Some((word, _)) => is_equ(word),
        None => false,
    }
}

/// Whether `.equ` stands behind the label of a line without its comment, where it can't.
pub fn is_misplaced(line: &[u8]) -> bool
    ensures { result ≡ is_misplaced (source_words line.now) }
{
    match next_word(line, Gap::Separators) {
        Some((word, rest)) if label_of_word(word).is_some() => begins_equ(rest),
        _ => false,
    }
}

/// The number that a line begins with, if it is one below 2^32.
fn second_given(rest: &[u8]) -> u128
    ensures { (name : List ℕ) (w : List ℕ) → source_words rest.now ≡ w ∷ [] → result ≡ number_given (name ∷ w ∷ []) }
{
    match next_word(rest, Gap::Separators) {
        Some((word, _)) => match number(word) {
            Some(n) if n <= 4_294_967_295 => u128::from(n),
            _ => 0,
        },
        None => 0,
    }
}

/// The number that `.equ` gives, by what stands behind it, if that is a good one.
fn number_given(operands: &[u8]) -> u128
    ensures { result ≡ number_given (source_words operands.now) }
{
    if count_words(operands, Gap::Separators) != 2 {
        return 0;
    }
    match next_word(operands, Gap::Separators) {
        None => 0,
        Some((_, rest)) => second_given(rest),
    }
}

/// The value of the label of a line at an address.
#[tactic(auto, unfolding(crate::specs::Places::line_value))]
pub(crate) fn value_of(at: u128, line: &[u8]) -> u128
    ensures { result ≡ line_value at line.now }
{
    match next_word(uncommented(line), Gap::Separators) {
        Some((word, rest)) if is_equ(word) => number_given(rest),
        _ => at,
    }
}

/// The label that a line defines, whatever stands behind it.
pub fn defined_by(line: &[u8]) -> Option<&[u8]>
    ensures { option_copied result ≡ label_of_words (source_words (without_comment line.now)) }
{
    let (label, _) = split_label(uncommented(line));
    label
}

/// How many zeros the operands of `.zero` ask for, if they are good.
fn zeros_counted(operands: &[u8]) -> usize
    ensures { result ≡ zeros_size (source_words operands.now) }
{
    if count_words(operands, Gap::Separators) != 1 {
        return 0;
    }
    match next_word(operands, Gap::Separators) {
        Some((word, _)) => match number(word) {
            Some(n) if n <= 65_536 => n as usize,
            _ => 0,
        },
        None => 0,
    }
}

/// How many bytes it is from an address to the next multiple of a number.
#[tactic(auto, unfolding(crate::specs::Places::padding))]
pub(crate) fn padding(at: u128, multiple: u32) -> u32
    requires { 0 < multiple }
    ensures value { result ≡ padding at multiple }
    ensures few { result ≤ multiple }
{
    let over = at % u128::from(multiple);
    if over == 0 { 0 } else { multiple - over as u32 }
}

/// How many zeros the operands of `.align` ask for at an address, if they are good.
fn padding_counted(at: u128, operands: &[u8]) -> usize
    ensures { result ≡ padding_size at (source_words operands.now) }
{
    if count_words(operands, Gap::Separators) != 1 {
        return 0;
    }
    match next_word(operands, Gap::Separators) {
        Some((word, _)) => match number(word) {
            Some(n) if n >= 1 && n <= 65_536 => padding(at, n as u32) as usize,
            _ => 0,
        },
        None => 0,
    }
}

/// How many bytes the text of `.ascii` has in a line, if it is a good one.
fn text_counted(line: &[u8], operands: &[u8]) -> usize
    ensures { result ≡ text_size (text_operand (text_in line.now) (source_words operands.now)) }
{
    match text_operand(line, operands) {
        Some(text) => text.len(),
        None => 0,
    }
}

/// How many bytes a statement counts at an address, in a line without its comment.
fn statement_counted(at: u128, line: &[u8], statement: &[u8]) -> usize
    ensures { result ≡ statement_size at (text_in line.now) (source_words statement.now) }
{
    match next_word(statement, Gap::Separators) {
        None => 0,
        Some((word, operands)) => match Form::from_word(word) {
            None => 0,
            Some(Form::Instruction(_) | Form::Word) => 4,
            Some(Form::Calling(call)) => 4 * usize::from(call.registers()) + 4,
            Some(Form::Byte) => count_words(operands, Gap::Separators),
            Some(Form::Zero) => zeros_counted(operands),
            Some(Form::Align) => padding_counted(at, operands),
            Some(Form::Ascii) => text_counted(line, operands),
            Some(Form::Equ) => 0,
        },
    }
}

/// Whether the first line with a label is another than this.
fn stands_elsewhere(line: usize, place: Option<Place>) -> bool
    ensures { result ≡ unwrap_or (option_map (λ p. not (p.line == line)) place) false }
{
    match place {
        None => false,
        Some(place) => place.line != line,
    }
}

impl<'t> Labels<'t> {
    /// Defines the label of a line at a place, if it has one and that isn't defined.
    #[tactic(auto, unfolding(crate::specs::Places::has_label))]
    fn add_line(&mut self, line: &'t [u8], place: Place) -> Result<(), NoMemory>
        ensures ok { OnOk result ((q : List ℕ) → place_in self.new q ≡ first_of (place_in self.old q) (if has_label line.now q then Some (record { line = place.line; address = line_value place.address line.now }) else None)) }
    {
        match defined_by(line) {
            Some(name) => self.define(
                name,
                Place {
                    line: place.line,
                    address: value_of(place.address, line),
                },
            ),
            None => Ok(()),
        }
    }

    /// Whether the label of a line, if it has one, stands first on another line.
    pub fn is_twice(&self, line: usize, label: Option<&[u8]>) -> bool
        ensures { result ≡ is_twice (place_in self.now) line (option_copied label.entry) }
    {
        match label {
            None => false,
            Some(name) => stands_elsewhere(line, self.place(name)),
        }
    }

    /// The labels of a text.
    ///
    /// # Errors
    ///
    /// There is no memory.
    pub fn of(alloc: Global, text: &'t [u8]) -> Result<Labels<'t>, NoMemory>
        ensures ok { IfOk result (λ labels. place_in labels ≡ places_of text.now) }
    {
        let mut labels = Labels::new(alloc);
        let mut place = Place {
            line: 1,
            address: 0,
        };
        let mut rest = text;
        while !rest.is_empty() {
            let (line, behind) = first_source_line(rest);
            labels.add_line(line, place)?;
            place = Place {
                line: place.line + 1,
                address: place.address + line_counted(place.address, line) as u128,
            };
            rest = behind;
        }
        Ok(labels)
    }
}

/// How many bytes a line counts at an address.
#[tactic(auto, unfolding(crate::specs::Places::line_size))]
pub fn line_counted(at: u128, line: &[u8]) -> usize
    ensures { result ≡ line_size at line.now }
{
    let line = uncommented(line);
    let (_, statement) = split_label(line);
    statement_counted(at, line, statement)
}
