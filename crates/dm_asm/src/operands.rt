//! The operands of an instruction or directive.
ghost use Rattle.std.specs.Prelude.{◌≡◌, ◌<◌, ◌≤◌, ◌^◌, ◌/◌, ◌%◌, IfOk, List, ℕ, Option};
ghost use Rattle.dm_reading.specs.Words.{source_words};
ghost use Rattle.dm_asm.specs.declared.forms.Shape.TheVariants as shape;
ghost use Rattle.dm_asm.specs.declared.labels.Place.{Place};
ghost use Rattle.dm_asm.specs.Labels.{place_in};
ghost use Rattle.std.specs.List.{position};
ghost use Rattle.dm_asm.specs.Numbers.{literal_value};
ghost use Rattle.dm_asm.specs.Operands.{call_operand, call_value, distance, distance_of, fields, is_plus, name_operand, named_value, number_operand, multiple, operand_value, register, target, value, value_behind, wanted_multiple, wanted_name, wanted_number};
ghost use Rattle.dm_asm.specs.Seen.{seen};

use crate::forms::Shape;
use crate::labels::Labels;
use crate::numbers::{call_named, is_label, looks_like_label, number, register};
use crate::refusals::Why;
use dm_reading::{Gap, next_word};

/// A number that a word must be, at most so large.
///
/// # Errors
///
/// The word is no number ([`Why::BadNumber`]), or the number is larger ([`Why::OutOfRange`]).
pub fn number_within(word: &[u8], most: u32) -> Result<u32, Why>
    ensures value { result ≡ wanted_number most (literal_value word.now) }
    ensures small { IfOk result (λ n. n ≤ most) }
{
    match number(word) {
        None => Err(Why::BadNumber),
        Some(n) if n <= u64::from(most) => Ok(n as u32),
        Some(_) => Err(Why::OutOfRange),
    }
}

/// A number that a word must be of which an address is to be a multiple: 1 to 65,536.
///
/// # Errors
///
/// The word is no number ([`Why::BadNumber`]), or the number is 0 or larger ([`Why::OutOfRange`]).
pub fn multiple_within(word: &[u8]) -> Result<u32, Why>
    ensures value { result ≡ wanted_multiple (literal_value word.now) }
    ensures some { IfOk result (λ n. 0 < n) }
    ensures small { IfOk result (λ n. n ≤ 65536) }
{
    match number(word) {
        None => Err(Why::BadNumber),
        Some(n) if n >= 1 && n <= 65_536 => Ok(n as u32),
        Some(_) => Err(Why::OutOfRange),
    }
}

/// Where the first plus sign stands.
fn plus_in(word: &[u8]) -> Option<usize>
    ensures { result ≡ position is_plus word.now }
{
    word.iter().position(|c| *c == b'+')
}

/// A label's value and a number more, at most so large.
fn value_behind(labels: &Labels, name: &[u8], more: u64, most: u32) -> Result<u32, Why>
    ensures value { result ≡ value_behind (place_in labels.now) most name.now more }
    ensures small { IfOk result (λ n. n ≤ most) }
{
    let most = u128::from(most);
    let more = u128::from(more);
    match labels.place(name) {
        None => Err(Why::UnknownLabel),
        Some(place) if place.address <= most && place.address + more <= most => {
            Ok((place.address + more) as u32)
        }
        Some(_) => Err(Why::OutOfRange),
    }
}

/// A label's value, or that and the number behind a plus sign, at most so large.
fn named_value(labels: &Labels, word: &[u8], most: u32) -> Result<u32, Why>
    ensures value { result ≡ named_value (place_in labels.now) most word.now (position is_plus word.now) }
    ensures small { IfOk result (λ n. n ≤ most) }
{
    match plus_in(word) {
        None => value_behind(labels, word, 0, most),
        Some(at) => match number(&word[at + 1..]) {
            None => Err(Why::BadNumber),
            Some(more) => value_behind(labels, &word[..at], more, most),
        },
    }
}

/// A number, a label's value, or that and a number more, that a word must be, at most so large.
///
/// # Errors
///
/// The word is no number, or none stands behind its plus sign ([`Why::BadNumber`]); it looks like a label, and no line has it
/// ([`Why::UnknownLabel`]); or the value is larger ([`Why::OutOfRange`]).
#[tactic(auto, unfolding(crate::specs::Operands::operand_value))]
pub fn value_within(labels: &Labels, word: &[u8], most: u32) -> Result<u32, Why>
    ensures value { result ≡ operand_value (place_in labels.now) most word.now }
    ensures small { IfOk result (λ n. n ≤ most) }
{
    if !looks_like_label(word) {
        return number_within(word, most);
    }
    named_value(labels, word, most)
}

/// The number of a call that a word must be, at most 255, or name.
///
/// # Errors
///
/// The word is no call's name and no number ([`Why::BadNumber`]), or the number is larger ([`Why::OutOfRange`]).
#[tactic(auto, unfolding(crate::specs::Operands::call_value))]
pub fn call_within(word: &[u8]) -> Result<u8, Why>
    ensures { result ≡ call_value word.now }
{
    match call_named(word) {
        Some(n) => Ok(n),
        None => match number_within(word, 255) {
            Err(why) => Err(why),
            Ok(n) => Ok(n as u8),
        },
    }
}

/// How many words it is from behind the instruction at an address to a target, as a byte.
fn words_between(at: u128, target: u128) -> Result<u8, Why>
    requires { at ≤ 2 ^ 127 }
    ensures { result ≡ distance at target }
{
    let behind = at + 4;
    if behind <= target {
        let forward = target - behind;
        if forward % 4 == 0 && forward < 512 {
            Ok((forward / 4) as u8)
        } else {
            Err(Why::OutOfRange)
        }
    } else {
        let back = behind - target;
        if back % 4 == 0 && back <= 512 {
            Ok((256 - back / 4) as u8)
        } else {
            Err(Why::OutOfRange)
        }
    }
}

/// The distance from the instruction at an address to the label that a word must be: words from behind the instruction,
/// -128 to 127, as a byte.
///
/// # Errors
///
/// The word doesn't look like a label ([`Why::BadNumber`]), no line has it ([`Why::UnknownLabel`]), or it is farther away or
/// at no whole word ([`Why::OutOfRange`]).
#[tactic(auto, unfolding(crate::specs::Operands::distance_of))]
pub fn distance_to(labels: &Labels, word: &[u8], at: u128) -> Result<u8, Why>
    requires { at ≤ 2 ^ 127 }
    ensures { result ≡ distance_of (place_in labels.now) at word.now }
{
    if !looks_like_label(word) {
        return Err(Why::BadNumber);
    }
    match labels.place(word) {
        None => Err(Why::UnknownLabel),
        Some(place) => words_between(at, place.address),
    }
}

/// The register that the next word must be, and what stands behind it.
#[tactic(auto, unfolding(crate::specs::Operands::register))]
pub(crate) fn next_register(rest: &[u8]) -> Result<(u8, &[u8]), Why>
    ensures { seen result ≡ register (source_words rest.now) }
{
    match next_word(rest, Gap::Separators) {
        None => Err(Why::OperandCount),
        Some((word, behind)) => match register(word) {
            None => Err(Why::BadRegister),
            Some(r) => Ok((r, behind)),
        },
    }
}

/// The number that the next word must be, and what stands behind it.
#[tactic(auto, unfolding(crate::specs::Operands::number_operand))]
pub(crate) fn next_number(rest: &[u8], most: u32) -> Result<(u32, &[u8]), Why>
    ensures value { seen result ≡ number_operand most (source_words rest.now) }
    ensures small { IfOk result (λ x. x.0 ≤ most) }
{
    match next_word(rest, Gap::Separators) {
        None => Err(Why::OperandCount),
        Some((word, behind)) => match number_within(word, most) {
            Err(why) => Err(why),
            Ok(n) => Ok((n, behind)),
        },
    }
}

/// Whether a word is a label to which `.equ` may give a value.
///
/// # Errors
///
/// It is none ([`Why::BadNumber`]).
pub fn name_within(word: &[u8]) -> Result<u8, Why>
    ensures { result ≡ wanted_name word.now }
{
    if is_label(word) {
        Ok(0)
    } else {
        Err(Why::BadNumber)
    }
}

/// The label that the next word must be to which `.equ` may give a value, and what stands behind it.
#[tactic(auto, unfolding(crate::specs::Operands::name_operand))]
pub(crate) fn next_name(rest: &[u8]) -> Result<(u8, &[u8]), Why>
    ensures { seen result ≡ name_operand (source_words rest.now) }
{
    match next_word(rest, Gap::Separators) {
        None => Err(Why::OperandCount),
        Some((word, behind)) => match name_within(word) {
            Err(why) => Err(why),
            Ok(n) => Ok((n, behind)),
        },
    }
}

/// The number that the next word must be of which an address is to be a multiple, and what stands behind it.
#[tactic(auto, unfolding(crate::specs::Operands::multiple))]
pub(crate) fn next_multiple(rest: &[u8]) -> Result<(u32, &[u8]), Why>
    ensures value { seen result ≡ multiple (source_words rest.now) }
    ensures some { IfOk result (λ x. 0 < x.0) }
    ensures small { IfOk result (λ x. x.0 ≤ 65536) }
{
    match next_word(rest, Gap::Separators) {
        None => Err(Why::OperandCount),
        Some((word, behind)) => match multiple_within(word) {
            Err(why) => Err(why),
            Ok(n) => Ok((n, behind)),
        },
    }
}

/// The call that the next word must be, and what stands behind it.
#[tactic(auto, unfolding(crate::specs::Operands::call_operand))]
fn next_call(rest: &[u8]) -> Result<(u8, &[u8]), Why>
    ensures { seen result ≡ call_operand (source_words rest.now) }
{
    match next_word(rest, Gap::Separators) {
        None => Err(Why::OperandCount),
        Some((word, behind)) => match call_within(word) {
            Err(why) => Err(why),
            Ok(n) => Ok((n, behind)),
        },
    }
}

/// The number or label's address that the next word must be, and what stands behind it.
#[tactic(auto, unfolding(crate::specs::Operands::value))]
pub(crate) fn next_value<'r>(
    labels: &Labels,
    rest: &'r [u8],
    most: u32,
) -> Result<(u32, &'r [u8]), Why>
    ensures value { seen result ≡ value (place_in labels.now) most (source_words rest.now) }
    ensures small { IfOk result (λ x. x.0 ≤ most) }
{
    match next_word(rest, Gap::Separators) {
        None => Err(Why::OperandCount),
        Some((word, behind)) => match value_within(labels, word, most) {
            Err(why) => Err(why),
            Ok(n) => Ok((n, behind)),
        },
    }
}

/// The distance from the instruction at an address to the label that the next word must be, and what stands
/// behind that.
#[tactic(auto, unfolding(crate::specs::Operands::target))]
fn next_target<'r>(labels: &Labels, rest: &'r [u8], at: usize) -> Result<(u8, &'r [u8]), Why>
    ensures { seen result ≡ target (place_in labels.now) at (source_words rest.now) }
{
    match next_word(rest, Gap::Separators) {
        None => Err(Why::OperandCount),
        Some((word, behind)) => match distance_to(labels, word, at as u128) {
            Err(why) => Err(why),
            Ok(d) => Ok((d, behind)),
        },
    }
}

/// The two bytes of a number below 65,536.
pub(crate) fn two_bytes(n: u32) -> (u8, u8)
    requires { n ≤ 65535 }
    ensures high { result.0 ≡ n / 256 }
    ensures low { result.1 ≡ n % 256 }
{
    ((n / 256) as u8, (n % 256) as u8)
}

/// The three last bytes of an instruction at an address.
pub(crate) fn last_bytes(
    labels: &Labels,
    at: usize,
    shape: Shape,
    rest: &[u8],
) -> Result<[u8; 3], Why>
    ensures { result ≡ fields (place_in labels.now) at shape (source_words rest.now) }
{
    match shape {
        Shape::RegisterValue => register_value(labels, rest),
        Shape::TwoRegisters => two_registers(rest),
        Shape::ThreeRegisters => three_registers(rest),
        Shape::Access => access(rest),
        Shape::Jump => jump(labels, rest),
        Shape::Branch => branch(labels, at, rest),
        Shape::Call => call(rest),
    }
}

/// A register, and a number or the address of a label.
#[tactic(auto, unfolding(crate::specs::Operands::fields))]
fn register_value(labels: &Labels, rest: &[u8]) -> Result<[u8; 3], Why>
    ensures { (n : ℕ) → result ≡ fields (place_in labels.now) n shape.RegisterValue (source_words rest.now) }
{
    let (a, rest) = next_register(rest)?;
    let (n, _) = next_value(labels, rest, 65_535)?;
    let (high, low) = two_bytes(n);
    Ok([a, high, low])
}

/// Two registers.
#[tactic(auto, unfolding(crate::specs::Operands::fields))]
fn two_registers(rest: &[u8]) -> Result<[u8; 3], Why>
    ensures { (places : List ℕ → Option Place) (n : ℕ) → result ≡ fields places n shape.TwoRegisters (source_words rest.now) }
{
    let (a, rest) = next_register(rest)?;
    let (b, _) = next_register(rest)?;
    Ok([a, b, 0])
}

/// Three registers.
#[tactic(auto, unfolding(crate::specs::Operands::fields))]
fn three_registers(rest: &[u8]) -> Result<[u8; 3], Why>
    ensures { (places : List ℕ → Option Place) (n : ℕ) → result ≡ fields places n shape.ThreeRegisters (source_words rest.now) }
{
    let (a, rest) = next_register(rest)?;
    let (b, rest) = next_register(rest)?;
    let (c, _) = next_register(rest)?;
    Ok([a, b, c])
}

/// Two registers, and a distance from the second's address.
#[tactic(auto, unfolding(crate::specs::Operands::fields))]
fn access(rest: &[u8]) -> Result<[u8; 3], Why>
    ensures { (places : List ℕ → Option Place) (n : ℕ) → result ≡ fields places n shape.Access (source_words rest.now) }
{
    let (a, rest) = next_register(rest)?;
    let (b, rest) = next_register(rest)?;
    let (n, _) = next_number(rest, 255)?;
    Ok([a, b, n as u8])
}

/// A number or the address of a label.
#[tactic(auto, unfolding(crate::specs::Operands::fields))]
fn jump(labels: &Labels, rest: &[u8]) -> Result<[u8; 3], Why>
    ensures { (n : ℕ) → result ≡ fields (place_in labels.now) n shape.Jump (source_words rest.now) }
{
    let (n, _) = next_value(labels, rest, 65_535)?;
    let (high, low) = two_bytes(n);
    Ok([0, high, low])
}

/// Two registers, and how far away a label is.
#[tactic(auto, unfolding(crate::specs::Operands::fields))]
fn branch(labels: &Labels, at: usize, rest: &[u8]) -> Result<[u8; 3], Why>
    ensures { result ≡ fields (place_in labels.now) at shape.Branch (source_words rest.now) }
{
    let (a, rest) = next_register(rest)?;
    let (b, rest) = next_register(rest)?;
    let (d, _) = next_target(labels, rest, at)?;
    Ok([a, b, d])
}

/// A call.
#[tactic(auto, unfolding(crate::specs::Operands::fields))]
fn call(rest: &[u8]) -> Result<[u8; 3], Why>
    ensures { (places : List ℕ → Option Place) (n : ℕ) → result ≡ fields places n shape.Call (source_words rest.now) }
{
    let (n, _) = next_call(rest)?;
    Ok([0, 0, n])
}
