//! Calls with operands.
ghost use Rattle.std.specs.Prelude.{◌≡◌, ◌+◌, ◌++◌, ◌≤◌, ◌-◌, OnOk, length, true};
ghost use Rattle.std.specs.List.{find};
ghost use Rattle.std.specs.Str.{bytes_eq};
ghost use Rattle.dm_reading.specs.Words.{source_words};
ghost use Rattle.dm_asm.specs.Calls.{argument_of, call_bytes, call_code, call_registers, call_rest, call_word, call_words, cleared, is_set, making, setting, settings, takes_arguments, takes_values};
ghost use Rattle.dm_asm.specs.Labels.{place_in};
ghost use Rattle.dm_asm.specs.Refusals.{Gives, bytes_behind};

use crate::labels::Labels;
use crate::numbers::register;
use crate::operands::{two_bytes, value_within};
use crate::refusals::{Stop, Why};
use dm_memory::{NoMemory, extend_from_slice};
use dm_processor::Opcode;
use dm_reading::{Gap, count_words, next_word};

/// A call that stands with its operands.
#[derive(Clone, Copy)]
pub enum CallWord {
    /// `exit`.
    Exit,
    /// `out`: a register.
    Out,
    /// `make`: code, channel and flags, then base and length or neither.
    Make,
    /// `copy`: a slot.
    Copy,
    /// `drop`: a slot.
    Drop,
    /// `send`: a slot, then body and its length or neither, then how many links and their list or neither.
    Send,
    /// `receive`: a mask, then buffer and its size or neither.
    Receive,
    /// `move`: slot, direction, offset, address, length.
    Move,
}

/// An operand of such a call.
#[derive(Clone, Copy)]
pub enum Argument {
    /// What a register holds: 0 to 15.
    Register(u8),
    /// A value.
    Value(u16),
}

/// Every call, in order of the numbers.
const CALL_WORDS: [CallWord; 8] = [
    CallWord::Exit,
    CallWord::Out,
    CallWord::Make,
    CallWord::Copy,
    CallWord::Drop,
    CallWord::Send,
    CallWord::Receive,
    CallWord::Move,
];

impl CallWord {
    /// Its word.
    fn word(self) -> &'static [u8]
        ensures { result.now ≡ call_word self }
    {
        match self {
            CallWord::Exit => b"exit",
            CallWord::Out => b"out",
            CallWord::Make => b"make",
            CallWord::Copy => b"copy",
            CallWord::Drop => b"drop",
            CallWord::Send => b"send",
            CallWord::Receive => b"receive",
            CallWord::Move => b"move",
        }
    }

    /// The call that a word names.
    pub(crate) fn from_word(word: &[u8]) -> Option<CallWord>
        ensures { result ≡ find (λ c. bytes_eq word.now (call_word c)) call_words }
    {
        CALL_WORDS.iter().copied().find(|call| word == call.word())
    }

    /// Its number, 1 to 8.
    fn code(self) -> u8
        ensures { result ≡ call_code self }
    {
        match self {
            CallWord::Exit => 1,
            CallWord::Out => 2,
            CallWord::Make => 3,
            CallWord::Copy => 4,
            CallWord::Drop => 5,
            CallWord::Send => 6,
            CallWord::Receive => 7,
            CallWord::Move => 8,
        }
    }

    /// How many registers it reads, from r1 on.
    pub(crate) fn registers(self) -> u8
        ensures value { result ≡ call_registers self }
        ensures few { result ≤ 5 }
    {
        match self {
            CallWord::Exit => 0,
            CallWord::Out | CallWord::Copy | CallWord::Drop => 1,
            CallWord::Receive => 3,
            CallWord::Make | CallWord::Send | CallWord::Move => 5,
        }
    }

    /// Whether it can have so many operands.
    pub fn takes(self, operands: usize) -> bool
        ensures { result ≡ takes_arguments self operands }
    {
        match self {
            CallWord::Exit => operands == 0,
            CallWord::Out | CallWord::Copy | CallWord::Drop => operands == 1,
            CallWord::Make => operands == 3 || operands == 5,
            CallWord::Send => operands == 1 || operands == 3 || operands == 5,
            CallWord::Receive => operands == 1 || operands == 3,
            CallWord::Move => operands == 5,
        }
    }

    /// Whether an operand may be a value: that of `out` is a register.
    pub fn takes_values(self) -> bool
        ensures { result ≡ takes_values self }
    {
        !matches!(self, CallWord::Out)
    }
}

/// Whether an operand before the one for a register has set this register.
pub fn is_set(place: u64, other: u8) -> bool
    ensures { result ≡ is_set place other }
{
    0 < other && u64::from(other) < place
}

/// The operand that a word is, for the register with the number of its place, from 1.
///
/// # Errors
///
/// The word is a register that an operand before it sets, or no register where one must stand ([`Why::BadRegister`]);
/// or else it is no value ([`value_within`] says why).
#[tactic(auto, unfolding(crate::specs::Calls::argument_of))]
pub fn argument_of(
    labels: &Labels,
    call: CallWord,
    place: u64,
    word: &[u8],
) -> Result<Argument, Why>
    ensures { result ≡ argument_of (place_in labels.now) call place word.now }
{
    match register(word) {
        Some(other) if is_set(place, other) => Err(Why::BadRegister),
        Some(other) => Ok(Argument::Register(other)),
        None if call.takes_values() => match value_within(labels, word, 65_535) {
            Err(why) => Err(why),
            Ok(n) => Ok(Argument::Value(n as u16)),
        },
        None => Err(Why::BadRegister),
    }
}

/// The instruction that sets a register to an operand.
fn setting(register: u8, argument: Argument) -> [u8; 4]
    ensures { result ≡ setting register argument }
{
    match argument {
        Argument::Register(other) => [Opcode::Mov.code(), register, other, 0],
        Argument::Value(n) => {
            let (high, low) = two_bytes(u32::from(n));
            [Opcode::Li.code(), register, high, low]
        }
    }
}

/// Adds the instructions that set registers to operands, from r1 on.
fn add_settings(
    labels: &Labels,
    image: &mut Vec<u8>,
    call: CallWord,
    operands: &[u8],
) -> Result<(), Stop>
    requires { length (source_words operands.now) ≤ 5 }
    ensures { Gives (λ _. image.new.items) result
        (bytes_behind image.old.items (settings (place_in labels.now) call 1 (source_words operands.now))) }
{
    let mut rest = operands;
    let mut place: u8 = 1;
    while let Some((word, others)) = next_word(rest, Gap::Separators) {
        match argument_of(labels, call, u64::from(place), word) {
            Ok(argument) => extend_from_slice(image, &setting(place, argument))?,
            Err(why) => return Err(Stop::Fault(why)),
        }
        place += 1;
        rest = others;
    }
    Ok(())
}

/// Adds the instructions that set so many registers to 0, from one on.
fn add_cleared(image: &mut Vec<u8>, from: u8, count: u8) -> Result<(), NoMemory>
    requires { from + count ≤ 6 }
    ensures { OnOk result (image.new.items ≡ image.old.items ++ cleared from count) }
{
    let mut register = from;
    let mut left = count;
    while left > 0 {
        extend_from_slice(image, &setting(register, Argument::Value(0)))?;
        register += 1;
        left -= 1;
    }
    Ok(())
}

/// Adds the instruction that makes a call.
fn add_making(image: &mut Vec<u8>, call: CallWord) -> Result<(), NoMemory>
    ensures { OnOk result (image.new.items ≡ image.old.items ++ making call) }
{
    extend_from_slice(image, &[Opcode::Sys.code(), 0, 0, call.code()])
}

/// Adds what stands behind the instructions for so many operands.
fn add_rest(image: &mut Vec<u8>, call: CallWord, operands: u8) -> Result<(), NoMemory>
    requires { operands ≤ call_registers call }
    ensures { OnOk result (image.new.items ≡ image.old.items ++ call_rest call operands) }
{
    add_cleared(image, 1 + operands, call.registers() - operands)?;
    add_making(image, call)
}

/// Adds a call with its operands.
#[tactic(auto, unfolding(crate::specs::Calls::call_bytes))]
pub(crate) fn add_call(
    labels: &Labels,
    image: &mut Vec<u8>,
    call: CallWord,
    operands: &[u8],
) -> Result<(), Stop>
    requires { takes_arguments call (length (source_words operands.now)) ≡ true }
    ensures { Gives (λ _. image.new.items) result
        (bytes_behind image.old.items (call_bytes (place_in labels.now) call (source_words operands.now))) }
{
    let count = count_words(operands, Gap::Separators);
    add_settings(labels, image, call, operands)?;
    add_rest(image, call, count as u8)?;
    Ok(())
}
