//! The operands of directives.
ghost use Rattle.std.specs.Prelude.{◌≡◌, ◌&&◌, nat_le};
ghost use Rattle.dm_schedule.specs.Keywords.{Machine, Process};
ghost use Rattle.dm_schedule.specs.Numbers.{number_of_word};
ghost use Rattle.dm_schedule.specs.Operands.{value_of, within};

use crate::LineFault;
use crate::numbers::{number, process_numbers};
use dm_link::Pid;

/// The most rounds of one line.
const MOST_ROUNDS: u64 = 65_536;

/// The machine that a word is.
pub fn machine(machines: u8, word: &[u8]) -> Result<u8, LineFault>
    ensures { result ≡ value_of machines Machine word.now }
{
    match number(word) {
        None => Err(LineFault::NotANumber),
        Some(m) if m < u64::from(machines) => Ok(m as u8),
        Some(_) => Err(LineFault::OutOfRange),
    }
}

/// The process that a word is.
pub fn process(machines: u8, word: &[u8]) -> Result<Pid, LineFault>
    ensures { result ≡ value_of machines Process word.now }
{
    match process_numbers(word) {
        None => Err(LineFault::NotANumber),
        Some((home, num)) if home < u64::from(machines) && num <= u64::from(u32::MAX) => Ok(Pid {
            home: home as u8,
            num: num as u32,
        }),
        Some(_) => Err(LineFault::OutOfRange),
    }
}

/// The place of a packet that a word is.
pub fn packet(word: &[u8]) -> Result<u64, LineFault>
    ensures { result ≡ within (λ k. nat_le k 4294967295) (number_of_word word.now) }
{
    match number(word) {
        None => Err(LineFault::NotANumber),
        Some(k) if k <= u64::from(u32::MAX) => Ok(k),
        Some(_) => Err(LineFault::OutOfRange),
    }
}

/// The number of rounds that a word is.
pub fn rounds(word: &[u8]) -> Result<u32, LineFault>
    ensures { result ≡ within (λ n. nat_le 1 n && nat_le n 65536) (number_of_word word.now) }
{
    match number(word) {
        None => Err(LineFault::NotANumber),
        Some(n @ 1..=MOST_ROUNDS) => Ok(n as u32),
        Some(_) => Err(LineFault::OutOfRange),
    }
}
