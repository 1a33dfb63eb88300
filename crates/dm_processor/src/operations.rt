//! The operations that touch the memory.
ghost use Rattle.std.specs.Prelude.{◌≡◌, ◌+◌, ◌%◌, ◌<◌, ◌^◌, ◌≤◌, IfErr, IfOk, drop, length, slice_index, slice_set, take};
ghost use Rattle.dm_processor.specs.Instructions.{DoesRow, Faults, Plain, Row, byte_row, past, register_at, with_reg, with_word, word_at, word_row};

use crate::registers::{Fault, REGISTERS, Regs, Stepped};
use crate::storage::Cells;
use byteorder::{BigEndian, ByteOrder};

/// The word at an address of one.
#[tactic(auto, using(crate::proofs::Words::words))]
fn word<C: Cells>(cells: &C, at: u32) -> u32
    requires within { at + 4 ≤ length (C.bytes cells.now) }
    requires aligned { at % 4 ≡ 0 }
    ensures { result ≡ word_at (C.bytes cells.now) at }
{
    BigEndian::read_u32(&cells.four_bytes(at))
}

/// Changes the word at an address.
fn set_word<C: Cells>(cells: &mut C, at: u32, value: u32)
    requires { at + 4 ≤ length (C.bytes cells.old) }
    ensures { C.bytes cells.new ≡ with_word (C.bytes cells.old) at value }
{
    let mut bytes = [0; 4];
    BigEndian::write_u32(&mut bytes, value);
    cells.copy_in(at, &bytes);
}

/// A place in the memory as an address of a word, unless it is outside or no multiple of 4.
fn word_address<C: Cells>(cells: &C, at: u64) -> Result<u32, Fault>
    requires { at < 2 ^ 33 }
    ensures ok { IfOk result (λ address. (address ≡ at) × (at + 4 ≤ length (C.bytes cells.now)) × (at % 4 ≡ 0)) }
    ensures err { IfErr result (λ fault. (row : Row) → word_row (C.bytes cells.now) at row ≡ Faults fault) }
{
    if at + 4 > u64::from(cells.len()) {
        Err(Fault::OutOfRange)
    } else if at % 4 != 0 {
        Err(Fault::Unaligned)
    } else {
        Ok(at as u32)
    }
}

/// A place in the memory as an address of a byte, unless it is outside.
fn byte_address<C: Cells>(cells: &C, at: u64) -> Result<u32, Fault>
    ensures ok { IfOk result (λ address. (address ≡ at) × (at < length (C.bytes cells.now))) }
    ensures err { IfErr result (λ fault. (row : Row) → byte_row (C.bytes cells.now) at row ≡ Faults fault) }
{
    if at < u64::from(cells.len()) {
        Ok(at as u32)
    } else {
        Err(Fault::OutOfRange)
    }
}

/// The address in a register and a number beside it.
pub fn address(regs: &Regs, field: u8, beside: u8) -> u64
    requires { field < REGISTERS }
    ensures place { result ≡ register_at regs.now field + beside }
    ensures small { result < 2 ^ 33 }
{
    u64::from(regs.read(field)) + u64::from(beside)
}

/// The four bytes of the instruction at the program counter.
pub fn fetch<C: Cells>(pc: u32, cells: &C) -> Result<[u8; 4], Fault>
    ensures ok { IfOk result (λ code. (code ≡ take 4 (drop pc (C.bytes cells.now))) × (pc + 4 ≤ length (C.bytes cells.now)) × (pc % 4 ≡ 0)) }
    ensures err { IfErr result (λ fault. (row : Row) → word_row (C.bytes cells.now) pc row ≡ Faults fault) }
{
    match word_address(cells, u64::from(pc)) {
        Ok(at) => Ok(cells.four_bytes(at)),
        Err(fault) => Err(fault),
    }
}

/// Loads a word into a register.
pub fn load_word<C: Cells>(regs: &mut Regs, cells: &C, field: u8, at: u64) -> Stepped
    requires register { field < REGISTERS }
    requires place { at < 2 ^ 33 }
    ensures row { let m = C.bytes cells.now in DoesRow result regs.new m (word_row m at (Plain (with_reg regs.old field (word_at m at)) m)) regs.old m }
{
    match word_address(cells, at) {
        Ok(at) => regs.put(field, word(cells, at)),
        Err(fault) => Stepped::Fault(fault),
    }
}

/// Stores a register as a word.
pub fn store_word<C: Cells>(regs: &mut Regs, cells: &mut C, field: u8, at: u64) -> Stepped
    requires register { field < REGISTERS }
    requires place { at < 2 ^ 33 }
    ensures row { let m = C.bytes cells.old in DoesRow result regs.new (C.bytes cells.new)
        (word_row m at (Plain (past regs.old) (with_word m at (register_at regs.old field)))) regs.old m }
{
    match word_address(cells, at) {
        Ok(at) => {
            set_word(cells, at, regs.read(field));
            regs.go_on()
        }
        Err(fault) => Stepped::Fault(fault),
    }
}

/// Loads a byte into a register.
pub fn load_byte<C: Cells>(regs: &mut Regs, cells: &C, field: u8, at: u64) -> Stepped
    requires { field < REGISTERS }
    ensures row { let m = C.bytes cells.now in DoesRow result regs.new m (byte_row m at (Plain (with_reg regs.old field (slice_index m at)) m)) regs.old m }
{
    match byte_address(cells, at) {
        Ok(at) => regs.put(field, u32::from(cells.byte(at))),
        Err(fault) => Stepped::Fault(fault),
    }
}

/// Stores the lowest byte of a register.
pub fn store_byte<C: Cells>(regs: &mut Regs, cells: &mut C, field: u8, at: u64) -> Stepped
    requires { field < REGISTERS }
    ensures row { let m = C.bytes cells.old in DoesRow result regs.new (C.bytes cells.new)
        (byte_row m at (Plain (past regs.old) (slice_set m at (register_at regs.old field % 256)))) regs.old m }
{
    match byte_address(cells, at) {
        Ok(at) => {
            cells.set_byte(at, (regs.read(field) % 256) as u8);
            regs.go_on()
        }
        Err(fault) => Stepped::Fault(fault),
    }
}
