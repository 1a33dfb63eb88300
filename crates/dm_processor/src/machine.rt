//! One step of the machine.
ghost use Rattle.std.specs.Prelude.{◌≡◌, ◌*◌, ◌%◌, ◌^◌, nat_lt};
ghost use Rattle.dm_processor.specs.Instructions.{DoesRow, immediate, instruction, operation_row};
ghost use Rattle.dm_processor.specs.Opcodes.{opcode_of};

use crate::opcodes::Opcode;
use crate::operations::{address, fetch, load_byte, load_word, store_byte, store_word};
use crate::registers::{Fault, Regs, Stepped};
use crate::storage::Cells;

/// The three last bytes of an instruction.
#[derive(Clone, Copy)]
struct Operands {
    a: u8,
    b: u8,
    c: u8,
}

impl Operands {
    /// The number in the two last bytes.
    fn immediate(self) -> u32
        ensures { result ≡ immediate self.b self.c }
    {
        256 * u32::from(self.b) + u32::from(self.c)
    }
}

/// A value shifted towards its high bits, by so many modulo 32.
fn shifted_up(value: u32, by: u32) -> u32
    ensures { result ≡ (value * 2 ^ (by % 32)) % 2 ^ 32 }
{
    value << (by % 32)
}

/// Whether a value is below another, both without a sign.
fn is_below(value: u32, other: u32) -> bool
    ensures { result ≡ nat_lt value other }
{
    value < other
}

/// Performs an instruction, if it is one: if there is such an operation, and the operands that name registers name some.
fn perform<C: Cells>(code: u8, operands: Operands, regs: &mut Regs, cells: &mut C) -> Stepped
    ensures row { DoesRow result regs.new (C.bytes cells.new)
        (operation_row (opcode_of code) regs.old (C.bytes cells.old) operands.a operands.b operands.c) regs.old (C.bytes cells.old) }
{
    let Operands { a, b, c } = operands;
    let one = a < 16;
    let two = one && b < 16;
    let three = two && c < 16;
    match Opcode::from_code(code) {
        Some(Opcode::Li) if one => regs.put(a, operands.immediate()),
        Some(Opcode::Lih) if one => regs.put(
            a,
            regs.read(a) % 65_536 + 65_536 * operands.immediate(),
        ),
        Some(Opcode::Mov) if two => regs.put(a, regs.read(b)),
        Some(Opcode::Add) if three => regs.put(a, regs.read(b).wrapping_add(regs.read(c))),
        Some(Opcode::Sub) if three => regs.put(a, regs.read(b).wrapping_sub(regs.read(c))),
        Some(Opcode::Mul) if three => regs.put(a, regs.read(b).wrapping_mul(regs.read(c))),
        Some(Opcode::And) if three => regs.put(a, regs.read(b) & regs.read(c)),
        Some(Opcode::Or) if three => regs.put(a, regs.read(b) | regs.read(c)),
        Some(Opcode::Xor) if three => regs.put(a, regs.read(b) ^ regs.read(c)),
        Some(Opcode::Shl) if three => regs.put(a, shifted_up(regs.read(b), regs.read(c))),
        Some(Opcode::Shr) if three => regs.put(a, regs.read(b) >> (regs.read(c) % 32)),
        Some(Opcode::Lw) if two => load_word(regs, cells, a, address(regs, b, c)),
        Some(Opcode::Sw) if two => store_word(regs, cells, a, address(regs, b, c)),
        Some(Opcode::Lb) if two => load_byte(regs, cells, a, address(regs, b, c)),
        Some(Opcode::Sb) if two => store_byte(regs, cells, a, address(regs, b, c)),
        Some(Opcode::Jmp) => regs.jump(operands.immediate()),
        Some(Opcode::Beq) if two => regs.branch(regs.read(a) == regs.read(b), c),
        Some(Opcode::Bne) if two => regs.branch(regs.read(a) != regs.read(b), c),
        Some(Opcode::Bltu) if two => regs.branch(is_below(regs.read(a), regs.read(b)), c),
        Some(Opcode::Sys) => {
            regs.go_on();
            Stepped::Call(c)
        }
        _ => Stepped::Fault(Fault::UnknownOpcode),
    }
}

/// Performs the instruction at the program counter, or says why that cannot be.
#[tactic(auto, unfolding(crate::specs::Instructions::instruction))]
pub fn step<C: Cells>(regs: &mut Regs, cells: &mut C) -> Stepped
    ensures row { DoesRow result regs.new (C.bytes cells.new) (instruction regs.old (C.bytes cells.old)) regs.old (C.bytes cells.old) }
{
    match fetch(regs.pc, cells) {
        Ok(bytes) => {
            let [code, a, b, c] = bytes;
            perform(code, Operands { a, b, c }, regs, cells)
        }
        Err(fault) => Stepped::Fault(fault),
    }
}
