//! How a process executes instructions in a turn.
ghost use Rattle.std.specs.Prelude.{◌≡◌};
ghost use Rattle.dm_kernel.specs.Serve.{ran};

use dm_processor::{Fault, Memory, Regs, Stepped, step};

/// Why a process stops before its quantum is used up.
#[derive(Clone, Copy)]
pub enum Halt {
    /// It asks for the call of this number; its program counter is past the instruction.
    Call(u8),
    /// Its next instruction can't be performed.
    Fault(Fault),
}

/// Executes at most so many plain instructions, up to the first that isn't one: how many there were, and why no more.
pub fn execute(regs: &mut Regs, memory: &mut Memory, quantum: u32) -> (u32, Option<Halt>)
    ensures { ran quantum (record { regs = regs.old; bytes = memory.old }) ≡
        record { count = result.0; machine = record { regs = regs.new; bytes = memory.new }; halt = result.1 } }
{
    let mut count = 0;
    while count < quantum {
        match step(regs, memory) {
            Stepped::Plain => count += 1,
            Stepped::Call(number) => return (count, Some(Halt::Call(number))),
            Stepped::Fault(fault) => return (count, Some(Halt::Fault(fault))),
        }
    }
    (count, None)
}
