//! Registers, and what an instruction ends with.
ghost use Rattle.std.specs.Prelude.{◌≡◌, ◌<◌, replicate};
ghost use Rattle.dm_processor.specs.Faults.{fault_code};
ghost use Rattle.dm_processor.specs.Instructions.{at_pc, branch_pc, past, register_at, with_reg};

/// How many registers a process has.
pub const REGISTERS: usize = 16;

/// The registers r0 to r15 and the program counter, a byte address.
#[derive(Clone, Copy)]
pub struct Regs {
    pub r: [u32; 16],
    pub pc: u32,
}

impl Regs {
    /// All registers and the program counter at 0.
    pub fn new() -> Regs
        ensures registers { result.r ≡ replicate REGISTERS 0 }
        ensures pc { result.pc ≡ 0 }
    {
        Regs { r: [0; 16], pc: 0 }
    }

    /// A register's value.
    pub(crate) fn read(&self, field: u8) -> u32
        requires { field < REGISTERS }
        ensures { result ≡ register_at self.now field }
    {
        self.r[field as usize]
    }

    /// Goes on to the next instruction.
    pub(crate) fn go_on(&mut self) -> Stepped
        ensures result { result ≡ Stepped.Plain }
        ensures after { self.new ≡ past self.old }
    {
        self.pc = self.pc.wrapping_add(4);
        Stepped::Plain
    }

    /// Puts a value into a register, and goes on to the next instruction.
    pub(crate) fn put(&mut self, field: u8, value: u32) -> Stepped
        requires { field < REGISTERS }
        ensures result { result ≡ Stepped.Plain }
        ensures after { self.new ≡ with_reg self.old field value }
    {
        self.r[field as usize] = value;
        self.go_on()
    }

    /// Goes on at an address.
    pub(crate) fn jump(&mut self, to: u32) -> Stepped
        ensures result { result ≡ Stepped.Plain }
        ensures after { self.new ≡ at_pc self.old to }
    {
        self.pc = to;
        Stepped::Plain
    }

    /// Goes on to the next instruction, or at the target of a branch that is taken.
    pub(crate) fn branch(&mut self, taken: bool, distance: u8) -> Stepped
        ensures result { result ≡ Stepped.Plain }
        ensures after { self.new ≡ at_pc self.old (branch_pc taken self.old.pc distance) }
    {
        let next = self.pc.wrapping_add(4);
        self.pc = if !taken {
            next
        } else if distance < 128 {
            next.wrapping_add(4 * u32::from(distance))
        } else {
            next.wrapping_sub(4 * (256 - u32::from(distance)))
        };
        Stepped::Plain
    }
}

/// Why an instruction could not be performed.
#[derive(Clone, Copy, Debug)]
pub enum Fault {
    /// An address, or the program counter, is outside the memory.
    OutOfRange,
    /// There is no such opcode, or no such register.
    UnknownOpcode,
    /// The address of a word, or the program counter, is no multiple of 4.
    Unaligned,
}

impl Fault {
    /// The number of the fault, as it is printed when a process ends: 1 to 3.
    pub fn code(self) -> u8
        ensures { result ≡ fault_code self }
    {
        match self {
            Fault::OutOfRange => 1,
            Fault::UnknownOpcode => 2,
            Fault::Unaligned => 3,
        }
    }
}

/// What one instruction came to.
#[derive(Clone, Copy, Debug)]
pub enum Stepped {
    /// It was performed.
    Plain,
    /// It asks the kernel for the call of this number; the program counter is past it.
    Call(u8),
    /// It could not be performed, and changed nothing.
    Fault(Fault),
}
