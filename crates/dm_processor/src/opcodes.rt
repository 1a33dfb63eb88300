//! The twenty instructions, by number.
ghost use Rattle.std.specs.Prelude.{◌≡◌};
ghost use Rattle.dm_processor.specs.Opcodes.{opcode_number, opcode_of};

/// An instruction's operation.
#[derive(Clone, Copy)]
pub enum Opcode {
    Li,
    Lih,
    Mov,
    Add,
    Sub,
    Mul,
    And,
    Or,
    Xor,
    Shl,
    Shr,
    Lw,
    Sw,
    Lb,
    Sb,
    Jmp,
    Beq,
    Bne,
    Bltu,
    Sys,
}

impl Opcode {
    /// The first byte of an instruction with this operation, 1 to 20.
    pub fn code(self) -> u8
        ensures { result ≡ opcode_number self }
    {
        match self {
            Opcode::Li => 1,
            Opcode::Lih => 2,
            Opcode::Mov => 3,
            Opcode::Add => 4,
            Opcode::Sub => 5,
            Opcode::Mul => 6,
            Opcode::And => 7,
            Opcode::Or => 8,
            Opcode::Xor => 9,
            Opcode::Shl => 10,
            Opcode::Shr => 11,
            Opcode::Lw => 12,
            Opcode::Sw => 13,
            Opcode::Lb => 14,
            Opcode::Sb => 15,
            Opcode::Jmp => 16,
            Opcode::Beq => 17,
            Opcode::Bne => 18,
            Opcode::Bltu => 19,
            Opcode::Sys => 20,
        }
    }

    /// The operation that an instruction's first byte names, if any.
    pub fn from_code(code: u8) -> Option<Opcode>
        ensures { result ≡ opcode_of code }
    {
        Some(match code {
            1 => Opcode::Li,
            2 => Opcode::Lih,
            3 => Opcode::Mov,
            4 => Opcode::Add,
            5 => Opcode::Sub,
            6 => Opcode::Mul,
            7 => Opcode::And,
            8 => Opcode::Or,
            9 => Opcode::Xor,
            10 => Opcode::Shl,
            11 => Opcode::Shr,
            12 => Opcode::Lw,
            13 => Opcode::Sw,
            14 => Opcode::Lb,
            15 => Opcode::Sb,
            16 => Opcode::Jmp,
            17 => Opcode::Beq,
            18 => Opcode::Bne,
            19 => Opcode::Bltu,
            20 => Opcode::Sys,
            _ => return None,
        })
    }
}
