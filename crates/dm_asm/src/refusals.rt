//! Why a text is refused.
ghost use Rattle.std.specs.Prelude.{◌≡◌};
ghost use Rattle.dm_asm.specs.Refusals.{IsWant, why_code};
ghost use Rattle.dm_asm.specs.declared.refusals.Stop.TheVariants as stops;

use dm_memory::NoMemory;

/// Why a line is refused.
#[derive(Clone, Copy, Debug)]
pub enum Why {
    /// No instruction, directive or label is written so.
    UnknownWord,
    /// A register must stand here.
    BadRegister,
    /// A number must stand here, or a label.
    BadNumber,
    /// The number, the label's value or the distance doesn't fit.
    OutOfRange,
    /// No line has this label.
    UnknownLabel,
    /// An earlier line has this label.
    LabelTwice,
    /// The instruction or directive has more or fewer operands.
    OperandCount,
    /// The image is longer than 65,536 bytes with this line.
    TooLong,
}

impl Why {
    /// The number of the reason: 1 to 8.
    pub fn code(self) -> u8
        ensures { result ≡ why_code self }
    {
        match self {
            Why::UnknownWord => 1,
            Why::BadRegister => 2,
            Why::BadNumber => 3,
            Why::OutOfRange => 4,
            Why::UnknownLabel => 5,
            Why::LabelTwice => 6,
            Why::OperandCount => 7,
            Why::TooLong => 8,
        }
    }
}

/// Why there is no image.
#[derive(Clone, Copy, Debug, Drop)]
pub enum AssembleError {
    /// A line is refused; lines count from 1.
    Fault { line: usize, why: Why },
    /// No memory was left.
    NoMemory(NoMemory),
}

/// Why a line has no bytes.
#[derive(Clone, Copy, Debug, Drop)]
pub enum Stop {
    /// It is refused.
    Fault(Why),
    /// No memory was left.
    NoMemory(NoMemory),
}

impl From<Why> for Stop {
    ghost from_gives = { λ why stop. stop ≡ stops.Fault why };

    fn from(why: Why) -> Stop {
        Stop::Fault(why)
    }
}

impl From<NoMemory> for Stop {
    ghost from_gives = { λ _ stop. IsWant stop };

    fn from(none: NoMemory) -> Stop {
        Stop::NoMemory(none)
    }
}
