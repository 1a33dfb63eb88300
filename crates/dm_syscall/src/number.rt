//! The numbers of the calls.
ghost use Rattle.std.specs.Prelude.{◌≡◌, MatchOption};
ghost use Rattle.dm_onekernel.specs.Calls as kernel;
ghost use Rattle.dm_onekernel.specs.Calls.{call_number};
ghost use Rattle.dm_syscall.specs.Numbers.{number_of};

/// The calls of processes (1977).
#[derive(Clone, Copy)]
pub enum Call {
    Exit,
    Out,
    Make,
    Copy,
    Drop,
    Send,
    Receive,
    Move,
}

impl Call {
    /// The call with a number, 1 to 8; nothing where none has it.
    pub fn from_number(number: u8) -> Option<Call>
        ensures { MatchOption result (call_number number ≡ kernel.Unknown) (λ c. call_number number ≡ number_of c) }
    {
        match number {
            1 => Some(Call::Exit),
            2 => Some(Call::Out),
            3 => Some(Call::Make),
            4 => Some(Call::Copy),
            5 => Some(Call::Drop),
            6 => Some(Call::Send),
            7 => Some(Call::Receive),
            8 => Some(Call::Move),
            _ => None,
        }
    }
}
