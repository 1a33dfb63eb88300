//! What is wrong with a line of a trace.
ghost use Rattle.std.specs.Prelude.{◌≡◌};
ghost use Rattle.dm_check.specs.Faults.{number_of_trace_fault};

use thiserror::Error;

/// What is wrong with a line of a trace.
#[derive(Clone, Copy, Debug, Error)]
pub enum TraceFault {
    #[error("not a line of the format")]
    NotALine,
    #[error("not the line that is due")]
    NotDue,
    #[error("not what the process does")]
    NotAStep,
    #[error("not the lines at the end")]
    NotTheEnd,
}

impl TraceFault {
    /// The number of the fault: 1 to 4.
    pub fn number(self) -> u8
        ensures { result ≡ number_of_trace_fault self }
    {
        match self {
            TraceFault::NotALine => 1,
            TraceFault::NotDue => 2,
            TraceFault::NotAStep => 3,
            TraceFault::NotTheEnd => 4,
        }
    }
}
