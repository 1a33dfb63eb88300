//! Why a run stops.
use dm_memory::NoMemory;

/// Why a run stopped before its end.
#[derive(Clone, Copy, Debug)]
pub enum Stop {
    /// No memory was left.
    NoMemory(NoMemory),
    /// The sink failed.
    WriteFault,
    /// A message was to be routed between two machines that count as many as they may.
    Worn { from: u8, to: u8 },
}
