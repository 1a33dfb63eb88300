//! Why a text isn't what the system prints.
use crate::fault::TraceFault;
use dm_memory::NoMemory;
use thiserror::Error;

/// Why a text isn't what the system prints.
#[derive(Clone, Copy, Debug, Error)]
pub enum CheckError {
    /// The first bad line, counted from 1, and what is wrong with it; where the text ends too early, the line behind its last.
    #[error("line {line}: {fault}")]
    Refused { line: u64, fault: TraceFault },
    #[error("no memory")]
    NoMemory(NoMemory),
}
