//! The register machine that every process runs on: sixteen registers, a program counter and a
//! memory of bytes.
#![tactic(auto)]

mod blocks;
mod flat_bytes;
mod laws;
mod machine;
mod opcodes;
mod operations;
mod registers;
mod storage;

pub use blocks::{BLOCK, MOST_BLOCKS, MOST_MEMORY, Memory};
pub use dm_memory::NoMemory;
pub use flat_bytes::Flat;
pub use laws::{instructions_keep_lengths, instructions_keep_ranges, words_spell_their_bytes};
pub use machine::step;
pub use opcodes::Opcode;
pub use registers::{Fault, REGISTERS, Regs, Stepped};
pub use storage::Cells;
