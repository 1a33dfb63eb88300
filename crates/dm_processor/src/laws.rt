//! What every instruction keeps, as laws on the instruction table.
ghost use Rattle.std.specs.Prelude.{ℕ, List, drop, length, take, ◌+◌, ◌≡◌, ◌≤◌};
ghost use Rattle.dm_processor.specs.Instructions.{instruction, word_at, word_bytes};
ghost use Rattle.dm_processor.specs.Kept.{AreBytes, AreWords, KeepsLengths, KeepsRanges};
ghost use Rattle.dm_processor.specs.declared.registers.Regs.{Regs};

/// Every instruction leaves as many registers, and as many bytes of memory, as there were.
pub fn instructions_keep_lengths()
    ensures { (regs : Regs) (m : List ℕ) → KeepsLengths (instruction regs m) regs m }
{}

/// Every instruction leaves registers of 32 bits and bytes of 8.
pub fn instructions_keep_ranges()
    ensures { (regs : Regs) (m : List ℕ) → AreWords regs → AreBytes m → KeepsRanges (instruction regs m) }
{}

/// A word of a memory spells the four bytes that stand there.
pub fn words_spell_their_bytes()
    ensures { (m : List ℕ) (at : ℕ) → AreBytes m → at + 4 ≤ length m → word_bytes (word_at m at) ≡ take 4 (drop at m) }
{}
