//! What is said of an image's text and what the assembler does, as a law.
ghost use Rattle.std.specs.Prelude.{ℕ, List, ◌≡◌};
ghost use Rattle.dm_reading.specs.Lines.{source_lines};
ghost use Rattle.dm_asm.specs.Assembled.{assembled, places_of};
ghost use Rattle.dm_explain.specs.FirstRefused.{first_refused, refusal_of};

/// A text gives no image exactly where a line of it is refused, and then for the first such line and its reason.
pub fn the_first_line_that_is_refused_is_told()
    ensures { (text : List ℕ) → refusal_of (assembled text) ≡ first_refused (places_of text) 1 0 (source_lines text) }
{}
