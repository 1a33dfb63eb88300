//! What labels and calls with operands stand for, as laws.
ghost use Rattle.std.specs.Prelude.{ℕ, List, Ok, Option, Some, ◌≡◌, length, true};
ghost use Rattle.dm_asm.specs.Assembled.{StandsBehind, assembled, places_of};
ghost use Rattle.dm_asm.specs.Calls.{call_bytes, takes_arguments};
ghost use Rattle.dm_asm.specs.Expanded.{call_lines, lines_bytes};
ghost use Rattle.dm_asm.specs.declared.calls.CallWord.{CallWord};
ghost use Rattle.dm_asm.specs.declared.labels.Place.{Place};

/// Where a text assembles, each label's value is the length of the bytes of the lines before it, or the number that its line gives it.
pub fn labels_stand_behind_the_lines_before()
    ensures { (text image name : List ℕ) (place : Place) → assembled text ≡ Ok image → places_of text name ≡ Some place → StandsBehind text image place }
{}

/// Where a call with its operands has bytes, they are those of the instructions that set its registers and make it.
pub fn calls_are_their_instructions()
    ensures { (places : List ℕ → Option Place) (at : ℕ) (call : CallWord) (words : List (List ℕ)) (bytes : List ℕ) →
        takes_arguments call (length words) ≡ true → call_bytes places call words ≡ Ok bytes → lines_bytes places at (call_lines call words) ≡ Ok bytes }
{}
