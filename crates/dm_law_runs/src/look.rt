//! What a look into a run says of messages, whoever looks.
ghost use Rattle.dm_law_runs.specs.Letters.Laws.{LettersAreOne, LettersAreSaid};

/// Wherever the rule leads and the world stands, what is in the messages that wait somewhere is what the kernel without machines holds:
/// each of its messages once, with what it says there, and with the addresses of the links that it encloses.
pub fn letters_are_said()
    ensures { LettersAreSaid }
{}

/// And by their names that is one list.
pub fn letters_are_one()
    ensures { LettersAreOne }
{}
