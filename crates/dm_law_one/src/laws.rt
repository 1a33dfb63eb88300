//! What holds of every run of the kernel without machines, whatever the boot file and the steps.
ghost use Rattle.dm_law_one.specs.Laws.{CountsOnlyRise, EndedStays, EntersOnce, MoverHasOne, NotedRests, NotesAlwaysAgree, ReceivesOnce, StaysOrLeaves};

/// No message is received twice.
pub fn received_once()
    ensures { ReceivesOnce }
{}

/// No message enters the bag twice: a name is given to one message.
pub fn entered_once()
    ensures { EntersOnce }
{}

/// A message of the bag is never overwritten: a step leaves it as it is, or takes it out.
pub fn stays_or_leaves()
    ensures { StaysOrLeaves }
{}

/// A process that has ended stays so, for the same reason.
pub fn ended_stays()
    ensures { EndedStays }
{}

/// The counts of messages, processes and children only rise.
pub fn counts_only_rise()
    ensures { CountsOnlyRise }
{}

/// A process that moves data has exactly one message under its pending number in the bag: the request for its piece, or
/// the answer to it.
pub fn mover_has_one()
    ensures { MoverHasOne }
{}

/// A process follows one request to move at most, and a request is followed by one process at most, which lives. While it is
/// followed, neither the request nor an answer to it is in the bag.
pub fn notes_always_agree()
    ensures { NotesAlwaysAgree }
{}

/// While a process follows a request to move, no step is its own: it doesn't execute, call, receive or end, no message for it is
/// served, it is asked for no other move, and its value stays.
pub fn noted_rests()
    ensures { NotedRests }
{}
