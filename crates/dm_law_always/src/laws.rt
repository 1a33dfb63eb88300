//! What holds wherever the rule leads, whoever ran by it.
ghost use Rattle.dm_law_always.specs.Order.{ReceivesInOrder};
ghost use Rattle.dm_law_always.specs.Sizes.{SizesAlways};
ghost use Rattle.dm_law_always.specs.Taken.{TakenOnce};
ghost use Rattle.dm_law_always.specs.Laws.{FitsAlways, FoundAlways, GoesOnAlways, KnownAlways, RuleDecides, ShorterBegins};

/// Wherever the rule leads from a boot file, each directive has its group, migrations included.
pub fn goes_on_always()
    ensures { GoesOnAlways }
{}

/// Wherever the rule leads from a boot file, each link leads to a server or to a process whose memory has its area, each
/// data move lies within both memories, and each message is of a kind that its receiver can take.
pub fn fits_always()
    ensures { FitsAlways }
{}

/// Wherever the rule leads from a boot file, what each machine knows of processes agrees with the kernel without machines: what it
/// has, holds back or expects is alive. The home of a process that lives knows it, as that of a server does, and a process stands once in the ring of the machine
/// that has it, and in no other ring.
pub fn known_always()
    ensures { KnownAlways }
{}

/// Wherever the rule leads from a boot file, each message, the kernels' own included, stands where its address leads, and there
/// its receiver is known, if it lives: it is here, leaves, comes, or a forwarding address leads on.
pub fn found_always()
    ensures { FoundAlways }
{}

/// Wherever the rule leads from a boot file, as long as no pair of machines has counted more messages than it may at the most, the
/// state of a server has fewer than 2^31 bytes: so it can always be carried.
pub fn sizes_always()
    ensures { SizesAlways }
{}

/// The rule decides what is printed: from one place, with the same left to do, two runs of as many groups say the same and
/// come to the same.
pub fn rule_decides()
    ensures { RuleDecides }
{}

/// Of two runs from one place, with the same left to do, the one with fewer groups is the beginning of the other, which
/// goes on from there.
pub fn shorter_begins()
    ensures { ShorterBegins }
{}

/// Wherever the rule leads from a boot file without a directive to migrate, of the messages that one process or server sent,
/// those that a process receives on one channel are received in the order in which they were sent.
pub fn receives_in_order()
    ensures { ReceivesInOrder }
{}

/// No message is taken twice, by whatever step: received, served, taken by a server, dropped, answered as gone, granted or refused as a
/// request to make a process, or followed as one to move.
pub fn taken_once()
    ensures { TakenOnce }
{}
