//! What holds wherever the rule leads, whoever ran by it.
ghost use Rattle.dm_law_rule.specs.Laws.{StandsOnceAlways, PairsStandAlways, LeadHomeAlways, TellsRightAlways, PhasesAlways, KernelsInOrderAlways, MovingStaysAlways, QuietIsTested, RestIsTested};

/// Wherever the rule leads from a boot file, each message that the kernel without machines holds stands exactly once
/// among the queues, held lists, inboxes and streams of the printed lines, a kernel's own message at most once, and no other
/// stands there.
pub fn stands_once_always()
    ensures { StandsOnceAlways }
{}

/// Wherever the rule leads from a boot file, no pair of machines has acknowledged more than was taken, taken more than has
/// gone out, or more out than the window; each packet of a wire carries what has gone out or counts what was taken.
pub fn pairs_stand_always()
    ensures { PairsStandAlways }
{}

/// Wherever the rule leads from a boot file without a directive to migrate, each link, each message and each name of the servers
/// names its process's home, and each queued, routed or received message stands where its receiver is at home.
pub fn lead_home_always()
    ensures { LeadHomeAlways }
{}

/// Wherever the rule leads from a boot file, the lines have told of each message that the kernel without machines holds, once it
/// was put, its kind and its receiver; and what kernels tell each other of migrations is named as their own.
pub fn tells_right_always()
    ensures { TellsRightAlways }
{}

/// Wherever the rule leads from a boot file, migrations included, each process has a phase: it was never made, it rests on one
/// machine, it has ended, and the machine where it did has forgotten it, or it moves from one machine to another. (Once no machine
/// knows of it, one that has ended is, by what machines know, as one that was never made.) The phase says what every machine knows
/// of the process, whether all of it has come, and which one message of its migration is under way, from whom, and where it stands;
/// beside that message only what is left over of a migration that was called off stands anywhere: what asks for a piece, or the
/// piece.
pub fn phases_always()
    ensures { PhasesAlways }
{}

/// Wherever the rule leads from a boot file, what one kernel tells another of migrations stands in the order in which it was
/// put: first in the other machine's inbox, and behind that on the pair that leads there.
pub fn kernels_in_order_always()
    ensures { KernelsInOrderAlways }
{}

/// Wherever the rule leads from a boot file, while a process or a server moves no group has a label of it: it doesn't run, call, send,
/// wait, print, end or receive, no message for it is served or taken, and its plain value stays as it is.
pub fn moving_stays_always()
    ensures { MovingStaysAlways }
{}

/// The test of a settle for quiet is passed exactly where all that was routed was taken, and acknowledged where the machines
/// differ, and every inbox is empty.
pub fn quiet_is_tested()
    ensures { QuietIsTested }
{}

/// The test of a rest is passed exactly where nothing is on its way, and no machine has a process that can be served.
pub fn rest_is_tested()
    ensures { RestIsTested }
{}
