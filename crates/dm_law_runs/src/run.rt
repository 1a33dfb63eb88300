//! What holds of good groups for the directives of a schedule.
ghost use Rattle.dm_law_runs.specs.Away.{AwayWhileOpen};
ghost use Rattle.dm_law_runs.specs.Leading.{GoodIsOfRule};
ghost use Rattle.dm_law_runs.specs.Order.{GoodInOrder};
ghost use Rattle.dm_law_runs.specs.Packets.{PacketsAgree, PacketsSpell};
ghost use Rattle.dm_law_runs.specs.Settling.{SettleFew, SettlesFromStart};
ghost use Rattle.dm_law_runs.specs.Through.{AllBegin, RunsThrough};

/// Good groups for directives for these machines are a run by the rule, by their lines and by elementary directives one by one: so each
/// law of such runs, whichever of both it asks for, speaks of printed lines.
pub fn good_is_of_rule()
    ensures { GoodIsOfRule }
{}

/// For each boot file that a system may start with and directives for its machines there is a good run that has come to
/// an end: no directive is left, or the group of the next would route a message between two machines that count as many
/// as they may. So rounds end, whatever is put on wires meanwhile, and settles, whatever was lost or moves.
pub fn runs_through()
    ensures { RunsThrough }
{}

/// Each good run for some directives is a beginning of one that has come to an end: no other is
/// longer, and there is only one that has.
pub fn all_begin()
    ensures { AllBegin }
{}

/// Where no directive of a schedule moves a process, of the messages that one process or server sent, those that a
/// process receives on one channel in a good run are received in the order in which they were sent.
pub fn good_in_order()
    ensures { GoodInOrder }
{}

/// Each packet that is put under a number, first or again, spells the message that was routed under it, as it was at any
/// point after its first packet and before it was taken: the message of the kernel without machines, or a kernel's own.
/// So it stays until the end of the run.
pub fn packets_spell()
    ensures { PacketsSpell }
{}

/// All packets of a number have the same bytes, whenever they are put, and whether its message was taken or not.
pub fn packets_agree()
    ensures { PacketsAgree }
{}

/// Of a run from where no process moves and only user messages for processes and updates are on their way, the groups of a settle,
/// as long as each directive behind it is still to do, route at most (M - 1) (M + 1) messages for each message on its way where it
/// begins, M the number of machines.
pub fn settle_few()
    ensures { SettleFew }
{}

/// Wherever the rule leads from a boot file, a settle of which nothing is done yet is over where nothing is on its way, and what is behind
/// it follows; where something is, it goes on as one that has begun (`dm_law_moves::settle::settles_always`).
pub fn settles_from_start()
    ensures { SettlesFromStart }
{}

/// Wherever the rule leads from a boot file: as long as by the printed lines a migration of the process manager is open, from its step 1
/// to its step 8 or `stays`, a directive to move does nothing but say `away`; and where none is, it never says so.
pub fn away_while_open()
    ensures { AwayWhileOpen }
{}
