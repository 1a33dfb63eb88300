//! What holds of a settle wherever the rule leads, whoever ran by it.
ghost use Rattle.dm_law_moves.specs.Settles.Laws.{EndsAtRest, EndsQuiet, EndsRested, EndsResting, FewPuts, LeftFalls, PairsRestAlways, RestsAlways, SettlesAlways, TurnsFall, TurnsLeftFew};
ghost use Rattle.dm_law_moves.specs.Settles.Stays.{RestLasts, StaysAtRest};
ghost use Rattle.dm_law_moves.specs.Settles.Still.{EndsStill, StillAlways};

/// Wherever the rule leads from a boot file, on each ordered pair of machines what may go out has gone, each number that went out
/// has a packet, a data packet that came was taken or is kept, the next number isn't kept, the count of what was taken was
/// acknowledged once it isn't 0, and an acknowledgement that came was heard.
pub fn pairs_rest_always()
    ensures { PairsRestAlways }
{}

/// Wherever the rule leads from a boot file, a settle, however far its pass has come, is over where nothing is on its way, and
/// what is behind it follows. Where something is, it goes on, with a packet that was never delivered or with the turn of a machine
/// that has mail: so no machine needs to send anything again.
pub fn settles_always()
    ensures { SettlesAlways }
{}

/// Wherever the rule leads from a boot file, a rest, however far its pass has come, is over where all is at rest, and what is behind
/// it follows. Where not all is, each of its passes that begins has a group, and one that has begun goes on or is gone through: with
/// packets that were never delivered, and with turns of machines that have mail or a process that can be served.
pub fn rests_always()
    ensures { RestsAlways }
{}

/// Wherever the rule leads from a boot file and all directives are done, the last of them a rest, its passes were gone through whole,
/// or all is at rest.
pub fn ends_rested()
    ensures { EndsRested }
{}

/// Wherever the rule leads from a boot file and all directives are done, the last of them a settle, nothing is on its way.
pub fn ends_quiet()
    ensures { EndsQuiet }
{}

/// Wherever the rule leads from a boot file and all directives are done, the last of them a settle, all is at rest: no process moves,
/// nothing is held back, no kernel's own message stands anywhere, and each message that there still is waits in the queue of the
/// process that it is for, and stands in no other place.
pub fn ends_resting()
    ensures { EndsResting }
{}

/// Wherever the rule leads from a boot file, where nothing is on its way the lines of the end say so: no inbox and no stream has a
/// message, none is held back, and each process that lives is on one machine, and neither leaves nor comes.
pub fn ends_at_rest()
    ensures { EndsAtRest }
{}

/// Wherever the rule leads from a boot file, where all is at rest: no process moves, nothing is held back, no request of the manager's is
/// pending, and each message that there is waits in the queue of the process that it is for. No living process moves data, each waits or
/// is stopped, and none that waits and isn't stopped has a message in its queue on a channel for which it waits.
pub fn still_always()
    ensures { StillAlways }
{}

/// Wherever the rule leads from a boot file, where all is at rest the lines of the end say so: no inbox and no stream has a message, none
/// is held back, none is pending, and each process that lives is on one machine, and waits or is stopped.
pub fn ends_still()
    ensures { EndsStill }
{}

/// Wherever the rule leads from a boot file, where all is at rest only a `migrate` sets anything going. Each other directive for the
/// machines has a group that says that nothing comes of it: a turn is `idle`, a tick `resent M 0`, a delivery `old` with the packet of
/// its acknowledgement, `acked` or `none`, a calling off `nocall`. All stays at rest, no process, server or message changes, and each
/// process and each queued message stays where it is.
pub fn stays_at_rest()
    ensures { StaysAtRest }
{}

/// Wherever the rule leads from a boot file, where all is at rest it stays so by whatever directives for the machines, until one is a
/// `migrate`: no process, server or message changes, and each process and each queued message stays where it is.
pub fn rest_lasts()
    ensures { RestLasts }
{}

/// Wherever the rule leads from a boot file, each group of a settle leaves less to do: fewer messages that may still be routed, or
/// as many and fewer restarts and refusals that are on their way, or as many and fewer messages that are, or as many and less for
/// the wires. So a settle ends, whatever was lost, repeated or reordered before, and however many processes move.
pub fn left_falls()
    ensures { LeftFalls }
{}

/// Wherever the rule leads from a boot file, while no pair of machines counts more messages than the boot file allows, what is left
/// for turns is below this.
pub fn turns_left_few()
    ensures { TurnsLeftFew }
{}

/// Wherever the rule leads from a boot file, a group of a settle leaves no more for turns, and a turn leaves less. So it has fewer
/// than 2^89 turns.
pub fn turns_fall()
    ensures { TurnsFall }
{}

/// Wherever the rule leads from a boot file, where no process moves and only user messages for processes and updates are on their way,
/// a settle routes at most (M - 1) (M + 1) messages for each message on its way, M the number of machines: each is forwarded fewer than
/// M times, and each forward of a user message tells its sender, by an update that is itself forwarded fewer than M times.
pub fn few_puts()
    ensures { FewPuts }
{}
