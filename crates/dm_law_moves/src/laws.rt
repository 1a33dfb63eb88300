//! What holds of migrations wherever the rule leads, whoever ran by it.
ghost use Rattle.dm_law_rule.specs.Trails.{TrailsAlways};
ghost use Rattle.dm_law_moves.specs.Asked.{AnsweredAlways, AnswersHaveCauses, FollowsWhileMoving, MovedIsSaid};
ghost use Rattle.dm_law_moves.specs.AtRest.{AtRestAlways, DropsAlways};
ghost use Rattle.dm_law_moves.specs.Counts.{CountsKept, CountsStay};
ghost use Rattle.dm_law_moves.specs.Ends.{EndsAlways};
ghost use Rattle.dm_law_moves.specs.Lists.{ListsAlways, ListsForTheirs};
ghost use Rattle.dm_law_moves.specs.Numbers.{NumbersAlways};
ghost use Rattle.dm_law_moves.specs.Fair.{NobodyStarves};
ghost use Rattle.dm_law_moves.specs.LetterLines.{LettersStandInLines};
ghost use Rattle.dm_law_moves.specs.LifeLines.{LivesAreSaid};
ghost use Rattle.dm_law_moves.specs.Forwards.{ForwardsTell, RequestsTell};
ghost use Rattle.dm_law_moves.specs.Links.{CountsPromise};
ghost use Rattle.dm_law_moves.specs.Movers.{MoversHavePieces};
ghost use Rattle.dm_law_moves.specs.Pending.{PendingAscends, PendingHasOne};
ghost use Rattle.dm_law_moves.specs.Open.{OpenMoves, OpenSpares, OpenStays, OpenKeeps};
ghost use Rattle.dm_law_moves.specs.Predecessors.{PredecessorsAlways};
ghost use Rattle.dm_law_moves.specs.Promise.{PromisesAlways};
ghost use Rattle.dm_law_moves.specs.Protocol.{ProtocolMoves};
ghost use Rattle.dm_law_moves.specs.Real.{RealAlways};
ghost use Rattle.dm_law_moves.specs.Requested.{AnswersAreSo, MovesAsNamed};
ghost use Rattle.dm_law_moves.specs.Routed.{RoutedAlways};
ghost use Rattle.dm_law_moves.specs.ServerLines.{ServersAreSaid};
ghost use Rattle.dm_law_moves.specs.Stages.{StepsInOrder};
ghost use Rattle.dm_law_moves.specs.Stales.{StalesAlways};
ghost use Rattle.dm_law_moves.specs.Trail.{TrailsStand, AddressesLead};
ghost use Rattle.dm_law_moves.specs.Updates.{UpdatesAlways};

/// Wherever the rule leads from a boot file, each address of a process that was made names a machine where the process was, at its
/// place of the list of all of them; and from there the forwarding addresses lead on, each with a higher count, to where the process
/// is here, leaves or comes, in fewer steps than there are machines; or, if it has ended, to a machine without a record of it.
pub fn trails_always()
    ensures { TrailsAlways }
{}

/// Wherever the rule leads from a boot file, the lines lay a trail for each process: the machines that it has been on, in order. Each
/// place that a link, a message, a data move, a list of a server's, an update or a forwarding address names for a process is on its
/// trail, which begins at home, where a kernel stays, and ends where the process is, leaves or comes, if it lives. From each place of it
/// the forwarding addresses lead there, or, if it has ended, to a machine without a record of it: each with a higher count, in fewer
/// steps than there are machines.
pub fn trails_stand()
    ensures { TrailsStand }
{}

/// Wherever the rule leads from a boot file, from each place that a link, a message, a data move, a list of a server's, an update or a
/// forwarding address names for a process, the forwarding addresses lead to the process, or, if it has ended, to a machine without a
/// record of it: each with a higher count, in fewer steps than there are machines. Whoever is named is a kernel, at home, a server, or a
/// process that was made.
pub fn addresses_lead()
    ensures { AddressesLead }
{}

/// Wherever the rule leads from a boot file, messages are queued only where a process is or leaves, and held back only where it leaves
/// or comes: none waits where a process has ended or isn't. For a server none is queued; some may be held back.
pub fn lists_always()
    ensures { ListsAlways }
{}

/// Wherever the rule leads from a boot file, the lines of each process's migrations are steps 1 to 8 in order; or 1, 2, lacks and
/// stays; or 1 to 3 or 1 to 4, called and stays: one migration after another; the last may be unfinished.
pub fn steps_in_order()
    ensures { StepsInOrder }
{}

/// Wherever the rule leads from a boot file, no more lines `stale` are about a process than lines `called`; and as many, where nothing
/// is on its way between machines: as many pieces come too late as migrations were called off.
pub fn stales_always()
    ensures { StalesAlways }
{}

/// Wherever the rule leads from a boot file, a group that says that an update was handled says nothing else: each address of the
/// receiver that leads to the process and knows fewer moves of it gets the place that the update tells, and the line says how
/// many these are, but for the owner in a data move, which follows too. Every other address is as it was.
pub fn updates_always()
    ensures { UpdatesAlways }
{}

/// Wherever the rule leads from a boot file, a process that has ended has left no message in a queue.
pub fn drops_always()
    ensures { DropsAlways }
{}

/// Wherever the rule leads from a boot file, each forwarding address of a process, whether that lives or has ended, is held back: the
/// machine that it leads to has this one for a predecessor of the process, or a burial is on its way here, or the process's migration to
/// this machine was called off, and the other is still to hear of that. Only machines with a record have predecessors, and never
/// themselves.
pub fn predecessors_always()
    ensures { PredecessorsAlways }
{}

/// Wherever the rule leads from a boot file, where all messages that were routed are taken, and acknowledged between different
/// machines, and all inboxes are empty: each living process and each server is on one machine and none moves, no message is held back, each
/// message that there is waits in the queue of the process that it is for, no machine has a record of a process that has ended, and no
/// kernel's own message stands anywhere. So each request to move has come to its end.
pub fn at_rest_always()
    ensures { AtRestAlways }
{}

/// Wherever the rule leads from a boot file, directives to move a process have come to no more ends than there were directives, and
/// to as many where nothing is on its way between machines, of those that found the manager here: it has no such child, the process was
/// there already, had ended, moved, or stays. An end that is followed by the answer to a request of a process's is the end of that
/// request.
pub fn ends_always()
    ensures { EndsAlways }
{}

/// From any point on, as long as no step of the kernel without machines gives an address anew that a process or a server has,
/// in a slot, as the owner in a data move, to a child or the switchboard, under a name or for an answer, its count doesn't fall:
/// neither forwards nor migrations change it, and an update only raises it.
pub fn counts_stay()
    ensures { CountsStay }
{}

/// Wherever the rule leads from a boot file and beyond: where an update was handled, each address of its receiver that led to
/// the process has no lower count than the update, until a step gives it anew.
pub fn counts_kept()
    ensures { CountsKept }
{}

/// Wherever the rule leads from a boot file and beyond: each update that is under way has been handled where nothing is on its way
/// any more; and where the process that it is about hasn't moved since, each slot of its receiver that leads there and that no step
/// filled since names the machine where that process is.
pub fn promises_always()
    ensures { PromisesAlways }
{}

/// Wherever the rule leads from a boot file, the lines so far say of each process whether it moves: its last mark is open exactly
/// while one message of its migration is under way, and says of which kind that is.
pub fn open_moves()
    ensures { OpenMoves }
{}

/// Wherever the rule leads from a boot file: as long as the line of step 1 of a process or a server is followed by no step 8 and no
/// `stays` of it, no ran, call, send, wait, out, end, receive, refuse, served or took of the next group is its own, no message for it
/// is dropped, and its plain value stays.
pub fn open_spares()
    ensures { OpenSpares }
{}

/// Wherever the rule leads from a boot file: the number in the name of each message that is in the bag or was ever put is below the
/// count of its sender, be it a living process, a server or a kernel.
pub fn numbers_always()
    ensures { NumbersAlways }
{}

/// Wherever the rule leads from a boot file: whoever is named by an address, in the name of a message, as its receiver, in an update
/// or another of the kernels' own messages, as a child, or in what a machine knows is a kernel of a machine that there is, a server,
/// or a process that was made.
pub fn real_always()
    ensures { RealAlways }
{}

/// Wherever the rule leads from a boot file, a group that says that a message goes on to another machine, of a kind whose sender is
/// told, goes by the forwarding address of the machine that acts; and behind it a new update is under way that tells the sender this
/// address.
pub fn forwards_tell()
    ensures { ForwardsTell }
{}

/// Wherever the rule leads from a boot file and beyond: where all is at rest, a process that sent along a stale link and was told of
/// it has, in the slots it hasn't filled since, links that name where the other now is. The update of the forward was handled by then;
/// and the other is at the place that it told, or has ended, or has moved more often since.
pub fn counts_promise()
    ensures { CountsPromise }
{}

/// Wherever the rule leads from a boot file, the manager's pending requests, to make processes and to move them, ascend by their
/// numbers, below the count of the messages that it has sent: each stands there once, in the order in which they were sent.
pub fn pending_ascends()
    ensures { PendingAscends }
{}

/// Wherever the rule leads from a boot file, each pending request of the manager's has exactly one message in the bag under its
/// number, the request or the answer to it, or else one process follows it, which moves; and each such message, and each request that
/// a process follows, is of a pending request.
pub fn pending_has_one()
    ensures { PendingHasOne }
{}

/// Wherever the rule leads from a boot file: between the line of step 1 of a process and its step 8 or `stays`, no line is a ran,
/// call, send, wait, out, end, receive or refuse of that process, no message for it is served, dropped or gone, and its plain value
/// doesn't change.
pub fn open_stays()
    ensures { OpenStays }
{}

/// Wherever the rule leads from a boot file: between the line of step 1 of a process and its step 8 or `stays`, its plain value is
/// the same behind all lines.
pub fn open_keeps()
    ensures { OpenKeeps }
{}

/// Wherever the rule leads from a boot file, each living process that moves data has exactly one message in the bag under the number
/// that it waits for: its request to the owner of the area for the next piece, which begins where its status says and has 256 bytes,
/// or what is left, or the owner's answer to it, the bytes of the piece, that they were written, or, rightly, that the owner has ended.
/// No other request for a piece is a living process's, and no other answer is for one.
pub fn movers_have_pieces()
    ensures { MoversHavePieces }
{}

/// Wherever the rule leads from a boot file, a group that says that a request to move a process goes on to another machine goes by the
/// forwarding address of the machine that acts; and behind it a new update is under way that tells the manager this address.
pub fn requests_tell()
    ensures { RequestsTell }
{}

/// Wherever the rule leads from a boot file: each message that a living process or a server has counted as sent was routed, under the
/// name with its number, by a line among those so far. So each such count is at most the number of messages that were routed on all
/// pairs of machines.
pub fn routed_always()
    ensures { RoutedAlways }
{}

/// Wherever the rule leads from a boot file: each message in the queue of a process is a user message for that process, which nobody
/// has got yet; and each message that is held back for a process, a kernel's own or another, is for that process.
pub fn lists_for_theirs()
    ensures { ListsForTheirs }
{}

/// Wherever the rule leads from a boot file: each message by which two kernels move a process, of the kinds from ask to restart and
/// calloff, that stands in any inbox, queue, held list or stream is about a process that moves, and is the one message of its migration
/// that is under way; or it is left over of a migration of its process that was called off.
pub fn protocol_moves()
    ensures { ProtocolMoves }
{}

/// Wherever the rule leads from a boot file, each message that the kernel without machines holds stands in just one line at the end, of a
/// queue, of what is held back, of an inbox or of a stream, and there once; and no other stands in one, but a machine's own kernel's.
pub fn letters_stand_in_lines()
    ensures { LettersStandInLines }
{}

/// Wherever the rule leads from a boot file: among the lines that are said there at the end, each process that was ever made has
/// exactly one that says whether it lives. It says of one that has ended why, and of a living one the machine that it is on, leaves or
/// comes to, and how it stands there. A process that was never made has none.
pub fn lives_are_said()
    ensures { LivesAreSaid }
{}

/// Wherever the rule leads from a boot file: among the lines that are said there at the end, each server has one line with how many
/// messages it has sent; and one with the machine that it is on, leaves or comes to, exactly where it isn't here on machine 0.
pub fn servers_are_said()
    ensures { ServersAreSaid }
{}

/// Wherever the rule leads from a boot file, each request to move a process is said to be asked once at most, and is answered no more
/// often than it is asked; just as often, where nothing is on its way between machines.
pub fn answered_always()
    ensures { AnsweredAlways }
{}

/// Wherever the rule leads from a boot file, the line before the answer to a request to move is its cause: that the process was
/// restarted where it was to go, or was there as it was asked, where the answer is that it has moved; that it stays, where that is the
/// answer.
pub fn answers_have_causes()
    ensures { AnswersHaveCauses }
{}

/// Wherever the rule leads from a boot file, what is on its way to the manager as the answer to a request to move is what a line says:
/// the request was answered so, or its receiver had ended.
pub fn moved_is_said()
    ensures { MovedIsSaid }
{}

/// Wherever the rule leads from a boot file, a process follows a request to move only while it moves.
pub fn follows_while_moving()
    ensures { FollowsWhileMoving }
{}

/// Wherever the rule leads from a boot file, what the answer to a request to move says holds where it is said. That it has moved: the
/// process is on the machine that says so, and that is the one which the request named. That it stays: it is on the machine where it was
/// asked, and since then a machine had no room for it, or called its move off.
pub fn answers_are_so()
    ensures { AnswersAreSo }
{}

/// Wherever the rule leads from a boot file, a process moves to the machine that was named: its steps 3 and 8, and the lines that it
/// lacks room or is called off, are said on the machine that the request named which its last step 1 followed, or the directive.
pub fn moves_as_named()
    ensures { MovesAsNamed }
{}

/// From wherever the rule has come: while a process stands in the ring of a machine and isn't served, fewer turns of that machine come with
/// an empty inbox at which it could be served than processes stand in the ring there.
pub fn nobody_starves()
    ensures { NobodyStarves }
{}
