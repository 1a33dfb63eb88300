//! What holds of every run of the machines and their wires, whoever runs them.
ghost use Rattle.dm_law_mirror.specs.Local.{ActsLocally, AwayDoesNothing, ReadsLocally, NothingComes};
ghost use Rattle.dm_law_mirror.specs.Ran.{RanBegins, RanGoesOn, RunIsRan};
ghost use Rattle.dm_law_mirror.specs.Laws.{StartStands, StepsStand, NextIsSaid, QuietIsSaid, RestIsSaid, MailIsSaid, EndIsSaid, EndMay, RunBegins, RunGoesOn, GoodLeads, PlacesFollow};

/// The machines as the boot file has them, with empty wires, stand for the point where printed lines begin.
pub fn start_stands()
    ensures { StartStands }
{}

/// Where the machines stand for what was printed, each directive counts on no more than there is, migrations included; the
/// machines print the group that the rule has for it, and stand for what is printed then. Or they stop before they route a
/// message between two machines that have counted all that they may, and the rule's group would route it.
pub fn steps_stand()
    ensures { StepsStand }
{}

/// The directive that comes next, by the marks on the wires, the inboxes and the streams, is the one that the printed lines say comes next.
pub fn next_is_said()
    ensures { NextIsSaid }
{}

/// By the machines' inboxes and streams nothing is on its way exactly where, by the printed lines, all that was routed was taken,
/// and acknowledged where the machines differ, and every inbox is empty.
pub fn quiet_is_said()
    ensures { QuietIsSaid }
{}

/// By the machines all is at rest exactly where, by the printed lines, nothing is on its way and no machine has a process that can be
/// served.
pub fn rest_is_said()
    ensures { RestIsSaid }
{}

/// A machine has a message in its inbox exactly where the printed lines say so.
pub fn mail_is_said()
    ensures { MailIsSaid }
{}

/// Where everything stands at the end, by what the machines have and what is on the way between them, is what the printed
/// lines say: each process with its registers, memory and links, the servers, and every message.
pub fn end_is_said()
    ensures { EndIsSaid }
{}

/// And that can be said: no number is too great for it.
pub fn end_may()
    ensures { EndMay }
{}

/// Before the first directive nothing was printed, and the machines stand for that.
pub fn run_begins()
    ensures { RunBegins }
{}

/// A good run goes on with each directive: the machines may do it, and with the group that they print the run is still good:
/// the groups are those of the rule, they replay as steps of the kernel without machines, and no message is received twice.
/// Or the machines stop, since two of them have counted all messages that they may.
pub fn run_goes_on()
    ensures { RunGoesOn }
{}

/// So it is with elementary directives, done one by one: before the first nothing was printed.
pub fn ran_begins()
    ensures { RanBegins }
{}

/// And it goes on with any directive for the machines that there are, whatever was done before: the machines may do it, and
/// either what was printed is good with one more group, or they stop as worn where the rule says so.
pub fn ran_goes_on()
    ensures { RanGoesOn }
{}

/// A run of any directives is one of elementary directives.
pub fn run_is_ran()
    ensures { RunIsRan }
{}

/// Groups of lines that are good are a run by the rule, directive by directive: each law of such runs speaks of printed lines.
pub fn good_leads()
    ensures { GoodLeads }
{}

/// Wherever the rule leads from a boot file, there is a kernel with places that is the kernel without machines where places are left
/// out, and whose places are the addresses of the printed lines.
pub fn places_follow()
    ensures { PlacesFollow }
{}

/// A directive changes one machine, and only that machine puts packets on its wires; none is taken off, and a delivery marks its
/// packet.
pub fn acts_locally()
    ensures { ActsLocally }
{}

/// What a machine does depends on that machine alone, and on the packet that is delivered to it: in another world where both are
/// the same, it comes to the same and sends the same. A request to move is for the machine where the manager is: that has to be the
/// same machine in both.
pub fn reads_locally()
    ensures { ReadsLocally }
{}

/// While the manager is on its way, nothing is told to move, and nothing changes.
pub fn away_does_nothing()
    ensures { AwayDoesNothing }
{}

/// Where there is no such packet to deliver, nothing changes.
pub fn nothing_comes()
    ensures { NothingComes }
{}
