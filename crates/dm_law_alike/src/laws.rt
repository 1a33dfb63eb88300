//! What a search of all that can happen may leave out. Numbers of messages mean nothing: two kernels without machines are twins
//! where an order-keeping renaming of each sender's numbers takes one to the other, and what one does, the other does too. And
//! a process that nobody can reach goes on alone: what it does by itself changes places with all that isn't its own.
ghost use Rattle.dm_law_alike.specs.Closed.{ClosedIsNever, NeverIsNever};
ghost use Rattle.dm_law_alike.specs.Laws.{ActsComeFirst, ActsGoFirst, OwnAreActs, RunsAreTwins, SparedStays, TwinsOfTwins};
ghost use Rattle.dm_law_alike.specs.Services.{GroupsAreServices};

/// Each run from a kernel that a boot file leads to is one of its twin, label by label, under the names there.
pub fn runs_are_twins()
    ensures { RunsAreTwins }
{}

/// The twin of a twin is a twin.
pub fn twins_of_twins()
    ensures { TwinsOfTwins }
{}

/// What a process does by itself, and a run in which nothing is its own: each is one behind the other too, and both ways lead to
/// the same kernel.
pub fn acts_go_first()
    ensures { ActsGoFirst }
{}

/// What a process does by itself at the end of a run in which nothing is its own can come first.
pub fn acts_come_first()
    ensures { ActsComeFirst }
{}

/// A process that nobody can reach, and that is ready, stays so, and as it is, whatever is done that isn't its own.
pub fn spared_stays()
    ensures { SparedStays }
{}

/// All that is its own then is done by itself: it executes.
pub fn own_are_acts()
    ensures { OwnAreActs }
{}

/// Where nothing leads out of what is kept, and none of it shows what is asked, no run of services shows it, however long it is. From
/// a kept kernel each service leads to the twin of a kept one, or a process that nobody can reach goes on alone to the twin of one of a
/// lower rank.
pub fn closed_is_never()
    ensures { ClosedIsNever }
{}

/// What the lines of a group say of the kernel without machines are services: a process executes first, or no process does.
pub fn groups_are_services()
    ensures { GroupsAreServices }
{}

/// So no line of any run of several machines shows what is asked: whatever its directives are, however long it is, whatever is lost,
/// repeated or moved.
pub fn never_is_never()
    ensures { NeverIsNever }
{}
