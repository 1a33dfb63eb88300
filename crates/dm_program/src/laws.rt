//! What the commands promise together: the theorem on a run, and what the checker says of what the others write.
ghost use Rattle.dm_program.specs.Laws.{DrillsCheck, DrillsMayStart, RunsCheck, TracesAreFor, WornRunsCheck};
ghost use Rattle.dm_program.specs.OwnLaws.{OwnDrillsAreFor, OwnDrillsCheck, SchedulesAreTaken};
ghost use Rattle.dm_program.specs.Labels.{RunLabelsCheck};
ghost use Rattle.dm_program.specs.SoFar.{AllRunsAreSound};
ghost use Rattle.dm_program.specs.Theorem.{RunsAreSound};

/// Whatever the files say, a run that ends with status 0 wrote the text of groups of lines, one for each directive, whose labels are a run
/// of one kernel without machines, where no message is received twice and each stands exactly once, and then that of where the run stands.
pub fn runs_are_sound()
    ensures { RunsAreSound }
{}

/// However a run ends: with status 4, 5 or 9 it wrote the text of groups for the first directives, whole or begun, of which the same holds. At
/// any other status nothing was written.
pub fn all_runs_are_sound()
    ensures { AllRunsAreSound }
{}

/// The trace of a run that came to its end is good, ended: `check` says so, unless memory lacks.
pub fn runs_check()
    ensures { RunsCheck }
{}

/// That of a run which stopped at two machines that count as many messages as they may is good, open.
pub fn worn_runs_check()
    ensures { WornRunsCheck }
{}

/// The labels of a run that came to its end, or stopped at two machines that count as many messages as they may, are good: `check` says so
/// of them, unless memory lacks.
pub fn run_labels_check()
    ensures { RunLabelsCheck }
{}

/// What `drill --trace` writes of its groups, without the summary, is good, open.
pub fn drills_check()
    ensures { DrillsCheck }
{}

/// The system of a drill may start, and its directives are for its machines: so each law of good groups speaks of a drill's.
pub fn drills_may_start()
    ensures { DrillsMayStart }
{}

/// The directives that the heads of a good trace are, are for the machines of its boot file: so each law of good groups speaks of a trace's.
pub fn traces_are_for()
    ensures { TracesAreFor }
{}

/// What `drill --schedule` writes of a boot file's system is a schedule for it: `run` and all others read it as the directives that were drawn.
pub fn schedules_are_taken()
    ensures { SchedulesAreTaken }
{}

/// What `drill --trace` writes of the groups of a boot file's system, without the summary, is good, open.
pub fn own_drills_check()
    ensures { OwnDrillsCheck }
{}

/// The directives that are drawn for a boot file's system are for its machines: so each law of good groups speaks of such a drill's.
pub fn own_drills_are_for()
    ensures { OwnDrillsAreFor }
{}
