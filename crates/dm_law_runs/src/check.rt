//! What the verdict is on what the system prints, whoever asks.
ghost use Rattle.dm_law_runs.specs.Traces.Before.{LinesBeforeArePrinted};
ghost use Rattle.dm_law_runs.specs.Traces.DueStands.{DueLinesStand};
ghost use Rattle.dm_law_runs.specs.Traces.First.{RefusalsAreFirst};
ghost use Rattle.dm_law_runs.specs.Traces.Laws.{BeginningsAreOpen, RunsAreEnded, TracesAreGood};

/// The text of good lines, each group for a directive that a schedule for this boot file can hold, is good, open; and with the
/// lines at the end behind it good, ended.
pub fn traces_are_good()
    ensures { TracesAreGood }
{}

/// So is what a run prints of its first groups, rounds and settles taken apart.
pub fn beginnings_are_open()
    ensures { BeginningsAreOpen }
{}

/// And what a run prints to its end is good, ended.
pub fn runs_are_ended()
    ensures { RunsAreEnded }
{}

/// Where a text is refused, nothing behind its first bad line can help: each text with the same lines up to that one is refused there,
/// for the same reason. That it is no line is said exactly where the line has no shape, or no line feed.
pub fn refusals_are_first()
    ensures { RefusalsAreFirst }
{}

/// And the lines before that one begin what the system prints for some directives; but where the last of them says of a process that it
/// ran fewer instructions than it does, the others do.
pub fn lines_before_are_printed()
    ensures { LinesBeforeArePrinted }
{}

/// And with the line that was due in its place, no line up to it is refused.
pub fn due_lines_stand()
    ensures { DueLinesStand }
{}
