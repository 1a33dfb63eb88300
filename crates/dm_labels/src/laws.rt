//! What the verdict means.
ghost use Rattle.dm_labels.specs.Exact.{JudgesExactly};
ghost use Rattle.dm_labels.specs.Printed.{PrintedAreGood};

/// Labels are good exactly where their replay from the boot file on leads somewhere; else they are refused at the first line that is no
/// label, or whose label is no step.
pub fn judges_exactly()
    ensures { JudgesExactly }
{}

/// The labels of a run of the kernel without machines are good, as they are printed.
pub fn printed_are_good()
    ensures { PrintedAreGood }
{}
