//! Places follow the printed lines, whoever ran by them.
ghost use Rattle.dm_law_places.specs.Changes.{StepsChangeLittle};
ghost use Rattle.dm_law_places.specs.Laws.{StepsFollow, LinesKeep, StartMirrors, PointDetermines};

/// Each step of the kernel without machines is one with places, by the functions of the machines' code, and its places are
/// the addresses that the line of the step gives: a process that is made hasn't moved yet, and the manager's
/// requests have ascending numbers.
pub fn steps_follow()
    ensures { StepsFollow }
{}

/// A step with places leaves all processes but one, all messages but the one that it takes and the one that it sends, and the
/// servers, unless they take a message.
pub fn steps_change_little()
    ensures { StepsChangeLittle }
{}

/// A line that is neither a step nor of the few that change addresses or counts of moves leaves the kernel with places as
/// it is; so does a put, but for the first put of a message that a machine's kernel sends itself.
pub fn lines_keep()
    ensures { LinesKeep }
{}

/// The boot file's processes, with the file's links, mirror the point where a run begins.
pub fn start_mirrors()
    ensures { StartMirrors }
{}

/// What mirrors a point has the messages that any other mirror has, but for those that machines' kernels send themselves, and
/// its processes, but for the messages that wait for them.
pub fn point_determines()
    ensures { PointDetermines }
{}
