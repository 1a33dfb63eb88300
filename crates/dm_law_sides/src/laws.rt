//! What holds of sides of processes that no link of the boot file crosses, whoever runs the system.
ghost use Rattle.dm_law_sides.specs.Files.{FileKeeps, FilesKeepToSides, PartsKeep, RunsKeepToParts};
ghost use Rattle.dm_law_sides.specs.Sides.{KeepsToSides};
ghost use Rattle.dm_law_sides.specs.Printed.{CreatesKeep, LinesKeep, PutsKeep, ReceivesKeep, TakesKeep};

/// In whatever way processes and the switchboard are put on sides: where each link of the boot file keeps to its holder's side, so
/// does everything after every run. That is each link in a table, each enclosed link, each area from which or to which data
/// moves, each name at the switchboard, each pending request's link for the answer, each process that follows a request to
/// move, and each message, whoever sends it and whomever it is for.
pub fn keeps_to_sides()
    ensures { KeepsToSides }
{}

/// Behind the lines of every run by the rule, migrations included, everything keeps to its side.
pub fn lines_keep()
    ensures { LinesKeep }
{}

/// Where a line says that a message is received, and its name is that of a process or of the switchboard, that one and the receiver
/// are of one side.
pub fn receives_keep()
    ensures { ReceivesKeep }
{}

/// Where the lines told of a message that isn't taken yet that it is for a process or the switchboard, that one is of the message's
/// side: that of the process or of the switchboard whose name it has, and with an order of the manager's that of the message
/// which the manager took then.
pub fn puts_keep()
    ensures { PutsKeep }
{}

/// Where a group takes a message, and what the manager sends then is for a process or the switchboard, that one is of the side of
/// the message taken. So a process is stopped, resumed, ended or asked to move only because its own side asks, and who made a
/// process, and nobody else, gets its control link.
pub fn takes_keep()
    ensures { TakesKeep }
{}

/// Where a process is made, each link in its table keeps to the side of the request.
pub fn creates_keep()
    ensures { CreatesKeep }
{}

/// In whatever way places in the boot file have sides: where each link of the file keeps to one side, so does everything at the start.
/// That is what the laws above ask of sides.
pub fn file_keeps()
    ensures { FileKeeps }
{}

/// And so after every run.
pub fn files_keep_to_sides()
    ensures { FilesKeepToSides }
{}

/// The parts of a boot file, as `explain` says them, are such sides.
pub fn parts_keep()
    ensures { PartsKeep }
{}

/// After every run everything keeps to the part of its holder: no link, area, message, name, request or order leads from one part to
/// another, however many processes are made and wherever they move.
pub fn runs_keep_to_parts()
    ensures { RunsKeepToParts }
{}
