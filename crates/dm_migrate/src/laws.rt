//! What holds of the whole way of a process or a server.
ghost use Rattle.std.specs.Prelude.{List, ℕ, ◌<◌, ◌≤◌, length};
ghost use Rattle.std.specs.declared.option.Option.{Option};
ghost use Rattle.dm_message.specs.declared.Asker.{Asker};
ghost use Rattle.dm_message.specs.declared.Message.{Message};
ghost use Rattle.dm_process.specs.declared.process.Process.{Process};
ghost use Rattle.dm_process.specs.Lawful.{IsLawfulProcess};
ghost use Rattle.dm_statebytes.specs.Shell.{shell_of};
ghost use Rattle.dm_statebytes.specs.Widths.{FitsShell};
ghost use Rattle.dm_procman.specs.Managing.{Managing};
ghost use Rattle.dm_procman.specs.Packed.{IsSpelledManager};
ghost use Rattle.dm_switchboard.specs.Board.{Board};
ghost use Rattle.dm_switchboard.specs.Packed.{IsSpelledBoard};
ghost use Rattle.dm_resident.specs.declared.Resident.{Resident};
ghost use Rattle.dm_resident.specs.declared.Resident.TheVariants as resident;
ghost use Rattle.dm_resident.specs.Packed.{state_of};
ghost use Rattle.dm_migrate.specs.Departure.{CanMove};
ghost use Rattle.dm_migrate.specs.Way.{ArrivesWhole, ComesWhole, IsOfSystem};

/// Every lawful process can move, where its numbers fit their fields, as those of a process that stands in memory do, and
/// its count of moves isn't the greatest; and so can each server that is spelled, in at most so many bytes.
pub fn can_move()
    ensures process { (p : Process) → IsLawfulProcess p → FitsShell (shell_of p) → p.moves < u32.MAX → CanMove (resident.Process p) }
    ensures board { (b : Board) → IsSpelledBoard b → b.moves < u32.MAX → length (state_of (resident.Board b)) ≤ u32.MAX → CanMove (resident.Board b) }
    ensures manager { (g : Managing) → IsSpelledManager g.machines g.images g → g.moves < u32.MAX → length (state_of (resident.Manager g)) ≤ u32.MAX →
        CanMove (resident.Manager g) }
{}

/// Each piece that what is frozen gives is the one that is asked for, in order, whatever messages are held meanwhile;
/// and when all have come, they give what left, which has moved once more.
pub fn comes_by_pieces()
    ensures { (r : Resident) (source cap machines images : ℕ) (asker : Option Asker) (held : List Message) → CanMove r → IsOfSystem cap machines images r →
        ComesWhole r source cap machines images asker held }
{}

/// It is frozen, its machine asks, the other machine accepts, and each piece that it asks for comes: what is there in the end is
/// what left, which has moved once more: a process with its registers, memory, links, status and count of sends, a server with all
/// that it keeps.
pub fn arrives_whole()
    ensures { (r : Resident) (cap machines images : ℕ) (asker : Option Asker) → CanMove r → IsOfSystem cap machines images r →
        ArrivesWhole r cap machines images asker }
{}
