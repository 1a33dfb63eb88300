//! What holds of every turn.
ghost use Rattle.std.specs.Prelude.{◌≡◌, ◌<◌, ℕ, Some, length, true};
ghost use Rattle.dm_onekernel.specs.declared.boot.Boot.{Boot};
ghost use Rattle.dm_onekernel.specs.Boot.{IsValid, images_are_valid};
ghost use Rattle.dm_link.specs.Lawful.{IsMachine};
ghost use Rattle.dm_link.specs.declared.Pid.{Pid};
ghost use Rattle.dm_kernel.specs.Asking.{asks_move};
ghost use Rattle.dm_kernel.specs.Begun.{opened};
ghost use Rattle.dm_kernel.specs.Coming.{calls_off};
ghost use Rattle.dm_kernel.specs.Lawful.{IsLawfulState, IsLawfulTurned};
ghost use Rattle.dm_kernel.specs.May.{MayTurn};
ghost use Rattle.dm_kernel.specs.State.{KernelState, Turned};
ghost use Rattle.dm_kernel.specs.Turn.{turn};

use dm_link::MACHINES;

/// A turn leaves processes, messages and servers lawful, and each message that it routes is lawful.
pub fn turns_are_lawful()
    ensures { (b : Boot) (s : KernelState) (t : Turned) → images_are_valid b.images ≡ true → MayTurn b s → IsLawfulState s → turn b s ≡ Some t →
        IsLawfulTurned t }
{}

/// What asking for a move leaves and routes is lawful.
pub fn moves_are_asked_lawfully()
    ensures { (s : KernelState) (p : Pid) (machine : ℕ) (t : Turned) → s.here < MACHINES → IsMachine machine → IsLawfulState s → asks_move s p machine ≡
        Some t → IsLawfulTurned t }
{}

/// What calling off a migration leaves and routes is lawful.
pub fn calls_off_lawfully()
    ensures { (s : KernelState) (p : Pid) (t : Turned) → s.here < MACHINES → IsLawfulState s → calls_off s p ≡ Some t → IsLawfulTurned t }
{}

/// Each machine of a boot file may take a turn as the file has it, and is lawful.
pub fn machines_open_lawfully()
    ensures may { (b : Boot) (m : ℕ) → IsValid b → m < length b.machines → MayTurn b (opened b m) }
    ensures lawful { (b : Boot) (m : ℕ) → IsValid b → IsLawfulState (opened b m) }
{}
