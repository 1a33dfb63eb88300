//! What is read before a trace is judged: the boot file, and the trace.
ghost use Rattle.std.specs.Prelude.{◌≤◌, IfErr, IfOk, length};
ghost use Rattle.dm_onekernel.specs.Boot.{IsValid};
ghost use Rattle.dm_front.specs.Asked.{Alone, Both};
ghost use Rattle.dm_cmd_check.specs.Checks.{HasTrace, NoBytes, NoTrace, most_trace};
ghost use Rattle.dm_front.specs.Firsts.{FirstOfBoot};
ghost use Rattle.dm_front.specs.Inputs.{HasFile};
ghost use Rattle.dm_front.specs.Meets.{MeetsShelf, status_so_far};
ghost use Rattle.dm_front.specs.Outside.{shelf_around};
ghost use Rattle.dm_ending.specs.declared.status.Input.TheVariants as input_;

use dm_check::MOST_TRACE;
use dm_ending::status::{Input, Status};
use dm_front::inputs::read_system;
use dm_front::read::{ReadError, read_file};
use dm_onekernel::Boot;
use dm_outside::Shelf;
use std::alloc::Global;

/// What there is to check: a system, and the bytes of a trace.
#[derive(Drop)]
pub struct Traced {
    pub boot: Boot,
    pub trace: Vec<u8>,
}

/// The system of the boot file of the first name, and the trace of the second, or why there is nothing to check. What is said of a
/// boot file that is refused is left in `said`, which is empty where nothing is said.
pub fn read_trace_files<F: Shelf>(
    alloc: Global,
    boot: &str,
    trace: &str,
    shelf: &mut F,
    said: &mut Vec<u8>,
) -> Result<Traced, Status>
    ensures has { IfOk result (λ t. HasTrace (F.told shelf.old) boot.now trace.now t.boot t.trace.items) }
    ensures valid { IfOk result (λ t. IsValid t.boot) }
    ensures short { IfOk result (λ t. length t.trace.items ≤ MOST_TRACE) }
    ensures none { IfErr result (λ s. NoTrace (F.told shelf.old) boot.now trace.now (F.faults shelf.old) (F.faults shelf.new) s) }
    ensures shelf { MeetsShelf (Both boot.now input_.Trace trace.now)
        (shelf_around F.asked F.told F.faults F.last_failed shelf.old shelf.new) (status_so_far result) }
    ensures said { FirstOfBoot (F.told shelf.old) boot.now (status_so_far result) said.new.items }
{
    let boot = read_system(alloc, boot, shelf, said)?;
    let trace = read_trace(alloc, trace, shelf)?;
    Ok(Traced { boot, trace })
}

/// The bytes of the trace of this name.
pub(crate) fn read_trace<F: Shelf>(
    alloc: Global,
    name: &str,
    shelf: &mut F,
) -> Result<Vec<u8>, Status>
    ensures file { IfOk result (λ t. HasFile (F.told shelf.old) name.now most_trace t.items) }
    ensures none { IfErr result (λ s. NoBytes (F.told shelf.old) name.now (F.faults shelf.old) (F.faults shelf.new) s) }
    ensures shelf { MeetsShelf (Alone input_.Trace name.now)
        (shelf_around F.asked F.told F.faults F.last_failed shelf.old shelf.new) (status_so_far result) }
{
    match read_file(alloc, shelf, name, MOST_TRACE) {
        Ok(bytes) => Ok(bytes),
        Err(ReadError::Fault) => Err(Status::ReadFault(Input::Trace)),
        Err(ReadError::NoMemory(no)) => Err(Status::NoMemory(no)),
        Err(ReadError::TooLong) => Err(Status::TooLong(Input::Trace)),
    }
}
