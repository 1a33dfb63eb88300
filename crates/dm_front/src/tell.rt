//! What `explain` says of a boot file, and how a text that was made is written.
ghost use Rattle.std.specs.Prelude.{◌≡◌, IfErr, IfOk};
ghost use Rattle.dm_ending.specs.declared.status.Input.TheVariants as input_;
ghost use Rattle.dm_explain.specs.Explained.{IsToldValid};
ghost use Rattle.dm_front.specs.Asked.{Alone};
ghost use Rattle.dm_front.specs.Inputs.{NoBoot};
ghost use Rattle.dm_front.specs.Meets.{MeetsShelf, MeetsSink, status_so_far};
ghost use Rattle.dm_front.specs.Outside.{shelf_around, sink_around};
ghost use Rattle.dm_front.specs.Told.{IsUntold, TellsRead, Wrote};

use crate::inputs::MOST_BOOT;
use crate::read::{ReadError, read_file};
use dm_ending::status::{Input, Status};
use dm_explain::{BootTold, explain_boot};
use dm_outside::{Shelf, Sink};
use dm_run::write_all;
use std::alloc::Global;

/// What is said of files, and how the program ends that has said it.
#[derive(Drop)]
pub struct Told {
    pub due: Status,
    pub text: Vec<u8>,
}

/// Writes what is said of files.
pub fn say<K: Sink>(told: &Told, out: &mut K) -> Status
    ensures wrote { Wrote told.now.due told.now.text.items (K.told out.old) (K.told out.new) (K.faults out.old) (K.faults out.new) result }
    ensures sink { (told.now.due ≡ Status.WriteFault → ⊥) → MeetsSink (sink_around K.told K.faults K.last_failed out.old out.new) result }
{
    match write_all(out, told.text.as_slice()) {
        Ok(()) => told.due,
        Err(_) => Status::WriteFault,
    }
}

/// What is said of the boot file of this name.
pub fn tell_boot<F: Shelf>(alloc: Global, name: &str, shelf: &mut F) -> Result<BootTold, Status>
    ensures tells { IfOk result (λ t. TellsRead (F.told shelf.old) name.now t) }
    ensures valid { IfOk result IsToldValid }
    ensures none { IfErr result (λ s. NoBoot (F.told shelf.old) name.now (F.faults shelf.old) (F.faults shelf.new) s) }
    ensures untold { IfErr result IsUntold }
    ensures shelf { MeetsShelf (Alone input_.Boot name.now)
        (shelf_around F.asked F.told F.faults F.last_failed shelf.old shelf.new) (status_so_far result) }
{
    match read_file(alloc, shelf, name, MOST_BOOT) {
        Ok(bytes) => match explain_boot(alloc, bytes.as_slice()) {
            Ok(told) => Ok(told),
            Err(no) => Err(Status::NoMemory(no)),
        },
        Err(ReadError::Fault) => Err(Status::ReadFault(Input::Boot)),
        Err(ReadError::NoMemory(no)) => Err(Status::NoMemory(no)),
        Err(ReadError::TooLong) => Err(Status::TooLong(Input::Boot)),
    }
}
