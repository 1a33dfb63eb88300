//! What most commands read before they do something: the boot file, and the schedule.
ghost use Rattle.std.specs.Prelude.{◌≤◌, IfErr, IfOk, length};
ghost use Rattle.std.specs.List.{All};
ghost use Rattle.dm_onekernel.specs.Boot.{IsValid};
ghost use Rattle.dm_front.specs.Asked.{Alone, Both};
ghost use Rattle.dm_front.specs.Firsts.{FirstOfBoot, FirstOfFiles, FirstOfSchedule};
ghost use Rattle.dm_front.specs.Inputs.{AcceptsFiles, NoBoot, NoDirectives, NoFiles, SaysBoot, SaysDirectives};
ghost use Rattle.dm_front.specs.Meets.{MeetsShelf, status_so_far};
ghost use Rattle.dm_front.specs.Outside.{shelf_around};
ghost use Rattle.dm_ending.specs.declared.status.Input.TheVariants as input_;
ghost use Rattle.dm_run.specs.Runs.{IsFor};

use crate::first::{first_of_boot, first_of_schedule};
use crate::read::{ReadError, read_file};
use dm_boot::{BootError, read_boot};
use dm_ending::status::{Input, Status};
use dm_onekernel::Boot;
use dm_outside::Shelf;
use dm_schedule::{Directive, MOST_SCHEDULE, ScheduleError, read_schedule};
use std::alloc::Global;

/// The most bytes of a boot file.
pub const MOST_BOOT: u32 = 1_048_576;

/// What a run begins with.
#[derive(Drop)]
pub struct Inputs {
    pub boot: Boot,
    pub directives: Vec<Directive>,
}

/// What files of these names say, or why there is no run. What is said of one that is refused is left in `said`, which is empty
/// where nothing is said.
pub fn read_files<F: Shelf>(
    alloc: Global,
    boot: &str,
    schedule: &str,
    shelf: &mut F,
    said: &mut Vec<u8>,
) -> Result<Inputs, Status>
    ensures accepts { IfOk result (λ i. AcceptsFiles (F.told shelf.old) boot.now schedule.now i.boot i.directives.items) }
    ensures valid { IfOk result (λ i. IsValid i.boot) }
    ensures each { IfOk result (λ i. All (IsFor (length i.boot.machines)) i.directives.items) }
    ensures few { IfOk result (λ i. length i.directives.items ≤ MOST_SCHEDULE) }
    ensures none { IfErr result (λ s. NoFiles (F.told shelf.old) boot.now schedule.now (F.faults shelf.old) (F.faults shelf.new) s) }
    ensures shelf { MeetsShelf (Both boot.now input_.Schedule schedule.now)
        (shelf_around F.asked F.told F.faults F.last_failed shelf.old shelf.new) (status_so_far result) }
    ensures said { FirstOfFiles (F.told shelf.old) boot.now schedule.now (status_so_far result) said.new.items }
{
    let boot = read_system(alloc, boot, shelf, said)?;
    let directives = read_directives(alloc, schedule, &boot, shelf, said)?;
    Ok(Inputs { boot, directives })
}

/// The system that the boot file of this name says. What is said of one that is refused is left in `said`, which is empty where
/// nothing is said.
pub fn read_system<F: Shelf>(
    alloc: Global,
    name: &str,
    shelf: &mut F,
    said: &mut Vec<u8>,
) -> Result<Boot, Status>
    ensures says { IfOk result (λ b. SaysBoot (F.told shelf.old) name.now b) }
    ensures valid { IfOk result (λ b. IsValid b) }
    ensures none { IfErr result (λ s. NoBoot (F.told shelf.old) name.now (F.faults shelf.old) (F.faults shelf.new) s) }
    ensures shelf { MeetsShelf (Alone input_.Boot name.now)
        (shelf_around F.asked F.told F.faults F.last_failed shelf.old shelf.new) (status_so_far result) }
    ensures said { FirstOfBoot (F.told shelf.old) name.now (status_so_far result) said.new.items }
{
    *said = Vec::new(alloc);
    match read_file(alloc, shelf, name, MOST_BOOT) {
        Ok(bytes) => match read_boot(alloc, bytes.as_slice()) {
            Ok(boot) => Ok(boot),
            Err(BootError::Refused { rule, place }) => {
                match first_of_boot(alloc, bytes.as_slice(), rule, place) {
                    Ok(first) => {
                        *said = first;
                        Err(Status::BootRefused {
                            number: rule.number(),
                            place,
                        })
                    }
                    Err(no) => Err(Status::NoMemory(no)),
                }
            }
            Err(BootError::NoMemory(no)) => Err(Status::NoMemory(no)),
        },
        Err(ReadError::Fault) => Err(Status::ReadFault(Input::Boot)),
        Err(ReadError::NoMemory(no)) => Err(Status::NoMemory(no)),
        Err(ReadError::TooLong) => Err(Status::TooLong(Input::Boot)),
    }
}

/// The directives that the schedule of this name says for a system. What is said of one that is refused is left in `said`, which is
/// empty where nothing is said.
fn read_directives<F: Shelf>(
    alloc: Global,
    name: &str,
    boot: &Boot,
    shelf: &mut F,
    said: &mut Vec<u8>,
) -> Result<Vec<Directive>, Status>
    requires { IsValid boot.now }
    ensures says { IfOk result (λ ds. SaysDirectives (F.told shelf.old) name.now (length boot.now.machines) ds.items) }
    ensures each { IfOk result (λ ds. All (IsFor (length boot.now.machines)) ds.items) }
    ensures few { IfOk result (λ ds. length ds.items ≤ MOST_SCHEDULE) }
    ensures none { IfErr result (λ s. NoDirectives (F.told shelf.old) name.now (length boot.now.machines) (F.faults shelf.old) (F.faults shelf.new) s) }
    ensures shelf { MeetsShelf (Alone input_.Schedule name.now)
        (shelf_around F.asked F.told F.faults F.last_failed shelf.old shelf.new) (status_so_far result) }
    ensures said { FirstOfSchedule (F.told shelf.old) name.now boot.now (status_so_far result) said.new.items }
{
    *said = Vec::new(alloc);
    let machines = boot.machines.len() as u8;
    match read_file(alloc, shelf, name, MOST_SCHEDULE) {
        Ok(bytes) => match read_schedule(alloc, bytes.as_slice(), machines) {
            Ok(directives) => Ok(directives),
            Err(ScheduleError::Refused { line, fault }) => {
                match first_of_schedule(alloc, boot, bytes.as_slice(), line, fault) {
                    Ok(first) => {
                        *said = first;
                        Err(Status::ScheduleRefused {
                            line,
                            why: fault.number(),
                        })
                    }
                    Err(no) => Err(Status::NoMemory(no)),
                }
            }
            Err(ScheduleError::NoMemory(no)) => Err(Status::NoMemory(no)),
        },
        Err(ReadError::Fault) => Err(Status::ReadFault(Input::Schedule)),
        Err(ReadError::NoMemory(no)) => Err(Status::NoMemory(no)),
        Err(ReadError::TooLong) => Err(Status::TooLong(Input::Schedule)),
    }
}
