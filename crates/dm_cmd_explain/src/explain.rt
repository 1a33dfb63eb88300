//! The command `explain`: it says what a boot file and a schedule say, or what is wrong with them.
ghost use Rattle.std.specs.Prelude.{◌≡◌, IfErr, IfOk, None, length, option_map};
ghost use Rattle.dm_ending.specs.declared.status.Input.TheVariants as input_;
ghost use Rattle.dm_front.specs.Asked.{Alone, perhaps_both};
ghost use Rattle.dm_cmd_explain.specs.Explains.{ExplainMeets, NoInputs, TellsFiles, TellsLines, TellsSchedule};
ghost use Rattle.dm_front.specs.Inputs.{NoDirectives};
ghost use Rattle.dm_front.specs.Meets.{MeetsShelf, status_so_far};
ghost use Rattle.dm_front.specs.Outside.{around, shelf_around, sink_around};
ghost use Rattle.dm_onekernel.specs.Boot.{IsValid};

use dm_ending::status::{Input, Status};
use dm_explain::{BootTold, ScheduleTold, explain_name, explain_schedule};
use dm_front::read::{ReadError, read_file};
use dm_front::tell::{Told, say, tell_boot};
use dm_memory::{NoMemory, extend_from_slice};
use dm_onekernel::Boot;
use dm_outside::{Shelf, Sink};
use dm_schedule::MOST_SCHEDULE;
use std::alloc::Global;

/// Says what the boot file of the first name says, and the schedule of the second where there is one, or what is wrong with
/// them. It ends as a run of these files ends before it runs.
pub fn explain_files<F: Shelf, K: Sink>(
    alloc: Global,
    boot: &str,
    schedule: Option<&str>,
    shelf: &mut F,
    out: &mut K,
) -> Status
    ensures meets { ExplainMeets boot.now (option_map (λ s. s.now) schedule.entry)
        (around (shelf_around F.asked F.told F.faults F.last_failed shelf.old shelf.new)
        (sink_around K.told K.faults K.last_failed out.old out.new)) None result }
{
    match tell_files(alloc, boot, schedule, shelf) {
        Ok(told) => say(&told, out),
        Err(status) => status,
    }
}

/// What is said of files of these names, or why nothing is.
fn tell_files<F: Shelf>(
    alloc: Global,
    boot: &str,
    schedule: Option<&str>,
    shelf: &mut F,
) -> Result<Told, Status>
    ensures tells { IfOk result (λ t. TellsFiles (F.told shelf.old) boot.now (option_map (λ s. s.now) schedule.entry) t.due t.text.items) }
    ensures none { IfErr result
        (λ s. NoInputs (F.told shelf.old) boot.now (option_map (λ s. s.now) schedule.entry) (F.faults shelf.old) (F.faults shelf.new) s) }
    ensures shelf { MeetsShelf (perhaps_both boot.now (option_map (λ s. s.now) schedule.entry))
        (shelf_around F.asked F.told F.faults F.last_failed shelf.old shelf.new) (status_so_far result) }
{
    let told = match tell_boot(alloc, boot, shelf) {
        Ok(told) => told,
        Err(status) => return Err(status),
    };
    match told {
        BootTold::Refused { rule, place, text } => Ok(Told {
            due: Status::BootRefused {
                number: rule.number(),
                place,
            },
            text,
        }),
        BootTold::System { boot: system, text } => match schedule {
            Some(name) => tell_schedule(alloc, name, &system, text, shelf),
            None => Ok(Told {
                due: Status::Done,
                text,
            }),
        },
    }
}

/// What is said of the schedule of this name, for this system, behind what is said of that.
fn tell_schedule<F: Shelf>(
    alloc: Global,
    name: &str,
    system: &Boot,
    first: Vec<u8>,
    shelf: &mut F,
) -> Result<Told, Status>
    requires { IsValid system.now }
    ensures tells { IfOk result (λ t. TellsSchedule (F.told shelf.old) name.now system.now first.items t.due t.text.items) }
    ensures none { IfErr result (λ s. NoDirectives (F.told shelf.old) name.now (length system.now.machines) (F.faults shelf.old) (F.faults shelf.new) s) }
    ensures shelf { MeetsShelf (Alone input_.Schedule name.now)
        (shelf_around F.asked F.told F.faults F.last_failed shelf.old shelf.new) (status_so_far result) }
{
    match read_file(alloc, shelf, name, MOST_SCHEDULE) {
        Ok(bytes) => match tell_lines(alloc, system, bytes.as_slice(), first) {
            Ok(told) => Ok(told),
            Err(no) => Err(Status::NoMemory(no)),
        },
        Err(ReadError::Fault) => Err(Status::ReadFault(Input::Schedule)),
        Err(ReadError::NoMemory(no)) => Err(Status::NoMemory(no)),
        Err(ReadError::TooLong) => Err(Status::TooLong(Input::Schedule)),
    }
}

/// What is said of a schedule, for this system, behind what is said of that.
fn tell_lines(alloc: Global, system: &Boot, bytes: &[u8], first: Vec<u8>) -> Result<Told, NoMemory>
    requires { IsValid system.now }
    ensures { IfOk result (λ t. TellsLines system.now bytes.now first.items t.due t.text.items) }
{
    let mut text = first;
    match explain_schedule(alloc, bytes, system.machines.len() as u8)? {
        ScheduleTold::Directives { text: more, .. } => {
            extend_from_slice(&mut text, more.as_slice())?;
            Ok(Told {
                due: Status::Done,
                text,
            })
        }
        ScheduleTold::Refused {
            line,
            fault,
            text: more,
        } => {
            let mut said = more;
            let name = explain_name(alloc, system, bytes, line, fault)?;
            extend_from_slice(&mut said, name.as_slice())?;
            extend_from_slice(&mut text, said.as_slice())?;
            Ok(Told {
                due: Status::ScheduleRefused {
                    line,
                    why: fault.number(),
                },
                text,
            })
        }
    }
}
