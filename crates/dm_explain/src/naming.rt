//! That a word of a schedule is the name of a process of the boot file, where the process's number must stand.
ghost use Rattle.std.specs.Prelude.{◌≡◌, ◌++◌, IfOk, OnOk, map, option_map};
ghost use Rattle.std.specs.List.{concat};
ghost use Rattle.dm_onekernel.specs.Boot.{IsValid};
ghost use Rattle.dm_explain.specs.BadOperands.{bad_of};
ghost use Rattle.dm_explain.specs.Naming.{bad_named, line_named, name_told, number_told, numbered};

use crate::line::schedule_line;
use crate::part::{Part, put_parts};
use crate::wrong::{Bad, Role, bad_operand};
use dm_memory::NoMemory;
use dm_onekernel::Boot;
use dm_onekernel::boot::BootProcess;
use dm_schedule::LineFault;
use std::alloc::Global;

/// Says of a line of a schedule that is refused that a process of this system has the name that stands where its number must;
/// nothing where no name stands there.
#[tactic(auto, unfolding(crate::specs::Naming::name_told))]
pub fn explain_name(
    alloc: Global,
    boot: &Boot,
    bytes: &[u8],
    line: u64,
    fault: LineFault,
) -> Result<Vec<u8>, NoMemory>
    requires { IsValid boot.now }
    ensures { IfOk result (λ text. text.items ≡ name_told boot.now bytes.now line fault) }
{
    let mut text = Vec::new(alloc);
    put_line_named(&mut text, boot, fault, schedule_line(bytes, line))?;
    Ok(text)
}

/// Writes whose name stands in a line where a process's number must.
fn put_line_named(
    into: &mut Vec<u8>,
    boot: &Boot,
    fault: LineFault,
    line: &[u8],
) -> Result<(), NoMemory>
    requires { IsValid boot.now }
    ensures { OnOk result (into.new.items ≡ into.old.items ++ line_named boot.now fault line.now) }
{
    match fault {
        LineFault::NotANumber => {
            let machines = boot.machines.len() as u8;
            put_bad_named(into, boot.processes.as_slice(), bad_operand(machines, line))
        }
        LineFault::UnknownWord
        | LineFault::WrongCount
        | LineFault::OutOfRange
        | LineFault::SameMachine => Ok(()),
    }
}

/// Writes whose name stands where an operand is refused.
fn put_bad_named(
    into: &mut Vec<u8>,
    processes: &[BootProcess],
    bad: Option<Bad<'_>>,
) -> Result<(), NoMemory>
    ensures { OnOk result (into.new.items ≡ into.old.items ++ bad_named processes.now (option_map bad_of bad.entry)) }
{
    match bad {
        Some(bad) => match bad.role {
            Role::Process => put_numbers(into, processes, bad.word),
            Role::Machine | Role::Packet | Role::Rounds => Ok(()),
        },
        None => Ok(()),
    }
}

/// Writes the number of each process that has a name.
fn put_numbers(into: &mut Vec<u8>, processes: &[BootProcess], word: &[u8]) -> Result<(), NoMemory>
    ensures { OnOk result (into.new.items ≡ into.old.items ++ concat (map (number_told word.now) processes.now)) }
{
    for process in processes {
        put_number(into, process, word)?;
    }
    Ok(())
}

/// Writes the number of a process, if this word is its name.
#[tactic(auto, unfolding(crate::specs::Naming::number_told))]
fn put_number(into: &mut Vec<u8>, process: &BootProcess, word: &[u8]) -> Result<(), NoMemory>
    ensures { OnOk result (into.new.items ≡ into.old.items ++ number_told word.now process.now) }
{
    if process.name.as_slice() == word {
        put_numbered(into, process)
    } else {
        Ok(())
    }
}

/// Writes the name of a process, and its number.
#[tactic(auto, unfolding(crate::specs::Naming::numbered))]
fn put_numbered(into: &mut Vec<u8>, process: &BootProcess) -> Result<(), NoMemory>
    ensures { OnOk result (into.new.items ≡ into.old.items ++ numbered process.now) }
{
    put_parts(
        into,
        &[
            Part::Text("    "),
            Part::Name(process.name.as_slice()),
            Part::Text(" is "),
            Part::Process(process.pid),
            Part::Text("\n"),
        ],
    )
}
