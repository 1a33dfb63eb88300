//! The parts of a system, a line each, where there is more than one.
ghost use Rattle.std.specs.Prelude.{◌≡◌, ◌++◌, OnOk, length};
ghost use Rattle.dm_parts.specs.Parts.{parts_of};
ghost use Rattle.dm_explain.specs.System.{each};
ghost use Rattle.dm_explain.specs.SystemParts.{first_told, has_another, is_first, is_later, member_told, name_at, named_told, part_told, parts_told};

use crate::part::{Part, put, put_parts};
use dm_memory::NoMemory;
use dm_onekernel::Boot;
use dm_onekernel::boot::BootProcess;
use dm_parts::parts_of;
use std::alloc::Global;

/// Writes the parts of a system.
pub fn put_system_parts(alloc: Global, into: &mut Vec<u8>, boot: &Boot) -> Result<(), NoMemory>
    ensures { OnOk result (into.new.items ≡ into.old.items ++ parts_told boot.now.processes (parts_of boot.now)) }
{
    let numbers = parts_of(alloc, boot)?;
    put_told(into, boot.processes.as_slice(), numbers.as_slice())
}

/// Writes the parts of these numbers, where there is more than one; the last number is the switchboard's.
#[tactic(auto, unfolding(crate::specs::SystemParts::parts_told))]
fn put_told(
    into: &mut Vec<u8>,
    processes: &[BootProcess],
    numbers: &[usize],
) -> Result<(), NoMemory>
    ensures { OnOk result (into.new.items ≡ into.old.items ++ parts_told processes.now numbers.now) }
{
    if has_another(processes.len(), numbers) {
        put_firsts(into, processes, numbers)
    } else {
        Ok(())
    }
}

/// Whether one of these, the file's first aside, is the first of its part.
fn has_another(last: usize, numbers: &[usize]) -> bool
    ensures { result ≡ has_another last 0 numbers.now }
{
    for (place, number) in numbers.iter().enumerate() {
        if is_later(last, place, *number) {
            return true;
        }
    }
    false
}

/// Whether a process, the file's first aside, is the first of its part.
fn is_later(last: usize, place: usize, number: usize) -> bool
    ensures { result ≡ is_later last place number }
{
    0 < place && is_first(last, place, number)
}

/// Whether a process is the first of its part.
fn is_first(last: usize, place: usize, number: usize) -> bool
    ensures { result ≡ is_first last place number }
{
    number == place && place < last
}

/// Writes each part, at its first process.
fn put_firsts(
    into: &mut Vec<u8>,
    processes: &[BootProcess],
    numbers: &[usize],
) -> Result<(), NoMemory>
    ensures { OnOk result (into.new.items ≡ into.old.items ++ each (first_told processes.now numbers.now) 0 numbers.now) }
{
    for (place, number) in numbers.iter().enumerate() {
        put_first(into, processes, numbers, place, *number)?;
    }
    Ok(())
}

#[tactic(auto, unfolding(crate::specs::SystemParts::first_told))]
fn put_first(
    into: &mut Vec<u8>,
    processes: &[BootProcess],
    numbers: &[usize],
    place: usize,
    number: usize,
) -> Result<(), NoMemory>
    ensures { OnOk result (into.new.items ≡ into.old.items ++ first_told processes.now numbers.now place number) }
{
    if is_first(processes.len(), place, number) {
        put_part(into, processes, numbers, place)
    } else {
        Ok(())
    }
}

/// Writes a part.
fn put_part(
    into: &mut Vec<u8>,
    processes: &[BootProcess],
    numbers: &[usize],
    part: usize,
) -> Result<(), NoMemory>
    ensures { OnOk result (into.new.items ≡ into.old.items ++ part_told processes.now numbers.now part) }
{
    put_named(into, "part: ", processes, part)?;
    put_members(into, processes, part, numbers)?;
    put(into, "\n")
}

/// Writes those of a part that stand behind its first.
fn put_members(
    into: &mut Vec<u8>,
    processes: &[BootProcess],
    part: usize,
    numbers: &[usize],
) -> Result<(), NoMemory>
    ensures { OnOk result (into.new.items ≡ into.old.items ++ each (member_told processes.now part) 0 numbers.now) }
{
    for (place, number) in numbers.iter().enumerate() {
        put_member(into, processes, part, place, *number)?;
    }
    Ok(())
}

#[tactic(auto, unfolding(crate::specs::SystemParts::member_told))]
fn put_member(
    into: &mut Vec<u8>,
    processes: &[BootProcess],
    part: usize,
    place: usize,
    number: usize,
) -> Result<(), NoMemory>
    ensures { OnOk result (into.new.items ≡ into.old.items ++ member_told processes.now part place number) }
{
    if number == part && part < place {
        put_named(into, ", ", processes, place)
    } else {
        Ok(())
    }
}

/// Writes words, and who stands at a place.
fn put_named(
    into: &mut Vec<u8>,
    words: &'static str,
    processes: &[BootProcess],
    place: usize,
) -> Result<(), NoMemory>
    ensures { OnOk result (into.new.items ≡ into.old.items ++ named_told words.now processes.now place) }
{
    put_parts(
        into,
        &[Part::Text(words), Part::Name(name_at(processes, place))],
    )
}

/// Who stands at a place.
fn name_at(processes: &[BootProcess], place: usize) -> &[u8]
    ensures { result.now ≡ name_at processes.now place }
{
    match processes.get(place) {
        Some(process) => process.name.as_slice(),
        None => b"switchboard",
    }
}
