//! Parts, one link after another.
ghost use Rattle.std.specs.Prelude.{◌≡◌, ◌+◌, ◌<◌, IfOk, map, position, slice_get, length};
ghost use Rattle.dm_link.specs.Names.{pid_eq};
ghost use Rattle.dm_parts.specs.Parts.{alone, child_place, joined, joins, parts_of, place_of, renamed, with_link, with_links, with_processes};

use dm_link::{Link, MANAGER, Pid, SWITCHBOARD};
use dm_memory::{NoMemory, push};
use dm_onekernel::{Boot, BootProcess};
use std::alloc::Global;

/// The number of the part of each process, by its place in the boot file, and behind them that of the switchboard: the place of
/// the part's first. A link costs a look at the processes at most, and each of the links that make one part of two a pass over the
/// numbers.
pub fn parts_of(alloc: Global, boot: &Boot) -> Result<Vec<usize>, NoMemory>
    ensures { IfOk result (λ parts. parts.items ≡ parts_of boot.now) }
{
    let mut parts = alone(alloc, boot.processes.len())?;
    join_processes(parts.as_mut_slice(), boot, boot.processes.as_slice());
    Ok(parts)
}

/// Each place up to the last by itself.
fn alone(alloc: Global, last: usize) -> Result<Vec<usize>, NoMemory>
    ensures { IfOk result (λ parts. parts.items ≡ alone 0 (last + 1)) }
{
    let mut parts = Vec::new(alloc);
    for place in 0..last {
        push(&mut parts, place)?;
    }
    push(&mut parts, last)?;
    Ok(parts)
}

/// Joins what the links of these processes join.
fn join_processes(parts: &mut [usize], boot: &Boot, processes: &[BootProcess])
    ensures { parts.new ≡ with_processes boot.now 0 parts.old processes.now }
{
    for (place, process) in processes.iter().enumerate() {
        join_links(parts, boot, place, process.links.as_slice());
    }
}

/// Joins what these links of the process at a place join.
fn join_links(parts: &mut [usize], boot: &Boot, place: usize, links: &[Link])
    ensures { parts.new ≡ with_links boot.now place parts.old links.now }
{
    for link in links {
        join_link(parts, place, joins(boot, link));
    }
}

/// Whose place a link joins with its holder's: that of whom it leads to, or of the child that its code names.
#[tactic(auto, unfolding(crate::specs::Parts::joins))]
fn joins(boot: &Boot, link: &Link) -> Option<usize>
    ensures { result ≡ joins boot.now link.now }
{
    if link.addr.pid == SWITCHBOARD {
        Some(boot.processes.len())
    } else if link.addr.pid == MANAGER {
        child_place(link.code)
    } else {
        place_of(boot.processes.as_slice(), link.addr.pid)
    }
}

/// The place of the child that a code names; code 0 names none.
fn child_place(code: u32) -> Option<usize>
    ensures { result ≡ child_place code }
{
    if code == 0 {
        None
    } else {
        Some(code as usize - 1)
    }
}

/// The place of a process among these.
fn place_of(processes: &[BootProcess], pid: Pid) -> Option<usize>
    ensures { result ≡ place_of processes.now pid }
{
    processes.iter().position(|p| same_pid(p.pid, pid))
}

/// Whether two names of processes are one.
fn same_pid(p: Pid, q: Pid) -> bool
    ensures { result ≡ pid_eq p q }
{
    p.home == q.home && p.num == q.num
}

/// Joins two places, if there is a second one.
fn join_link(parts: &mut [usize], place: usize, other: Option<usize>)
    ensures { parts.new ≡ with_link parts.old place other }
{
    if let Some(other) = other {
        join(parts, number_at(parts, place), number_at(parts, other));
    }
}

/// The number of the part of a place.
fn number_at(parts: &[usize], place: usize) -> Option<usize>
    ensures { result ≡ slice_get parts.now place }
{
    match parts.get(place) {
        Some(number) => Some(*number),
        None => None,
    }
}

/// Two parts become one, under the lesser of their numbers.
fn join(parts: &mut [usize], first: Option<usize>, second: Option<usize>)
    ensures { parts.new ≡ joined parts.old first second }
{
    if let Some(x) = first {
        if let Some(y) = second {
            join_numbers(parts, x, y);
        }
    }
}

fn join_numbers(parts: &mut [usize], x: usize, y: usize)
    ensures { parts.new ≡ joined parts.old (Some x) (Some y) }
{
    if x < y {
        rename(parts, y, x);
    } else if y < x {
        rename(parts, x, y);
    }
}

/// Gives the part with a number another one.
fn rename(parts: &mut [usize], from: usize, to: usize)
    ensures { parts.new ≡ map (renamed from to) parts.old }
{
    for number in parts.iter_mut() {
        *number = renamed(from, to, *number);
    }
}

fn renamed(from: usize, to: usize, number: usize) -> usize
    ensures { result ≡ renamed from to number }
{
    if number == from { to } else { number }
}
