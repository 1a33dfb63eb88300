//! On which machines the processes that have a lane ever have a bar.
ghost use Rattle.std.specs.Prelude.{◌≡◌, [], IfOk, OnOk, count_by, fold, position};
ghost use Rattle.std.specs.List.{list_any};
ghost use Rattle.dm_link.specs.Names.{pid_eq};
ghost use Rattle.dm_chart.specs.Stays.{greater, is_before, is_on, is_stay, lane_among, most_on, stays_behind, stays_in, with_life, with_role, with_start, with_stay};

use crate::role::{Life, Role, role_of};
use crate::scan::same_pid;
use crate::spot::{Spot, next_spot};
use dm_line::line::Line;
use dm_link::Pid;
use dm_lists::Items;
use dm_memory::NoMemory;
use std::alloc::Global;

/// The most processes that have a lane.
pub const MOST_LANES: usize = 12;

/// A process with a lane has a bar on a machine.
#[derive(Clone, Copy)]
pub struct Stay {
    pub machine: u8,
    pub lane: usize,
}

/// All of them: of these processes those that are there from the start, and what the lines tell behind a place.
pub fn stays_in(
    alloc: Global,
    processes: &[Pid],
    starts: &[Pid],
    from: Spot,
    lines: &[Line],
) -> Result<Items<Stay>, NoMemory>
    ensures { IfOk result (λ stays. stays ≡ stays_in processes.now starts.now from lines.now) }
{
    let mut stays = Items::new(alloc);
    add_starts(&mut stays, processes, starts)?;
    add_lines(&mut stays, processes, from, lines)?;
    Ok(stays)
}

/// Adds the processes that are there from the start.
#[tactic(auto, using(crate::proofs::Staying::start_lemmas))]
fn add_starts(stays: &mut Items<Stay>, processes: &[Pid], starts: &[Pid]) -> Result<(), NoMemory>
    ensures { OnOk result (stays.new ≡ fold (with_start processes.now) stays.old starts.now) }
{
    for start in starts {
        add(stays, start.home, lane_among(processes, *start))?;
    }
    Ok(())
}

/// Adds those that are made on a machine, or go on there.
#[tactic(auto, using(crate::proofs::Staying::behind_lemmas))]
fn add_lines(
    stays: &mut Items<Stay>,
    processes: &[Pid],
    from: Spot,
    lines: &[Line],
) -> Result<(), NoMemory>
    ensures { OnOk result (stays.new ≡ stays_behind processes.now stays.old from lines.now) }
{
    let mut spot = from;
    for line in lines {
        spot = next_spot(spot, line);
        add_role(stays, processes, spot.machine, role_of(line))?;
    }
    Ok(())
}

fn add_role(stays: &mut Items<Stay>, processes: &[Pid], m: u8, role: Role) -> Result<(), NoMemory>
    ensures { OnOk result (stays.new ≡ with_role processes.now stays.old m role) }
{
    match role {
        Role::Note(life) => add_life(stays, processes, m, life),
        _ => Ok(()),
    }
}

fn add_life(stays: &mut Items<Stay>, processes: &[Pid], m: u8, life: Life) -> Result<(), NoMemory>
    ensures { OnOk result (stays.new ≡ with_life processes.now stays.old m life) }
{
    match life {
        Life::Made(pid) | Life::From(pid) => add(stays, m, lane_among(processes, pid)),
        Life::Same
        | Life::Ends(_)
        | Life::Leaves(_)
        | Life::Served(_)
        | Life::Waits(_)
        | Life::Wakes(_) => Ok(()),
    }
}

/// Adds a lane on a machine, where there is one and it isn't there.
fn add(stays: &mut Items<Stay>, machine: u8, lane: Option<usize>) -> Result<(), NoMemory>
    ensures { OnOk result (stays.new ≡ with_stay stays.old machine lane) }
{
    match lane {
        None => Ok(()),
        Some(lane) => {
            if is_among(stays.as_slice(), machine, lane) {
                Ok(())
            } else {
                stays.push(Stay { machine, lane })
            }
        }
    }
}

fn is_among(stays: &[Stay], machine: u8, lane: usize) -> bool
    ensures { result ≡ list_any (is_stay machine lane) stays.now }
{
    stays
        .iter()
        .any(|stay| stay.machine == machine && stay.lane == lane)
}

/// The lane of one of these processes, if it has one.
pub fn lane_among(processes: &[Pid], pid: Pid) -> Option<usize>
    ensures { result ≡ lane_among processes.now pid }
{
    match place_of(processes, pid) {
        Some(place) => {
            if place < MOST_LANES {
                Some(place)
            } else {
                None
            }
        }
        None => None,
    }
}

/// The place of a process among these.
fn place_of(processes: &[Pid], pid: Pid) -> Option<usize>
    ensures { result ≡ position (λ q. pid_eq q pid) processes.now }
{
    processes.iter().position(|p| same_pid(*p, pid))
}

/// How many of them are on a machine, with a lower lane than this one.
pub fn lanes_before(stays: &[Stay], m: u8, lane: usize) -> usize
    ensures { result ≡ count_by (is_before m lane) stays.now }
{
    stays
        .iter()
        .filter(|stay| stay.machine == m && stay.lane < lane)
        .count()
}

/// As many as a machine has of so many at most.
#[tactic(auto, using(crate::proofs::Staying::most_lemmas))]
pub fn most_on(stays: &[Stay], machines: u8) -> usize
    ensures { result ≡ most_on stays.now machines }
{
    let mut most = 0;
    for m in 0..machines {
        most = greater(most, count_on(stays, m));
    }
    most
}

fn greater(a: usize, b: usize) -> usize
    ensures { result ≡ greater a b }
{
    if a < b { b } else { a }
}

fn count_on(stays: &[Stay], m: u8) -> usize
    ensures { result ≡ count_by (is_on m) stays.now }
{
    stays.iter().filter(|stay| stay.machine == m).count()
}
