//! The processes and machines that the words of `explore` name, in a system with so many machines: such as a schedule for it may name.
ghost use Rattle.std.specs.Prelude.{◌≡◌, ◌<◌, ◌++◌, ◌∷◌, ◌&&◌, IfErr, IfNone, IfOk, IfSome, OnOk, [], false, length, map, true};
ghost use Rattle.std.specs.List.{list_all};
ghost use Rattle.dm_ending.specs.Status.{IsWant};
ghost use Rattle.dm_cmd_explore.specs.Explores.{IsOutside, all_written, asked_as, bounds_for, is_move_for, is_name_for, pid_named};

use dm_ending::status::Status;
use dm_link::Pid;
use dm_memory::push;
use dm_schedule::Step;
use dm_words::explore::{Exploration, WrittenMove, WrittenName};
use std::alloc::Global;

/// What is asked for of a process and a machine.
#[derive(Clone, Copy)]
pub enum Asks {
    Move,
    CallOff,
}

/// The requests to move that may be made, and then the callings off.
pub fn requests_of(
    alloc: Global,
    machines: u8,
    exploration: &Exploration,
) -> Result<Vec<Step>, Status>
    ensures asked { IfOk result (λ es. es.items ≡ (bounds_for exploration.now).requests) }
    ensures named { IfOk result (λ _. (list_all (is_move_for machines) (all_written exploration.now.moves) && list_all (is_move_for machines) (all_written exploration.now.call_offs)) ≡ true) }
    ensures none { IfErr result (IsOutside (list_all (is_move_for machines) (all_written exploration.now.moves) && list_all (is_move_for machines) (all_written exploration.now.call_offs))) }
{
    let mut requests = Vec::new(alloc);
    match add_moves(machines, Asks::Move, &exploration.moves, &mut requests) {
        Ok(()) => match add_moves(
            machines,
            Asks::CallOff,
            &exploration.call_offs,
            &mut requests,
        ) {
            Ok(()) => Ok(requests),
            Err(status) => Err(status),
        },
        Err(status) => Err(status),
    }
}

/// Adds what is asked for of each process and machine that is written.
#[tactic(auto, using(crate::proofs::Written::written_lemmas))]
fn add_moves(
    machines: u8,
    asks: Asks,
    list: &[Option<WrittenMove>],
    requests: &mut Vec<Step>,
) -> Result<(), Status>
    ensures asked { OnOk result (requests.new.items ≡ requests.old.items ++ map (asked_as asks) (all_written list.now)) }
    ensures named { OnOk result (list_all (is_move_for machines) (all_written list.now) ≡ true) }
    ensures none { IfErr result (IsOutside (list_all (is_move_for machines) (all_written list.now))) }
{
    let mut rest = list;
    while let Some((first, others)) = first_place(rest) {
        if let Some(written) = first {
            let step = step_for(machines, asks, written)?;
            add(requests, step)?;
        }
        rest = others;
    }
    Ok(())
}

/// What is asked for of a process and a machine, if they may be named.
fn step_for(machines: u8, asks: Asks, written: WrittenMove) -> Result<Step, Status>
    ensures step { IfOk result (λ e. e ≡ asked_as asks written) }
    ensures named { IfOk result (λ _. is_move_for machines written ≡ true) }
    ensures none { IfErr result (λ s. (s ≡ Status.Usage) × (is_move_for machines written ≡ false)) }
{
    let pid = pid_of(machines, written.name)?;
    let machine = machine_of(machines, written)?;
    Ok(match asks {
        Asks::Move => Step::Migrate { pid, to: machine },
        Asks::CallOff => Step::CallOff { pid, at: machine },
    })
}

/// The processes that may be stuck.
#[tactic(auto, using(crate::proofs::Written::written_lemmas))]
pub fn pids_of(
    alloc: Global,
    machines: u8,
    names: &[Option<WrittenName>],
) -> Result<Vec<Pid>, Status>
    ensures pids { IfOk result (λ ps. ps.items ≡ map pid_named (all_written names.now)) }
    ensures named { IfOk result (λ _. list_all (is_name_for machines) (all_written names.now) ≡ true) }
    ensures none { IfErr result (IsOutside (list_all (is_name_for machines) (all_written names.now))) }
{
    let mut pids = Vec::new(alloc);
    let mut rest = names;
    while let Some((first, others)) = first_place(rest) {
        if let Some(name) = first {
            let pid = pid_of(machines, name)?;
            add(&mut pids, pid)?;
        }
        rest = others;
    }
    Ok(pids)
}

/// The first of some places, and the others.
fn first_place<T: Copy>(list: &[Option<T>]) -> Option<(Option<T>, &[Option<T>])>
    ensures none { IfNone result (list.now ≡ []) }
    ensures some { IfSome result (λ f. list.now ≡ f.0 ∷ f.1.now) }
    ensures less { IfSome result (λ f. length f.1.now < length list.now) }
{
    if list.is_empty() {
        None
    } else {
        Some((list[0], &list[1..]))
    }
}

/// Adds an item at the end.
fn add<T: Drop>(list: &mut Vec<T>, item: T) -> Result<(), Status>
    ensures added { OnOk result (list.new.items ≡ list.old.items ++ item ∷ []) }
    ensures lacks { IfErr result IsWant }
{
    match push(list, item) {
        Ok(()) => Ok(()),
        Err(no) => Err(Status::NoMemory(no)),
    }
}

/// The process of this name: its machine is there, and its number has its size.
fn pid_of(machines: u8, name: WrittenName) -> Result<Pid, Status>
    ensures pid { IfOk result (λ p. p ≡ pid_named name) }
    ensures named { IfOk result (λ _. is_name_for machines name ≡ true) }
    ensures none { IfErr result (λ s. (s ≡ Status.Usage) × (is_name_for machines name ≡ false)) }
{
    if name.home < u64::from(machines) && name.num <= u64::from(u32::MAX) {
        Ok(Pid {
            home: name.home as u8,
            num: name.num as u32,
        })
    } else {
        Err(Status::Usage)
    }
}

/// The machine of a move: it is there.
fn machine_of(machines: u8, written: WrittenMove) -> Result<u8, Status>
    ensures machine { IfOk result (λ m. m ≡ written.machine) }
    ensures within { IfOk result (λ m. m < machines) }
    ensures none { IfErr result (λ s. (s ≡ Status.Usage) × (is_move_for machines written ≡ false)) }
{
    if written.machine < u64::from(machines) {
        Ok(written.machine as u8)
    } else {
        Err(Status::Usage)
    }
}
