//! The directives that may be chosen where others have led, but for those that are left out.
ghost use Rattle.std.specs.Prelude.{◌≡◌, ◌<◌, ◌∷◌, IfOk, List, OnOk, [], length, true};
ghost use Rattle.dm_world.specs.Meets.{IsWorld, world_state};
ghost use Rattle.dm_explore.specs.Asked.{bounds_said};
ghost use Rattle.dm_explore.specs.Choices.{choices, count_here, deliveries, is_due, may_come, of_machine, of_pair, requests_left, tick_choices, turns, where_fewer};
ghost use Rattle.dm_explore.specs.Noted.{HasPast, noted};
ghost use Rattle.dm_explore.specs.Offered.{Offers};
ghost use Rattle.dm_explore.specs.Past.{Did, is_same, is_tick, repeats, ticks, times};
ghost use Rattle.dm_explore.specs.Sights.{world_sight};

use crate::bounds::Bounds;
use crate::order::could_stand_before;
use crate::past::{Done, Past, Put, was_delivered};
use crate::sights::{acts, resends, waits, who_acts};
use dm_memory::{NoMemory, push};
use dm_schedule::Step;
use dm_world::World;
use std::alloc::Global;

/// What may be chosen and isn't left out, in order: turns, packets never delivered, packets again, ticks, requests to move and
/// callings off.
#[tactic(auto, using(crate::proofs::Offering::offered_all))]
pub fn open_choices(
    alloc: Global,
    bounds: &Bounds,
    world: &World,
    past: &Past,
) -> Result<Vec<Step>, NoMemory>
    requires world { IsWorld world.now }
    requires past { HasPast past.now }
    ensures { IfOk result (λ offered. Offers world.now past.now (λ n s ds. choices n (bounds_said bounds.now) s ds) [] offered.items) }
{
    let mut offered = Vec::new(alloc);
    offer_turns(world, past, &mut offered)?;
    offer_packets(bounds, world, past, false, &mut offered)?;
    offer_repeats(bounds, world, past, &mut offered)?;
    offer_more_ticks(bounds, world, past, &mut offered)?;
    offer_requests(bounds.requests.as_slice(), world, past, &mut offered)?;
    Ok(offered)
}

/// Offers a directive, unless it is left out.
fn offer(step: Step, world: &World, past: &Past, offered: &mut Vec<Step>) -> Result<(), NoMemory>
    requires world { IsWorld world.now }
    requires past { HasPast past.now }
    ensures { OnOk result (Offers world.now past.now (λ n s ds. step ∷ []) offered.old.items offered.new.items) }
{
    if could_stand_before(past, step, who_acts(world, step)) {
        return Ok(());
    }
    push(offered, step)
}

/// Offers the turns that wouldn't be idle.
fn offer_turns(world: &World, past: &Past, offered: &mut Vec<Step>) -> Result<(), NoMemory>
    requires world { IsWorld world.now }
    requires past { HasPast past.now }
    ensures { OnOk result (Offers world.now past.now (λ n s ds. turns n s) offered.old.items offered.new.items) }
{
    for m in 0..world.machines() {
        if acts(world, m) {
            offer(Step::Turn(m), world, past, offered)?;
        }
    }
    Ok(())
}

/// Offers the packets that were delivered before, or those that were not: pair by pair, and by their numbers.
fn offer_packets(
    bounds: &Bounds,
    world: &World,
    past: &Past,
    again: bool,
    offered: &mut Vec<Step>,
) -> Result<(), NoMemory>
    requires world { IsWorld world.now }
    requires past { HasPast past.now }
    ensures { OnOk result (Offers world.now past.now (λ n s ds. deliveries n (bounds_said bounds.now) s ds again) offered.old.items offered.new.items) }
{
    for a in 0..world.machines() {
        offer_from(bounds, world, past, again, a, offered)?;
    }
    Ok(())
}

/// Offers the packets that were delivered before, where fewer were delivered again than may be.
fn offer_repeats(
    bounds: &Bounds,
    world: &World,
    past: &Past,
    offered: &mut Vec<Step>,
) -> Result<(), NoMemory>
    requires world { IsWorld world.now }
    requires past { HasPast past.now }
    ensures { OnOk result (Offers world.now past.now (λ n s ds. where_fewer (repeats ds) bounds.now.repeats (deliveries n (bounds_said bounds.now) s ds true)) offered.old.items offered.new.items) }
{
    if repeats_of(past.done()) >= usize::from(bounds.repeats) {
        return Ok(());
    }
    offer_packets(bounds, world, past, true, offered)
}

/// The same of those that went from one machine.
fn offer_from(
    bounds: &Bounds,
    world: &World,
    past: &Past,
    again: bool,
    a: u8,
    offered: &mut Vec<Step>,
) -> Result<(), NoMemory>
    requires world { IsWorld world.now }
    requires past { HasPast past.now }
    requires within { a < length world.now.boot.machines }
    ensures { OnOk result (Offers world.now past.now (λ n s ds. of_machine n (bounds_said bounds.now) s ds again a) offered.old.items offered.new.items) }
{
    for b in 0..world.machines() {
        if a != b {
            offer_pair(bounds, world, past, again, a, b, offered)?;
        }
    }
    Ok(())
}

/// The same of those that went from one machine to another.
fn offer_pair(
    bounds: &Bounds,
    world: &World,
    past: &Past,
    again: bool,
    a: u8,
    b: u8,
    offered: &mut Vec<Step>,
) -> Result<(), NoMemory>
    requires world { IsWorld world.now }
    requires past { HasPast past.now }
    requires from { a < length world.now.boot.machines }
    requires to { b < length world.now.boot.machines }
    ensures { OnOk result (Offers world.now past.now (λ n s ds. of_pair (bounds_said bounds.now) s ds again a b) offered.old.items offered.new.items) }
{
    for put in past.puts() {
        if put.from == a && put.to == b && is_offered(bounds, world, past.done(), again, put) {
            offer(Step::Deliver { a, b, k: put.k }, world, past, offered)?;
        }
    }
    Ok(())
}

/// Whether a packet may be delivered, and was so before, or was not.
fn is_offered(bounds: &Bounds, world: &World, done: &[Done], again: bool, put: &Put) -> bool
    requires world { IsWorld world.now }
    requires from { put.now.from < length world.now.boot.machines }
    requires to { put.now.to < length world.now.boot.machines }
    ensures { (ds : List Did) → done.now ≡ noted ds →
        result ≡ is_due (bounds_said bounds.now) (world_sight (length world.now.boot.machines) (world_state world.now)) ds again put.now }
{
    was_delivered(done, put.from, put.to, put.k) == again && may_come(bounds, world, put)
}

/// Whether a packet may be delivered: an acknowledgement only where a message waits for one, or all may.
fn may_come(bounds: &Bounds, world: &World, put: &Put) -> bool
    requires world { IsWorld world.now }
    requires from { put.now.from < length world.now.boot.machines }
    requires to { put.now.to < length world.now.boot.machines }
    ensures { result ≡ may_come (bounds_said bounds.now) (world_sight (length world.now.boot.machines) (world_state world.now)) put.now }
{
    !put.acks || bounds.acks || waits(world, put.to, put.from)
}

/// Offers the ticks by which something would be sent again.
fn offer_ticks(world: &World, past: &Past, offered: &mut Vec<Step>) -> Result<(), NoMemory>
    requires world { IsWorld world.now }
    requires past { HasPast past.now }
    ensures { OnOk result (Offers world.now past.now (λ n s ds. tick_choices n s) offered.old.items offered.new.items) }
{
    for m in 0..world.machines() {
        if resends(world, m) {
            offer(Step::Tick(m), world, past, offered)?;
        }
    }
    Ok(())
}

/// The same, where there were fewer ticks than may be.
fn offer_more_ticks(
    bounds: &Bounds,
    world: &World,
    past: &Past,
    offered: &mut Vec<Step>,
) -> Result<(), NoMemory>
    requires world { IsWorld world.now }
    requires past { HasPast past.now }
    ensures { OnOk result (Offers world.now past.now (λ n s ds. where_fewer (ticks ds) bounds.now.ticks (tick_choices n s)) offered.old.items offered.new.items) }
{
    if ticks_of(past.done()) >= usize::from(bounds.ticks) {
        return Ok(());
    }
    offer_ticks(world, past, offered)
}

/// Offers the requests that are left, of equal ones the first.
fn offer_requests(
    requests: &[Step],
    world: &World,
    past: &Past,
    offered: &mut Vec<Step>,
) -> Result<(), NoMemory>
    requires world { IsWorld world.now }
    requires past { HasPast past.now }
    ensures { OnOk result (Offers world.now past.now (λ n s ds. requests_left [] requests.now ds) offered.old.items offered.new.items) }
{
    for place in 0..requests.len() {
        let step = requests[place];
        if count_here(&requests[..place], step) == times(past.done(), step) {
            offer(step, world, past, offered)?;
        }
    }
    Ok(())
}

/// How many of these requests are this one.
fn count_here(requests: &[Step], step: Step) -> usize
    ensures { result ≡ count_here step requests.now }
{
    let mut count = 0;
    for other in requests {
        if is_same(*other, step) {
            count += 1;
        }
    }
    count
}

/// How often this request was made.
fn times(done: &[Done], step: Step) -> usize
    ensures { (ds : List Did) → done.now ≡ noted ds → result ≡ times step ds }
{
    let mut count = 0;
    for each in done {
        if is_same(each.step, step) {
            count += 1;
        }
    }
    count
}

/// Whether two directives are the same request to move, or the same calling off.
fn is_same(one: Step, other: Step) -> bool
    ensures { result ≡ is_same one other }
{
    match (one, other) {
        (Step::Migrate { pid, to }, Step::Migrate { pid: p, to: m }) => pid == p && to == m,
        (Step::CallOff { pid, at }, Step::CallOff { pid: p, at: m }) => pid == p && at == m,
        _ => false,
    }
}

/// How many packets were delivered again.
fn repeats_of(done: &[Done]) -> usize
    ensures { (ds : List Did) → done.now ≡ noted ds → result ≡ repeats ds }
{
    let mut count = 0;
    for each in done {
        if each.again {
            count += 1;
        }
    }
    count
}

/// How many ticks there were.
fn ticks_of(done: &[Done]) -> usize
    ensures { (ds : List Did) → done.now ≡ noted ds → result ≡ ticks ds }
{
    let mut count = 0;
    for each in done {
        if is_tick(each.step) {
            count += 1;
        }
    }
    count
}

/// Whether a directive is a tick.
fn is_tick(step: Step) -> bool
    ensures { result ≡ is_tick step }
{
    match step {
        Step::Tick(_) => true,
        _ => false,
    }
}
