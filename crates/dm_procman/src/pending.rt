//! Requests to make a process, and to move one, that wait for an answer.
ghost use Rattle.std.specs.Prelude.{◌≡◌, ◌+◌, ◌<◌, ◌^◌, ◌++◌, ◌∷◌, [], IfOk, IsSome, OnErr, OnOk, Some, count_by, is_some, length, map, position, true};
ghost use Rattle.std.specs.BTreeMap.{btree_map_len, keys, values};
ghost use Rattle.std.specs.List.{All};
ghost use Rattle.dm_procman.specs.Managing.{pending_is_behind, retargeted_pending};
ghost use Rattle.dm_procman.specs.Numbered.{IsNumbered, retargeted_entry};
ghost use Rattle.dm_procman.specs.Taking.{has_number, pending_request, without_pending};

use crate::moving::{is_behind, retarget_answer, retarget_pending};
use dm_link::{Link, Pid};
use dm_memory::{NoMemory, insert, push};
use dm_onekernel::PendingKind;
use std::alloc::Global;
use std::collections::BTreeMap;
use std::marker::Model;

/// A request without a taken answer.
#[derive(Clone, Copy)]
pub struct Pending {
    /// Its number among the manager's messages.
    pub n: u32,
    pub kind: PendingKind,
    /// The link for the answer, if there is one; a request to make a process always has it.
    pub answer: Option<Link>,
}

/// The requests that wait, in order; contracts see a list of them. An answer finds its request by number, however many wait.
#[derive(Drop)]
pub struct Unanswered {
    alloc: Global,
    /// Those whose numbers ascend, under their numbers: all, where a manager has sent them.
    ascending: BTreeMap<u32, Pending>,
    /// Those from the first on whose number isn't above all before it, as bytes may spell them.
    others: Vec<Pending>,
}

impl Model for Unanswered {
    ghost use Rattle.std.specs.Prelude.{List, ◌++◌};
    ghost use Rattle.std.specs.BTreeMap.{values};
    ghost use Rattle.dm_procman.specs.declared.pending.Pending.{Pending};
    ghost use Rattle.dm_procman.specs.Numbered.{IsNumbered};

    ghost Value = { List Pending };

    ghost view = { λ u. values u.ascending ++ u.others.items };

    ghost invariant = { λ u. IsNumbered u.ascending.entries };
}

impl Unanswered {
    /// No requests. It takes no memory.
    pub fn new(alloc: Global) -> Self
        ensures { result ≡ [] }
    {
        Unanswered {
            alloc,
            ascending: BTreeMap::new(alloc),
            others: Vec::new(alloc),
        }
    }

    /// How many there are.
    pub fn len(&self) -> usize
        ensures { result ≡ length self.now }
    {
        count_both(&self.ascending, &self.others)
    }

    /// Whether one has this number.
    pub fn has(&self, number: u32) -> bool
        ensures { result ≡ is_some (pending_request number self.now) }
    {
        is_there(&self.ascending, self.others.as_slice(), number)
    }

    /// The first request of this number.
    pub fn numbered(&self, number: u32) -> Pending
        requires { IsSome (pending_request number self.now) }
        ensures { pending_request number self.now ≡ Some result }
    {
        first_of(&self.ascending, self.others.as_slice(), number).unwrap()
    }

    /// A list of them, in order.
    pub fn listed(&self) -> Result<Vec<Pending>, NoMemory>
        ensures { IfOk result (λ list. list.items ≡ self.now) }
    {
        let mut list = Vec::new(self.alloc);
        add_values(&mut list, &self.ascending)?;
        add_copies(&mut list, self.others.as_slice())?;
        Ok(list)
    }

    /// Adds a request behind the others.
    pub fn push(&mut self, request: Pending) -> Result<(), NoMemory>
        ensures ok { OnOk result (self.new ≡ self.old ++ request ∷ []) }
        ensures err { OnErr result (self.new ≡ self.old) }
    {
        put_last(&mut self.ascending, &mut self.others, request)
    }

    /// Takes the first request of this number.
    pub fn take(&mut self, number: u32) -> Pending
        requires { IsSome (pending_request number self.old) }
        ensures request { pending_request number self.old ≡ Some result }
        ensures others { self.new ≡ without_pending number self.old }
    {
        take_first(&mut self.ascending, &mut self.others, number)
    }

    /// Tells the links for answers that a process is on machine `at` after so many moves; how many changed.
    pub fn retarget(&mut self, about: Pid, at: u8, moves: u32) -> u32
        requires { length self.old < 2 ^ 31 }
        ensures pending { self.new ≡ map (retargeted_pending about at moves) self.old }
        ensures changed { result ≡ count_by (pending_is_behind about moves) self.old }
    {
        retarget_both(&mut self.ascending, &mut self.others, about, at, moves)
    }
}

/// How many there are.
fn count_both(ascending: &BTreeMap<u32, Pending>, others: &Vec<Pending>) -> usize
    ensures { result ≡ length (values ascending.now ++ others.now.items) }
{
    ascending.len() + others.len()
}

/// Whether a request has this number.
fn has_number(request: &Pending, number: u32) -> bool
    ensures { result ≡ has_number number request.now }
{
    request.n == number
}

/// Where the first request of this number stands.
fn place_of(pending: &[Pending], number: u32) -> Option<usize>
    ensures { result ≡ position (has_number number) pending.now }
{
    pending
        .iter()
        .position(|request| has_number(request, number))
}

/// Whether one has this number.
fn is_there(ascending: &BTreeMap<u32, Pending>, others: &[Pending], number: u32) -> bool
    requires { IsNumbered ascending.now.entries }
    ensures { result ≡ is_some (pending_request number (values ascending.now ++ others.now)) }
{
    ascending.contains_key(&number) || place_of(others, number).is_some()
}

/// The first request of this number in a list.
fn find(pending: &[Pending], number: u32) -> Option<Pending>
    ensures { result ≡ pending_request number pending.now }
{
    for request in pending {
        if has_number(request, number) {
            return Some(*request);
        }
    }
    None
}

/// The first request of this number.
fn first_of(ascending: &BTreeMap<u32, Pending>, others: &[Pending], number: u32) -> Option<Pending>
    requires { IsNumbered ascending.now.entries }
    ensures { result ≡ pending_request number (values ascending.now ++ others.now) }
{
    match ascending.get(&number) {
        Some(request) => Some(*request),
        None => find(others, number),
    }
}

/// Adds those that stand under their numbers.
fn add_values(list: &mut Vec<Pending>, ascending: &BTreeMap<u32, Pending>) -> Result<(), NoMemory>
    ensures { OnOk result (list.new.items ≡ list.old.items ++ values ascending.now) }
{
    for request in ascending.values() {
        push(list, *request)?;
    }
    Ok(())
}

/// Adds others.
fn add_copies(list: &mut Vec<Pending>, others: &[Pending]) -> Result<(), NoMemory>
    ensures { OnOk result (list.new.items ≡ list.old.items ++ others.now) }
{
    for request in others {
        push(list, *request)?;
    }
    Ok(())
}

/// Whether all numbers are less than this one.
fn are_below(ascending: &BTreeMap<u32, Pending>, number: u32) -> bool
    ensures { result ≡ true → All (λ n. n < number) (keys ascending.now) }
{
    match ascending.last_key_value() {
        Some((last, _)) => *last < number,
        None => true,
    }
}

/// Puts a request under its number, which is above all others.
fn put_under(ascending: &mut BTreeMap<u32, Pending>, request: Pending) -> Result<(), NoMemory>
    requires { All (λ n. n < request.n) (keys ascending.old) }
    ensures ok { OnOk result (ascending.new.entries ≡ ascending.old.entries ++ (request.n, request) ∷ []) }
    ensures err { OnErr result (ascending.new.entries ≡ ascending.old.entries) }
{
    insert(ascending, request.n, request)?;
    Ok(())
}

/// Adds a request behind the others.
fn put_last(
    ascending: &mut BTreeMap<u32, Pending>,
    others: &mut Vec<Pending>,
    request: Pending,
) -> Result<(), NoMemory>
    requires { IsNumbered ascending.old.entries }
    ensures ok { OnOk result (values ascending.new ++ others.new.items ≡ (values ascending.old ++ others.old.items) ++ request ∷ []) }
    ensures err { OnErr result (values ascending.new ++ others.new.items ≡ values ascending.old ++ others.old.items) }
    ensures numbered { IsNumbered ascending.new.entries }
{
    if others.is_empty() && are_below(ascending, request.n) {
        put_under(ascending, request)
    } else {
        push(others, request)
    }
}

/// Takes the first request of this number out of a list.
fn take_pending(pending: &mut Vec<Pending>, number: u32) -> Pending
    requires { IsSome (pending_request number pending.old.items) }
    ensures request { pending_request number pending.old.items ≡ Some result }
    ensures others { pending.new.items ≡ without_pending number pending.old.items }
{
    let place = place_of(pending.as_slice(), number).unwrap();
    pending.remove(place)
}

/// Takes the first request of this number.
fn take_first(
    ascending: &mut BTreeMap<u32, Pending>,
    others: &mut Vec<Pending>,
    number: u32,
) -> Pending
    requires numbered { IsNumbered ascending.old.entries }
    requires there { IsSome (pending_request number (values ascending.old ++ others.old.items)) }
    ensures request { pending_request number (values ascending.old ++ others.old.items) ≡ Some result }
    ensures others { values ascending.new ++ others.new.items ≡ without_pending number (values ascending.old ++ others.old.items) }
    ensures numbered { IsNumbered ascending.new.entries }
{
    match ascending.remove(&number) {
        Some(request) => request,
        None => take_pending(others, number),
    }
}

/// How many links for answers lead to a process and know fewer moves of it.
fn count_behind(ascending: &BTreeMap<u32, Pending>, about: Pid, moves: u32) -> u32
    requires { btree_map_len ascending.now < 2 ^ 31 }
    ensures { result ≡ count_by (pending_is_behind about moves) (values ascending.now) }
{
    let mut behind = 0;
    for request in ascending.values() {
        if is_behind(request, about, moves) {
            behind += 1;
        }
    }
    behind
}

/// Tells the links for answers that a process is on machine `at` after so many moves.
fn retarget_values(ascending: &mut BTreeMap<u32, Pending>, about: Pid, at: u8, moves: u32)
    ensures { ascending.new.entries ≡ map (retargeted_entry about at moves) ascending.old.entries }
{
    ascending.retain(|_, request| {
        retarget_answer(request, about, at, moves);
        true
    });
}

/// Tells the links for answers that a process is on machine `at` after so many moves; how many changed.
fn retarget_both(
    ascending: &mut BTreeMap<u32, Pending>,
    others: &mut Vec<Pending>,
    about: Pid,
    at: u8,
    moves: u32,
) -> u32
    requires numbered { IsNumbered ascending.old.entries }
    requires few { length (values ascending.old ++ others.old.items) < 2 ^ 31 }
    ensures pending { values ascending.new ++ others.new.items ≡ map (retargeted_pending about at moves) (values ascending.old ++ others.old.items) }
    ensures changed { result ≡ count_by (pending_is_behind about moves) (values ascending.old ++ others.old.items) }
    ensures numbered { IsNumbered ascending.new.entries }
{
    let behind = count_behind(ascending, about, moves);
    retarget_values(ascending, about, at, moves);
    behind + retarget_pending(others.as_mut_slice(), about, at, moves)
}
