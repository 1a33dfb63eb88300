//! A queue of values that stand on the heap.
ghost use Rattle.std.specs.Prelude.{List, [], ◌∷◌, ◌++◌, ◌+◌, IfOk, MatchOption, OnErr, OnOk, length, remove, slice_get, vec_capacity, vec_len, ◌≡◌, ◌<◌};

use dm_memory::{NoMemory, Parcel, push_back, room_for_all};
use std::alloc::Global;
use std::collections::VecDeque;
use std::marker::Model;

/// Of more values than these it matters how they are moved.
const LONG: usize = 64;

/// A queue, its front first, whose values stand on the heap one by one: where one is taken from the middle, no more than
/// pointers move. Contracts see it as any other queue.
///
/// A long one is in two parts: where values are taken from far within a part, what stands before them goes into the first part,
/// and stays there, so that the next is taken from the front of the second part. It goes there once as many values were moved
/// within the parts as would be moved to the first, so no order of takings moves more than twice what a queue in one part would.
#[derive(Drop)]
pub struct Parcels<T> {
    before: VecDeque<Parcel<T>>,
    behind: VecDeque<Parcel<T>>,
    /// How many values were moved within the parts since the border between them was moved last.
    moved: usize,
}

impl<T> Model for Parcels<T> {
    ghost use Rattle.std.specs.Prelude.{List, ◌++◌};
    ghost use Rattle.std.specs.Coded.{coded_list};

    ghost Value = { List T };

    ghost coded = { coded_list T.code };

    ghost view = { λ l. l.before.items ++ l.behind.items };
}

impl<T> Parcels<T> {
    /// Nothing; it takes no memory.
    pub fn new(alloc: Global) -> Self
        ensures { result ≡ [] }
    {
        Parcels {
            before: VecDeque::new(alloc),
            behind: VecDeque::new(alloc),
            moved: 0,
        }
    }

    /// Adds a value at the back, or leaves the queue as it was.
    pub fn push(&mut self, item: Parcel<T>) -> Result<(), NoMemory>
    where
        T: Drop,
        ensures ok { OnOk result (self.new ≡ self.old ++ item ∷ []) }
        ensures err { OnErr result (self.new ≡ self.old) }
    {
        self.make_room();
        push_back(&mut self.behind, item)
    }

    /// Makes room in the first part for all that stands in the second one, where that is long; without it values are taken from
    /// the middle all the same, only more slowly.
    fn make_room(&mut self)
        ensures { self.new ≡ self.old }
    {
        let behind = self.behind.len();
        if behind >= LONG && self.before.capacity() - self.before.len() < behind {
            let _ = self.before.reserve(2 * behind);
        }
    }

    /// Takes the value at the front.
    pub fn pop(&mut self) -> Option<T>
        ensures { MatchOption result ((self.old ≡ []) × (self.new ≡ [])) (λ x. self.old ≡ x ∷ self.new) }
    {
        let first = match self.before.pop_front() {
            Some(parcel) => Some(parcel),
            None => self.behind.pop_front(),
        };
        match first {
            Some(parcel) => Some(parcel.into_inner()),
            None => None,
        }
    }

    /// Takes the value at a place.
    pub fn take(&mut self, place: usize) -> T
        requires { place < length self.old }
        ensures value { slice_get self.old place ≡ Some result }
        ensures rest { self.new ≡ remove self.old place }
    {
        let depth = self.depth(place);
        if depth > LONG && self.moved >= self.before.len().abs_diff(place) {
            self.go_to(place);
            self.moved = 0;
        } else {
            self.moved = self.moved.saturating_add(depth);
        }
        self.take_here(place).into_inner()
    }

    /// How many values move where the one at a place is taken from its part as the parts are.
    fn depth(&self, place: usize) -> usize {
        let before = self.before.len();
        let (at, len) = if place < before {
            (place, before)
        } else {
            (place - before, self.behind.len())
        };
        at.min(len.saturating_sub(at))
    }

    /// Moves what is between the parts' border and a place into the other part, as far as there is room.
    fn go_to(&mut self, place: usize)
        ensures { self.new ≡ self.old }
    {
        while place < self.before.len() && self.behind.len() < self.behind.capacity() {
            match self.before.pop_back() {
                Some(parcel) => self.behind.push_front_reserved(parcel),
                None => return,
            }
        }
        while self.before.len() < place && self.before.len() < self.before.capacity() {
            match self.behind.pop_front() {
                Some(parcel) => self.before.push_back_reserved(parcel),
                None => return,
            }
        }
    }

    /// Takes the value at a place from its part.
    fn take_here(&mut self, place: usize) -> Parcel<T>
        requires { place < length self.old }
        ensures value { slice_get self.old place ≡ Some result }
        ensures rest { self.new ≡ remove self.old place }
    {
        let before = self.before.len();
        if place < before {
            self.before.remove(place).unwrap()
        } else {
            self.behind.remove(place - before).unwrap()
        }
    }

    /// The value at a place.
    pub fn at(&self, place: usize) -> &T
        requires { place < length self.now }
        ensures { slice_get self.now place ≡ Some result.now }
    {
        let before = self.before.len();
        if place < before {
            self.before[place].get()
        } else {
            self.behind[place - before].get()
        }
    }

    /// An empty vector with room for all that stand here and for as many as `more` has.
    pub fn room_with(&self, alloc: Global, more: &Vec<T>) -> Result<Vec<T>, NoMemory>
        ensures items { IfOk result (λ list. list.items ≡ []) }
        ensures len { IfOk result (λ list. vec_len list ≡ 0) }
        ensures exact { IfOk result (λ list. vec_capacity list ≡ length self.now + vec_len more.now) }
    {
        room_for_all(alloc, &self.before, &self.behind, more)
    }

    /// How many there are.
    pub fn len(&self) -> usize
        ensures { result ≡ length self.now }
    {
        self.before.len() + self.behind.len()
    }
}
