//! A list that grows at its back and shrinks at its front.
ghost use Rattle.std.specs.Prelude.{List, [], ◌∷◌, ◌++◌, ◌+◌, IfOk, MatchOption, OnErr, OnOk, length, remove, slice_get, vec_capacity, vec_len, ◌≡◌, ◌<◌};
ghost use Rattle.std.specs.Fn.{CalledAt};
ghost use Rattle.std.specs.List.Retain.{IsFiltered};

use dm_memory::{NoMemory, Parcel, push_back, push_front, room_for_both};
use std::alloc::Global;
use std::collections::VecDeque;
use std::marker::Model;

/// A queue, its front first.
#[derive(Drop)]
pub struct Queue<T> {
    items: VecDeque<T>,
}

impl<T> Model for Queue<T> {
    ghost use Rattle.std.specs.Prelude.{List};
    ghost use Rattle.std.specs.Coded.{coded_list};

    ghost Value = { List T };

    ghost coded = { coded_list T.code };

    ghost view = { λ q. q.items.items };
}

impl<T> Queue<T> {
    /// Nothing; it takes no memory.
    pub fn new(alloc: Global) -> Self
        ensures { result ≡ [] }
    {
        Queue {
            items: VecDeque::new(alloc),
        }
    }

    /// Adds a value at the back, or leaves the queue as it was.
    pub fn push(&mut self, item: T) -> Result<(), NoMemory>
    where
        T: Drop,
        ensures ok { OnOk result (self.new ≡ self.old ++ item ∷ []) }
        ensures err { OnErr result (self.new ≡ self.old) }
    {
        push_back(&mut self.items, item)
    }

    /// Puts a value before the front, or leaves the queue as it was.
    pub fn push_front(&mut self, item: T) -> Result<(), NoMemory>
    where
        T: Drop,
        ensures ok { OnOk result (self.new ≡ item ∷ self.old) }
        ensures err { OnErr result (self.new ≡ self.old) }
    {
        push_front(&mut self.items, item)
    }

    /// Takes the value at the front.
    pub fn pop(&mut self) -> Option<T>
        ensures { MatchOption result ((self.old ≡ []) × (self.new ≡ [])) (λ x. self.old ≡ x ∷ self.new) }
    {
        self.items.pop_front()
    }

    /// Takes the value at a place.
    pub fn take(&mut self, place: usize) -> T
        requires { place < length self.old }
        ensures value { slice_get self.old place ≡ Some result }
        ensures rest { self.new ≡ remove self.old place }
    {
        self.items.remove(place).unwrap()
    }

    /// Keeps those that pass the test, in their order. It takes no memory.
    pub fn retain<F: FnMut(&T) -> bool>(&mut self, keep: F)
    where
        T: Drop,
        requires { F.IsAlwaysCallable keep }
        ensures { IsFiltered (CalledAt F.FnMut) keep self.old self.new }
    {
        self.items.retain(keep);
    }

    /// Keeps those that pass the test, in their order, and behind them the value at a place. It takes no memory.
    pub fn retain_then<F: FnMut(&T) -> bool>(&mut self, keep: F, place: usize)
    where
        T: Drop,
        requires callable { F.IsAlwaysCallable keep }
        requires within { place < length self.old }
        ensures { (x : T) → slice_get self.old place ≡ Some x → (kept : List T) × IsFiltered (CalledAt F.FnMut) keep (remove self.old place) kept ×
            (self.new ≡ kept ++ x ∷ []) }
    {
        let last = self.items.remove(place).unwrap();
        self.items.retain(keep);
        self.items.push_back_reserved(last);
    }

    /// The value at a place.
    pub fn at(&self, place: usize) -> &T
        requires { place < length self.now }
        ensures { slice_get self.now place ≡ Some result.now }
    {
        &self.items[place]
    }

    /// An empty vector with room for all that stand here and for as many as `more` has.
    pub fn room_with(&self, alloc: Global, more: &Vec<T>) -> Result<Vec<T>, NoMemory>
        ensures items { IfOk result (λ list. list.items ≡ []) }
        ensures len { IfOk result (λ list. vec_len list ≡ 0) }
        ensures exact { IfOk result (λ list. vec_capacity list ≡ length self.now + vec_len more.now) }
    {
        room_for_both(alloc, &self.items, more)
    }

    /// How many there are.
    pub fn len(&self) -> usize
        ensures { result ≡ length self.now }
    {
        self.items.len()
    }
}

/// Puts values before those of a queue of values on the heap, in their order.
pub fn put_before<T: Drop>(
    alloc: Global,
    mut values: Vec<T>,
    queue: &mut Queue<Parcel<T>>,
) -> Result<(), NoMemory>
    ensures { OnOk result (queue.new ≡ values.items ++ queue.old) }
{
    while let Some(value) = values.pop() {
        let value = Parcel::new(alloc, value)?;
        queue.push_front(value)?;
    }
    Ok(())
}
