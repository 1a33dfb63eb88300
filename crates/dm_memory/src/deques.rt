//! Lists that grow at both ends.
ghost use Rattle.std.specs.Prelude.{◌≡◌, ◌+◌, ◌<◌, ◌≤◌, ◌++◌, ◌∷◌, [], IfErr, IfOk, IsOk, if◌then◌else◌, is_ok, length, vec_capacity, vec_len};
ghost use Rattle.std.specs.VecDeque.{deque_capacity, deque_len};

use crate::{NoMemory, Parcel};
use std::alloc::Global;
use std::collections::VecDeque;

/// Adds a value at the back. Where memory lacks the list stays, and the value is let go.
pub fn push_back<T: Drop>(list: &mut VecDeque<T>, item: T) -> Result<(), NoMemory>
    ensures items { list.new.items ≡ (if is_ok result then list.old.items ++ item ∷ [] else list.old.items) }
    ensures capacity { deque_capacity list.old ≤ deque_capacity list.new }
    ensures succeeds { deque_len list.old < deque_capacity list.old → IsOk result }
{
    match list.push_back(item) {
        Ok(()) => Ok(()),
        Err(_) => Err(NoMemory(())),
    }
}

/// Adds a value at the back, or hands it back where memory lacks.
pub fn push_back_or_return<T>(list: &mut VecDeque<T>, item: T) -> Result<(), (T, NoMemory)>
    ensures items { list.new.items ≡ (if is_ok result then list.old.items ++ item ∷ [] else list.old.items) }
    ensures capacity { deque_capacity list.old ≤ deque_capacity list.new }
    ensures succeeds { deque_len list.old < deque_capacity list.old → IsOk result }
    ensures returned { IfErr result (λ back. back.0 ≡ item) }
{
    match list.push_back(item) {
        Ok(()) => Ok(()),
        Err(failed) => Err((failed.value, NoMemory(()))),
    }
}

/// Puts a value before the front. Where memory lacks the list stays, and the value is let go.
pub fn push_front<T: Drop>(list: &mut VecDeque<T>, item: T) -> Result<(), NoMemory>
    ensures items { list.new.items ≡ (if is_ok result then item ∷ list.old.items else list.old.items) }
    ensures capacity { deque_capacity list.old ≤ deque_capacity list.new }
    ensures succeeds { deque_len list.old < deque_capacity list.old → IsOk result }
{
    match list.push_front(item) {
        Ok(()) => Ok(()),
        Err(_) => Err(NoMemory(())),
    }
}

/// An empty list with room for as many values as these two have together.
pub fn room_for_both<T>(
    alloc: Global,
    front: &VecDeque<T>,
    back: &Vec<T>,
) -> Result<Vec<T>, NoMemory>
    ensures items { IfOk result (λ list. list.items ≡ []) }
    ensures len { IfOk result (λ list. vec_len list ≡ 0) }
    ensures exact { IfOk result (λ list. vec_capacity list ≡ length front.now.items + vec_len back.now) }
{
    match Vec::with_capacity(alloc, front.len() + back.len()) {
        Ok(list) => Ok(list),
        Err(_) => Err(NoMemory(())),
    }
}

/// An empty list with room for as many values as stand in these three together.
pub fn room_for_all<T>(
    alloc: Global,
    front: &VecDeque<Parcel<T>>,
    middle: &VecDeque<Parcel<T>>,
    back: &Vec<T>,
) -> Result<Vec<T>, NoMemory>
    ensures items { IfOk result (λ list. list.items ≡ []) }
    ensures len { IfOk result (λ list. vec_len list ≡ 0) }
    ensures exact { IfOk result (λ list. vec_capacity list ≡ length front.now.items + length middle.now.items + vec_len back.now) }
{
    let parcels = front.len() + middle.len();
    match Vec::with_capacity(alloc, parcels.saturating_add(back.len())) {
        Ok(list) => Ok(list),
        Err(_) => Err(NoMemory(())),
    }
}
