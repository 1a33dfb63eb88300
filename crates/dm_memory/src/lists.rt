//! Vectors.
ghost use Rattle.std.specs.Prelude.{◌≡◌, ◌+◌, ◌<◌, ◌≤◌, ◌++◌, ◌∷◌, [], IfErr, IfOk, IsOk, OnOk, if◌then◌else◌, is_ok, length, replicate, vec_capacity, vec_len};

use crate::NoMemory;
use std::alloc::Global;

/// Adds a value at the end. Where memory lacks the list stays, and the value is let go.
pub fn push<T: Drop>(list: &mut Vec<T>, item: T) -> Result<(), NoMemory>
    ensures items { list.new.items ≡ (if is_ok result then list.old.items ++ item ∷ [] else list.old.items) }
    ensures len { vec_len list.new ≡ (if is_ok result then vec_len list.old + 1 else vec_len list.old) }
    ensures capacity { vec_capacity list.old ≤ vec_capacity list.new }
    ensures succeeds { vec_len list.old < vec_capacity list.old → IsOk result }
{
    match list.push(item) {
        Ok(()) => Ok(()),
        Err(_) => Err(NoMemory(())),
    }
}

/// Adds a value at the end, or hands it back where memory lacks.
pub fn push_or_return<T>(list: &mut Vec<T>, item: T) -> Result<(), (T, NoMemory)>
    ensures items { list.new.items ≡ (if is_ok result then list.old.items ++ item ∷ [] else list.old.items) }
    ensures len { vec_len list.new ≡ (if is_ok result then vec_len list.old + 1 else vec_len list.old) }
    ensures capacity { vec_capacity list.old ≤ vec_capacity list.new }
    ensures succeeds { vec_len list.old < vec_capacity list.old → IsOk result }
    ensures returned { IfErr result (λ back. back.0 ≡ item) }
{
    match list.push(item) {
        Ok(()) => Ok(()),
        Err(failed) => Err((failed.value, NoMemory(()))),
    }
}

/// Makes room for one more value, this one.
pub fn reserve_for<T>(list: &mut Vec<T>, _item: &T) -> Result<(), NoMemory>
    ensures items { list.new.items ≡ list.old.items }
    ensures len { vec_len list.new ≡ vec_len list.old }
    ensures room { OnOk result (vec_len list.old < vec_capacity list.new) }
    ensures capacity { vec_capacity list.old ≤ vec_capacity list.new }
    ensures succeeds { vec_len list.old < vec_capacity list.old → IsOk result }
{
    match list.reserve(1) {
        Ok(()) => Ok(()),
        Err(_) => Err(NoMemory(())),
    }
}

/// Makes room for as many more values as stand in a slice; where there is none, besides for a quarter of those that are there, and for
/// `few` at least, which are 1,024 at most: of a list that only grows less stays empty so than where its room is doubled.
#[inline]
pub fn room_for<T>(list: &mut Vec<T>, more: &[T], few: usize) -> Result<(), NoMemory>
    requires { few ≤ 1024 }
    ensures items { list.new.items ≡ list.old.items }
    ensures len { vec_len list.new ≡ vec_len list.old }
    ensures room { OnOk result (vec_len list.old + length more.now ≤ vec_capacity list.new) }
    ensures capacity { vec_capacity list.old ≤ vec_capacity list.new }
    ensures succeeds { vec_len list.old + length more.now ≤ vec_capacity list.old → IsOk result }
{
    let len = list.len();
    let more = more.len();
    if more <= list.capacity() - len {
        return Ok(());
    }
    match list.reserve_exact(more.saturating_add(few.max(len / 4))) {
        Ok(()) => Ok(()),
        Err(_) => Err(NoMemory(())),
    }
}

/// Adds bytes at the end. Where memory lacks the list stays.
pub fn extend_from_slice(list: &mut Vec<u8>, bytes: &[u8]) -> Result<(), NoMemory>
    ensures items { list.new.items ≡ (if is_ok result then list.old.items ++ bytes.now else list.old.items) }
    ensures len { vec_len list.new ≡ (if is_ok result then vec_len list.old + length bytes.now else vec_len list.old) }
    ensures capacity { vec_capacity list.old ≤ vec_capacity list.new }
    ensures succeeds { vec_len list.old + length bytes.now ≤ vec_capacity list.old → IsOk result }
{
    match list.extend_from_slice(bytes) {
        Ok(()) => Ok(()),
        Err(_) => Err(NoMemory(())),
    }
}

/// Adds so many zeros at the end, at most 65,536. Where memory lacks the list stays.
pub fn append_zeros(list: &mut Vec<u8>, n: u32) -> Result<(), NoMemory>
    requires { n ≤ 65536 }
    ensures items { list.new.items ≡ (if is_ok result then list.old.items ++ replicate n 0 else list.old.items) }
    ensures len { vec_len list.new ≡ (if is_ok result then vec_len list.old + n else vec_len list.old) }
    ensures capacity { vec_capacity list.old ≤ vec_capacity list.new }
    ensures succeeds { vec_len list.old + n ≤ vec_capacity list.old → IsOk result }
{
    let len = list.len();
    match list.resize(len + n as usize, 0) {
        Ok(()) => Ok(()),
        Err(_) => Err(NoMemory(())),
    }
}

/// An empty list with room for so many values, at most 256.
pub fn with_room<T>(alloc: Global, n: usize) -> Result<Vec<T>, NoMemory>
    requires { n ≤ 256 }
    ensures items { IfOk result (λ list. list.items ≡ []) }
    ensures len { IfOk result (λ list. vec_len list ≡ 0) }
    ensures room { IfOk result (λ list. vec_capacity list ≡ n) }
{
    match Vec::with_capacity(alloc, n) {
        Ok(list) => Ok(list),
        Err(_) => Err(NoMemory(())),
    }
}

/// An empty list with room for as many values as stand in a slice.
pub fn with_room_for<T>(alloc: Global, values: &[T]) -> Result<Vec<T>, NoMemory>
    ensures items { IfOk result (λ list. list.items ≡ []) }
    ensures len { IfOk result (λ list. vec_len list ≡ 0) }
    ensures room { IfOk result (λ list. vec_capacity list ≡ length values.now) }
{
    match Vec::with_capacity(alloc, values.len()) {
        Ok(list) => Ok(list),
        Err(_) => Err(NoMemory(())),
    }
}

/// No bytes, with room for so many.
pub fn with_room_for_bytes(alloc: Global, n: u32) -> Result<Vec<u8>, NoMemory>
    ensures items { IfOk result (λ list. list.items ≡ []) }
    ensures len { IfOk result (λ list. vec_len list ≡ 0) }
    ensures room { IfOk result (λ list. vec_capacity list ≡ n) }
{
    match Vec::with_capacity(alloc, n as usize) {
        Ok(list) => Ok(list),
        Err(_) => Err(NoMemory(())),
    }
}

/// The bytes of a slice.
pub fn from_slice(alloc: Global, bytes: &[u8]) -> Result<Vec<u8>, NoMemory>
    ensures items { IfOk result (λ list. list.items ≡ bytes.now) }
    ensures len { IfOk result (λ list. vec_len list ≡ length bytes.now) }
{
    match Vec::from_slice(alloc, bytes) {
        Ok(list) => Ok(list),
        Err(_) => Err(NoMemory(())),
    }
}

/// So many zeros, at most 65,536.
pub fn zeros(alloc: Global, n: u32) -> Result<Vec<u8>, NoMemory>
    requires { n ≤ 65536 }
    ensures items { IfOk result (λ list. list.items ≡ replicate n 0) }
    ensures len { IfOk result (λ list. vec_len list ≡ n) }
{
    match Vec::from_elem(alloc, 0, n as usize) {
        Ok(list) => Ok(list),
        Err(_) => Err(NoMemory(())),
    }
}

/// The same value so many times, at most 256.
pub fn repeated<T: Copy>(alloc: Global, value: T, n: usize) -> Result<Vec<T>, NoMemory>
    requires { n ≤ 256 }
    ensures items { IfOk result (λ list. list.items ≡ replicate n value) }
    ensures len { IfOk result (λ list. vec_len list ≡ n) }
{
    match Vec::with_capacity(alloc, n) {
        Ok(mut list) => match list.resize(n, value) {
            Ok(()) => Ok(list),
            Err(_) => Err(NoMemory(())),
        },
        Err(_) => Err(NoMemory(())),
    }
}

/// These values, at most 16. Where memory lacks they are let go.
pub fn list_of<T: Drop, const N: usize>(alloc: Global, items: [T; N]) -> Result<Vec<T>, NoMemory>
    requires { N ≤ 16 }
    ensures items { IfOk result (λ list. list.items ≡ items) }
    ensures len { IfOk result (λ list. vec_len list ≡ N) }
{
    match Vec::from_array(alloc, items) {
        Ok(list) => Ok(list),
        Err(_) => Err(NoMemory(())),
    }
}
