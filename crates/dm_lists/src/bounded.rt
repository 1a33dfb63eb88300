//! A list of at most so many values.
ghost use Rattle.std.specs.Prelude.{[], IfOk, ◌≡◌, ◌≤◌, length};
ghost use Rattle.arrayvec.specs.ArrayVec.{array_vec_len};

use dm_memory::{NoMemory, with_room_for};
use std::alloc::Global;
use std::marker::Model;
use std::ops::DerefSlice;

/// At most `MOST` values, in order, on the heap, in as much memory as they need: where there are none they take none. Contracts
/// see them as those of an `ArrayVec`.
#[derive(Drop)]
pub struct Bounded<T, const MOST: usize> {
    values: Vec<T>,
}

impl<T, const MOST: usize> Model for Bounded<T, MOST> {
    ghost use Rattle.std.specs.Prelude.{◌≤◌, length};
    ghost use Rattle.arrayvec.specs.ArrayVec.{ArrayVec, array_vec_code};

    ghost Value = { ArrayVec T };

    ghost coded = { array_vec_code T.code };

    ghost view = { λ b. record { items = b.values.items } };

    ghost invariant = { λ b. length b.values.items ≤ MOST };
}

impl<T, const MOST: usize> Bounded<T, MOST> {
    /// No values; it takes no memory.
    pub fn new(alloc: Global) -> Self
        ensures { result.items ≡ [] }
    {
        Bounded {
            values: Vec::new(alloc),
        }
    }

    /// These values.
    pub fn from_slice(alloc: Global, values: &[T]) -> Result<Self, NoMemory>
    where
        T: Copy,
        requires { length values.now ≤ MOST }
        ensures { IfOk result (λ list. list.items ≡ values.now) }
    {
        let mut list = with_room_for(alloc, values)?;
        list.extend_from_slice(values).unwrap();
        Ok(Bounded { values: list })
    }

    /// The same values.
    pub fn copied(&self, alloc: Global) -> Result<Self, NoMemory>
    where
        T: Copy,
        ensures { IfOk result (λ list. list ≡ self.now) }
    {
        Bounded::from_slice(alloc, self.as_slice())
    }

    /// How many there are.
    pub fn len(&self) -> usize
        ensures value { result ≡ array_vec_len self.now }
        ensures fits { result ≤ MOST }
    {
        self.values.len()
    }

    /// The values.
    pub fn as_slice(&self) -> &[T]
        ensures value { result.now ≡ self.now.items }
        ensures fits { length result.now ≤ MOST }
    {
        self.values.as_slice()
    }
}

impl<T, const MOST: usize> DerefSlice for Bounded<T, MOST> {
    type Elem = T;

    ghost use Rattle.std.specs.Prelude.{◌≡◌, ◌≤◌, length};

    ghost deref_gives = { λ list values. (values ≡ list.items) × (length values ≤ MOST) };

    fn deref(&self) -> &[T] {
        self.as_slice()
    }
}
