//! A value on the heap.
ghost use Rattle.std.specs.Prelude.{◌≡◌, IfErr, IfOk};

use crate::NoMemory;
use std::alloc::Global;
use std::marker::Model;

/// A value on the heap, which contracts see as the value itself: handing it on moves no more than a pointer.
#[derive(Drop)]
pub struct Parcel<T> {
    value: Box<T>,
}

impl<T> Model for Parcel<T> {
    ghost Value = { T };

    ghost coded = { T.code };

    ghost view = { λ p. p.value.value };
}

impl<T> Parcel<T> {
    ghost use Rattle.std.specs.Borrow.{Lends, sem};
    ghost use Rattle.dm_memory.specs.contracts.parcel.Parcel.{the_row};

    /// Puts a value on the heap.
    pub fn new(alloc: Global, value: T) -> Result<Self, NoMemory>
    where
        T: Drop,
        ensures { IfOk result (λ parcel. parcel ≡ value) }
    {
        match Box::new(alloc, value) {
            Ok(value) => Ok(Parcel { value }),
            Err(_) => Err(NoMemory(())),
        }
    }

    /// Puts a value on the heap, or hands it back.
    pub fn new_or_return(alloc: Global, value: T) -> Result<Self, (T, NoMemory)>
        ensures ok { IfOk result (λ parcel. parcel ≡ value) }
        ensures returned { IfErr result (λ back. back.0 ≡ value) }
    {
        match Box::new(alloc, value) {
            Ok(value) => Ok(Parcel { value }),
            Err(failed) => Err((failed.value, NoMemory(()))),
        }
    }

    /// The value where it is.
    pub fn get(&self) -> &T
        ensures { result.now ≡ self.now }
    {
        &self.value
    }

    /// The value where it is, for writing.
    pub fn get_mut(&mut self) -> &mut T
        ensures* writes_back { sem 𝓛 (Lends (the_row T.row) T.row self.entry result (λ w. w)) }
        ensures value { result.now ≡ self.old }
    {
        self.value.as_mut()
    }

    /// The value, taken off the heap.
    pub fn into_inner(self) -> T
        ensures { result ≡ self }
    {
        let Parcel { value } = self;
        Box::into_inner(value)
    }
}
