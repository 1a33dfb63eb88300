//! A sink in memory, for tests.
ghost use Rattle.std.specs.Prelude.{◌≡◌, ◌≤◌, ◌<◌, ◌++◌, [], length, take, IfOk, OnOk, OnErr, Some, None, vec_capacity, vec_len};
ghost use Rattle.std.specs.Result.{result_ok};
ghost use Rattle.dm_outside.specs.Outside.{RoseOrFull};
ghost use Rattle.dm_outside.specs.Memory.{write_count, after_write};

use crate::limit::{has_no_room, is_to_fail, within};
use crate::{Failed, Sink};
use std::marker::Model;

/// Bytes in memory. A write fails exactly at a listed call, counted from 1, or, with a piece that
/// isn't empty, where the room is full.
#[derive(Drop)]
pub struct MemSink {
    bytes: Vec<u8>,
    room: usize,
    fails: Vec<u64>,
    limit: Option<usize>,
    calls: u64,
    faults: u64,
}

impl Model for MemSink {
    ghost use Rattle.std.specs.Prelude.{◌≤◌, vec_len, vec_capacity};
    ghost use Rattle.dm_outside.specs.Memory.{SinkState, LetsPass};

    ghost Value = { SinkState };

    ghost view = { λ s. record { bytes = s.bytes.items; room = s.room; fails = s.fails.items; limit = s.limit; calls = s.calls; faults = s.faults } };

    ghost invariant = { λ s. LetsPass s.limit × (vec_len s.bytes ≤ s.room) × (s.room ≤ vec_capacity s.bytes) };
}

impl MemSink {
    /// An empty sink with the room of an empty vector, and the numbers of the calls that are to fail.
    pub fn new(bytes: Vec<u8>, fails: Vec<u64>) -> Self
        requires { vec_len bytes ≡ 0 }
        ensures { result ≡ record { bytes = []; room = vec_capacity bytes; fails = fails.items; limit = None; calls = 0; faults = 0 } }
    {
        MemSink {
            room: bytes.capacity(),
            bytes,
            fails,
            limit: None,
            calls: 0,
            faults: 0,
        }
    }

    /// Lets each later write take at most `n` bytes.
    pub fn cut(&mut self, n: usize)
        requires { 0 < n }
        ensures { self.new ≡ record self.old { limit = Some n } }
    {
        self.limit = Some(n);
    }

    /// The bytes that were taken.
    pub fn bytes(&self) -> &[u8]
        ensures { result.now ≡ self.now.bytes }
    {
        self.bytes.as_slice()
    }

    /// How many writes were made.
    pub fn calls(&self) -> u64
        ensures { result ≡ self.now.calls }
    {
        self.calls
    }

    /// How many writes failed.
    pub fn faults(&self) -> u64
        ensures { result ≡ self.now.faults }
    {
        self.faults
    }
}

impl Sink for MemSink {
    ghost use Rattle.std.specs.Prelude.{Some, ⊤};

    ghost told = { λ s. Some s.bytes };

    ghost faults = { λ s. s.faults };

    // It keeps no record of it.
    ghost last_failed = { λ _. ⊤ };

    fn write(&mut self, from: &[u8]) -> Result<usize, Failed>
        ensures within { IfOk result (λ n. n ≤ length from.now) }
        ensures takes { IfOk result (λ n. Some self.new.bytes ≡ Some (self.old.bytes ++ take n from.now)) }
        ensures moves { IfOk result (λ n. 0 < length from.now → 0 < n) }
        ensures same { OnErr result (Some self.new.bytes ≡ Some self.old.bytes) }
        ensures failed { OnErr result (RoseOrFull self.old.faults self.new.faults) }
        ensures steady { OnOk result (self.new.faults ≡ self.old.faults) }
        ensures counts { self.old.faults ≤ self.new.faults }
        ensures count { result_ok result ≡ write_count self.old (length from.now) }
        ensures after { self.new ≡ after_write self.old (result_ok result) from.now }
    {
        self.calls = self.calls.saturating_add(1);
        let free = self.room - self.bytes.len();
        if is_to_fail(&self.fails, self.calls) || has_no_room(free, from) {
            self.faults = self.faults.saturating_add(1);
            return Err(Failed);
        }
        let n = within(self.limit, free.min(from.len()));
        self.bytes.extend_from_slice(&from[..n]).unwrap();
        Ok(n)
    }
}
