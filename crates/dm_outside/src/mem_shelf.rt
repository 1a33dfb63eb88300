//! A shelf in memory, for tests.
ghost use Rattle.std.specs.Prelude.{◌≡◌, ◌≤◌, ◌<◌, ◌-◌, length, take, drop, min, IfOk, OnOk, OnErr, ⊤, IsTrue, Some, None, is_err, Option};
ghost use Rattle.std.specs.Result.{result_ok};
ghost use Rattle.std.specs.Option.{option_copied};
ghost use Rattle.dm_outside.specs.Outside.{RoseOrFull, ReadsTold};
ghost use Rattle.dm_outside.specs.Memory.{entries, file_named, names_differ, within_limit, read_count, after_read};

use crate::limit::{is_to_fail, within};
use crate::{Failed, Shelf};
use std::marker::Model;

/// Files in memory. A read fails exactly at a listed call, counted from 1, or for a missing file.
#[derive(Drop)]
pub struct MemShelf {
    files: Vec<(String, Vec<u8>)>,
    fails: Vec<u64>,
    limit: Option<usize>,
    calls: u64,
    faults: u64,
}

impl Model for MemShelf {
    ghost use Rattle.dm_outside.specs.Memory.{ShelfState, entries, LetsPass};

    ghost Value = { ShelfState };

    ghost view = { λ s. record { files = entries s.files.items; fails = s.fails.items; limit = s.limit; calls = s.calls; faults = s.faults } };

    ghost invariant = { λ s. LetsPass s.limit };
}

impl MemShelf {
    /// A shelf of these files, whose names differ, with the numbers of the calls that are to fail.
    pub fn new(files: Vec<(String, Vec<u8>)>, fails: Vec<u64>) -> Self
        requires { IsTrue (names_differ (entries files.items)) }
        ensures { result ≡ record { files = entries files.items; fails = fails.items; limit = None; calls = 0; faults = 0 } }
    {
        MemShelf {
            files,
            fails,
            limit: None,
            calls: 0,
            faults: 0,
        }
    }

    /// Lets each later read move at most `n` bytes.
    pub fn cut(&mut self, n: usize)
        requires { 0 < n }
        ensures { self.new ≡ record self.old { limit = Some n } }
    {
        self.limit = Some(n);
    }

    /// How many reads were made.
    pub fn calls(&self) -> u64
        ensures { result ≡ self.now.calls }
    {
        self.calls
    }

    /// How many reads failed.
    pub fn faults(&self) -> u64
        ensures { result ≡ self.now.faults }
    {
        self.faults
    }
}

impl Shelf for MemShelf {
    ghost use Rattle.std.specs.Prelude.{Some, ⊤};
    ghost use Rattle.dm_outside.specs.Memory.{file_named};

    ghost told = { λ s. Some (file_named s.files) };

    ghost faults = { λ s. s.faults };

    // It keeps no record of names, nor of which call failed.
    ghost last_failed = { λ _. ⊤ };

    ghost asked = { λ _ _ _. ⊤ };

    ghost asks_nothing = { λ _ _. tt };

    ghost asks_on = { λ _ _ _ _ _ _. tt };

    fn read(&mut self, name: &str, from: u64, into: &mut [u8]) -> Result<usize, Failed>
        ensures same { Some (file_named self.new.files) ≡ Some (file_named self.old.files) }
        ensures within { IfOk result (λ n. n ≤ length into.old) }
        ensures bytes { ReadsTold (Some (file_named self.old.files)) name.now from result into.new }
        ensures failed { OnErr result (RoseOrFull self.old.faults self.new.faults) }
        ensures asks { ⊤ }
        ensures steady { OnOk result (self.new.faults ≡ self.old.faults) }
        ensures counts { self.old.faults ≤ self.new.faults }
        ensures count { result_ok result ≡ read_count self.old name.now from (length into.old) }
        ensures after { self.new ≡ after_read self.old (is_err result) }
        ensures beyond { IfOk result (λ n. drop n into.new ≡ drop n into.old) }
        ensures untouched { OnErr result (into.new ≡ into.old) }
    {
        self.calls = self.calls.saturating_add(1);
        let found = if is_to_fail(&self.fails, self.calls) {
            None
        } else {
            find(&self.files, name)
        };
        match found {
            Some(bytes) => Ok(copy_from(bytes, from, self.limit, into)),
            None => {
                self.faults = self.faults.saturating_add(1);
                Err(Failed)
            }
        }
    }
}

/// The bytes of the first file of this name.
fn find<'a>(files: &'a [(String, Vec<u8>)], name: &str) -> Option<&'a [u8]>
    ensures { option_copied result ≡ file_named (entries files.now) name.now }
{
    for (key, bytes) in files {
        if key.as_str() == name {
            return Some(bytes.as_slice());
        }
    }
    None
}

/// Copies bytes from a place on, as many as there are, as there is room for and as the limit lets.
fn copy_from(bytes: &[u8], from: u64, limit: Option<usize>, into: &mut [u8]) -> usize
    ensures count { result ≡ within_limit limit (min (length bytes.now - from) (length into.old)) }
    ensures copied { take result into.new ≡ take result (drop from bytes.now) }
    ensures beyond { drop result into.new ≡ drop result into.old }
{
    let rest = rest_from(bytes, from);
    let n = within(limit, rest.len().min(into.len()));
    into[..n].copy_from_slice(&rest[..n]);
    n
}

/// The bytes from a place on, none where that is past the end.
fn rest_from(bytes: &[u8], from: u64) -> &[u8]
    ensures { result.now ≡ drop from bytes.now }
{
    if from < bytes.len() as u64 {
        &bytes[from as usize..]
    } else {
        &[]
    }
}
