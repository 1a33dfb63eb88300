//! The shelf of real files: what an open file tells of its bytes stands in the contract, and that the file of the name that was
//! asked for is opened. Which file the system has under a name stands in none.
ghost use Rattle.std.specs.Prelude.{◌≡◌, ◌<◌, ◌≤◌, ◌+◌, ◌==◌, ◌&&◌, length, ⊤, None, IfOk, OnOk, OnErr, IfSome};
ghost use Rattle.std.specs.Str.{bytes_eq};
ghost use Rattle.dm_outside.specs.Outside.{RoseOrFull, counted};
ghost use Rattle.dm_outside.specs.Real.{GoesOn, ReadsReal};

use crate::opens::Opens;
use crate::{Failed, Shelf};
use arrayvec::ArrayString;
use std::io::Read;
use std::marker::Model;

/// The most bytes of a file's name: no system opens a longer one.
const LONGEST_NAME: usize = 4096;

/// The files of the system, read one at a time from their first byte on. A read at byte 0 opens
/// the file; one that doesn't go on where the last one ended is a fault, and so is one of a name
/// of more than 4,096 bytes. No memory is taken. Of the system it holds nothing but that files are opened for reading.
#[derive(Drop)]
pub struct RealShelf<R: Opens> {
    rt: R,
    opened: Option<Opened<R::File>>,
    faults: u64,
}

/// An open file, and the place of its next byte.
#[derive(Drop)]
struct Opened<F> {
    name: ArrayString<LONGEST_NAME>,
    file: F,
    place: u64,
}

impl<F> Model for Opened<F> {
    ghost use Rattle.dm_outside.specs.Real.{OpenFile};

    ghost Value = { OpenFile F };

    ghost view = { λ o. record { name = o.name.bytes; file = o.file; place = o.place } };
}

impl<R: Opens> Model for RealShelf<R> {
    ghost use Rattle.dm_outside.specs.Real.{FilesState};

    ghost Value = { FilesState R R.File };

    ghost view = { λ s. record { rt = s.rt; opened = s.opened; faults = s.faults } };
}

impl<R: Opens> RealShelf<R> {
    /// A shelf with no file open and no faults.
    pub fn new(rt: R) -> Self
        ensures { result ≡ record { rt = rt; opened = None; faults = 0 } }
    {
        RealShelf {
            rt,
            opened: None,
            faults: 0,
        }
    }

    /// How many reads failed, up to the greatest u64.
    pub fn faults(&self) -> u64
        ensures { result ≡ self.now.faults }
    {
        self.faults
    }

    /// Opens a file at its first byte, in place of the one that was open; none is open where that fails.
    #[inline(never)]
    fn open(&mut self, name: &str)
        ensures opened { IfSome self.new.opened (λ o. R.named self.old.rt name.now o.file) }
        ensures system { self.new.rt ≡ self.old.rt }
        ensures faults { self.new.faults ≡ self.old.faults }
    {
        self.opened = open_file(&self.rt, name);
    }

    /// Closes the file behind a read that failed.
    #[inline(never)]
    fn close(&mut self)
        ensures closes { self.new.opened ≡ None }
        ensures system { self.new.rt ≡ self.old.rt }
        ensures one_more { self.new.faults ≡ counted self.old.faults }
        ensures counts { self.old.faults ≤ self.new.faults }
    {
        self.opened = None;
        self.faults = self.faults.saturating_add(1);
    }
}

impl<R: Opens> Shelf for RealShelf<R> {
    ghost use Rattle.std.specs.Prelude.{None, ⊤};

    ghost told = { λ _. None };

    ghost faults = { λ s. s.faults };

    // It keeps no record of names, nor of which call failed.
    ghost last_failed = { λ _. ⊤ };

    ghost asked = { λ _ _ _. ⊤ };

    ghost asks_nothing = { λ _ _. tt };

    ghost asks_on = { λ _ _ _ _ _ _. tt };

    fn read(&mut self, name: &str, from: u64, into: &mut [u8]) -> Result<usize, Failed>
        ensures within { IfOk result (λ n. n ≤ length into.old) }
        ensures failed { OnErr result (RoseOrFull self.old.faults self.new.faults) }
        ensures steady { OnOk result (self.new.faults ≡ self.old.faults) }
        ensures counts { self.old.faults ≤ self.new.faults }
        ensures one_more { OnErr result (self.new.faults ≡ counted self.old.faults) }
        ensures asks { ⊤ }
        ensures reads { IfOk result (λ n. ReadsReal R.File R.File.remaining (R.named self.old.rt) self.old.opened self.new.opened name.now from n into.new) }
        ensures closes { OnErr result (self.new.opened ≡ None) }
        ensures system { self.new.rt ≡ self.old.rt }
    {
        if from == 0 {
            self.open(name);
        }
        match read_on(&mut self.opened, name, from, into) {
            Some(n) => Ok(n),
            None => {
                self.close();
                Err(Failed)
            }
        }
    }
}

/// Opens a file at its first byte.
fn open_file<R: Opens>(rt: &R, name: &str) -> Option<Opened<R::File>>
    ensures named { IfSome result (λ o. o.name ≡ name.now) }
    ensures begins { IfSome result (λ o. o.place ≡ 0) }
    ensures opened { IfSome result (λ o. R.named rt.now name.now o.file) }
{
    Some(Opened {
        name: ArrayString::from(name).ok()?,
        file: rt.open_named(name)?,
        place: 0,
    })
}

/// Whether this is the open file of a name, and its next byte the one at `from`.
fn is_next<F>(opened: &Opened<F>, name: &str, from: u64) -> bool
    ensures { result ≡ (bytes_eq opened.now.name name.now && opened.now.place == from) }
{
    opened.name.as_str() == name && opened.place == from
}

/// Reads on in the open file, which stays where it is, if it is this one and its next byte is the one at `from`.
fn read_on<F: Read + Drop>(
    opened: &mut Option<Opened<F>>,
    name: &str,
    from: u64,
    into: &mut [u8],
) -> Option<usize>
    ensures within { IfSome result (λ n. n ≤ length into.old) }
    ensures goes_on { IfSome result (λ n. GoesOn F F.remaining opened.old opened.new name.now from n into.new) }
{
    let opened = opened.as_mut()?;
    if !is_next(opened, name, from) {
        return None;
    }
    let n = opened.file.read(into).ok()?;
    opened.place = from.checked_add(n as u64)?;
    Some(n)
}
