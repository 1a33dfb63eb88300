//! The sink over a writer, as standard output is one: what the writer tells of its bytes stands in the contract.
ghost use Rattle.std.specs.Prelude.{◌≡◌, ◌<◌, ◌≤◌, length, take, IfOk, OnOk, OnErr};
ghost use Rattle.std.specs.Io.KnownBytes.{Appends, Keeps};
ghost use Rattle.dm_outside.specs.Outside.{RoseOrFull, counted};

use crate::{Failed, Sink};
use std::io::Write;
use std::marker::Model;

/// A writer. A write that takes nothing of a piece that isn't empty is a fault.
#[derive(Drop)]
pub struct RealSink<W> {
    to: W,
    faults: u64,
}

impl<W> Model for RealSink<W> {
    ghost use Rattle.dm_outside.specs.Real.{WriterState};

    ghost Value = { WriterState W };

    ghost view = { λ s. record { to = s.to; faults = s.faults } };
}

impl<W> RealSink<W> {
    /// A sink over this writer, with no faults.
    pub fn new(to: W) -> Self
        ensures { result ≡ record { to = to; faults = 0 } }
    {
        RealSink { to, faults: 0 }
    }

    /// How many writes failed, up to the greatest u64.
    pub fn faults(&self) -> u64
        ensures { result ≡ self.now.faults }
    {
        self.faults
    }
}

impl<W: Write> Sink for RealSink<W> {
    ghost use Rattle.std.specs.Prelude.{None, ⊤};

    ghost told = { λ _. None };

    ghost faults = { λ s. s.faults };

    // It keeps no record of it.
    ghost last_failed = { λ _. ⊤ };

    fn write(&mut self, from: &[u8]) -> Result<usize, Failed>
        ensures within { IfOk result (λ n. n ≤ length from.now) }
        ensures moves { IfOk result (λ n. 0 < length from.now → 0 < n) }
        ensures failed { OnErr result (RoseOrFull self.old.faults self.new.faults) }
        ensures steady { OnOk result (self.new.faults ≡ self.old.faults) }
        ensures counts { self.old.faults ≤ self.new.faults }
        ensures one_more { OnErr result (self.new.faults ≡ counted self.old.faults) }
        ensures appends { IfOk result (λ n. Appends (W.contents self.old.to) (W.contents self.new.to) (take n from.now)) }
        ensures keeps { OnErr result (Keeps (W.contents self.old.to) (W.contents self.new.to)) }
    {
        match write_some(&mut self.to, from) {
            Ok(n) => Ok(n),
            Err(Failed) => {
                self.faults = self.faults.saturating_add(1);
                Err(Failed)
            }
        }
    }
}

/// Lets a writer take the first bytes of a piece.
fn write_some<W: Write>(to: &mut W, from: &[u8]) -> Result<usize, Failed>
    ensures within { IfOk result (λ n. n ≤ length from.now) }
    ensures moves { IfOk result (λ n. 0 < length from.now → 0 < n) }
    ensures appends { IfOk result (λ n. Appends (W.contents to.old) (W.contents to.new) (take n from.now)) }
    ensures keeps { OnErr result (Keeps (W.contents to.old) (W.contents to.new)) }
{
    match to.write(from) {
        Ok(n) if n > 0 || from.is_empty() => Ok(n),
        _ => Err(Failed),
    }
}
