//! The outside of the program: a shelf of named files that it reads, and a sink of bytes that it
//! writes. Both count their faults, so that a status that blames the outside has its cause.
#![tactic(auto)]

ghost use Rattle.std.specs.Prelude.{◌≡◌, ◌<◌, ◌≤◌, ℕ, List, length, take, IfOk, OnOk, OnErr};
ghost use Rattle.std.specs.declared.option.Option.{Option};
ghost use Rattle.dm_outside.specs.Outside.{RoseOrFull, ReadsTold, appended};

mod limit;
pub mod mem_shelf;
pub mod mem_sink;
pub mod opens;
pub mod real_shelf;
pub mod real_sink;

pub use mem_shelf::MemShelf;
pub use mem_sink::MemSink;
pub use opens::Opens;
pub use real_shelf::RealShelf;
pub use real_sink::RealSink;

/// A read or a write that moved nothing, and was counted as a fault.
#[derive(Clone, Copy, Debug)]
pub struct Failed;

/// Named files that can be read from any place on.
///
/// `asked` says between which two states of a shelf only one name was asked for. A shelf that keeps no record of it
/// gives what always holds; a function over every shelf knows of it what `read` and the two laws say, and no more.
/// So it is with `last_failed`: a function that ends where it holds called nothing behind the call that failed.
pub trait Shelf {
    // The bytes of each file by its name, None for a missing one, where the shelf tells them.
    ghost told: { Self → Option (List ℕ → Option (List ℕ)) };

    // How many calls failed so far.
    ghost faults: { Self → ℕ };

    // The last call failed.
    ghost last_failed: { Self → Type 0 };

    // From the first state to the second no file was asked for but the one of this name.
    ghost asked: { Self → List ℕ → Self → Type 0 };

    /// Reads bytes of a file, from the byte at `from` on, and says how many. None are left
    /// where it says 0 and there was room.
    fn read(&mut self, name: &str, from: u64, into: &mut [u8]) -> Result<usize, Failed>
        ensures same { told self.new ≡ told self.old }
        ensures within { IfOk result (λ n. n ≤ length into.old) }
        ensures bytes { ReadsTold (told self.old) name.now from result into.new }
        ensures asks { asked self.old name.now self.new }
        ensures failed { OnErr result (RoseOrFull (faults self.old) (faults self.new)) }
        ensures last { OnErr result (last_failed self.new) }
        ensures steady { OnOk result (faults self.new ≡ faults self.old) }
        ensures counts { faults self.old ≤ faults self.new };

    // Where nothing happens nothing is asked for.
    ghost asks_nothing: { (s : Self) (name : List ℕ) → asked s name s };

    // What is asked for in turn.
    ghost asks_on: { (a b c : Self) (name : List ℕ) → asked a name b → asked b name c → asked a name c };
}

/// Where bytes go, one after the other. `last_failed` is as a shelf's.
pub trait Sink {
    // The bytes that it took so far, where the sink tells them.
    ghost told: { Self → Option (List ℕ) };

    // How many calls failed so far.
    ghost faults: { Self → ℕ };

    // The last call failed.
    ghost last_failed: { Self → Type 0 };

    /// Takes the first bytes of a piece, and says how many: at least one of a piece that isn't empty.
    fn write(&mut self, from: &[u8]) -> Result<usize, Failed>
        ensures within { IfOk result (λ n. n ≤ length from.now) }
        ensures takes { IfOk result (λ n. told self.new ≡ appended (told self.old) (take n from.now)) }
        ensures moves { IfOk result (λ n. 0 < length from.now → 0 < n) }
        ensures same { OnErr result (told self.new ≡ told self.old) }
        ensures failed { OnErr result (RoseOrFull (faults self.old) (faults self.new)) }
        ensures last { OnErr result (last_failed self.new) }
        ensures steady { OnOk result (faults self.new ≡ faults self.old) }
        ensures counts { faults self.old ≤ faults self.new };
}
