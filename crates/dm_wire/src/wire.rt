//! The wires of all pairs of machines.
ghost use Rattle.std.specs.Prelude.{IfNone, IfOk, IfSome, None, OnErr, OnOk, [], false, length, option_map, position, slice_index_or, true, vec_len, ◌*◌, ◌+◌, ◌<◌, ◌==◌, ◌^◌, ◌≡◌, ◌≤◌, ℕ};
ghost use Rattle.dm_wire.specs.Sent.{is_unseen};
ghost use Rattle.dm_records.specs.Machines.{has};
ghost use Rattle.dm_wire.specs.Wire.{StaysClosed, after_mark, packets_on};

use crate::packets::Packets;
use dm_link::MACHINES;
use dm_memory::{NoMemory, push};
use dm_records::Machines;
use std::alloc::Global;
use std::marker::Model;

/// All packets ever put on the wire from one machine to another, for each ordered pair of sixteen machines, with
/// a mark for each that was delivered. The pair from `a` to `b` stands at place `16 * a + b`; those past the end are empty.
#[derive(Drop)]
pub struct Wire {
    pairs: Vec<Packets>,
    /// The senders from which there may be a packet that isn't marked.
    senders: Machines,
    /// Of each sender, the receivers to which there may be a packet that isn't marked.
    pending: [Machines; MACHINES as usize],
    alloc: Global,
}

impl Model for Wire {
    ghost use Rattle.std.specs.Prelude.{List};
    ghost use Rattle.dm_wire.specs.Sent.{Sent};
    ghost use Rattle.dm_wire.specs.Wire.{AreNoted};

    ghost Value = { List (List Sent) };

    ghost view = { λ w. w.pairs.items };

    ghost invariant = { λ w. AreNoted w.senders w.pending w.pairs.items };
}

/// The place of a pair.
fn place(a: u8, b: u8) -> usize
    ensures { result ≡ 16 * a + b }
{
    MACHINES as usize * a as usize + b as usize
}

/// Makes room for `len` pairs. New ones are empty.
fn reach(pairs: &mut Vec<Packets>, alloc: Global, len: usize) -> Result<(), NoMemory>
    ensures ok { OnOk result (len ≤ vec_len pairs.new) }
    ensures same { (q : ℕ) → slice_index_or pairs.new.items q [] ≡ slice_index_or pairs.old.items q [] }
{
    while pairs.len() < len {
        push(pairs, Packets::new(alloc))?;
    }
    Ok(())
}

/// The least number from `a` to `b` that isn't marked.
#[tactic(auto, unfolding(crate::specs::Wire::packets_on))]
fn unseen(pairs: &[Packets], a: u8, b: u8) -> Option<u64>
    requires { (a < MACHINES) × (b < MACHINES) }
    ensures first { result ≡ position is_unseen (packets_on pairs.now a b) }
    ensures short { length (packets_on pairs.now a b) < 2 ^ 64 }
{
    match pairs.get(place(a, b)) {
        Some(packets) => packets.unseen(),
        None => None,
    }
}

/// Marks the packet with this number from `a` to `b`.
#[tactic(auto, unfolding(crate::specs::Wire::packets_on))]
fn mark(pairs: &mut Vec<Packets>, a: u8, b: u8, number: u64)
    requires { (a < MACHINES) × (b < MACHINES) × (number < length (packets_on pairs.old.items a b)) }
    ensures { (x y : ℕ) → packets_on pairs.new.items x y ≡ after_mark (packets_on pairs.old.items) a b number x y }
{
    pairs[place(a, b)].mark(number);
}

/// The senders, of whom `a` stays one exactly where it has such receivers.
fn still_open(senders: Machines, a: u8, receivers: Machines) -> Machines
    requires { a < MACHINES }
    ensures stays { (n : ℕ) → n < MACHINES → has result n ≡ false → StaysClosed senders a receivers n }
    ensures others { (n : ℕ) → n < MACHINES → (a == n) ≡ false → has result n ≡ has senders n }
    ensures open { (b : ℕ) → has receivers b ≡ true → has result a ≡ has senders a }
    ensures closed { ((b : ℕ) → has receivers b ≡ false) → has result a ≡ false }
{
    match receivers.first_from(0) {
        Some(_) => senders,
        None => senders.without(a),
    }
}

#[tactic(auto, unfolding(crate::specs::Wire::packets_on))]
impl Wire {
    ghost use Rattle.dm_wire.specs.Sent.{bytes_at, is_unseen};
    ghost use Rattle.dm_wire.specs.Wire.{after_mark, after_put, packets_on};

    /// Wires with nothing on them. It takes no memory.
    pub fn new(alloc: Global) -> Wire
        ensures { (a b : ℕ) → packets_on result a b ≡ [] }
    {
        Wire {
            pairs: Vec::new(alloc),
            senders: Machines::none(),
            pending: [Machines::none(); MACHINES as usize],
            alloc,
        }
    }

    /// Puts a packet on the wire from `a` to `b`, and tells its number.
    pub fn put(&mut self, a: u8, b: u8, bytes: &[u8]) -> Result<u64, NoMemory>
        requires { (a < MACHINES) × (b < MACHINES) }
        ensures ok { OnOk result ((x y : ℕ) → packets_on self.new x y ≡ after_put (packets_on self.old) a b bytes.now x y) }
        ensures number { IfOk result (λ k. k ≡ length (packets_on self.old a b)) }
        ensures err { OnErr result ((x y : ℕ) → packets_on self.new x y ≡ packets_on self.old x y) }
    {
        self.senders = self.senders.with(a);
        let row = &mut self.pending[usize::from(a)];
        *row = row.with(b);
        let place = place(a, b);
        reach(&mut self.pairs, self.alloc, place + 1)?;
        self.pairs[place].put(bytes)
    }

    /// How many packets were put on the wire from `a` to `b`.
    pub fn count(&self, a: u8, b: u8) -> u64
        requires { (a < MACHINES) × (b < MACHINES) }
        ensures { result ≡ length (packets_on self.now a b) }
    {
        match self.pairs.get(place(a, b)) {
            Some(packets) => packets.len(),
            None => 0,
        }
    }

    /// The bytes of the packet with this number on the wire from `a` to `b`.
    pub fn packet(&self, a: u8, b: u8, number: u64) -> Option<&[u8]>
        requires { (a < MACHINES) × (b < MACHINES) }
        ensures { option_map (λ s. s.now) result ≡ bytes_at (packets_on self.now a b) number }
    {
        match self.pairs.get(place(a, b)) {
            Some(packets) => packets.bytes(number),
            None => None,
        }
    }

    /// Marks the packet with this number on the wire from `a` to `b` as delivered.
    pub fn mark(&mut self, a: u8, b: u8, number: u64)
        requires { (a < MACHINES) × (b < MACHINES) × (number < length (packets_on self.old a b)) }
        ensures { (x y : ℕ) → packets_on self.new x y ≡ after_mark (packets_on self.old) a b number x y }
    {
        mark(&mut self.pairs, a, b, number);
        if unseen(&self.pairs, a, b).is_none() {
            let row = self.pending[usize::from(a)].without(b);
            self.pending[usize::from(a)] = row;
            self.senders = still_open(self.senders, a, row);
        }
    }

    /// The first machine from `from` on from which a packet may not be marked yet: from those before it, all are.
    pub fn first_sender(&self, from: u8) -> Option<u8>
        ensures none { IfNone result ((a b : ℕ) → from ≤ a → a < MACHINES → position is_unseen (packets_on self.now a b) ≡ None) }
        ensures some { IfSome result
            (λ k. (from ≤ k) × (k < MACHINES) × ((a b : ℕ) → from ≤ a → a < k → position is_unseen (packets_on self.now a b) ≡ None)) }
    {
        self.senders.first_from(from)
    }

    /// The first machine from `to` on to which a packet from `a` may not be marked yet: to those before it, all are.
    pub fn first_open(&self, a: u8, to: u8) -> Option<u8>
        requires { a < MACHINES }
        ensures none { IfNone result ((b : ℕ) → to ≤ b → position is_unseen (packets_on self.now a b) ≡ None) }
        ensures some { IfSome result (λ k. (to ≤ k) × ((b : ℕ) → to ≤ b → b < k → position is_unseen (packets_on self.now a b) ≡ None)) }
    {
        self.pending[usize::from(a)].first_from(to)
    }

    /// The least number on the wire from `a` to `b` that isn't marked. It looks at no packet that was delivered.
    pub fn unseen(&self, a: u8, b: u8) -> Option<u64>
        requires { (a < MACHINES) × (b < MACHINES) }
        ensures first { result ≡ position is_unseen (packets_on self.now a b) }
        ensures short { length (packets_on self.now a b) < 2 ^ 64 }
    {
        unseen(&self.pairs, a, b)
    }
}
