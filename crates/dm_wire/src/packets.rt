//! The packets from one machine to another, in the order in which they were put.
ghost use Rattle.std.specs.Prelude.{IfOk, List, OnErr, OnOk, [], false, get_or, length, option_map, position, slice_range, true, ◌++◌, ◌<◌, ◌^◌, ◌∷◌, ◌≡◌, ◌≤◌, ℕ};
ghost use Rattle.dm_wire.specs.Bytes.{AreEnds, beginning};
ghost use Rattle.dm_wire.specs.Sent.{bytes_at, is_unseen, just_put, marked};

use dm_memory::{NoMemory, extend_from_slice, room_for};
use std::alloc::Global;
use std::marker::Model;

/// A wire has room for so many packets from its first one on, for their marks, and for their bytes.
const FEW: usize = 64;

const FEW_MARKS: usize = 256;

const FEW_BYTES: usize = 1024;

/// All packets that were put, in one piece of memory, and the number of the first that wasn't delivered.
#[derive(Drop)]
pub struct Packets {
    /// Of all packets, one behind another.
    bytes: Vec<u8>,
    /// Of each packet the place where its bytes end, and those of the next one begin.
    ends: Vec<usize>,
    /// Of each packet whether it was delivered.
    marks: Vec<bool>,
    first_unseen: usize,
}

impl Model for Packets {
    ghost use Rattle.std.specs.Prelude.{List};
    ghost use Rattle.dm_wire.specs.Bytes.{HoldPackets, packets_in};
    ghost use Rattle.dm_wire.specs.Sent.{Sent};

    ghost Value = { List Sent };

    ghost view = { λ p. packets_in p.bytes.items 0 p.ends.items p.marks.items };

    ghost invariant = { λ p. HoldPackets p.bytes.items p.ends.items p.marks.items p.first_unseen };
}

/// The number of the first packet from `from` on that wasn't delivered, or how many there are.
fn first_unseen(marks: &[bool], from: usize) -> usize
    requires { from ≤ length marks.now }
    ensures within { result ≤ length marks.now }
    ensures from { from ≤ result }
    ensures below { (k : ℕ) → from ≤ k → k < result → get_or marks.now k false ≡ true }
    ensures here { get_or marks.now result false ≡ false }
{
    let mut at = from;
    while at < marks.len() && marks[at] {
        at += 1;
    }
    at
}

/// The place where the bytes of the packet with this number begin.
fn beginning(ends: &[usize], number: usize) -> usize
    requires { number < length ends.now }
    ensures { result ≡ beginning 0 ends.now number }
{
    if number == 0 { 0 } else { ends[number - 1] }
}

/// The bytes of the packet with this number.
fn bytes_of<'a>(bytes: &'a [u8], ends: &[usize], number: usize) -> &'a [u8]
    requires within { number < length ends.now }
    requires ascend { AreEnds 0 ends.now (length bytes.now) }
    ensures { result.now ≡ slice_range bytes.now (beginning 0 ends.now number) (get_or ends.now number 0) }
{
    &bytes[beginning(ends, number)..ends[number]]
}

impl Packets {
    /// None yet.
    pub fn new(alloc: Global) -> Packets
        ensures { result ≡ [] }
    {
        Packets {
            bytes: Vec::new(alloc),
            ends: Vec::new(alloc),
            marks: Vec::new(alloc),
            first_unseen: 0,
        }
    }

    /// How many were put.
    pub fn len(&self) -> u64
        ensures { result ≡ length self.now }
    {
        self.ends.len() as u64
    }

    /// Puts one more packet, and tells its number.
    pub fn put(&mut self, bytes: &[u8]) -> Result<u64, NoMemory>
        ensures ok { OnOk result (self.new ≡ self.old ++ just_put bytes.now ∷ []) }
        ensures number { IfOk result (λ k. k ≡ length self.old) }
        ensures err { OnErr result (self.new ≡ self.old) }
    {
        let number = self.ends.len() as u64;
        room_for(&mut self.ends, &[0], FEW)?;
        room_for(&mut self.marks, &[false], FEW_MARKS)?;
        room_for(&mut self.bytes, bytes, FEW_BYTES)?;
        extend_from_slice(&mut self.bytes, bytes)?;
        self.ends.push_reserved(self.bytes.len());
        self.marks.push_reserved(false);
        Ok(number)
    }

    /// The bytes of the packet with this number.
    pub fn bytes(&self, number: u64) -> Option<&[u8]>
        ensures { option_map (λ s. s.now) result ≡ bytes_at self.now number }
    {
        let number = number as usize;
        if number < self.ends.len() {
            Some(bytes_of(&self.bytes, &self.ends, number))
        } else {
            None
        }
    }

    /// Marks the packet with this number as delivered.
    pub fn mark(&mut self, number: u64)
        requires { number < length self.old }
        ensures { self.new ≡ marked self.old number }
    {
        self.marks[number as usize] = true;
        self.first_unseen = first_unseen(&self.marks, self.first_unseen);
    }

    /// The least number that isn't marked.
    pub fn unseen(&self) -> Option<u64>
        ensures first { result ≡ position is_unseen self.now }
        ensures short { length self.now < 2 ^ 64 }
    {
        if self.first_unseen < self.ends.len() {
            Some(self.first_unseen as u64)
        } else {
            None
        }
    }
}
