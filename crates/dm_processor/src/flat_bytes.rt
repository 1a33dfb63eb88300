//! A memory in one piece.
ghost use Rattle.std.specs.Prelude.{◌≡◌, ◌+◌, ◌-◌, ◌*◌, ◌≤◌, ◌++◌, IfOk, drop, length, replicate, take};

use crate::blocks::{BLOCK, MOST_BLOCKS};
use crate::storage::Cells;
use dm_memory::{NoMemory, zeros};
use std::alloc::Global;
use std::marker::Model;

/// A memory of at most 65,536 bytes, in one piece.
#[derive(Drop)]
pub struct Flat {
    bytes: Vec<u8>,
}

impl Model for Flat {
    ghost use Rattle.std.specs.Prelude.{List, ℕ, ◌≤◌, length};

    ghost Value = { List ℕ };

    ghost view = { λ m. m.bytes.items };

    ghost invariant = { λ m. length m.bytes.items ≤ 65536 };
}

impl Flat {
    /// An image, and zeros up to so many times 256 bytes: 0 to 256 times.
    pub fn from_image(alloc: Global, image: &[u8], blocks: u16) -> Result<Flat, NoMemory>
        requires most { blocks ≤ MOST_BLOCKS }
        requires fits { length image.now ≤ BLOCK * blocks }
        ensures ok { IfOk result (λ m. m ≡ image.now ++ replicate (BLOCK * blocks - length image.now) 0) }
    {
        let mut bytes = zeros(alloc, 256 * u32::from(blocks))?;
        write_at(&mut bytes, 0, image);
        Ok(Flat { bytes })
    }
}

impl Cells for Flat {
    ghost use Rattle.std.specs.Prelude.{ℕ};

    ghost bytes = { λ m. m };

    fn len(&self) -> u32 {
        self.bytes.len() as u32
    }

    fn byte(&self, at: u32) -> u8 {
        self.bytes[at as usize]
    }

    fn four_bytes(&self, at: u32) -> [u8; 4] {
        four_at(&self.bytes, at as usize)
    }

    fn set_byte(&mut self, at: u32, value: u8) {
        self.bytes[at as usize] = value;
    }

    fn copy_out(&self, at: u32, into: &mut [u8]) {
        let at = at as usize;
        into.copy_from_slice(&self.bytes[at..at + into.len()]);
    }

    fn copy_in(&mut self, at: u32, from: &[u8]) {
        write_at(&mut self.bytes, at as usize, from);
    }
}

/// The four bytes at a place.
#[tactic(auto, using(crate::proofs::Words::take_four))]
pub fn four_at(bytes: &[u8], at: usize) -> [u8; 4]
    requires { at + 4 ≤ length bytes.now }
    ensures { result ≡ take 4 (drop at bytes.now) }
{
    [bytes[at], bytes[at + 1], bytes[at + 2], bytes[at + 3]]
}

/// Copies all of a slice to a place in another.
pub fn write_at(bytes: &mut [u8], at: usize, from: &[u8])
    requires { at + length from.now ≤ length bytes.old }
    ensures { bytes.new ≡ take at bytes.old ++ from.now ++ drop (at + length from.now) bytes.old }
{
    bytes[at..at + from.len()].copy_from_slice(from);
}
