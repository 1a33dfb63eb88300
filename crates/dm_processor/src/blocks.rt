//! A memory of blocks.
ghost use Rattle.std.specs.Prelude.{◌≡◌, ◌+◌, ◌-◌, ◌*◌, ◌%◌, ◌<◌, ◌≤◌, ◌++◌, IfOk, drop, length, replicate, slice_index, slice_set, take};
ghost use Rattle.std.specs.List.{concat};
ghost use Rattle.dm_processor.specs.WholeBlocks.{AreWhole};

use crate::flat_bytes::{four_at, write_at};
use crate::storage::Cells;
use dm_memory::{NoMemory, repeated};
use std::alloc::Global;
use std::marker::Model;

/// How many bytes a block of memory has.
pub const BLOCK: usize = 256;

/// The most blocks that a memory has.
pub const MOST_BLOCKS: usize = 256;

/// The most bytes of a memory: 256 blocks.
pub const MOST_MEMORY: u32 = 65_536;

/// The memory of a process: 1 to 256 blocks of 256 bytes.
#[derive(Drop)]
pub struct Memory {
    blocks: Vec<[u8; 256]>,
}

impl Model for Memory {
    ghost use Rattle.std.specs.Prelude.{List, ℕ};

    ghost Value = { List ℕ };

    ghost use Rattle.std.specs.List.{concat};
    ghost use Rattle.dm_processor.specs.WholeBlocks.{IsMemory};

    ghost view = { λ m. concat m.blocks.items };

    ghost invariant = { λ m. IsMemory m.blocks.items };
}

/// The byte at a place in a list of blocks.
#[tactic(auto, using(crate::proofs::Concat::places))]
fn byte_at(blocks: &[[u8; 256]], at: usize) -> u8
    requires whole { AreWhole blocks.now }
    requires within { at < length (concat blocks.now) }
    ensures { result ≡ slice_index (concat blocks.now) at }
{
    blocks[at / BLOCK][at % BLOCK]
}

/// The four bytes at a place of a word in a list of blocks: they stand in one block.
#[tactic(auto, using(crate::proofs::Concat::places, crate::proofs::Concat::four_concat))]
fn four_in(blocks: &[[u8; 256]], at: usize) -> [u8; 4]
    requires whole { AreWhole blocks.now }
    requires within { at + 4 ≤ length (concat blocks.now) }
    requires aligned { at % 4 ≡ 0 }
    ensures { result ≡ take 4 (drop at (concat blocks.now)) }
{
    four_at(&blocks[at / BLOCK], at % BLOCK)
}

/// Changes the byte at a place in a list of blocks.
#[tactic(auto, using(crate::proofs::Concat::places))]
fn set_byte_at(blocks: &mut [[u8; 256]], at: usize, value: u8)
    requires whole { AreWhole blocks.old }
    requires within { at < length (concat blocks.old) }
    ensures bytes { concat blocks.new ≡ slice_set (concat blocks.old) at value }
    ensures whole { AreWhole blocks.new }
{
    blocks[at / BLOCK][at % BLOCK] = value;
}

/// The rest of a block from a place in a list of blocks on.
#[tactic(auto, using(crate::proofs::Concat::places))]
fn rest_at(blocks: &[[u8; 256]], at: usize) -> &[u8]
    requires whole { AreWhole blocks.now }
    requires within { at < length (concat blocks.now) }
    ensures len { length result.now ≡ BLOCK - at % BLOCK }
    ensures bytes { result.now ≡ take (BLOCK - at % BLOCK) (drop at (concat blocks.now)) }
{
    &blocks[at / BLOCK][at % BLOCK..]
}

/// Copies as much of a slice as its block has room for to a place in a list of blocks, and says how much.
#[tactic(auto, using(crate::proofs::Concat::places))]
fn write_part(blocks: &mut [[u8; 256]], at: usize, from: &[u8]) -> usize
    requires whole { AreWhole blocks.old }
    requires within { at + length from.now ≤ length (concat blocks.old) }
    requires some { 0 < length from.now }
    ensures some { 0 < result }
    ensures part { result ≤ length from.now }
    ensures bytes { concat blocks.new ≡ take at (concat blocks.old) ++ take result from.now ++ drop (at + result) (concat blocks.old) }
    ensures whole { AreWhole blocks.new }
{
    let n = from.len().min(BLOCK - at % BLOCK);
    write_at(&mut blocks[at / BLOCK], at % BLOCK, &from[..n]);
    n
}

/// A block of a list of blocks.
#[tactic(auto, using(crate::proofs::Concat::places))]
fn block_at(blocks: &[[u8; 256]], k: usize) -> &[u8; 256]
    requires whole { AreWhole blocks.now }
    requires within { k < length blocks.now }
    ensures { result.now ≡ take BLOCK (drop (BLOCK * k) (concat blocks.now)) }
{
    &blocks[k]
}

/// Changes a block of a list of blocks.
#[tactic(auto, using(crate::proofs::Concat::places))]
fn put_block_at(blocks: &mut [[u8; 256]], k: usize, block: &[u8; 256])
    requires whole { AreWhole blocks.old }
    requires within { k < length blocks.old }
    ensures bytes { concat blocks.new ≡ take (BLOCK * k) (concat blocks.old) ++ block.now ++ drop (BLOCK * k + BLOCK) (concat blocks.old) }
    ensures whole { AreWhole blocks.new }
{
    blocks[k] = *block;
}

#[tactic(auto, using(crate::proofs::Concat::places))]
impl Memory {
    /// An image, and zeros up to the end of so many blocks.
    pub fn from_image(alloc: Global, image: &[u8], blocks: u16) -> Result<Memory, NoMemory>
        requires least { 1 ≤ blocks }
        requires most { blocks ≤ MOST_BLOCKS }
        requires fits { length image.now ≤ BLOCK * blocks }
        ensures ok { IfOk result (λ m. m ≡ image.now ++ replicate (BLOCK * blocks - length image.now) 0) }
    {
        let mut memory = zeros(alloc, blocks)?;
        memory.copy_in(0, image);
        Ok(memory)
    }

    /// How many blocks there are: 1 to 256.
    pub fn blocks(&self) -> u16
        ensures all { BLOCK * result ≡ length self.now }
        ensures least { 1 ≤ result }
        ensures most { result ≤ MOST_BLOCKS }
    {
        self.blocks.len() as u16
    }

    /// A block, by its number from 0.
    pub fn block(&self, k: u8) -> &[u8; 256]
        requires { BLOCK * k < length self.now }
        ensures { result.now ≡ take BLOCK (drop (BLOCK * k) self.now) }
    {
        block_at(&self.blocks, usize::from(k))
    }

    /// Changes a block.
    pub fn put_block(&mut self, k: u8, block: &[u8; 256])
        requires { BLOCK * k < length self.old }
        ensures { self.new ≡ take (BLOCK * k) self.old ++ block.now ++ drop (BLOCK * k + BLOCK) self.old }
    {
        put_block_at(&mut self.blocks, usize::from(k), block);
    }
}

/// A memory of zeros.
#[tactic(auto, using(crate::proofs::Concat::places))]
fn zeros(alloc: Global, blocks: u16) -> Result<Memory, NoMemory>
    requires least { 1 ≤ blocks }
    requires most { blocks ≤ MOST_BLOCKS }
    ensures ok { IfOk result (λ m. m ≡ replicate (BLOCK * blocks) 0) }
{
    let blocks = repeated(alloc, [0; 256], usize::from(blocks))?;
    Ok(Memory { blocks })
}

impl Cells for Memory {
    ghost use Rattle.std.specs.Prelude.{ℕ};

    ghost bytes = { λ m. m };

    fn len(&self) -> u32 {
        256 * u32::from(self.blocks())
    }

    fn byte(&self, at: u32) -> u8 {
        byte_at(&self.blocks, at as usize)
    }

    fn four_bytes(&self, at: u32) -> [u8; 4] {
        four_in(&self.blocks, at as usize)
    }

    fn set_byte(&mut self, at: u32, value: u8) {
        set_byte_at(&mut self.blocks, at as usize, value);
    }

    fn copy_out(&self, at: u32, into: &mut [u8]) {
        read_at(&self.blocks, at as usize, into);
    }

    fn copy_in(&mut self, at: u32, from: &[u8]) {
        write_all_at(&mut self.blocks, at as usize, from);
    }
}

/// Fills a slice with the bytes from a place in a list of blocks on.
fn read_at(blocks: &[[u8; 256]], at: usize, into: &mut [u8])
    requires whole { AreWhole blocks.now }
    requires few { length blocks.now ≤ MOST_BLOCKS }
    requires within { at + length into.old ≤ length (concat blocks.now) }
    ensures { into.new ≡ take (length into.old) (drop at (concat blocks.now)) }
{
    let mut done = 0;
    while done < into.len() {
        let rest = rest_at(blocks, at + done);
        let n = rest.len().min(into.len() - done);
        write_at(into, done, &rest[..n]);
        done += n;
    }
}

/// Copies all of a slice to a place in a list of blocks.
fn write_all_at(blocks: &mut [[u8; 256]], at: usize, from: &[u8])
    requires whole { AreWhole blocks.old }
    requires few { length blocks.old ≤ MOST_BLOCKS }
    requires within { at + length from.now ≤ length (concat blocks.old) }
    ensures bytes { concat blocks.new ≡ take at (concat blocks.old) ++ from.now ++ drop (at + length from.now) (concat blocks.old) }
    ensures whole { AreWhole blocks.new }
{
    let mut done = 0;
    while done < from.len() {
        done += write_part(blocks, at + done, &from[done..]);
    }
}
