//! Slots and blocks, given once, reserved and released.
ghost use Rattle.std.specs.Prelude.{IfErr, IsOk, OnErr, OnOk, ◌<◌, ◌≡◌, ◌↔◌, ◌⊎◌};

use std::marker::Model;
use thiserror::Error;

/// Why there was no room: what is free instead.
#[derive(Clone, Copy, Debug, Error)]
#[error("{free_slots} slots and {free_blocks} blocks are free")]
pub struct Lacks {
    /// Slots that are free.
    pub free_slots: u8,
    /// Blocks of 256 bytes that are free.
    pub free_blocks: u16,
}

/// The slots and blocks of one machine. It takes no memory.
#[derive(Drop)]
pub struct Room {
    slots: u8,
    blocks: u16,
    taken_slots: u8,
    taken_blocks: u16,
}

impl Model for Room {
    ghost use Rattle.dm_room.specs.Room.{IsWithin, Taken};

    ghost Value = { Taken };

    ghost view = { λ r. record { slots = r.slots; blocks = r.blocks; taken_slots = r.taken_slots; taken_blocks = r.taken_blocks } };

    ghost invariant = { λ r. IsWithin (record { slots = r.slots; blocks = r.blocks; taken_slots = r.taken_slots; taken_blocks = r.taken_blocks }) };
}

impl Room {
    ghost use Rattle.dm_room.specs.Room.{HasRoom, HasTaken, free_blocks, free_slots, lack, nothing_taken, with_released, with_reserved};

    /// Room for `slots` processes, with `blocks` blocks among them, all free.
    pub fn new(slots: u8, blocks: u16) -> Room
        ensures { result ≡ nothing_taken slots blocks }
    {
        Room {
            slots,
            blocks,
            taken_slots: 0,
            taken_blocks: 0,
        }
    }

    /// The slots and the blocks that are free.
    pub fn free(&self) -> (u8, u16)
        ensures slots { result.0 ≡ free_slots self.now }
        ensures blocks { result.1 ≡ free_blocks self.now }
    {
        (
            self.slots - self.taken_slots,
            self.blocks - self.taken_blocks,
        )
    }

    /// Takes one slot and `blocks` blocks, or says what is free instead.
    pub fn reserve(&mut self, blocks: u16) -> Result<(), Lacks>
        ensures room { IsOk result ↔ HasRoom self.old blocks }
        ensures ok { OnOk result (self.new ≡ with_reserved self.old blocks) }

        ensures no_room { OnErr result ((free_slots self.old ≡ 0) ⊎ (free_blocks self.old < blocks)) }
        ensures lacks { IfErr result (λ e. e ≡ lack self.old) }
        ensures err { OnErr result (self.new ≡ self.old) }
    {
        let (free_slots, free_blocks) = self.free();
        if free_slots == 0 || free_blocks < blocks {
            return Err(Lacks {
                free_slots,
                free_blocks,
            });
        }
        self.taken_slots += 1;
        self.taken_blocks += blocks;
        Ok(())
    }

    /// Gives back one slot and `blocks` blocks that were reserved.
    pub fn release(&mut self, blocks: u16)
        requires { HasTaken self.old blocks }
        ensures { self.new ≡ with_released self.old blocks }
    {
        self.taken_slots -= 1;
        self.taken_blocks -= blocks;
    }
}
