//! The answer to a process or a server that asks to come.
ghost use Rattle.std.specs.Prelude.{◌≡◌, ◌⊎◌, ◌≤◌, ◌<◌, IfErr, OnOk, false, true};
ghost use Rattle.dm_room.specs.Room.{lack};
ghost use Rattle.dm_migrate.specs.Answer.{AnswersFor};
ghost use Rattle.dm_migrate.specs.Rooms.{HasTakenBy, has_room_for, room_with, room_without};

use crate::arriving::{Arriving, expect};
use dm_link::Pid;
use dm_linktable::{FEW_SLOTS, MOST_SLOTS};
use dm_memory::NoMemory;
use dm_message::{Asker, What};
use dm_processor::MOST_BLOCKS;
use dm_room::{Lacks, Room};
use std::alloc::Global;

/// What becomes of an ask.
#[derive(Drop)]
pub enum Asked {
    /// There is room, which is reserved now, and the first chunk is to be asked for.
    Accepted(Arriving, What),
    /// There isn't; what is free.
    Refused(What, Lacks),
    /// No memory was left for what is to come.
    NoMemory(NoMemory),
}

/// What a process or a server that asks to come says of itself, and where it is.
#[derive(Clone, Copy)]
pub struct Ask {
    pub pid: Pid,
    /// The machine that it is to leave, 0 to 15.
    pub source: u8,
    /// Of its memory: 1 to 256, or none exactly where it is a server.
    pub blocks: u16,
    /// How often it has moved before.
    pub moves: u32,
    /// How many state bytes it has.
    pub size: u32,
    /// Who waits to hear how the move ends.
    pub asker: Option<Asker>,
}

/// Whether a process may come to a machine with this room and with tables of `cap` slots; a server takes no room, and always may. It
/// takes all the memory that is needed here.
pub fn answer_ask(alloc: Global, ask: Ask, room: &mut Room, cap: u8) -> Asked
    requires most { ask.blocks ≤ MOST_BLOCKS }
    requires moves { ask.moves < u32.MAX }
    requires cap { (cap ≡ FEW_SLOTS) ⊎ (cap ≡ MOST_SLOTS) }
    ensures { AnswersFor ask.pid ask.source ask.blocks ask.moves ask.size ask.asker cap room.old room.new result }
{
    if let Err(lacks) = reserve(room, ask.blocks) {
        let refuse = What::Refuse {
            pid: ask.pid,
            free_slots: lacks.free_slots,
            free_blocks: lacks.free_blocks,
        };
        return Asked::Refused(refuse, lacks);
    }
    match expect(alloc, ask, cap) {
        Ok(arriving) => Asked::Accepted(
            arriving,
            What::PullState {
                pid: ask.pid,
                chunk: 0,
            },
        ),
        Err(none) => {
            release(room, ask.blocks);
            Asked::NoMemory(none)
        }
    }
}

/// Takes a slot and so many blocks, where a process comes; a server, which has no blocks, takes nothing.
fn reserve(room: &mut Room, blocks: u16) -> Result<(), Lacks>
    ensures ok { OnOk result ((has_room_for room.old blocks ≡ true) × (room.new ≡ room_with room.old blocks)) }
    ensures err { IfErr result (λ lacks. (has_room_for room.old blocks ≡ false) × (room.new ≡ room.old) × (lacks ≡ lack room.old)) }
{
    if blocks == 0 {
        return Ok(());
    }
    room.reserve(blocks)
}

/// Gives back the slot and the blocks of a process that leaves, or doesn't come after all; a server has none.
pub fn release(room: &mut Room, blocks: u16)
    requires { HasTakenBy room.old blocks }
    ensures { room.new ≡ room_without room.old blocks }
{
    if blocks != 0 {
        room.release(blocks);
    }
}
