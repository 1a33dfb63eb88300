//! What the messages of each kind carry: one reader for each kind with fields of its own, and the choice among them.
ghost use Rattle.dm_message.specs.declared.kind.MessageKind.TheVariants as kinds;
ghost use Rattle.dm_packet.specs.Fields.{pid};
ghost use Rattle.dm_packet.specs.Parts.{ReadsInto};
ghost use Rattle.dm_packet.specs.Whats.{naming_of, read_as, read_what};

use super::fields::{addr_at, byte_at, channel_at, machine_at, pid_at, run_at, u16_at, u32_at};
use super::lists::{bytes_within_at, links_at};
use super::parts::{
    asker_at, block_of, blocks_of_at, byte_at_most, outcome_at, piece_at, piece_from_at,
    u16_at_most, yes_or_no_at,
};
use crate::{DecodeError, PacketError};
use dm_lists::Bounded;
use dm_memory::Parcel;
use dm_message::{Body, CHUNK, Enclosed, MOST_BODY, MessageKind, What};
use std::alloc::Global;

#[tactic(auto, unfolding(crate::specs::Whats::read_what))]
fn user_at<'a>(alloc: Global, bytes: &'a [u8], into: &mut What) -> Result<&'a [u8], DecodeError>
    ensures { ReadsInto result into.new (read_what kinds.User bytes.now) }
{
    let (code, rest) = u32_at(bytes)?;
    let (channel, rest) = channel_at(rest)?;
    let (body, rest) = bytes_within_at(rest, 0, MOST_BODY as u16)?;
    let (links, rest) = links_at(rest, 4)?;
    *into = What::User {
        code,
        channel,
        body: Body::from_slice(alloc, body)?,
        links: Enclosed::from_slice(alloc, &links)?,
    };
    Ok(rest)
}

#[tactic(auto, unfolding(crate::specs::Whats::read_what))]
fn read_at<'a>(bytes: &'a [u8], into: &mut What) -> Result<&'a [u8], DecodeError>
    ensures { ReadsInto result into.new (read_what kinds.Read bytes.now) }
{
    let (base, rest) = u32_at(bytes)?;
    let (len, rest) = piece_from_at(rest, base)?;
    *into = What::Read { base, len };
    Ok(rest)
}

#[tactic(auto, unfolding(crate::specs::Whats::read_what))]
fn write_at<'a>(alloc: Global, bytes: &'a [u8], into: &mut What) -> Result<&'a [u8], DecodeError>
    ensures { ReadsInto result into.new (read_what kinds.Write bytes.now) }
{
    let (base, rest) = u32_at(bytes)?;
    let (piece, rest) = piece_at(rest, base)?;
    *into = What::Write {
        base,
        bytes: Body::from_slice(alloc, piece)?,
    };
    Ok(rest)
}

#[tactic(auto, unfolding(crate::specs::Whats::read_what))]
fn block_at<'a>(alloc: Global, bytes: &'a [u8], into: &mut What) -> Result<&'a [u8], DecodeError>
    ensures { ReadsInto result into.new (read_what kinds.Block bytes.now) }
{
    let (bytes, rest) = bytes_within_at(bytes, 1, MOST_BODY as u16)?;
    *into = What::Block {
        bytes: Body::from_slice(alloc, bytes)?,
    };
    Ok(rest)
}

#[tactic(auto, unfolding(crate::specs::Whats::read_what))]
fn create_at<'a>(alloc: Global, bytes: &'a [u8], into: &mut What) -> Result<&'a [u8], DecodeError>
    ensures { ReadsInto result into.new (read_what kinds.Create bytes.now) }
{
    let (image, rest) = u16_at(bytes)?;
    let (links, rest) = links_at(rest, 3)?;
    *into = What::Create {
        image,
        links: Bounded::from_slice(alloc, &links)?,
    };
    Ok(rest)
}

#[tactic(auto, unfolding(crate::specs::Whats::read_what))]
fn ask_at<'a>(bytes: &'a [u8], into: &mut What) -> Result<&'a [u8], DecodeError>
    ensures { ReadsInto result into.new (read_what kinds.Ask bytes.now) }
{
    let (pid, rest) = pid_at(bytes)?;
    let (blocks, rest) = blocks_of_at(rest, pid)?;
    let (moves, rest) = u32_at(rest)?;
    let (size, rest) = u32_at(rest)?;
    let (asker, rest) = asker_at(rest)?;
    *into = What::Ask {
        pid,
        blocks,
        moves,
        size,
        asker,
    };
    Ok(rest)
}

#[tactic(auto, unfolding(crate::specs::Whats::read_what))]
fn refuse_at<'a>(bytes: &'a [u8], into: &mut What) -> Result<&'a [u8], DecodeError>
    ensures { ReadsInto result into.new (read_what kinds.Refuse bytes.now) }
{
    let (pid, rest) = pid_at(bytes)?;
    let (free_slots, rest) = byte_at_most(rest, 64)?;
    let (free_blocks, rest) = u16_at_most(rest, 4_096)?;
    *into = What::Refuse {
        pid,
        free_slots,
        free_blocks,
    };
    Ok(rest)
}

#[tactic(auto, unfolding(crate::specs::Whats::read_what))]
fn pull_state_at<'a>(bytes: &'a [u8], into: &mut What) -> Result<&'a [u8], DecodeError>
    ensures { ReadsInto result into.new (read_what kinds.PullState bytes.now) }
{
    let (pid, rest) = pid_at(bytes)?;
    let (chunk, rest) = u32_at(rest)?;
    *into = What::PullState { pid, chunk };
    Ok(rest)
}

#[tactic(auto, unfolding(crate::specs::Whats::read_what))]
fn state_at<'a>(alloc: Global, bytes: &'a [u8], into: &mut What) -> Result<&'a [u8], DecodeError>
    ensures { ReadsInto result into.new (read_what kinds.State bytes.now) }
{
    let (pid, rest) = pid_at(bytes)?;
    let (chunk, rest) = u32_at(rest)?;
    let (last, rest) = yes_or_no_at(rest, PacketError::Flags)?;
    let (bytes, rest) = bytes_within_at(rest, 1, CHUNK as u16)?;
    *into = What::State {
        pid,
        chunk,
        last,
        bytes: Bounded::from_slice(alloc, bytes)?,
    };
    Ok(rest)
}

#[tactic(auto, unfolding(crate::specs::Whats::read_what))]
fn pull_block_at<'a>(bytes: &'a [u8], into: &mut What) -> Result<&'a [u8], DecodeError>
    ensures { ReadsInto result into.new (read_what kinds.PullBlock bytes.now) }
{
    let (pid, rest) = pid_at(bytes)?;
    let (block, rest) = byte_at(rest)?;
    *into = What::PullBlock { pid, block };
    Ok(rest)
}

#[tactic(auto, unfolding(crate::specs::Whats::read_what))]
fn memory_at<'a>(alloc: Global, bytes: &'a [u8], into: &mut What) -> Result<&'a [u8], DecodeError>
    ensures { ReadsInto result into.new (read_what kinds.Memory bytes.now) }
{
    let (pid, rest) = pid_at(bytes)?;
    let (block, rest) = byte_at(rest)?;
    let (bytes, rest) = run_at(rest, 256)?;
    *into = What::Memory {
        pid,
        block,
        bytes: Parcel::new(alloc, block_of(bytes))?,
    };
    Ok(rest)
}

/// What a message says of a process that it names, where it says no more.
#[derive(Clone, Copy)]
enum Naming {
    Created,
    AllTaken,
    Restart,
    CallOff,
    Bury,
}

/// The name of a process, and nothing else.
fn naming_at<'a>(naming: Naming, bytes: &'a [u8], into: &mut What) -> Result<&'a [u8], DecodeError>
    ensures { ReadsInto result into.new (read_as pid (naming_of naming) bytes.now) }
{
    let (pid, rest) = pid_at(bytes)?;
    match naming {
        Naming::Created => *into = What::Created { pid },
        Naming::AllTaken => *into = What::AllTaken { pid },
        Naming::Restart => *into = What::Restart { pid },
        Naming::CallOff => *into = What::CallOff { pid },
        Naming::Bury => *into = What::Bury { pid },
    }
    Ok(rest)
}

#[tactic(auto, unfolding(crate::specs::Whats::read_what))]
fn migrate_at<'a>(bytes: &'a [u8], into: &mut What) -> Result<&'a [u8], DecodeError>
    ensures { ReadsInto result into.new (read_what kinds.Migrate bytes.now) }
{
    let (machine, rest) = machine_at(bytes)?;
    *into = What::Migrate { machine };
    Ok(rest)
}

#[tactic(auto, unfolding(crate::specs::Whats::read_what))]
fn move_at<'a>(bytes: &'a [u8], into: &mut What) -> Result<&'a [u8], DecodeError>
    ensures { ReadsInto result into.new (read_what kinds.Move bytes.now) }
{
    let (machine, rest) = machine_at(bytes)?;
    *into = What::Move { machine };
    Ok(rest)
}

#[tactic(auto, unfolding(crate::specs::Whats::read_what))]
fn update_at<'a>(bytes: &'a [u8], into: &mut What) -> Result<&'a [u8], DecodeError>
    ensures { ReadsInto result into.new (read_what kinds.Update bytes.now) }
{
    let (about, rest) = addr_at(bytes)?;
    *into = What::Update { about };
    Ok(rest)
}

#[tactic(auto, unfolding(crate::specs::Whats::read_what))]
fn moved_at<'a>(bytes: &'a [u8], into: &mut What) -> Result<&'a [u8], DecodeError>
    ensures { ReadsInto result into.new (read_what kinds.Moved bytes.now) }
{
    let (outcome, rest) = outcome_at(bytes)?;
    *into = What::Moved { outcome };
    Ok(rest)
}

/// What a message of this kind carries, put where it is told.
#[tactic(auto, unfolding(crate::specs::Whats::read_what))]
pub fn what_at<'a>(
    alloc: Global,
    kind: MessageKind,
    bytes: &'a [u8],
    into: &mut What,
) -> Result<&'a [u8], DecodeError>
    ensures { ReadsInto result into.new (read_what kind bytes.now) }
{
    match kind {
        MessageKind::User => user_at(alloc, bytes, into),
        MessageKind::Stop => {
            *into = What::Stop;
            Ok(bytes)
        }
        MessageKind::Resume => {
            *into = What::Resume;
            Ok(bytes)
        }
        MessageKind::Kill => {
            *into = What::Kill;
            Ok(bytes)
        }
        MessageKind::Read => read_at(bytes, into),
        MessageKind::Write => write_at(alloc, bytes, into),
        MessageKind::Block => block_at(alloc, bytes, into),
        MessageKind::Written => {
            *into = What::Written;
            Ok(bytes)
        }
        MessageKind::Gone => {
            *into = What::Gone;
            Ok(bytes)
        }
        MessageKind::Create => create_at(alloc, bytes, into),
        MessageKind::Created => naming_at(Naming::Created, bytes, into),
        MessageKind::NoRoom => {
            *into = What::NoRoom;
            Ok(bytes)
        }
        MessageKind::Migrate => migrate_at(bytes, into),
        MessageKind::Update => update_at(bytes, into),
        MessageKind::Ask => ask_at(bytes, into),
        MessageKind::Refuse => refuse_at(bytes, into),
        MessageKind::PullState => pull_state_at(bytes, into),
        MessageKind::State => state_at(alloc, bytes, into),
        MessageKind::PullBlock => pull_block_at(bytes, into),
        MessageKind::Memory => memory_at(alloc, bytes, into),
        MessageKind::AllTaken => naming_at(Naming::AllTaken, bytes, into),
        MessageKind::Restart => naming_at(Naming::Restart, bytes, into),
        MessageKind::Move => move_at(bytes, into),
        MessageKind::Moved => moved_at(bytes, into),
        MessageKind::CallOff => naming_at(Naming::CallOff, bytes, into),
        MessageKind::Bury => naming_at(Naming::Bury, bytes, into),
    }
}
