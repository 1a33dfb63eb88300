//! Reading from the left, each field tested as soon as it is there.
ghost use Rattle.std.specs.Prelude.{◌≡◌};
ghost use Rattle.dm_packet.specs.Packets.{head, head_parts, id, opening, packet_kind, packet_of};
ghost use Rattle.dm_packet.specs.Parts.{Opens, ReadsNumbered, blank, read_ended, read_numbered};
ghost use Rattle.dm_packet.specs.declared.front.PacketKind.TheVariants as kinds;
ghost use Rattle.dm_packet.specs.Reads.{Reads};

pub mod fields;
mod kinds;
mod lists;
pub mod parts;

use crate::front::{Head, Opened, Opening, PacketKind, VERSION};
use crate::{DecodeError, PacketError};
use dm_link::{Addr, Pid};
use dm_lists::is_over;
use dm_message::{Message, MsgId, What};
use fields::{addr_at, byte_at, machine_at, pid_at, u32_at};
use kinds::what_at;
use parts::{kind_at, yes_or_no_at};
use std::alloc::Global;

fn id_at(bytes: &[u8]) -> Result<(MsgId, &[u8]), PacketError>
    ensures { Reads result (id.read bytes.now) }
{
    let (from, rest) = pid_at(bytes)?;
    let (n, rest) = u32_at(rest)?;
    let (answer, rest) = yes_or_no_at(rest, PacketError::Answer)?;
    Ok((MsgId { from, n, answer }, rest))
}

fn head_parts_at(bytes: &[u8]) -> Result<(Head, &[u8]), PacketError>
    ensures { Reads result (head_parts.read bytes.now) }
{
    let (id, rest) = id_at(bytes)?;
    let (to, rest) = addr_at(rest)?;
    let (sender, rest) = addr_at(rest)?;
    let (kind, rest) = kind_at(rest)?;
    let head = Head {
        id,
        to,
        sender,
        kind,
    };
    Ok((head, rest))
}

fn head_at(bytes: &[u8]) -> Result<(Head, &[u8]), PacketError>
    ensures { Reads result (head.read bytes.now) }
{
    let (head, rest) = head_parts_at(bytes)?;
    if !head.id.fits(head.kind) {
        return Err(PacketError::Answer);
    }
    Ok((head, rest))
}

fn packet_kind_at(bytes: &[u8]) -> Result<(PacketKind, &[u8]), PacketError>
    ensures { Reads result (packet_kind.read bytes.now) }
{
    let (number, rest) = byte_at(bytes)?;
    match number {
        1 => Ok((PacketKind::Data, rest)),
        2 => Ok((PacketKind::Ack, rest)),
        _ => Err(PacketError::PacketKind),
    }
}

/// The version and the front of a packet.
fn opening_at(bytes: &[u8]) -> Result<(Opening, &[u8]), PacketError>
    ensures { Reads result (opening.read bytes.now) }
{
    let (version, rest) = byte_at(bytes)?;
    if version != VERSION {
        return Err(PacketError::Version);
    }
    let (kind, rest) = packet_kind_at(rest)?;
    let (from, rest) = machine_at(rest)?;
    let (to, rest) = machine_at(rest)?;
    if to == from {
        return Err(PacketError::Machine);
    }
    Ok((Opening { kind, from, to }, rest))
}

/// Room for a message, to be read over: one from nobody to nobody.
pub fn room() -> Message
    ensures { result ≡ blank }
{
    let nobody = Addr {
        pid: Pid { home: 0, num: 0 },
        at: 0,
        moves: 0,
    };
    Message {
        id: MsgId {
            from: nobody.pid,
            n: 0,
            answer: false,
        },
        to: nobody,
        sender: nobody,
        what: What::Stop,
    }
}

/// The number of a message, which is put where it is told. Nothing stands behind it. It takes memory for the bytes and the links
/// of the message alone.
#[inline(never)]
#[tactic(auto, unfolding(crate::specs::Packets::read_message))]
pub fn numbered_at(alloc: Global, bytes: &[u8], message: &mut Message) -> Result<u32, DecodeError>
    ensures { ReadsNumbered result message.new (read_numbered bytes.now) }
{
    let (seq, rest) = u32_at(bytes)?;
    let (head, rest) = head_at(rest)?;
    let rest = what_at(alloc, head.kind, rest, &mut message.what)?;
    if !is_over(rest) {
        return Err(DecodeError::Bytes(PacketError::Trailing));
    }
    message.id = head.id;
    message.to = head.to;
    message.sender = head.sender;
    Ok(seq)
}

/// All of an acknowledgement whose front is read. Nothing stands behind it.
#[tactic(auto, unfolding(crate::specs::Packets::read_rest))]
fn ack_at(from: u8, to: u8, bytes: &[u8]) -> Result<Opened<'_>, PacketError>
    ensures { Opens result (read_ended kinds.Ack from to bytes.now) }
{
    let (count, rest) = u32_at(bytes)?;
    if !is_over(rest) {
        return Err(PacketError::Trailing);
    }
    Ok(Opened::Ack { from, to, count })
}

/// The packet that the bytes spell, but for its number and message, if it has one, or the first rule that they break. It takes
/// no memory.
#[tactic(auto, unfolding(crate::specs::Packets::packet_of), using(crate::proofs::Parts::data_is_behind))]
pub fn opened_at(bytes: &[u8]) -> Result<Opened<'_>, PacketError>
    ensures { Opens result (packet_of bytes.now) }
{
    let (opening, rest) = opening_at(bytes)?;
    let Opening { kind, from, to } = opening;
    match kind {
        PacketKind::Data => Ok(Opened::Data {
            from,
            to,
            behind: rest,
        }),
        PacketKind::Ack => ack_at(from, to, rest),
    }
}
