//! Writing from the left, field after field.
ghost use Rattle.std.specs.Prelude.{◌≡◌, ◌≤◌, [], length};
ghost use Rattle.dm_message.specs.Kinds.{kind_of};
ghost use Rattle.dm_message.specs.Lawful.{IsLawfulMessage};
ghost use Rattle.dm_packet.specs.declared.Packet.{Packet};
ghost use Rattle.dm_packet.specs.declared.front.PacketKind.TheVariants as kinds;
ghost use Rattle.dm_packet.specs.Packets.{head, head_of, id as id_field, opening, spell_message, spelling};
ghost use Rattle.dm_packet.specs.Whats.{message_kind};
ghost use Rattle.dm_packet.specs.Widths.{FitsAddr, FitsId, FitsMessage, FitsPacket};
ghost use Rattle.dm_packet.specs.Writes.{HasRoom, Puts};

pub mod fields;
mod kinds;
mod lists;

use crate::front::{PacketKind, VERSION};
use arrayvec::ArrayVec;
use dm_message::{Message, MsgId, What};
use fields::{put_addr, put_bool, put_byte, put_pid, put_u32};
use kinds::put_what;

/// Room for a packet: none is longer.
pub type Buffer = ArrayVec<u8, 1024>;

fn put_id(out: &mut Buffer, id: MsgId)
    requires room { HasRoom out.old (id_field.spell id) }
    ensures put { Puts out.old out.new (id_field.spell id) }
    ensures fits { FitsId id }
{
    put_pid(out, id.from);
    put_u32(out, id.n);
    put_bool(out, id.answer);
}

/// The number of the kind of what is said.
fn put_kind(out: &mut Buffer, what: &What)
    requires room { HasRoom out.old (message_kind.spell (kind_of what.now)) }
    ensures put { Puts out.old out.new (message_kind.spell (kind_of what.now)) }
{
    put_byte(out, what.kind().number());
}

/// A message up to its kind.
fn put_head(out: &mut Buffer, message: &Message)
    requires room { HasRoom out.old (head.spell (head_of message.now)) }
    ensures put { Puts out.old out.new (head.spell (head_of message.now)) }
    ensures id { FitsId message.now.id }
    ensures to { FitsAddr message.now.to }
    ensures sender { FitsAddr message.now.sender }
{
    put_id(out, message.id);
    put_addr(out, message.to);
    put_addr(out, message.sender);
    put_kind(out, &message.what);
}

#[tactic(auto, unfolding(crate::specs::Packets::spell_message))]
fn put_message(out: &mut Buffer, message: &Message)
    requires room { length out.old.items ≤ 100 }
    requires lawful { IsLawfulMessage message.now }
    ensures put { Puts out.old out.new (spell_message message.now) }
    ensures fits { FitsMessage message.now }
{
    put_head(out, message);
    put_what(out, &message.what);
}

/// The version and the front of a message's packet.
fn put_opening(out: &mut Buffer, from: u8, to: u8)
    requires room { HasRoom out.old (opening.spell (record { kind = kinds.Data; from = from; to = to })) }
    ensures put { Puts out.old out.new (opening.spell (record { kind = kinds.Data; from = from; to = to })) }
{
    put_byte(out, VERSION);
    put_byte(out, PacketKind::Data.number());
    put_byte(out, from);
    put_byte(out, to);
}

/// A message's packet, where nothing was put yet.
#[tactic(auto, unfolding(crate::specs::Packets::spelling))]
pub fn put_data(out: &mut Buffer, from: u8, to: u8, seq: u32, message: &Message)
    requires empty { out.old.items ≡ [] }
    requires lawful { IsLawfulMessage message.now }
    ensures put { Puts out.old out.new (spelling (Packet.Data from to seq message.now)) }
    ensures fits { FitsPacket (Packet.Data from to seq message.now) }
{
    put_opening(out, from, to);
    put_u32(out, seq);
    put_message(out, message);
}

/// An acknowledgement.
#[tactic(auto, unfolding(crate::specs::Packets::spelling))]
pub fn ack_bytes(from: u8, to: u8, count: u32) -> [u8; 8]
    ensures spelled { result ≡ spelling (Packet.Ack from to count) }
    ensures fits { FitsPacket (Packet.Ack from to count) }
{
    let count = count.to_be_bytes();
    [
        VERSION,
        PacketKind::Ack.number(),
        from,
        to,
        count[0],
        count[1],
        count[2],
        count[3],
    ]
}
