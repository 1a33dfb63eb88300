//! What stands at the front of each packet, and of each message.

ghost use Rattle.std.specs.Prelude.{◌≡◌};
ghost use Rattle.dm_packet.specs.Packets.{number_of_packet_kind};

use dm_link::Addr;
use dm_message::{MessageKind, MsgId};

/// The version of the format.
pub const VERSION: u8 = 4;

/// Whether a packet carries a message or says how many have come.
#[derive(Clone, Copy)]
pub enum PacketKind {
    Data,
    Ack,
}

impl PacketKind {
    /// Its number in a packet: 1 or 2.
    pub fn number(self) -> u8
        ensures { result ≡ number_of_packet_kind self }
    {
        match self {
            PacketKind::Data => 1,
            PacketKind::Ack => 2,
        }
    }
}

/// A packet's front, behind the version.
#[derive(Clone, Copy)]
pub struct Opening {
    pub kind: PacketKind,
    pub from: u8,
    pub to: u8,
}

/// A message's front, up to its kind.
#[derive(Clone, Copy)]
pub struct Head {
    pub id: MsgId,
    pub to: Addr,
    pub sender: Addr,
    pub kind: MessageKind,
}

/// A packet whose front is read.
#[derive(Clone, Copy)]
pub enum Opened<'a> {
    /// A message's packet. Its number and its message are the bytes behind the front.
    Data { from: u8, to: u8, behind: &'a [u8] },
    /// An acknowledgement, with all that it says.
    Ack { from: u8, to: u8, count: u32 },
}
