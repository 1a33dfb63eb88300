//! Packets as bytes: what goes over the wire between two machines.
#![tactic(auto)]

ghost use Rattle.std.specs.Prelude.{◌≡◌, ◌≤◌, [], Ok, length};
ghost use Rattle.dm_message.specs.Lawful.{IsLawfulMessage};
ghost use Rattle.dm_packet.specs.declared.DecodeError.TheVariants as unread;
ghost use Rattle.dm_packet.specs.Lawful.{IsRoute};
ghost use Rattle.dm_packet.specs.Packets.{packet_of, spelling};
ghost use Rattle.dm_packet.specs.Rules.{number_of_rule};

mod front;
mod laws;
pub mod reading;
pub mod writing;

pub use dm_memory::NoMemory;
use dm_message::Message;
pub use front::Opened;
pub use laws::packets_have_one_spelling;
pub use reading::{numbered_at, opened_at, room};
use thiserror::Error;
pub use writing::Buffer;
use writing::{ack_bytes, put_data};

/// The room for a packet: no packet has more bytes.
pub const MOST_PACKET: usize = 1024;

/// What goes from one machine to another: a numbered message, or how many messages have come.
#[derive(Drop)]
pub enum Packet {
    Data {
        from: u8,
        to: u8,
        seq: u32,
        message: Message,
    },
    Ack {
        from: u8,
        to: u8,
        count: u32,
    },
}

/// Why some bytes are no packet: the first rule that they break, from the left.
#[derive(Clone, Copy, Debug, Error)]
pub enum PacketError {
    /// A field's bytes are not all there.
    #[error("bytes are missing")]
    Missing,
    /// The format's version isn't 4.
    #[error("the version isn't 4")]
    Version,
    /// The packet is neither data nor an acknowledgement.
    #[error("neither data nor an acknowledgement")]
    PacketKind,
    /// A machine is above 15, or the receiver is the sender.
    #[error("no such machine, or the sender's own")]
    Machine,
    /// There is no such kind of message.
    #[error("no such kind of message")]
    MessageKind,
    /// The answer byte is neither 0 nor 1, or not that of the message's kind.
    #[error("not the answer byte of the message's kind")]
    Answer,
    /// Spare flags, a yes or no that is neither, or an enclosed link to a kernel.
    #[error("flags that no enclosed link has, or a yes or no that is neither")]
    Flags,
    /// A length, count, channel, number of slots or blocks, result or area outside its limits.
    #[error("a number outside its limits")]
    Limit,
    /// Bytes stand after the end.
    #[error("bytes stand after the end")]
    Trailing,
}

impl PacketError {
    /// The rule's number, 1 to 9.
    pub fn number(self) -> u8
        ensures { result ≡ number_of_rule self }
    {
        match self {
            PacketError::Missing => 1,
            PacketError::Version => 2,
            PacketError::PacketKind => 3,
            PacketError::Machine => 4,
            PacketError::MessageKind => 5,
            PacketError::Answer => 6,
            PacketError::Flags => 7,
            PacketError::Limit => 8,
            PacketError::Trailing => 9,
        }
    }
}

/// Why no packet is read.
#[derive(Clone, Copy, Debug, Error)]
pub enum DecodeError {
    /// The bytes are none: the first rule that they break, from the left.
    #[error("{0}")]
    Bytes(PacketError),
    #[error("no memory")]
    NoMemory(NoMemory),
}

impl From<PacketError> for DecodeError {
    ghost from_gives = { λ bad e. e ≡ unread.Bytes bad };

    fn from(bad: PacketError) -> DecodeError {
        DecodeError::Bytes(bad)
    }
}

impl From<NoMemory> for DecodeError {
    ghost from_gives = { λ none e. e ≡ unread.NoMemory none };

    fn from(none: NoMemory) -> DecodeError {
        DecodeError::NoMemory(none)
    }
}

/// Puts the one spelling of a message's packet, at most 1,024 bytes, in an empty buffer.
pub fn encode_data(out: &mut Buffer, from: u8, to: u8, seq: u32, message: &Message)
    requires empty { out.old.items ≡ [] }
    requires route { IsRoute from to }
    requires lawful { IsLawfulMessage message.now }
    ensures spelled { out.new.items ≡ spelling (Packet.Data from to seq message.now) }
    ensures size { length (spelling (Packet.Data from to seq message.now)) ≤ MOST_PACKET }
    // What is written is read again.
    ensures again { packet_of (spelling (Packet.Data from to seq message.now)) ≡ Ok (Packet.Data from to seq message.now) }
{
    put_data(out, from, to, seq, message);
}

/// The one spelling of an acknowledgement.
pub fn encode_ack(from: u8, to: u8, count: u32) -> [u8; 8]
    requires route { IsRoute from to }
    ensures spelled { result ≡ spelling (Packet.Ack from to count) }
    // What is written is read again.
    ensures again { packet_of (spelling (Packet.Ack from to count)) ≡ Ok (Packet.Ack from to count) }
{
    ack_bytes(from, to, count)
}
