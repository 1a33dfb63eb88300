//! A packet that has come, with its message on the heap.
ghost use Rattle.std.specs.Prelude.{◌≡◌, IfOk, IsOk, Ok};
ghost use Rattle.dm_packet.specs.Packets.{packet_of};
ghost use Rattle.dm_packet.specs.Parts.{read_numbered};
ghost use Rattle.dm_node.specs.Contents.{packet_in};

use dm_memory::{NoMemory, Parcel};
use dm_message::Message;
use dm_packet::{DecodeError, Opened, numbered_at, opened_at, room};
use std::alloc::Global;
use std::marker::Model;

/// A packet whose message is on the heap; contracts see the packet. Handing it on moves no message.
#[derive(Drop)]
pub struct Envelope {
    contents: Contents,
}

/// What a packet carries, from a machine to a machine: a numbered message, or how many messages have come.
#[derive(Drop)]
pub enum Contents {
    Data {
        from: u8,
        to: u8,
        seq: u32,
        message: Parcel<Message>,
    },
    Ack {
        from: u8,
        to: u8,
        count: u32,
    },
}

impl Model for Envelope {
    ghost use Rattle.dm_packet.specs.declared.Packet.{Packet};

    ghost Value = { Packet };

    ghost use Rattle.dm_node.specs.Contents.{packet_in};

    ghost view = { λ e. packet_in e.contents };
}

impl Envelope {
    /// The packet that these bytes spell.
    pub fn read(alloc: Global, bytes: &[u8]) -> Result<Envelope, NoMemory>
        requires { IsOk (packet_of bytes.now) }
        ensures { IfOk result (λ e. packet_of bytes.now ≡ Ok e) }
    {
        let contents = match opened_at(bytes).unwrap() {
            Opened::Data { from, to, behind } => {
                let (seq, message) = numbered_in(alloc, behind)?;
                Contents::Data {
                    from,
                    to,
                    seq,
                    message,
                }
            }
            Opened::Ack { from, to, count } => Contents::Ack { from, to, count },
        };
        Ok(Envelope { contents })
    }

    /// What the packet carries.
    pub fn open(self) -> Contents
        ensures { packet_in result ≡ self }
    {
        let Envelope { contents } = self;
        contents
    }
}

/// The number of a message, and the message, read into its place on the heap.
#[inline(never)]
fn numbered_in(alloc: Global, bytes: &[u8]) -> Result<(u32, Parcel<Message>), NoMemory>
    requires { IsOk (read_numbered bytes.now) }
    ensures { IfOk result (λ x. read_numbered bytes.now ≡ Ok x) }
{
    let mut message = Parcel::new(alloc, room())?;
    match numbered_at(alloc, bytes, message.get_mut()) {
        Ok(seq) => Ok((seq, message)),
        Err(DecodeError::NoMemory(none)) => Err(none),
        // The bytes spell a number and a message: `requires` says so.
        Err(DecodeError::Bytes(_)) => unreachable!(),
    }
}
