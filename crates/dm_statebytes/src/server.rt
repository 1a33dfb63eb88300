//! What the states of the two servers have in common.
ghost use Rattle.std.specs.Prelude.{◌≡◌, []};
ghost use Rattle.dm_packet.specs.Field.{version};
ghost use Rattle.dm_packet.specs.Reads.{Reads};
ghost use Rattle.dm_packet.specs.Widths.{Fits};
ghost use Rattle.dm_packet.specs.Writes.{Puts};
ghost use Rattle.dm_statebytes.specs.Servers.{address_of, refusal_of, server_front, server_pid};
ghost use Rattle.dm_statebytes.specs.declared.server.Unread.TheVariants as unread_;

use crate::{StateBytesError, rule_of};
use dm_link::{Addr, Pid};
use dm_memory::NoMemory;
use dm_packet::PacketError;
use dm_packet::reading::fields::{byte_at, machine_at, pid_at, u32_at};
use dm_packet::writing::Buffer;
use dm_packet::writing::fields::{put_byte, put_pid, put_u32};
use thiserror::Error;

/// Why there is no server.
#[derive(Clone, Copy, Debug, Error)]
pub enum ServerError {
    /// The bytes are no state of that server: the first rule that they break, from the left.
    #[error("{0}")]
    StateBytes(StateBytesError),
    #[error("no memory")]
    NoMemory(NoMemory),
}

/// Why a part of a server isn't read: a field's bytes break a rule, or no memory was left for it.
#[derive(Clone, Copy)]
pub enum Unread {
    Bytes(PacketError),
    NoMemory(NoMemory),
}

impl From<PacketError> for Unread {
    ghost from_gives = { λ bad e. e ≡ unread_.Bytes bad };

    fn from(bad: PacketError) -> Unread {
        Unread::Bytes(bad)
    }
}

impl From<NoMemory> for Unread {
    ghost from_gives = { λ none e. e ≡ unread_.NoMemory none };

    fn from(none: NoMemory) -> Unread {
        Unread::NoMemory(none)
    }
}

impl Unread {
    /// The same for whoever asked for the server, with the rule as one of state bytes.
    pub fn refusal(self) -> ServerError
        ensures { result ≡ refusal_of self }
    {
        match self {
            Unread::Bytes(bad) => ServerError::StateBytes(rule_of(bad)),
            Unread::NoMemory(none) => ServerError::NoMemory(none),
        }
    }
}

fn version_at(bytes: &[u8]) -> Result<(u8, &[u8]), PacketError>
    ensures { Reads result ((version 4).read bytes.now) }
{
    let (version, rest) = byte_at(bytes)?;
    if version != 4 {
        return Err(PacketError::Version);
    }
    Ok((version, rest))
}

/// The name of this server.
fn server_pid_at(bytes: &[u8], server: Pid) -> Result<(Pid, &[u8]), PacketError>
    ensures { Reads result ((server_pid server).read bytes.now) }
{
    let (pid, rest) = pid_at(bytes)?;
    if pid != server {
        return Err(PacketError::Machine);
    }
    Ok((pid, rest))
}

/// An address of this server.
pub fn address_of_at(bytes: &[u8], server: Pid) -> Result<(Addr, &[u8]), PacketError>
    ensures { Reads result ((address_of server).read bytes.now) }
{
    let (pid, rest) = server_pid_at(bytes, server)?;
    let (at, rest) = machine_at(rest)?;
    let (moves, rest) = u32_at(rest)?;
    Ok((Addr { pid, at, moves }, rest))
}

/// How many messages this server has sent, and how often it has moved, behind the version and its name.
pub fn server_front_at(bytes: &[u8], server: Pid) -> Result<((u32, u32), &[u8]), PacketError>
    ensures { Reads result ((server_front server).read bytes.now) }
{
    let (_, rest) = version_at(bytes)?;
    let (_, rest) = server_pid_at(rest, server)?;
    let (sent, rest) = u32_at(rest)?;
    let (moves, rest) = u32_at(rest)?;
    Ok(((sent, moves), rest))
}

/// The version, the name of this server, and its two counts, where nothing was put yet.
pub fn put_server_front(out: &mut Buffer, server: Pid, sent: u32, moves: u32)
    requires { out.old.items ≡ [] }
    ensures put { Puts out.old out.new ((server_front server).spell (sent, moves)) }
    ensures sent { Fits 4 sent }
    ensures moves { Fits 4 moves }
{
    put_byte(out, 4);
    put_pid(out, server);
    put_u32(out, sent);
    put_u32(out, moves);
}
