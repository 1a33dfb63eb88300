//! One reader for each kind of field: the value, and the bytes behind it.
ghost use Rattle.std.specs.Prelude.{◌≡◌, IfOk, length};
ghost use Rattle.dm_packet.specs.Field.{number, run};
ghost use Rattle.dm_packet.specs.Fields.{addr, are_flags, channel, flags, kind_of_bit, len_from, link, machine, pid};
ghost use Rattle.dm_packet.specs.Reads.{Reads, ReadsSlice};

use crate::PacketError;
use arrayvec::ArrayVec;
use byteorder::{BigEndian, ByteOrder};
use dm_link::{Addr, Area, Kind, Link, Pid};

pub fn byte_at(bytes: &[u8]) -> Result<(u8, &[u8]), PacketError>
    ensures { Reads result ((number 1).read bytes.now) }
{
    match bytes {
        [] => Err(PacketError::Missing),
        [byte, rest @ ..] => Ok((*byte, rest)),
    }
}

/// The first bytes, and those behind them.
pub fn run_at(bytes: &[u8], len: usize) -> Result<(&[u8], &[u8]), PacketError>
    ensures read { ReadsSlice result ((run len).read bytes.now) }
    ensures len { IfOk result (λ x. length x.0.now ≡ len) }
{
    if bytes.len() < len {
        return Err(PacketError::Missing);
    }
    Ok(bytes.split_at(len))
}

pub fn u16_at(bytes: &[u8]) -> Result<(u16, &[u8]), PacketError>
    ensures { Reads result ((number 2).read bytes.now) }
{
    if bytes.len() < 2 {
        return Err(PacketError::Missing);
    }
    Ok((BigEndian::read_u16(bytes), &bytes[2..]))
}

pub fn u32_at(bytes: &[u8]) -> Result<(u32, &[u8]), PacketError>
    ensures { Reads result ((number 4).read bytes.now) }
{
    if bytes.len() < 4 {
        return Err(PacketError::Missing);
    }
    Ok((BigEndian::read_u32(bytes), &bytes[4..]))
}

pub fn machine_at(bytes: &[u8]) -> Result<(u8, &[u8]), PacketError>
    ensures { Reads result (machine.read bytes.now) }
{
    let (machine, rest) = byte_at(bytes)?;
    if machine > 15 {
        return Err(PacketError::Machine);
    }
    Ok((machine, rest))
}

pub fn pid_at(bytes: &[u8]) -> Result<(Pid, &[u8]), PacketError>
    ensures { Reads result (pid.read bytes.now) }
{
    let (home, rest) = machine_at(bytes)?;
    let (num, rest) = u32_at(rest)?;
    Ok((Pid { home, num }, rest))
}

pub fn addr_at(bytes: &[u8]) -> Result<(Addr, &[u8]), PacketError>
    ensures { Reads result (addr.read bytes.now) }
{
    let (pid, rest) = pid_at(bytes)?;
    let (at, rest) = machine_at(rest)?;
    let (moves, rest) = u32_at(rest)?;
    Ok((Addr { pid, at, moves }, rest))
}

fn flags_at(bytes: &[u8]) -> Result<((Kind, bool, bool), &[u8]), PacketError>
    ensures { Reads result (flags.read bytes.now) }
{
    let (byte, rest) = byte_at(bytes)?;
    if !are_flags(byte) {
        return Err(PacketError::Flags);
    }
    let flags = (kind_of_bit(byte % 2), byte / 4 % 2 == 1, byte / 8 == 1);
    Ok((flags, rest))
}

/// Whether a byte is the flags of an enclosed link: no bit is spare, and the one of a link to a kernel isn't set.
fn are_flags(byte: u8) -> bool
    ensures { result ≡ are_flags byte }
{
    byte < 16 && byte / 2 % 2 == 0
}

/// The kind of a link by its bit: a reply link where it is set.
fn kind_of_bit(bit: u8) -> Kind
    ensures { result ≡ kind_of_bit bit }
{
    if bit == 0 { Kind::General } else { Kind::Reply }
}

pub fn channel_at(bytes: &[u8]) -> Result<(u8, &[u8]), PacketError>
    ensures { Reads result (channel.read bytes.now) }
{
    let (channel, rest) = byte_at(bytes)?;
    if channel > 31 {
        return Err(PacketError::Limit);
    }
    Ok((channel, rest))
}

fn len_from_at(bytes: &[u8], base: u32) -> Result<(u32, &[u8]), PacketError>
    ensures { Reads result ((len_from 65536 base).read bytes.now) }
{
    let (len, rest) = u32_at(bytes)?;
    if u64::from(base) + u64::from(len) > 65_536 {
        return Err(PacketError::Limit);
    }
    Ok((len, rest))
}

pub fn link_at(bytes: &[u8]) -> Result<(Link, &[u8]), PacketError>
    ensures { Reads result (link.read bytes.now) }
{
    let (addr, rest) = addr_at(bytes)?;
    let ((kind, read, write), rest) = flags_at(rest)?;
    let (code, rest) = u32_at(rest)?;
    let (channel, rest) = channel_at(rest)?;
    let (base, rest) = u32_at(rest)?;
    let (len, rest) = len_from_at(rest, base)?;
    let link = Link {
        addr,
        kind,
        to_kernel: false,
        code,
        channel,
        area: Area {
            base,
            len,
            read,
            write,
        },
    };
    Ok((link, rest))
}
