//! The fields that only some kinds have.
ghost use Rattle.std.specs.Prelude.{IfOk, length, nat_le, ◌≤◌, ◌&&◌, ◌+◌, ◌==◌, ◌≡◌};
ghost use Rattle.dm_packet.specs.Reads.{Reads, ReadsSlice};
ghost use Rattle.dm_packet.specs.Field.{counted, number_within, run};
ghost use Rattle.dm_packet.specs.Whats.{asker, blocks_field, message_kind, optional, outcome_field, piece_from, yes_or_no};

use super::fields::{addr_at, byte_at, run_at, u16_at, u32_at};
use crate::PacketError;
use dm_link::Pid;
use dm_message::{Asker, MOST_BODY, MessageKind, Outcome};

/// A yes or no.
pub fn yes_or_no_at(bytes: &[u8], rule: PacketError) -> Result<(bool, &[u8]), PacketError>
    ensures { Reads result ((yes_or_no rule).read bytes.now) }
{
    let (byte, rest) = byte_at(bytes)?;
    match byte {
        0 => Ok((false, rest)),
        1 => Ok((true, rest)),
        _ => Err(rule),
    }
}

pub fn kind_at(bytes: &[u8]) -> Result<(MessageKind, &[u8]), PacketError>
    ensures { Reads result (message_kind.read bytes.now) }
{
    let (number, rest) = byte_at(bytes)?;
    match MessageKind::numbered(number) {
        Some(kind) => Ok((kind, rest)),
        None => Err(PacketError::MessageKind),
    }
}

pub fn outcome_at(bytes: &[u8]) -> Result<(Outcome, &[u8]), PacketError>
    ensures { Reads result (outcome_field.read bytes.now) }
{
    let (byte, rest) = byte_at(bytes)?;
    match byte {
        0 => Ok((Outcome::Done, rest)),
        1 => Ok((Outcome::Stayed, rest)),
        3 => Ok((Outcome::Ended, rest)),
        _ => Err(PacketError::Limit),
    }
}

/// Whether a piece of this length may begin at an address.
fn is_piece(base: u32, len: u16) -> bool
    ensures { result ≡ ((nat_le 1 len && nat_le len 256) && nat_le (base + len) 65536) }
{
    len >= 1 && len <= MOST_BODY as u16 && u64::from(base) + u64::from(len) <= 65_536
}

/// The length of a piece that begins at an address.
pub fn piece_from_at(bytes: &[u8], base: u32) -> Result<(u16, &[u8]), PacketError>
    ensures { Reads result ((piece_from base).read bytes.now) }
{
    let (len, rest) = u16_at(bytes)?;
    if !is_piece(base, len) {
        return Err(PacketError::Limit);
    }
    Ok((len, rest))
}

/// A piece that begins at an address.
pub(crate) fn piece_at(bytes: &[u8], base: u32) -> Result<(&[u8], &[u8]), PacketError>
    ensures read { ReadsSlice result ((counted (piece_from base) run).read bytes.now) }
    ensures few { IfOk result (λ x. length x.0.now ≤ 256) }
{
    let (len, rest) = piece_from_at(bytes, base)?;
    run_at(rest, len as usize)
}

/// How many blocks a process has.
pub fn blocks_of_at(bytes: &[u8], pid: Pid) -> Result<(u16, &[u8]), PacketError>
    ensures { Reads result ((blocks_field pid).read bytes.now) }
{
    let (blocks, rest) = u16_at(bytes)?;
    let is_server = pid.home == 0 && (pid.num == 1 || pid.num == 2);
    if blocks > 256 || (blocks == 0) != is_server {
        return Err(PacketError::Limit);
    }
    Ok((blocks, rest))
}

pub fn asker_at(bytes: &[u8]) -> Result<(Option<Asker>, &[u8]), PacketError>
    ensures { Reads result ((optional asker).read bytes.now) }
{
    let (has, rest) = yes_or_no_at(bytes, PacketError::Flags)?;
    if !has {
        return Ok((None, rest));
    }
    let (n, rest) = u32_at(rest)?;
    let (addr, rest) = addr_at(rest)?;
    Ok((Some(Asker { n, addr }), rest))
}

pub fn byte_at_most(bytes: &[u8], most: u8) -> Result<(u8, &[u8]), PacketError>
    ensures { Reads result ((number_within 1 0 most).read bytes.now) }
{
    let (number, rest) = byte_at(bytes)?;
    if number > most {
        return Err(PacketError::Limit);
    }
    Ok((number, rest))
}

pub fn u16_at_most(bytes: &[u8], most: u16) -> Result<(u16, &[u8]), PacketError>
    ensures { Reads result ((number_within 2 0 most).read bytes.now) }
{
    let (number, rest) = u16_at(bytes)?;
    if number > most {
        return Err(PacketError::Limit);
    }
    Ok((number, rest))
}

/// A block of memory: 256 bytes.
pub(crate) fn block_of(bytes: &[u8]) -> [u8; 256]
    requires { length bytes.now ≡ 256 }
    ensures { result ≡ bytes.now }
{
    let mut block = [0; 256];
    block.copy_from_slice(bytes);
    block
}
