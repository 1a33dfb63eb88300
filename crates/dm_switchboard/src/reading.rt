//! Reading the switchboard from bytes, each field tested as soon as it is there.
ghost use Rattle.std.specs.Prelude.{◌≡◌, ◌==◌, []};
ghost use Rattle.dm_packet.specs.Reads.{ReadsItems};
ghost use Rattle.dm_statebytes.specs.Servers.{Adds, IsUnpacked, ReadsSeen, ReadsWhole};
ghost use Rattle.dm_switchboard.specs.Board.{listed};
ghost use Rattle.dm_switchboard.specs.Packed.{board_of_bytes, name, name_behind, named_behind, names, read_board, read_names};

use crate::Switchboard;
use crate::names::{Name, Names};
use dm_link::SWITCHBOARD;
use dm_memory::of_indexmap::insert;
use dm_packet::PacketError;
use dm_packet::reading::fields::{byte_at, link_at, run_at, u32_at};
use dm_statebytes::server::{ServerError, Unread, server_front_at};
use indexmap::IndexMap;
use std::alloc::Global;

/// A name of 1 to 16 bytes, behind their number.
fn name_at(bytes: &[u8]) -> Result<(Name, &[u8]), PacketError>
    ensures { ReadsItems result (name.read bytes.now) }
{
    let (len, rest) = byte_at(bytes)?;
    if len < 1 || len > 16 {
        return Err(PacketError::Limit);
    }
    let (bytes, rest) = run_at(rest, len as usize)?;
    let mut name = Name::new();
    let _ = name.try_extend_from_slice(bytes);
    Ok((name, rest))
}

/// A name that none of these is.
fn name_behind_at<'a>(names: &Names, bytes: &'a [u8]) -> Result<(Name, &'a [u8]), PacketError>
    ensures { ReadsItems result ((name_behind (listed names.now.entries)).read bytes.now) }
{
    let (name, rest) = name_at(bytes)?;
    if names.contains_key(&name) {
        return Err(PacketError::Limit);
    }
    Ok((name, rest))
}

/// Reads a name that none of these is, and its link, and puts them behind the others.
fn add_name<'a>(names: &mut Names, bytes: &'a [u8]) -> Result<&'a [u8], Unread>
    ensures { Adds (listed names.old.entries) result (listed names.new.entries) ((named_behind (listed names.old.entries)).read bytes.now) }
{
    let (name, rest) = name_behind_at(names, bytes)?;
    let (link, rest) = link_at(rest)?;
    insert(names, name, link)?;
    Ok(rest)
}

/// So many names with their links.
fn name_run_at(alloc: Global, bytes: &[u8], count: u32) -> Result<(Names, &[u8]), Unread>
    ensures { ReadsSeen (λ m. listed m.entries) result (read_names count [] bytes.now) }
{
    let mut names = IndexMap::new(alloc);
    let mut rest = bytes;
    for _ in 0..count {
        let after = add_name(&mut names, rest)?;
        rest = after;
    }
    Ok((names, rest))
}

fn names_at(alloc: Global, bytes: &[u8]) -> Result<(Names, &[u8]), Unread>
    ensures { ReadsSeen (λ m. listed m.entries) result (names.read bytes.now) }
{
    let (count, rest) = u32_at(bytes)?;
    name_run_at(alloc, rest, count)
}

/// Whether the bytes end where so many are left.
fn is_end(left: usize) -> bool
    ensures { result ≡ (left == 0) }
{
    left == 0
}

/// The switchboard that the bytes spell, all of them.
fn whole_at(alloc: Global, bytes: &[u8]) -> Result<Switchboard, Unread>
    ensures { ReadsWhole result (read_board bytes.now) }
{
    let ((sent, moves), rest) = server_front_at(bytes, SWITCHBOARD)?;
    let (names, rest) = names_at(alloc, rest)?;
    if !is_end(rest.len()) {
        return Err(Unread::Bytes(PacketError::Trailing));
    }
    Ok(Switchboard { names, sent, moves })
}

/// The same, with the rule as one of state bytes.
#[tactic(auto, unfolding(crate::specs::Packed::board_of_bytes))]
pub fn board_at(alloc: Global, bytes: &[u8]) -> Result<Switchboard, ServerError>
    ensures { IsUnpacked result (board_of_bytes bytes.now) }
{
    match whole_at(alloc, bytes) {
        Ok(board) => Ok(board),
        Err(unread) => Err(unread.refusal()),
    }
}
