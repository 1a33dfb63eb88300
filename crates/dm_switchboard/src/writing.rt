//! Writing the switchboard as bytes.
ghost use Rattle.std.specs.Prelude.{◌≡◌, ◌<◌, ◌^◌, ◌++◌, IfOk, OnOk, length};
ghost use Rattle.std.specs.List.{All, flat_map};
ghost use Rattle.dm_packet.specs.Field.{number};
ghost use Rattle.dm_packet.specs.Widths.{Fits, FitsLink};
ghost use Rattle.dm_statebytes.specs.Servers.{server_front};
ghost use Rattle.dm_onekernel.specs.Boot.{switchboard};
ghost use Rattle.dm_switchboard.specs.Board.{listed};
ghost use Rattle.dm_switchboard.specs.Packed.{FitsBoard, FitsNamed, HaveOwnNames, board, spell_named};

use crate::names::{Name, Names};
use dm_link::{Link, SWITCHBOARD};
use dm_memory::{NoMemory, extend_from_slice, from_slice};
use dm_packet::writing::Buffer;
use dm_packet::writing::fields::{put_byte, put_bytes, put_link, put_u32};
use dm_statebytes::server::put_server_front;
use std::alloc::Global;

/// Puts a name and its link at the end.
fn extend_with_named(out: &mut Vec<u8>, name: &Name, link: &Link) -> Result<(), NoMemory>
    ensures ok { OnOk result (out.new.items ≡ out.old.items ++ spell_named (record { name = name.now.items; link = link.now })) }
    ensures fits { FitsLink link.now }
{
    let mut bytes = Buffer::new();
    put_byte(&mut bytes, name.len() as u8);
    put_bytes(&mut bytes, name.as_slice());
    put_link(&mut bytes, link);
    extend_from_slice(out, &bytes)
}

/// Puts the names and their links at the end, in their order.
fn extend_with_names(out: &mut Vec<u8>, names: &Names) -> Result<(), NoMemory>
    ensures ok { OnOk result (out.new.items ≡ out.old.items ++ flat_map spell_named (listed names.now.entries)) }
    ensures fits { OnOk result (All FitsNamed (listed names.now.entries)) }
{
    for place in 0..names.len() {
        if let Some((name, link)) = names.get_index(place) {
            extend_with_named(out, name, link)?;
        }
    }
    Ok(())
}

/// How many names there are, of which none stands twice.
fn count_of(names: &Names) -> u32
    requires { length names.now.entries < 2 ^ 31 }
    ensures count { result ≡ length names.now.entries }
    ensures apart { HaveOwnNames (listed names.now.entries) }
{
    names.len() as u32
}

/// What stands before the names: the switchboard's two counts, and how many names there are.
fn front_bytes(alloc: Global, sent: u32, moves: u32, names: u32) -> Result<Vec<u8>, NoMemory>
    ensures put { IfOk result (λ v. v.items ≡ (server_front switchboard).spell (sent, moves) ++ (number 4).spell names) }
    ensures sent { Fits 4 sent }
    ensures moves { Fits 4 moves }
{
    let mut front = Buffer::new();
    put_server_front(&mut front, SWITCHBOARD, sent, moves);
    put_u32(&mut front, names);
    from_slice(alloc, &front)
}

/// A switchboard with these names and these counts.
pub fn board_bytes(alloc: Global, names: &Names, sent: u32, moves: u32) -> Result<Vec<u8>, NoMemory>
    requires { length names.now.entries < 2 ^ 31 }
    ensures put { IfOk result (λ v. v.items ≡ board.spell (record { names = listed names.now.entries; sent = sent; moves = moves })) }
    ensures fits { OnOk result (FitsBoard (record { names = listed names.now.entries; sent = sent; moves = moves })) }
    ensures apart { HaveOwnNames (listed names.now.entries) }
{
    let count = count_of(names);
    let mut bytes = front_bytes(alloc, sent, moves, count)?;
    extend_with_names(&mut bytes, names)?;
    Ok(bytes)
}
