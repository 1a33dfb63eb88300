//! Writing the manager as bytes.
ghost use Rattle.std.specs.Prelude.{◌≡◌, ◌+◌, ◌<◌, ◌^◌, ◌++◌, ◌≤◌, [], IfOk, OnOk, length};
ghost use Rattle.std.specs.List.{All, flat_map};
ghost use Rattle.std.specs.Option.{IfSome};
ghost use Rattle.dm_packet.specs.Field.{number};
ghost use Rattle.dm_packet.specs.Fields.{addr as addr_field, link as link_field};
ghost use Rattle.dm_packet.specs.Whats.{optional};
ghost use Rattle.dm_packet.specs.Widths.{FitsAddr, FitsLink};
ghost use Rattle.dm_packet.specs.Writes.{HasRoom, Puts};
ghost use Rattle.dm_statebytes.specs.Servers.{FitCounts, server_front};
ghost use Rattle.dm_onekernel.specs.Boot.{manager};
ghost use Rattle.dm_procman.specs.Packed.{FitsRequest, kind_wanted, manager_parts, request as request_field};

use crate::Pending;
use dm_link::{Addr, Link, MANAGER};
use dm_memory::{NoMemory, extend_from_slice, from_slice};
use dm_onekernel::PendingKind;
use dm_packet::writing::Buffer;
use dm_packet::writing::fields::{put_addr, put_byte, put_link, put_u32};
use dm_statebytes::server::put_server_front;
use std::alloc::Global;

/// Puts an address at the end.
fn extend_with_child(out: &mut Vec<u8>, child: Addr) -> Result<(), NoMemory>
    ensures ok { OnOk result (out.new.items ≡ out.old.items ++ addr_field.spell child) }
    ensures fits { FitsAddr child }
{
    let mut bytes = Buffer::new();
    put_addr(&mut bytes, child);
    extend_from_slice(out, &bytes)
}

/// Puts the addresses of the children at the end, in their order.
fn extend_with_children(out: &mut Vec<u8>, children: &[Addr]) -> Result<(), NoMemory>
    ensures ok { OnOk result (out.new.items ≡ out.old.items ++ flat_map addr_field.spell children.now) }
    ensures fits { OnOk result (All FitsAddr children.now) }
{
    for child in children {
        extend_with_child(out, *child)?;
    }
    Ok(())
}

fn put_kind_wanted(out: &mut Buffer, kind: PendingKind)
    requires room { HasRoom out.old (kind_wanted.spell kind) }
    ensures put { Puts out.old out.new (kind_wanted.spell kind) }
{
    let number = match kind {
        PendingKind::Create => 0,
        PendingKind::Move => 1,
    };
    put_byte(out, number);
}

/// 1 and the link for an answer, or 0.
fn put_answer(out: &mut Buffer, answer: Option<Link>)
    requires room { length out.old.items ≤ 100 }
    ensures put { Puts out.old out.new ((optional link_field).spell answer) }
    ensures fits { IfSome answer FitsLink }
{
    match answer {
        None => put_byte(out, 0),
        Some(link) => {
            put_byte(out, 1);
            put_link(out, &link);
        }
    }
}

fn put_request(out: &mut Buffer, request: &Pending)
    requires empty { out.old.items ≡ [] }
    ensures put { Puts out.old out.new (request_field.spell request.now) }
    ensures fits { FitsRequest request.now }
{
    put_u32(out, request.n);
    put_kind_wanted(out, request.kind);
    put_answer(out, request.answer);
}

/// Puts a pending request at the end.
fn extend_with_request(out: &mut Vec<u8>, request: &Pending) -> Result<(), NoMemory>
    ensures ok { OnOk result (out.new.items ≡ out.old.items ++ request_field.spell request.now) }
    ensures fits { FitsRequest request.now }
{
    let mut bytes = Buffer::new();
    put_request(&mut bytes, request);
    extend_from_slice(out, &bytes)
}

/// Puts the pending requests at the end, in their order.
fn extend_with_requests(out: &mut Vec<u8>, pending: &[Pending]) -> Result<(), NoMemory>
    ensures ok { OnOk result (out.new.items ≡ out.old.items ++ flat_map request_field.spell pending.now) }
    ensures fits { OnOk result (All FitsRequest pending.now) }
{
    for request in pending {
        extend_with_request(out, request)?;
    }
    Ok(())
}

/// What stands before the children: the manager's two counts, and how many children there are.
fn front_bytes(alloc: Global, counts: (u32, u32), children: u32) -> Result<Vec<u8>, NoMemory>
    ensures put { IfOk result (λ v. v.items ≡ (server_front manager).spell counts ++ (number 4).spell children) }
    ensures fits { FitCounts counts }
{
    let (sent, moves) = counts;
    let mut front = Buffer::new();
    put_server_front(&mut front, MANAGER, sent, moves);
    put_u32(&mut front, children);
    from_slice(alloc, &front)
}

/// What stands between the children and the requests: where the switchboard is, and how many requests there are.
fn extend_with_board(out: &mut Vec<u8>, board: Addr, requests: u32) -> Result<(), NoMemory>
    ensures ok { OnOk result (out.new.items ≡ out.old.items ++ (addr_field.spell board ++ (number 4).spell requests)) }
    ensures fits { FitsAddr board }
{
    let mut bytes = Buffer::new();
    put_addr(&mut bytes, board);
    put_u32(&mut bytes, requests);
    extend_from_slice(out, &bytes)
}

/// The length of a list as a count in bytes.
fn count_of(len: usize) -> u32
    requires { len < 2 ^ 31 }
    ensures { result ≡ len }
{
    len as u32
}

/// A manager with these children, this address of the switchboard, these requests, and these counts.
pub fn manager_bytes(
    alloc: Global,
    children: &[Addr],
    board: Addr,
    pending: &[Pending],
    counts: (u32, u32),
) -> Result<Vec<u8>, NoMemory>
    requires { length children.now + length pending.now < 2 ^ 31 }
    ensures put { IfOk result (λ v. v.items ≡ manager_parts.spell (counts, (children.now, (board, pending.now)))) }
    ensures counts { FitCounts counts }
    ensures board { FitsAddr board }
    ensures children { OnOk result (All FitsAddr children.now) }
    ensures pending { OnOk result (All FitsRequest pending.now) }
{
    let child_count = count_of(children.len());
    let request_count = count_of(pending.len());
    let mut bytes = front_bytes(alloc, counts, child_count)?;
    extend_with_children(&mut bytes, children)?;
    extend_with_board(&mut bytes, board, request_count)?;
    extend_with_requests(&mut bytes, pending)?;
    Ok(bytes)
}
