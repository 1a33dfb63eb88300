//! Reading the manager from bytes, each field tested as soon as it is there.
ghost use Rattle.std.specs.Prelude.{◌≡◌, ◌==◌};
ghost use Rattle.dm_packet.specs.Field.{read_times};
ghost use Rattle.dm_packet.specs.Fields.{addr, link};
ghost use Rattle.dm_packet.specs.Reads.{Reads};
ghost use Rattle.dm_packet.specs.Whats.{optional};
ghost use Rattle.dm_statebytes.specs.Servers.{Adds, IsUnpacked, ReadsSeen, ReadsWhole};
ghost use Rattle.dm_procman.specs.Packed.{children_field, kind_wanted, manager_of_bytes, read_manager, request, requests_field};

use crate::children::Children;
use crate::pending::Unanswered;
use crate::{Pending, ProcMan};
use dm_link::{Link, MANAGER, SWITCHBOARD};
use dm_onekernel::PendingKind;
use dm_packet::PacketError;
use dm_packet::reading::fields::{addr_at, byte_at, link_at, u32_at};
use dm_packet::reading::parts::yes_or_no_at;
use dm_statebytes::server::{ServerError, Unread, address_of_at, server_front_at};
use std::alloc::Global;

/// Reads an address, and puts it behind those of the other children.
fn add_child<'a>(children: &mut Children, bytes: &'a [u8]) -> Result<&'a [u8], Unread>
    ensures { Adds children.old result children.new (addr.read bytes.now) }
{
    let (child, rest) = addr_at(bytes)?;
    children.push(child)?;
    Ok(rest)
}

/// So many addresses of children.
fn child_run_at(alloc: Global, bytes: &[u8], count: u32) -> Result<(Children, &[u8]), Unread>
    ensures { ReadsSeen (λ c. c) result (read_times addr.read count bytes.now) }
{
    let mut children = Children::new(alloc);
    let mut rest = bytes;
    for _ in 0..count {
        let after = add_child(&mut children, rest)?;
        rest = after;
    }
    Ok((children, rest))
}

fn children_at(alloc: Global, bytes: &[u8]) -> Result<(Children, &[u8]), Unread>
    ensures { ReadsSeen (λ c. c) result (children_field.read bytes.now) }
{
    let (count, rest) = u32_at(bytes)?;
    child_run_at(alloc, rest, count)
}

fn kind_wanted_at(bytes: &[u8]) -> Result<(PendingKind, &[u8]), PacketError>
    ensures { Reads result (kind_wanted.read bytes.now) }
{
    let (number, rest) = byte_at(bytes)?;
    match number {
        0 => Ok((PendingKind::Create, rest)),
        1 => Ok((PendingKind::Move, rest)),
        _ => Err(PacketError::Flags),
    }
}

/// The link for an answer, if there is one.
fn answer_at(bytes: &[u8]) -> Result<(Option<Link>, &[u8]), PacketError>
    ensures { Reads result ((optional link).read bytes.now) }
{
    let (has, rest) = yes_or_no_at(bytes, PacketError::Flags)?;
    if !has {
        return Ok((None, rest));
    }
    let (link, rest) = link_at(rest)?;
    Ok((Some(link), rest))
}

fn request_at(bytes: &[u8]) -> Result<(Pending, &[u8]), PacketError>
    ensures { Reads result (request.read bytes.now) }
{
    let (n, rest) = u32_at(bytes)?;
    let (kind, rest) = kind_wanted_at(rest)?;
    let (answer, rest) = answer_at(rest)?;
    Ok((Pending { n, kind, answer }, rest))
}

/// Reads a pending request, and puts it behind the others.
fn add_request<'a>(pending: &mut Unanswered, bytes: &'a [u8]) -> Result<&'a [u8], Unread>
    ensures { Adds pending.old result pending.new (request.read bytes.now) }
{
    let (request, rest) = request_at(bytes)?;
    pending.push(request)?;
    Ok(rest)
}

/// So many pending requests.
fn request_run_at(alloc: Global, bytes: &[u8], count: u32) -> Result<(Unanswered, &[u8]), Unread>
    ensures { ReadsSeen (λ u. u) result (read_times request.read count bytes.now) }
{
    let mut pending = Unanswered::new(alloc);
    let mut rest = bytes;
    for _ in 0..count {
        let after = add_request(&mut pending, rest)?;
        rest = after;
    }
    Ok((pending, rest))
}

fn requests_at(alloc: Global, bytes: &[u8]) -> Result<(Unanswered, &[u8]), Unread>
    ensures { ReadsSeen (λ u. u) result (requests_field.read bytes.now) }
{
    let (count, rest) = u32_at(bytes)?;
    request_run_at(alloc, rest, count)
}

/// Whether the bytes end where so many are left.
fn is_end(left: usize) -> bool
    ensures { result ≡ (left == 0) }
{
    left == 0
}

/// The manager of so many machines and images that the bytes spell, all of them.
fn whole_at(alloc: Global, bytes: &[u8], machines: u8, images: u16) -> Result<ProcMan, Unread>
    ensures { ReadsWhole result (read_manager machines images bytes.now) }
{
    let ((sent, moves), rest) = server_front_at(bytes, MANAGER)?;
    let (children, rest) = children_at(alloc, rest)?;
    let (board, rest) = address_of_at(rest, SWITCHBOARD)?;
    let (pending, rest) = requests_at(alloc, rest)?;
    if !is_end(rest.len()) {
        return Err(Unread::Bytes(PacketError::Trailing));
    }
    Ok(ProcMan {
        children,
        pending,
        board,
        sent,
        moves,
        machines,
        images,
    })
}

/// The same, with the rule as one of state bytes.
#[tactic(auto, unfolding(crate::specs::Packed::manager_of_bytes))]
pub fn manager_at(
    alloc: Global,
    bytes: &[u8],
    machines: u8,
    images: u16,
) -> Result<ProcMan, ServerError>
    ensures { IsUnpacked result (manager_of_bytes machines images bytes.now) }
{
    match whole_at(alloc, bytes, machines, images) {
        Ok(manager) => Ok(manager),
        Err(unread) => Err(unread.refusal()),
    }
}
