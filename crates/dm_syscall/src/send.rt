//! The call SEND.
ghost use Rattle.std.specs.Prelude.{◌≡◌, ◌+◌, ◌≤◌, ◌<◌, ◌∷◌, [], ◌==◌, IfNone, IfOk, None, OnOk, Some, if◌then◌else◌, length, map};
ghost use Rattle.dm_linktable.specs.Slots.{link_at, plain_slot};
ghost use Rattle.dm_onekernel.specs.declared.label.Reply.TheVariants as reply;
ghost use Rattle.dm_onekernel.specs.Calls.{any_empty, holds_reply, is_among, reply_named_twice, send_refusals};
ghost use Rattle.dm_onekernel.specs.Plain.{plain_process};
ghost use Rattle.dm_onekernel.specs.PlainProcess.{reg};
ghost use Rattle.dm_onekernel.specs.Refusals.{first_failed};
ghost use Rattle.dm_syscall.specs.Calls.{after_send, listed, message_over, sends};
ghost use Rattle.dm_syscall.specs.Sends.{emptied, links_in};

use crate::Called;
use crate::calls::{ends_outside, reply};
use crate::links::{empty_slot, link_in};
use arrayvec::ArrayVec;
use dm_datamove::{address_of, body_at};
use dm_link::Link;
use dm_linktable::{FEW_SLOTS, Table, serves_once};
use dm_memory::{NoMemory, Parcel};
use dm_message::{Enclosed, MOST_BODY, MOST_LINKS, Message, MsgId, What};
use dm_onekernel::Reply;
use dm_process::Process;
use dm_processor::Cells;
use std::alloc::Global;

/// Sends a body of r3 bytes at r2, with the links of the r4 slots whose numbers stand at r5, over the link in slot r1.
pub fn send(alloc: Global, process: &mut Process, here: u8) -> Result<Called, NoMemory>
    requires { process.old.sent < u32.MAX }
    ensures called { IfOk result (λ called. called ≡ (sends here process.old (link_at process.old.table (reg process.old.regs 1))).called) }
    ensures process { OnOk result (process.new ≡ (sends here process.old (link_at process.old.table (reg process.old.regs 1))).process) }
{
    match link_in(&process.table, process.regs.r[1]) {
        None => Ok(reply(process, Reply::NoLink)),
        Some(link) => match send_refusal(process) {
            Some(refusal) => Ok(reply(process, refusal)),
            None => {
                let slots = listed(process);
                let message = message_over(alloc, process, link, slots.as_slice(), here)?;
                let message = Parcel::new(alloc, message)?;
                count_sent(process, slots.as_slice());
                Ok(Called::Sent(message))
            },
        },
    }
}

/// Why nothing is sent over a link that is there.
fn send_refusal(process: &Process) -> Option<Reply>
    ensures refusal { result ≡ first_failed (send_refusals (plain_process process.now)) }
    ensures body_short { IfNone result (reg process.now.regs 3 ≤ MOST_BODY) }
    ensures list_short { IfNone result (reg process.now.regs 4 ≤ 4) }
    ensures body_within { IfNone result (reg process.now.regs 2 + reg process.now.regs 3 ≤ length process.now.memory) }
    ensures list_within { IfNone result (reg process.now.regs 5 + reg process.now.regs 4 ≤ length process.now.memory) }
{
    let [_, carrier, base, len, count, list, ..] = process.regs.r;
    if len > most_body(&process.table) || count > MOST_LINKS as u32 {
        Some(Reply::TooLong)
    } else if ends_outside(&process.memory, base, len)
        || ends_outside(&process.memory, list, count)
    {
        Some(Reply::BadRange)
    } else {
        slots_refusal(&process.table, carrier, listed(process).as_slice())
    }
}

/// The most bytes of a body: 64 in a process of 32 slots, 256 in one of 128.
fn most_body(table: &Table) -> u32
    ensures { result ≡ (if length table.now == FEW_SLOTS then 64 else 256) }
{
    if table.cap() == 32 { 64 } else { 256 }
}

/// The slots whose links are to be enclosed.
fn listed(process: &Process) -> ArrayVec<u8, MOST_LINKS>
    requires short { reg process.now.regs 4 ≤ 4 }
    requires within { reg process.now.regs 5 + reg process.now.regs 4 ≤ length process.now.memory }
    ensures { result ≡ record { items = listed process.now } }
{
    let [_, _, _, _, count, list, ..] = process.regs.r;
    let mut bytes = [0; MOST_LINKS];
    let part = &mut bytes[..count as usize];
    process.memory.copy_out(list, part);
    let mut slots = ArrayVec::new();
    slots.try_extend_from_slice(part).unwrap();
    slots
}

/// Why the links of these slots aren't enclosed in what goes over the carrier.
fn slots_refusal(table: &Table, carrier: u32, slots: &[u8]) -> Option<Reply>
    ensures { result ≡ (if any_empty (map plain_slot table.now) slots.now then Some reply.NoLink else if reply_named_twice (map plain_slot table.now)
        (carrier ∷ slots.now) then Some reply.BadKind else None) }
{
    if any_empty(table, slots) {
        Some(Reply::NoLink)
    } else if names_reply_twice(table, carrier, slots) {
        Some(Reply::BadKind)
    } else {
        None
    }
}

/// Whether one of the slots is empty.
fn any_empty(table: &Table, slots: &[u8]) -> bool
    ensures { result ≡ any_empty (map plain_slot table.now) slots.now }
{
    for slot in slots {
        if link_in(table, u32::from(*slot)).is_none() {
            return true;
        }
    }
    false
}

/// Whether a slot holds a reply link.
fn holds_reply(table: &Table, slot: u32) -> bool
    ensures { result ≡ holds_reply (plain_slot (link_at table.now slot)) }
{
    match link_in(table, slot) {
        Some(link) => serves_once(link.kind),
        None => false,
    }
}

/// Whether a slot is among these.
fn is_among(slot: u32, slots: &[u8]) -> bool
    ensures { result ≡ is_among slot slots.now }
{
    for other in slots {
        if slot == u32::from(*other) {
            return true;
        }
    }
    false
}

/// Whether a slot with a reply link is the carrier's and among these, or twice among these.
fn names_reply_twice(table: &Table, carrier: u32, slots: &[u8]) -> bool
    ensures { result ≡ reply_named_twice (map plain_slot table.now) (carrier ∷ slots.now) }
{
    holds_reply(table, carrier) && is_among(carrier, slots) || lists_reply_twice(table, slots)
}

/// Whether a slot with a reply link is twice among these.
fn lists_reply_twice(table: &Table, slots: &[u8]) -> bool
    ensures { result ≡ reply_named_twice (map plain_slot table.now) slots.now }
{
    for (i, slot) in slots.iter().enumerate() {
        if holds_reply(table, u32::from(*slot)) && is_among(u32::from(*slot), &slots[i + 1..]) {
            return true;
        }
    }
    false
}

/// The message that a process sends over a link.
fn message_over(
    alloc: Global,
    process: &Process,
    link: Link,
    slots: &[u8],
    here: u8,
) -> Result<Message, NoMemory>
    requires short { reg process.now.regs 3 ≤ MOST_BODY }
    requires within { reg process.now.regs 2 + reg process.now.regs 3 ≤ length process.now.memory }
    requires few { length slots.now ≤ 4 }
    requires listed { slots.now ≡ listed process.now }
    ensures { IfOk result (λ message. message ≡ message_over here process.now link) }
{
    let body = body_at(alloc, &process.memory, process.regs.r[2], process.regs.r[3])?;
    let links = links_in(&process.table, slots);
    Ok(Message {
        id: MsgId {
            from: process.pid,
            n: process.sent,
            answer: false,
        },
        to: link.addr,
        sender: address_of(process, here),
        what: What::User {
            code: link.code,
            channel: link.channel,
            body,
            links: Enclosed::from_slice(alloc, &links)?,
        },
    })
}

/// The links in these slots, in order.
fn links_in(table: &Table, slots: &[u8]) -> ArrayVec<Link, MOST_LINKS>
    requires { length slots.now ≤ 4 }
    ensures { result ≡ record { items = links_in table.now slots.now } }
{
    let mut links = ArrayVec::new();
    for slot in slots {
        if let Some(link) = link_in(table, u32::from(*slot)) {
            links.push(link);
        }
    }
    links
}

/// Counts a message that was sent: reply links that were used or enclosed leave their slots.
fn count_sent(process: &mut Process, slots: &[u8])
    requires counts { process.old.sent < u32.MAX }
    requires listed { slots.now ≡ listed process.old }
    ensures { process.new ≡ after_send process.old }
{
    let carrier = process.regs.r[1];
    empty_if_reply(&mut process.table, carrier);
    empty_replies(&mut process.table, slots);
    process.sent += 1;
    reply(process, Reply::Done);
}

/// Empties a slot with a reply link.
fn empty_if_reply(table: &mut Table, slot: u32)
    ensures { table.new ≡ emptied table.old (slot ∷ []) }
{
    if holds_reply(table, slot) {
        empty_slot(table, slot);
    }
}

/// Empties those of the slots that hold reply links.
fn empty_replies(table: &mut Table, slots: &[u8])
    ensures { table.new ≡ emptied table.old slots.now }
{
    for slot in slots {
        empty_if_reply(table, u32::from(*slot));
    }
}
