//! Calls on the links of a process: MAKE, COPY, DROP.
ghost use Rattle.std.specs.Prelude.{◌≡◌, ◌≤◌, None, slice_set};
ghost use Rattle.dm_linktable.specs.Slots.{first_empty, link_at};
ghost use Rattle.dm_onekernel.specs.Calls.{has_flag, kind_of_flag, make_refusals};
ghost use Rattle.dm_onekernel.specs.Plain.{plain_process};
ghost use Rattle.dm_onekernel.specs.PlainProcess.{reg};
ghost use Rattle.dm_onekernel.specs.Refusals.{first_failed};
ghost use Rattle.dm_syscall.specs.Calls.{copies, drops, makes, own_link, puts_link};

use crate::Called;
use crate::calls::{ends_outside, reply};
use dm_datamove::address_of;
use dm_link::{Area, Kind, LAST_CHANNEL, Link};
use dm_linktable::{Table, serves_once};
use dm_onekernel::Reply;
use dm_process::Process;

/// The flags of MAKE in register 3, which are added up.
const REPLY: u32 = 1;

const READ: u32 = 2;

const WRITE: u32 = 4;

/// The link in a slot, if there is one.
pub fn link_in(table: &Table, slot: u32) -> Option<Link>
    ensures { result ≡ link_at table.now slot }
{
    if slot < u32::from(table.cap()) {
        table.get(slot as u8).copied()
    } else {
        None
    }
}

/// Empties a slot, if there is such a slot.
pub fn empty_slot(table: &mut Table, slot: u32)
    ensures { table.new ≡ slice_set table.old slot None }
{
    if slot < u32::from(table.cap()) {
        table.take(slot as u8);
    }
}

/// Whether a flag is among those added up.
fn has_flag(flag: u32, flags: u32) -> bool
    requires { 1 ≤ flag }
    ensures { result ≡ has_flag flag flags }
{
    flags / flag % 2 == 1
}

/// The kind of a link that is made.
fn kind_of_flag(reply: bool) -> Kind
    ensures { result ≡ kind_of_flag reply }
{
    if reply { Kind::Reply } else { Kind::General }
}

/// Makes a link to the process itself, on machine `here`: code r1, channel r2, flags r3, an area of r5 bytes at r4.
pub fn make(process: &mut Process, here: u8) -> Called
    ensures called { result ≡ (makes here process.old).called }
    ensures process { process.new ≡ (makes here process.old).process }
{
    match make_refusal(process) {
        Some(refusal) => reply(process, refusal),
        None => {
            let link = own_link(process, here);
            put(process, link)
        },
    }
}

/// Why no link is made.
fn make_refusal(process: &Process) -> Option<Reply>
    ensures { result ≡ first_failed (make_refusals (plain_process process.now)) }
{
    let [_, _, channel, flags, base, len, ..] = process.regs.r;
    if flags > REPLY + READ + WRITE {
        Some(Reply::BadKind)
    } else if channel > u32::from(LAST_CHANNEL) || ends_outside(&process.memory, base, len) {
        Some(Reply::BadRange)
    } else {
        None
    }
}

/// A link to the process itself, where it is now.
fn own_link(process: &Process, here: u8) -> Link
    requires { reg process.now.regs 2 ≤ LAST_CHANNEL }
    ensures { result ≡ own_link here process.now }
{
    let [_, code, channel, flags, base, len, ..] = process.regs.r;
    Link {
        addr: address_of(process, here),
        kind: kind_of_flag(has_flag(REPLY, flags)),
        to_kernel: false,
        code,
        channel: channel as u8,
        area: Area {
            base,
            len,
            read: has_flag(READ, flags),
            write: has_flag(WRITE, flags),
        },
    }
}

/// Puts a link into the lowest empty slot, whose number register 1 then holds.
fn put(process: &mut Process, link: Link) -> Called
    ensures called { result ≡ (puts_link process.old link (first_empty process.old.table)).called }
    ensures process { process.new ≡ (puts_link process.old link (first_empty process.old.table)).process }
{
    match process.table.put(link) {
        Ok(slot) => {
            let called = reply(process, Reply::Done);
            process.regs.r[1] = u32::from(slot);
            called
        },
        Err(_) => reply(process, Reply::TableFull),
    }
}

/// Copies the general link in slot r1.
pub fn copy(process: &mut Process) -> Called
    ensures called { result ≡ (copies process.old (link_at process.old.table (reg process.old.regs 1))).called }
    ensures process { process.new ≡ (copies process.old (link_at process.old.table (reg process.old.regs 1))).process }
{
    match link_in(&process.table, process.regs.r[1]) {
        None => reply(process, Reply::NoLink),
        Some(link) if serves_once(link.kind) => reply(process, Reply::NotCopyable),
        Some(link) => put(process, link),
    }
}

/// Empties slot r1.
pub fn drop_link(process: &mut Process) -> Called
    ensures called { result ≡ (drops process.old (link_at process.old.table (reg process.old.regs 1))).called }
    ensures process { process.new ≡ (drops process.old (link_at process.old.table (reg process.old.regs 1))).process }
{
    let slot = process.regs.r[1];
    match link_in(&process.table, slot) {
        None => reply(process, Reply::NoLink),
        Some(_) => {
            empty_slot(&mut process.table, slot);
            reply(process, Reply::Done)
        },
    }
}
