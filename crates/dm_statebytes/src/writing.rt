//! Writing from the left, field after field.
ghost use Rattle.std.specs.Prelude.{◌≡◌, ◌++◌, ◌≤◌, OnOk, [], length};
ghost use Rattle.std.specs.List.{All, flat_map};
ghost use Rattle.dm_packet.specs.Field.{number};
ghost use Rattle.dm_packet.specs.Fields.{link as link_field};
ghost use Rattle.dm_packet.specs.Widths.{Fits, FitsAddr, FitsLink, FitsPid};
ghost use Rattle.dm_packet.specs.Writes.{HasRoom, Puts};
ghost use Rattle.dm_statebytes.specs.Shell.{front, regs as regs_field, shell_front, shell_of};
ghost use Rattle.dm_statebytes.specs.Statuses.{moving, spell_status, status_kind, waiting};
ghost use Rattle.dm_statebytes.specs.Table.{mask_of, spell_slot};
ghost use Rattle.dm_statebytes.specs.Widths.{FitsSlot, FitsStatus};

use crate::status::StatusKind;
use byteorder::{BigEndian, ByteOrder};
use dm_link::{Addr, Link};
use dm_linktable::Table;
use dm_memory::{NoMemory, extend_from_slice};
use dm_packet::writing::Buffer;
use dm_packet::writing::fields::{
    put_addr, put_bool, put_byte, put_bytes, put_link, put_pid, put_u16, put_u32,
};
use dm_process::{Direction, Process, Status};
use dm_processor::{REGISTERS, Regs};

/// What is waited for.
fn put_waiting(out: &mut Buffer, mask: u32, base: u32, cap: u32)
    requires room { HasRoom out.old ((waiting 0).spell (mask, (base, cap))) }
    ensures put { Puts out.old out.new ((waiting 0).spell (mask, (base, cap))) }
    ensures mask { Fits 4 mask }
    ensures base { Fits 4 base }
    ensures cap { Fits 4 cap }
{
    put_u32(out, mask);
    put_u32(out, base);
    put_u32(out, cap);
}

/// A data move.
fn put_moving(
    out: &mut Buffer,
    dir: Direction,
    owner: Addr,
    base: u32,
    own: u32,
    left: u32,
    pending: u32,
)
    requires room { HasRoom out.old ((moving 0).spell (dir, (owner, (base, (own, (left, pending)))))) }
    ensures put { Puts out.old out.new ((moving 0).spell (dir, (owner, (base, (own, (left, pending)))))) }
    ensures owner { FitsAddr owner }
    ensures base { Fits 4 base }
    ensures own { Fits 4 own }
    ensures left { Fits 4 left }
    ensures pending { Fits 4 pending }
{
    put_byte(out, dir.number());
    put_addr(out, owner);
    put_u32(out, base);
    put_u32(out, own);
    put_u32(out, left);
    put_u32(out, pending);
}

fn put_status_kind(out: &mut Buffer, kind: StatusKind)
    requires room { HasRoom out.old (status_kind.spell kind) }
    ensures put { Puts out.old out.new (status_kind.spell kind) }
{
    let number = match kind {
        StatusKind::Ready => 0,
        StatusKind::Waiting => 1,
        StatusKind::Moving => 2,
    };
    put_byte(out, number);
}

fn put_status(out: &mut Buffer, status: Status)
    requires room { length out.old.items ≤ 100 }
    ensures put { Puts out.old out.new (spell_status 0 status) }
    ensures fits { FitsStatus status }
{
    match status {
        Status::Ready => put_status_kind(out, StatusKind::Ready),
        Status::Waiting { mask, base, cap } => {
            put_status_kind(out, StatusKind::Waiting);
            put_waiting(out, mask, base, cap);
        }
        Status::Moving {
            dir,
            owner,
            base,
            own,
            left,
            pending,
        } => {
            put_status_kind(out, StatusKind::Moving);
            put_moving(out, dir, owner, base, own, left, pending);
        }
    }
}

fn put_registers(out: &mut Buffer, registers: &[u32])
    requires room { HasRoom out.old (flat_map (number 4).spell registers.now) }
    ensures put { Puts out.old out.new (flat_map (number 4).spell registers.now) }
    ensures fits { All (Fits 4) registers.now }
{
    for value in registers {
        put_u32(out, *value);
    }
}

/// The registers and the program counter.
fn put_regs(out: &mut Buffer, regs: &Regs)
    requires room { length out.old.items ≤ 100 }
    requires registers { length regs.now.r ≡ REGISTERS }
    ensures put { Puts out.old out.new (regs_field.spell regs.now) }
    ensures registers { All (Fits 4) regs.now.r }
    ensures pc { Fits 4 regs.now.pc }
{
    put_registers(out, &regs.r);
    put_u32(out, regs.pc);
}

/// How many messages a process has sent, and how often it has moved.
fn counts_of(process: &Process) -> (u32, u32)
    ensures { result ≡ (process.now.sent, process.now.moves) }
{
    (process.sent, process.moves)
}

/// What stands before the links, where nothing was put yet.
pub fn put_front(out: &mut Buffer, process: &Process)
    requires empty { out.old.items ≡ [] }
    requires registers { length process.now.regs.r ≡ REGISTERS }
    ensures put { Puts out.old out.new (front.spell (shell_front (shell_of process.now))) }
    ensures pid { FitsPid process.now.pid }
    ensures status { FitsStatus process.now.status }
    ensures sent { Fits 4 process.now.sent }
    ensures moves { Fits 4 process.now.moves }
    ensures registers { All (Fits 4) process.now.regs.r }
    ensures pc { Fits 4 process.now.regs.pc }
{
    put_byte(out, 3);
    put_pid(out, process.pid);
    put_u16(out, process.memory.blocks());
    put_bool(out, process.stopped);
    put_status(out, process.status);
    let (sent, moves) = counts_of(process);
    put_u32(out, sent);
    put_u32(out, moves);
    put_regs(out, &process.regs);
}

/// Which slots hold a link, bit s for slot s.
fn mask_of(table: &Table) -> u128
    ensures { result ≡ mask_of table.now }
{
    let mut mask = 0;
    let mut slot = table.cap();
    while slot > 0 {
        slot -= 1;
        mask = 2 * mask + u128::from(table.get(slot).is_some());
    }
    mask
}

/// The mask of a table.
pub fn put_mask(out: &mut Buffer, table: &Table)
    requires room { length out.old.items ≤ 1000 }
    ensures put { Puts out.old out.new ((number 16).spell (mask_of table.now)) }
{
    let mut bytes = [0; 16];
    BigEndian::write_u128(&mut bytes, mask_of(table));
    put_bytes(out, &bytes);
}

/// Puts a link at the end, by way of room that is lent.
fn extend_with_link(out: &mut Vec<u8>, link: &Link, room: &mut Buffer) -> Result<(), NoMemory>
    ensures ok { OnOk result (out.new.items ≡ out.old.items ++ link_field.spell link.now) }
    ensures fits { FitsLink link.now }
{
    room.clear();
    put_link(room, link);
    extend_from_slice(out, room)
}

/// Puts the links of a table at the end, in the order of their slots, by way of room that is lent.
pub fn extend_with_links(
    out: &mut Vec<u8>,
    table: &Table,
    room: &mut Buffer,
) -> Result<(), NoMemory>
    ensures ok { OnOk result (out.new.items ≡ out.old.items ++ flat_map spell_slot table.now) }
    ensures fits { OnOk result (All FitsSlot table.now) }
{
    for slot in 0..table.cap() {
        if let Some(link) = table.get(slot) {
            extend_with_link(out, link, room)?;
        }
    }
    Ok(())
}
