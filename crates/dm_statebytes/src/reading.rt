//! Reading from the left, each field tested as soon as it is there.
ghost use Rattle.std.specs.Prelude.{◌≡◌, ◌⊎◌, ◌*◌, ◌==◌, None, replicate};
ghost use Rattle.dm_packet.specs.Field.{both, number, version};
ghost use Rattle.dm_packet.specs.Fields.{len_from};
ghost use Rattle.dm_packet.specs.Reads.{Reads};
ghost use Rattle.dm_statebytes.specs.Shell.{blocks, front, read_shell, registers, regs, shell, shell_of_bytes};
ghost use Rattle.dm_statebytes.specs.Statuses.{direction, left_from, moving, read_status, status, status_kind, waiting};
ghost use Rattle.dm_statebytes.specs.Table.{mask, read_slots, table};

use crate::status::StatusKind;
use crate::{Shell, StateBytesError, rule_of};
use byteorder::{BigEndian, ByteOrder};
use dm_link::Pid;
use dm_linktable::{FEW_SLOTS, MOST_SLOTS, Table};
use dm_packet::PacketError;
use dm_packet::reading::fields::{addr_at, byte_at, link_at, pid_at, u16_at, u32_at};
use dm_packet::reading::parts::yes_or_no_at;
use dm_process::{Direction, Status};
use dm_processor::Regs;

fn status_kind_at(bytes: &[u8]) -> Result<(StatusKind, &[u8]), PacketError>
    ensures { Reads result (status_kind.read bytes.now) }
{
    let (number, rest) = byte_at(bytes)?;
    match number {
        0 => Ok((StatusKind::Ready, rest)),
        1 => Ok((StatusKind::Waiting, rest)),
        2 => Ok((StatusKind::Moving, rest)),
        _ => Err(PacketError::Flags),
    }
}

/// The size of a buffer at `base` in a memory of `size` bytes.
fn cap_from_at(bytes: &[u8], size: u32, base: u32) -> Result<(u32, &[u8]), PacketError>
    ensures { Reads result ((len_from size base).read bytes.now) }
{
    let (cap, rest) = u32_at(bytes)?;
    if u64::from(base) + u64::from(cap) > u64::from(size) {
        return Err(PacketError::Limit);
    }
    Ok((cap, rest))
}

/// What a waiting process waits for; its memory has `size` bytes.
fn waiting_at(bytes: &[u8], size: u32) -> Result<((u32, (u32, u32)), &[u8]), PacketError>
    ensures { Reads result ((waiting size).read bytes.now) }
{
    let (mask, rest) = u32_at(bytes)?;
    let (base, rest) = u32_at(rest)?;
    let (cap, rest) = cap_from_at(rest, size, base)?;
    Ok(((mask, (base, cap)), rest))
}

fn direction_at(bytes: &[u8]) -> Result<(Direction, &[u8]), PacketError>
    ensures { Reads result (direction.read bytes.now) }
{
    let (number, rest) = byte_at(bytes)?;
    match Direction::numbered(u32::from(number)) {
        Some(direction) => Ok((direction, rest)),
        None => Err(PacketError::Flags),
    }
}

/// How much of a data move is left from `base` in the owner's memory and `own` in a memory of `size` bytes.
fn left_from_at(bytes: &[u8], size: u32, base: u32, own: u32) -> Result<(u32, &[u8]), PacketError>
    ensures { Reads result ((left_from size base own).read bytes.now) }
{
    let (left, rest) = u32_at(bytes)?;
    let is_length = 1 <= left && left <= 65_536;
    let within_area = u64::from(base) + u64::from(left) <= 65_536;
    let within_memory = u64::from(own) + u64::from(left) <= u64::from(size);
    if !(is_length && within_area && within_memory) {
        return Err(PacketError::Limit);
    }
    Ok((left, rest))
}

/// The status of a process whose memory has `size` bytes.
fn status_at(bytes: &[u8], size: u32) -> Result<(Status, &[u8]), PacketError>
    ensures { Reads result ((status size).read bytes.now) }
{
    let (kind, rest) = status_kind_at(bytes)?;
    match kind {
        StatusKind::Ready => Ok((Status::Ready, rest)),
        StatusKind::Waiting => {
            let ((mask, (base, cap)), rest) = waiting_at(rest, size)?;
            Ok((Status::Waiting { mask, base, cap }, rest))
        }
        StatusKind::Moving => moving_at(rest, size),
    }
}

/// The data move of a process whose memory has `size` bytes.
fn moving_at(bytes: &[u8], size: u32) -> Result<(Status, &[u8]), PacketError>
    ensures { Reads result (read_status size StatusKind.Moving bytes.now) }
{
    let (dir, rest) = direction_at(bytes)?;
    let (owner, rest) = addr_at(rest)?;
    let (base, rest) = u32_at(rest)?;
    let (own, rest) = u32_at(rest)?;
    let (left, rest) = left_from_at(rest, size, base, own)?;
    let (pending, rest) = u32_at(rest)?;
    let moving = Status::Moving {
        dir,
        owner,
        base,
        own,
        left,
        pending,
    };
    Ok((moving, rest))
}

fn registers_at(bytes: &[u8]) -> Result<([u32; 16], &[u8]), PacketError>
    ensures { Reads result (registers.read bytes.now) }
{
    let mut registers = [0; 16];
    let mut rest = bytes;
    for place in 0..16 {
        let (value, after) = u32_at(rest)?;
        registers[place] = value;
        rest = after;
    }
    Ok((registers, rest))
}

fn regs_at(bytes: &[u8]) -> Result<(Regs, &[u8]), PacketError>
    ensures { Reads result (regs.read bytes.now) }
{
    let (r, rest) = registers_at(bytes)?;
    let (pc, rest) = u32_at(rest)?;
    Ok((Regs { r, pc }, rest))
}

fn u128_at(bytes: &[u8]) -> Result<(u128, &[u8]), PacketError>
    ensures { Reads result ((number 16).read bytes.now) }
{
    if bytes.len() < 16 {
        return Err(PacketError::Missing);
    }
    Ok((BigEndian::read_u128(bytes), &bytes[16..]))
}

/// Which slots of a table hold a link, bit s for slot s.
fn mask_at(bytes: &[u8], cap: u8) -> Result<(u128, &[u8]), PacketError>
    requires { (cap ≡ FEW_SLOTS) ⊎ (cap ≡ MOST_SLOTS) }
    ensures { Reads result ((mask cap).read bytes.now) }
{
    let (mask, rest) = u128_at(bytes)?;
    if cap == 32 && mask >= 1 << 32 {
        return Err(PacketError::Limit);
    }
    Ok((mask, rest))
}

/// The empty table with the links that stand for the bits of the mask.
fn slots_at(bytes: &[u8], mask: u128, cap: u8, empty: Table) -> Result<(Table, &[u8]), PacketError>
    requires cap { (cap ≡ FEW_SLOTS) ⊎ (cap ≡ MOST_SLOTS) }
    requires empty { empty ≡ replicate cap None }
    ensures { Reads result (read_slots cap mask bytes.now) }
{
    let mut table = empty;
    let mut left = mask;
    let mut rest = bytes;
    for slot in 0..cap {
        if left % 2 == 1 {
            let (link, after) = link_at(rest)?;
            table.place(slot, link);
            rest = after;
        }
        left /= 2;
    }
    Ok((table, rest))
}

fn table_at(bytes: &[u8], cap: u8, empty: Table) -> Result<(Table, &[u8]), PacketError>
    requires cap { (cap ≡ FEW_SLOTS) ⊎ (cap ≡ MOST_SLOTS) }
    requires empty { empty ≡ replicate cap None }
    ensures { Reads result ((table cap).read bytes.now) }
{
    let (mask, rest) = mask_at(bytes, cap)?;
    slots_at(rest, mask, cap, empty)
}

/// How many blocks of 256 bytes a process has.
fn blocks_at(bytes: &[u8]) -> Result<(u16, &[u8]), PacketError>
    ensures { Reads result (blocks.read bytes.now) }
{
    let (blocks, rest) = u16_at(bytes)?;
    if blocks < 1 || blocks > 256 {
        return Err(PacketError::Limit);
    }
    Ok((blocks, rest))
}

fn version_at(bytes: &[u8]) -> Result<(u8, &[u8]), PacketError>
    ensures { Reads result ((version 3).read bytes.now) }
{
    let (version, rest) = byte_at(bytes)?;
    if version != 3 {
        return Err(PacketError::Version);
    }
    Ok((version, rest))
}

/// What is served of a process: its status, how many messages it has sent and how often it has moved, and its registers.
type Served = (Status, (u32, (u32, Regs)));

/// What is served of a process of so many blocks.
fn served_at(bytes: &[u8], blocks: u16) -> Result<(Served, &[u8]), PacketError>
    ensures { Reads result ((both (status (256 * blocks)) (λ _. both (number 4) (λ _. both (number 4) (λ _. regs)))).read bytes.now) }
{
    let (status, rest) = status_at(bytes, 256 * u32::from(blocks))?;
    let (sent, rest) = u32_at(rest)?;
    let (moves, rest) = u32_at(rest)?;
    let (regs, rest) = regs_at(rest)?;
    Ok(((status, (sent, (moves, regs))), rest))
}

/// What stands before the links: the version, the name, the blocks, whether it is stopped, and what is served.
type Front = (u8, (Pid, (u16, (bool, Served))));

fn front_at(bytes: &[u8]) -> Result<(Front, &[u8]), PacketError>
    ensures { Reads result (front.read bytes.now) }
{
    let (version, rest) = version_at(bytes)?;
    let (pid, rest) = pid_at(rest)?;
    let (blocks, rest) = blocks_at(rest)?;
    let (stopped, rest) = yes_or_no_at(rest, PacketError::Flags)?;
    let (served, rest) = served_at(rest, blocks)?;
    let front = (version, (pid, (blocks, (stopped, served))));
    Ok((front, rest))
}

/// A process with a table of so many slots, which is empty yet.
fn shell_at(bytes: &[u8], cap: u8, empty: Table) -> Result<(Shell, &[u8]), PacketError>
    requires cap { (cap ≡ FEW_SLOTS) ⊎ (cap ≡ MOST_SLOTS) }
    requires empty { empty ≡ replicate cap None }
    ensures { Reads result ((shell cap).read bytes.now) }
{
    let (front, rest) = front_at(bytes)?;
    let (table, rest) = table_at(rest, cap, empty)?;
    let (_, (pid, (blocks, (stopped, (status, (sent, (moves, regs))))))) = front;
    let shell = Shell {
        pid,
        blocks,
        stopped,
        status,
        sent,
        moves,
        regs,
        table,
    };
    Ok((shell, rest))
}

/// Whether the bytes end where so many are left.
fn is_end(left: usize) -> bool
    ensures { result ≡ (left == 0) }
{
    left == 0
}

/// The process that the bytes spell, all of them, or the first rule that they break.
fn whole_at(bytes: &[u8], cap: u8, empty: Table) -> Result<Shell, PacketError>
    requires cap { (cap ≡ FEW_SLOTS) ⊎ (cap ≡ MOST_SLOTS) }
    requires empty { empty ≡ replicate cap None }
    ensures { result ≡ read_shell bytes.now cap }
{
    let (shell, rest) = shell_at(bytes, cap, empty)?;
    if !is_end(rest.len()) {
        return Err(PacketError::Trailing);
    }
    Ok(shell)
}

/// The same, with the rule as one of state bytes.
#[tactic(auto, unfolding(crate::specs::Shell::shell_of_bytes))]
pub fn state_at(bytes: &[u8], cap: u8, empty: Table) -> Result<Shell, StateBytesError>
    requires cap { (cap ≡ FEW_SLOTS) ⊎ (cap ≡ MOST_SLOTS) }
    requires empty { empty ≡ replicate cap None }
    ensures { result ≡ shell_of_bytes bytes.now cap }
{
    match whole_at(bytes, cap, empty) {
        Ok(shell) => Ok(shell),
        Err(bad) => Err(rule_of(bad)),
    }
}
