//! The call MOVE, which begins a data move.
ghost use Rattle.std.specs.Prelude.{◌≡◌, ◌+◌, ◌≤◌, ◌<◌, IfNone, IfOk, OnOk, length};
ghost use Rattle.dm_link.specs.Lawful.{IsLawfulEnclosed};
ghost use Rattle.dm_link.specs.Plain.{plain_link};
ghost use Rattle.dm_linktable.specs.Slots.{link_at};
ghost use Rattle.dm_onekernel.specs.Calls.{lacks_right, move_refusals};
ghost use Rattle.dm_onekernel.specs.Plain.{plain_process};
ghost use Rattle.dm_onekernel.specs.PlainProcess.{reg};
ghost use Rattle.dm_onekernel.specs.Refusals.{first_failed};
ghost use Rattle.dm_process.specs.Directions.{direction_numbered};
ghost use Rattle.dm_process.specs.Lawful.{IsLawfulProcess};
ghost use Rattle.dm_syscall.specs.Calls.{moves, moves_bytes, moves_over};

use crate::Called;
use crate::calls::{ends_outside, reply};
use crate::links::link_in;
use dm_datamove::{Rest, request};
use dm_link::{Area, Link, MACHINES};
use dm_memory::{NoMemory, Parcel};
use dm_onekernel::Reply;
use dm_process::{Direction, Process};
use std::alloc::Global;

/// Moves r5 bytes from the area of the link in slot r1 (r2 is 0) or into it (1), at r3 there and at r4 in the process's
/// own memory.
pub fn transfer(alloc: Global, process: &mut Process, here: u8) -> Result<Called, NoMemory>
    requires lawful { IsLawfulProcess process.old }
    requires here { here < MACHINES }
    requires counts { process.old.sent < u32.MAX }
    ensures called { IfOk result (λ called. called ≡ (moves here process.old (link_at process.old.table (reg process.old.regs 1))).called) }
    ensures process { OnOk result (process.new ≡ (moves here process.old (link_at process.old.table (reg process.old.regs 1))).process) }
{
    match link_in(&process.table, process.regs.r[1]) {
        None => Ok(reply(process, Reply::NoLink)),
        Some(link) => transfer_over(alloc, process, link, here),
    }
}

/// Begins a move over a link that is there, or refuses to.
fn transfer_over(
    alloc: Global,
    process: &mut Process,
    link: Link,
    here: u8,
) -> Result<Called, NoMemory>
    requires lawful { IsLawfulProcess process.old }
    requires link { IsLawfulEnclosed link }
    requires here { here < MACHINES }
    requires counts { process.old.sent < u32.MAX }
    ensures called { IfOk result (λ called. called ≡ (moves_over here process.old link (direction_numbered (reg process.old.regs 2))).called) }
    ensures process { OnOk result (process.new ≡ (moves_over here process.old link (direction_numbered (reg process.old.regs 2))).process) }
{
    match Direction::numbered(process.regs.r[2]) {
        None => Ok(reply(process, Reply::BadKind)),
        Some(dir) => match transfer_refusal(process, &link, dir) {
            Some(refusal) => Ok(reply(process, refusal)),
            None => begin(alloc, process, link, dir, here),
        },
    }
}

/// Why no bytes are moved that way over a link.
fn transfer_refusal(process: &Process, link: &Link, dir: Direction) -> Option<Reply>
    ensures refusal { result ≡ first_failed (move_refusals (plain_process process.now) (plain_link link.now) dir) }
    ensures area { IfNone result (reg process.now.regs 3 + reg process.now.regs 5 ≤ link.now.area.len) }
    ensures own { IfNone result (reg process.now.regs 4 + reg process.now.regs 5 ≤ length process.now.memory) }
{
    let [_, _, _, offset, own, len, ..] = process.regs.r;
    if lacks_right(dir, &link.area) {
        Some(Reply::NoRight)
    } else if u64::from(link.area.len) < u64::from(offset) + u64::from(len)
        || ends_outside(&process.memory, own, len)
    {
        Some(Reply::BadRange)
    } else {
        None
    }
}

/// Whether the area may not be read, or written.
fn lacks_right(dir: Direction, area: &Area) -> bool
    ensures { result ≡ lacks_right dir area.now }
{
    match dir {
        Direction::FromArea => !area.read,
        Direction::IntoArea => !area.write,
    }
}

/// Sends the first request; a move of nothing is done at once.
fn begin(
    alloc: Global,
    process: &mut Process,
    link: Link,
    dir: Direction,
    here: u8,
) -> Result<Called, NoMemory>
    requires lawful { IsLawfulProcess process.old }
    requires link { IsLawfulEnclosed link }
    requires area { reg process.old.regs 3 + reg process.old.regs 5 ≤ link.area.len }
    requires own { reg process.old.regs 4 + reg process.old.regs 5 ≤ length process.old.memory }
    requires here { here < MACHINES }
    requires counts { process.old.sent < u32.MAX }
    ensures called { IfOk result (λ called. called ≡ (moves_bytes here process.old link dir).called) }
    ensures process { OnOk result (process.new ≡ (moves_bytes here process.old link dir).process) }
{
    let [_, _, _, offset, own, left, ..] = process.regs.r;
    if left == 0 {
        return Ok(reply(process, Reply::Done));
    }
    let rest = Rest {
        dir,
        owner: link.addr,
        base: link.area.base + offset,
        own,
        left,
    };
    let request = request(alloc, process, rest, here)?;
    let request = Parcel::new(alloc, request)?;
    Ok(Called::Moving(request))
}
