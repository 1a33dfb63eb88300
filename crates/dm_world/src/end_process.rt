//! The lines of a process at the end of a run.
ghost use Rattle.std.specs.Prelude.{◌≡◌, ◌≤◌, ◌++◌, ◌/◌, IfOk, OnOk, length, take, true};
ghost use Rattle.dm_line.specs.Ends.{block_line, memory_lines, trimmed};
ghost use Rattle.dm_line.specs.declared.end_line.Standing.TheVariants as standing_;
ghost use Rattle.dm_migrate.specs.Arrival.{restarted, revived};
ghost use Rattle.dm_onekernel.specs.Boot.{IsValid};
ghost use Rattle.dm_world.specs.Ends.{SaysSome, alive_lines, come_lines, come_whole, doing_of, link_lines, parts_lines};

use crate::end_lines::say_resident;
use crate::end_servers::server_of;
use arrayvec::ArrayVec;
use dm_line::end_line::{Doing, EndLine, Standing};
use dm_link::Pid;
use dm_linktable::Table;
use dm_memory::{NoMemory, push};
use dm_migrate::{Arriving, Wanted};
use dm_onekernel::Boot;
use dm_process::{Process, Status};
use dm_processor::{BLOCK, Memory, Regs};
use dm_statebytes::Shell;
use std::alloc::Global;

/// The lines of a process that machine `m` has: how it stands there, its registers, its memory and its links.
pub fn say_alive(
    m: u8,
    pid: Pid,
    standing: Standing,
    process: &Process,
    lines: &mut Vec<EndLine>,
) -> Result<(), NoMemory>
    ensures { OnOk result (lines.new.items ≡ lines.old.items ++ alive_lines m pid standing process.now) }
{
    push(
        lines,
        EndLine::Process {
            pid,
            at: m,
            standing,
            doing: doing(process.status),
            stopped: process.stopped,
            sent: process.sent,
        },
    )?;
    say_parts(pid, &process.regs, &process.memory, &process.table, lines)
}

/// The lines of a process or a server that comes to machine `m`, if all of it has come; whether it has.
pub fn say_arriving(
    alloc: Global,
    m: u8,
    boot: &Boot,
    pid: Pid,
    arriving: &Arriving,
    lines: &mut Vec<EndLine>,
) -> Result<bool, NoMemory>
    requires { IsValid boot.now }
    ensures { IfOk result (λ said. SaysSome said lines.old.items lines.new.items (come_lines m pid (come_whole boot.now arriving.now arriving.now.wanted))) }
{
    match arriving.wanted() {
        Wanted::Nothing => {
            say_arrived(alloc, m, boot, pid, arriving, lines)?;
            Ok(true)
        }
        Wanted::Chunk(_) => Ok(false),
        Wanted::Block(_) => Ok(false),
    }
}

/// The lines of a process or a server of which all has come to machine `m`.
fn say_arrived(
    alloc: Global,
    m: u8,
    boot: &Boot,
    pid: Pid,
    arriving: &Arriving,
    lines: &mut Vec<EndLine>,
) -> Result<(), NoMemory>
    requires boot { IsValid boot.now }
    requires whole { arriving.now.wanted ≡ Wanted.Nothing }
    ensures { OnOk result (SaysSome true lines.old.items lines.new.items (come_lines m pid (restarted (length boot.now.machines) (length boot.now.images) arriving.now))) }
{
    if arriving.is_process() {
        let table = Table::new(alloc, arriving.cap())?;
        say_come(m, pid, &arriving.shell(table), arriving.memory(), lines)?;
        return Ok(());
    }
    let server = server_of(boot, arriving)?;
    say_resident(m, pid, Standing::Arriving, &server, lines)?;
    Ok(())
}

/// The lines of a process that has come to machine `m` and isn't served yet.
fn say_come(
    m: u8,
    pid: Pid,
    shell: &Shell,
    memory: &Memory,
    lines: &mut Vec<EndLine>,
) -> Result<(), NoMemory>
    ensures { OnOk result (lines.new.items ≡ lines.old.items ++ alive_lines m pid standing_.Arriving (revived shell.now memory.now)) }
{
    push(
        lines,
        EndLine::Process {
            pid,
            at: m,
            standing: Standing::Arriving,
            doing: doing(shell.status),
            stopped: shell.stopped,
            sent: shell.sent,
        },
    )?;
    say_parts(pid, &shell.regs, memory, &shell.table, lines)
}

/// The registers, the memory and the links.
fn say_parts(
    pid: Pid,
    regs: &Regs,
    memory: &Memory,
    table: &Table,
    lines: &mut Vec<EndLine>,
) -> Result<(), NoMemory>
    ensures { OnOk result (lines.new.items ≡ lines.old.items ++ parts_lines pid regs.now memory.now table.now) }
{
    push(
        lines,
        EndLine::Registers {
            pid,
            r: regs.r,
            pc: regs.pc,
        },
    )?;
    say_memory(pid, memory, lines)?;
    say_links(pid, table, lines)
}

/// What the lines say of a status: not which request is under way.
fn doing(status: Status) -> Doing
    ensures { result ≡ doing_of status }
{
    match status {
        Status::Ready => Doing::Ready,
        Status::Waiting { mask, base, cap } => Doing::Waiting { mask, base, cap },
        Status::Moving {
            dir,
            owner,
            base,
            own,
            left,
            ..
        } => Doing::Moving {
            dir,
            owner: owner.pid,
            base,
            own,
            left,
        },
    }
}

/// The blocks of a memory, but for those of zeros alone.
fn say_memory(pid: Pid, memory: &Memory, lines: &mut Vec<EndLine>) -> Result<(), NoMemory>
    ensures { OnOk result (lines.new.items ≡ lines.old.items ++ memory_lines pid memory.now (length memory.now / BLOCK)) }
{
    for block in 0..memory.blocks() {
        let block = block as u8;
        say_block(pid, block, memory.block(block), lines)?;
    }
    Ok(())
}

/// The bytes of a block up to the last that isn't 0, if there is one.
fn say_block(
    pid: Pid,
    block: u8,
    bytes: &[u8; 256],
    lines: &mut Vec<EndLine>,
) -> Result<(), NoMemory>
    ensures { OnOk result (lines.new.items ≡ lines.old.items ++ block_line pid block (trimmed bytes.now)) }
{
    let shown = shown(bytes);
    if shown > 0 {
        let mut bytes_shown = ArrayVec::new();
        let _ = bytes_shown.try_extend_from_slice(&bytes[..shown]);
        push(
            lines,
            EndLine::Memory {
                pid,
                block,
                bytes: bytes_shown,
            },
        )?;
    }
    Ok(())
}

/// How many bytes there are up to the last that isn't 0.
fn shown(bytes: &[u8]) -> usize
    ensures within { result ≤ length bytes.now }
    ensures bytes { take result bytes.now ≡ trimmed bytes.now }
{
    let mut end = 0;
    for place in 0..bytes.len() {
        if bytes[place] != 0 {
            end = place + 1;
        }
    }
    end
}

/// The links of a table, slot by slot.
fn say_links(pid: Pid, table: &Table, lines: &mut Vec<EndLine>) -> Result<(), NoMemory>
    ensures { OnOk result (lines.new.items ≡ lines.old.items ++ link_lines pid 0 table.now) }
{
    for slot in 0..table.cap() {
        if let Some(link) = table.get(slot) {
            push(
                lines,
                EndLine::Link {
                    pid,
                    slot,
                    link: *link,
                },
            )?;
        }
    }
    Ok(())
}
