//! The calls by number.
ghost use Rattle.std.specs.Prelude.{◌≡◌, ◌+◌, ◌≤◌, ◌<◌, IfOk, OnOk, Some, length, nat_lt};
ghost use Rattle.dm_process.specs.Lawful.{IsLawfulProcess};
ghost use Rattle.dm_onekernel.specs.Calls as kernel;
ghost use Rattle.dm_onekernel.specs.Plain.{plain_process};
ghost use Rattle.dm_syscall.specs.Calls.{calls, outputs, replied, waits};
ghost use Rattle.dm_syscall.specs.Plainly.{IsLawfulCalled, plain_called};

use crate::Called;
use crate::links::{copy, drop_link, make};
use crate::number::Call;
use crate::send::send;
use crate::transfer::transfer;
use dm_link::MACHINES;
use dm_memory::NoMemory;
use dm_onekernel::{Reply, Why};
use dm_process::{Process, Status};
use dm_processor::{Cells, Memory};
use std::alloc::Global;

/// Does the call with a number for a process on machine `here`, whose program counter is past the instruction. Only a message that
/// it sends takes memory.
pub fn call(alloc: Global, process: &mut Process, number: u8, here: u8) -> Result<Called, NoMemory>
    requires lawful { IsLawfulProcess process.old }
    requires here { here < MACHINES }
    requires counts { process.old.sent < u32.MAX }
    ensures called { IfOk result (λ called. called ≡ (calls here process.old number).called) }
    ensures process { OnOk result (process.new ≡ (calls here process.old number).process) }
    ensures plain { IfOk result (λ called. plain_called called process.new ≡ Some (kernel.call process.old.pid (plain_process process.old) number)) }
    ensures lawful { OnOk result (IsLawfulProcess process.new) }
    ensures lawful_message { IfOk result IsLawfulCalled }
    ensures counted { OnOk result (process.new.sent ≤ process.old.sent + 1) }
{
    let called = dispatch(alloc, process, number, here)?;
    Ok(called)
}

/// Does the call with a number.
fn dispatch(alloc: Global, process: &mut Process, number: u8, here: u8) -> Result<Called, NoMemory>
    requires lawful { IsLawfulProcess process.old }
    requires here { here < MACHINES }
    requires counts { process.old.sent < u32.MAX }
    ensures called { IfOk result (λ called. called ≡ (calls here process.old number).called) }
    ensures process { OnOk result (process.new ≡ (calls here process.old number).process) }
{
    match Call::from_number(number) {
        Some(Call::Exit) => Ok(Called::Ended(Why::Exit)),
        Some(Call::Out) => Ok(out(process)),
        Some(Call::Make) => Ok(make(process, here)),
        Some(Call::Copy) => Ok(copy(process)),
        Some(Call::Drop) => Ok(drop_link(process)),
        Some(Call::Send) => send(alloc, process, here),
        Some(Call::Receive) => Ok(receive(process)),
        Some(Call::Move) => transfer(alloc, process, here),
        None => Ok(Called::Ended(Why::UnknownCall)),
    }
}

/// Ends a call with a reply in register 0.
pub fn reply(process: &mut Process, reply: Reply) -> Called
    ensures called { result ≡ (replied reply process.old).called }
    ensures process { process.new ≡ (replied reply process.old).process }
{
    process.regs.r[0] = u32::from(reply.code());
    Called::Replied(reply)
}

/// Puts out the word in register 1.
fn out(process: &mut Process) -> Called
    ensures called { result ≡ (outputs process.old).called }
    ensures process { process.new ≡ (outputs process.old).process }
{
    let word = process.regs.r[1];
    reply(process, Reply::Done);
    Called::Out(word)
}

/// Whether so many bytes at an address end outside the memory.
pub fn ends_outside(memory: &Memory, base: u32, len: u32) -> bool
    ensures { result ≡ nat_lt (length memory.now) (base + len) }
{
    u64::from(memory.len()) < u64::from(base) + u64::from(len)
}

/// Waits for a message on a channel of mask r1, to come into r3 bytes at r2.
fn receive(process: &mut Process) -> Called
    ensures called { result ≡ (waits process.old).called }
    ensures process { process.new ≡ (waits process.old).process }
{
    let [_, mask, base, cap, ..] = process.regs.r;
    if ends_outside(&process.memory, base, cap) {
        reply(process, Reply::BadRange)
    } else {
        process.status = Status::Waiting { mask, base, cap };
        Called::Waits
    }
}
