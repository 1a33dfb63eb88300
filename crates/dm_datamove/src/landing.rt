//! The landing of pieces at the mover.
ghost use Rattle.std.specs.Prelude.{◌≡◌, ◌↔◌, ◌+◌, ◌≤◌, ◌<◌, IfOk, OnErr, OnOk, Some, length};
ghost use Rattle.dm_message.specs.declared.What.TheVariants as what;
ghost use Rattle.dm_message.specs.Lawful.{IsLawfulMessage};
ghost use Rattle.dm_message.specs.Plain.{plain_message};
ghost use Rattle.dm_process.specs.declared.Direction.TheVariants as direction;
ghost use Rattle.dm_process.specs.Lawful.{IsLawfulProcess};
ghost use Rattle.dm_onekernel.specs.declared.label.Reply.TheVariants as reply;
ghost use Rattle.dm_datamove.specs.declared.Landed.TheVariants as landed_;
ghost use Rattle.dm_datamove.specs.Landing.{IsAnswerOf, IsAwaited, IsLawfulLanded, done, goes_on, landing, lands_what, plain_landed, plainly_landed};

use crate::requests::{piece_of, send_request};
use crate::{Landed, Rest};
use dm_link::MACHINES;
use dm_memory::NoMemory;
use dm_message::{Message, What};
use dm_onekernel::Reply;
use dm_process::{Direction, Process, Status};
use dm_processor::{Cells, MOST_MEMORY};
use std::alloc::Global;

/// Ends the move with a reply in register 0.
fn end(process: &mut Process, reply: Reply) -> Landed
    ensures landed { result ≡ (done reply process.old).landed }
    ensures process { process.new ≡ (done reply process.old).process }
{
    process.regs.r[0] = u32::from(reply.code());
    process.status = Status::Ready;
    Landed::Done(reply)
}

/// Goes on behind the first piece of the rest, which has come.
fn go_on(alloc: Global, process: &mut Process, rest: Rest, here: u8) -> Result<Landed, NoMemory>
    requires area { rest.base + rest.left ≤ MOST_MEMORY }
    requires own { rest.own + rest.left ≤ length process.old.memory }
    requires size { length process.old.memory ≤ MOST_MEMORY }
    requires counts { process.old.sent < u32.MAX }
    ensures landed { IfOk result (λ landed. landed ≡ (goes_on here process.old rest).landed) }
    ensures process { OnOk result (process.new ≡ (goes_on here process.old rest).process) }
    ensures err { OnErr result ((process.new ≡ process.old) × (rest.dir ≡ direction.IntoArea)) }
{
    let piece = piece_of(rest.left);
    let left = rest.left - piece;
    if left == 0 {
        Ok(end(process, Reply::Done))
    } else {
        let rest = Rest {
            base: rest.base + piece,
            own: rest.own + piece,
            left,
            ..rest
        };
        let request = send_request(alloc, process, rest, here)?;
        Ok(Landed::Next(request))
    }
}

/// Lands the answer to the request for the first piece of the rest.
fn land_first(
    alloc: Global,
    process: &mut Process,
    rest: Rest,
    what: &What,
    here: u8,
) -> Result<Landed, NoMemory>
    requires answer { IsAnswerOf rest.dir rest.left what.now }
    requires area { rest.base + rest.left ≤ MOST_MEMORY }
    requires own { rest.own + rest.left ≤ length process.old.memory }
    requires size { length process.old.memory ≤ MOST_MEMORY }
    requires counts { process.old.sent < u32.MAX }
    ensures exact { IfOk result (λ landed. lands_what here process.old rest rest.dir what.now ≡ Some (record { landed = landed; process = process.new })) }
    ensures err { OnErr result (process.new ≡ process.old) }
{
    match (rest.dir, what) {
        (Direction::FromArea, What::Block { bytes }) => {
            process.memory.copy_in(rest.own, bytes.as_slice());
            go_on(alloc, process, rest, here)
        },
        (Direction::IntoArea, What::Written) => go_on(alloc, process, rest, here),
        (_, What::Gone) => Ok(end(process, Reply::Gone)),
        // No other kind answers a request of this direction: `answer` says so.
        _ => unreachable!(),
    }
}

/// Lands the answer, if it is one to the request that is under way.
fn land_awaited(
    alloc: Global,
    process: &mut Process,
    message: &Message,
    here: u8,
) -> Result<Landed, NoMemory>
    requires lawful { IsLawfulProcess process.old }
    requires awaited { IsAwaited process.old.status message.now }
    requires counts { process.old.sent < u32.MAX }
    ensures exact { IfOk result (λ landed. landing here process.old message.now.what process.old.status ≡ Some (record { landed = landed; process = process.new })) }
    ensures err { OnErr result (process.new ≡ process.old) }
{
    let Status::Moving {
        dir,
        owner,
        base,
        own,
        left,
        ..
    } = process.status
    else {
        // Only a mover awaits an answer: `awaited` says so.
        unreachable!()
    };
    let rest = Rest {
        dir,
        owner,
        base,
        own,
        left,
    };
    land_first(alloc, process, rest, &message.what, here)
}

/// Lands the answer to the request that is under way at the mover, on machine `here`: the next request goes out, or the
/// move is over. A stopped process's pieces land too. Only the bytes of a
/// next request take memory; where it lacks, nothing has changed.
pub fn land(
    alloc: Global,
    process: &mut Process,
    message: &Message,
    here: u8,
) -> Result<Landed, NoMemory>
    requires lawful { IsLawfulProcess process.old }
    requires lawful_answer { IsLawfulMessage message.now }
    requires here { here < MACHINES }
    requires awaited { IsAwaited process.old.status message.now }
    requires counts { process.old.sent < u32.MAX }
    ensures exact { IfOk result (λ landed. landing here process.old message.now.what process.old.status ≡ Some (record { landed = landed; process = process.new })) }
    ensures err { OnErr result (process.new ≡ process.old) }
    ensures gone { IfOk result (λ landed. (landed ≡ landed_.Done reply.Gone) ↔ (message.now.what ≡ what.Gone)) }
    ensures plain { IfOk result (λ landed. plain_landed landed process.new ≡ plainly_landed process.old (plain_message message.now)) }
    ensures lawful { OnOk result (IsLawfulProcess process.new) }
    ensures lawful_next { IfOk result IsLawfulLanded }
{
    let landed = land_awaited(alloc, process, message, here)?;
    Ok(landed)
}
