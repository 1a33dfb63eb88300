//! Requests for pieces of a data move.
ghost use Rattle.std.specs.Prelude.{◌≡◌, ◌+◌, ◌≤◌, ◌<◌, IfOk, OnErr, OnOk, Some, length};
ghost use Rattle.dm_message.specs.Lawful.{IsLawfulMessage};
ghost use Rattle.dm_message.specs.Plain.{plain_message};
ghost use Rattle.dm_process.specs.declared.Direction.TheVariants as direction;
ghost use Rattle.dm_process.specs.Lawful.{IsLawfulProcess};
ghost use Rattle.dm_onekernel.specs.Pieces.{piece_of, requests};
ghost use Rattle.dm_onekernel.specs.Plain.{plain_process};
ghost use Rattle.dm_datamove.specs.Requests.{IsRest, moving, plain_requested, request, request_of};

use crate::{Rest, address_of, body_at};
use dm_link::MACHINES;
use dm_memory::NoMemory;
use dm_message::{MOST_BODY, Message, MsgId, What};
use dm_process::{Direction, Process, Status};
use dm_processor::BLOCK;
use std::alloc::Global;

/// The length of the first piece of so many bytes.
pub fn piece_of(left: u32) -> u32
    ensures piece { result ≡ piece_of left }
    ensures short { result ≤ BLOCK }
    ensures part { result ≤ left }
{
    left.min(MOST_BODY as u32)
}

/// What is asked for. Only bytes that are to be written take memory.
fn request_of(alloc: Global, process: &Process, rest: Rest) -> Result<What, NoMemory>
    requires { rest.own + rest.left ≤ length process.now.memory }
    ensures what { IfOk result (λ what. what ≡ request_of process.now rest.dir rest.base rest.own rest.left) }
    ensures err { OnErr result (rest.dir ≡ direction.IntoArea) }
{
    let piece = piece_of(rest.left);
    match rest.dir {
        Direction::FromArea => Ok(What::Read {
            base: rest.base,
            len: piece as u16,
        }),
        Direction::IntoArea => {
            let bytes = body_at(alloc, &process.memory, rest.own, piece)?;
            Ok(What::Write {
                base: rest.base,
                bytes,
            })
        }
    }
}

/// Sends the request for the first piece of what is left.
pub fn send_request(
    alloc: Global,
    process: &mut Process,
    rest: Rest,
    here: u8,
) -> Result<Message, NoMemory>
    requires own { rest.own + rest.left ≤ length process.old.memory }
    requires counts { process.old.sent < u32.MAX }
    ensures message { IfOk result (λ message. message ≡ request here process.old rest) }
    ensures process { OnOk result (process.new ≡ moving process.old rest) }
    ensures err { OnErr result ((process.new ≡ process.old) × (rest.dir ≡ direction.IntoArea)) }
{
    let n = process.sent;
    let Rest {
        dir,
        owner,
        base,
        own,
        left,
    } = rest;
    let message = Message {
        id: MsgId {
            from: process.pid,
            n,
            answer: false,
        },
        to: owner,
        sender: address_of(process, here),
        what: request_of(alloc, process, rest)?,
    };
    process.status = Status::Moving {
        dir,
        owner,
        base,
        own,
        left,
        pending: n,
    };
    process.sent += 1;
    Ok(message)
}

/// Sends the request for the first piece of what is left of a move, from machine `here`; the mover waits for its answer
/// then. Only the bytes that are to be written take memory; where it lacks, nothing has changed.
pub fn request(
    alloc: Global,
    process: &mut Process,
    rest: Rest,
    here: u8,
) -> Result<Message, NoMemory>
    requires lawful { IsLawfulProcess process.old }
    requires here { here < MACHINES }
    requires rest { IsRest (length process.old.memory) rest }
    requires counts { process.old.sent < u32.MAX }
    ensures message { IfOk result (λ message. message ≡ request here process.old rest) }
    ensures process { OnOk result (process.new ≡ moving process.old rest) }
    ensures err { OnErr result (process.new ≡ process.old) }
    ensures plain { IfOk result (λ message. plain_requested (plain_message message) process.new ≡
        Some (requests process.old.pid (plain_process process.old) rest.dir rest.owner.pid rest.base rest.own rest.left)) }
    ensures lawful { OnOk result (IsLawfulProcess process.new) }
    ensures lawful_message { IfOk result IsLawfulMessage }
{
    let message = send_request(alloc, process, rest, here)?;
    Ok(message)
}
