//! Where the processes that the manager knows are, and go.
ghost use Rattle.std.specs.Prelude.{◌≡◌, ◌<◌, ◌^◌, count_by, length, map};
ghost use Rattle.dm_link.specs.Places.{is_behind, retargeted};
ghost use Rattle.dm_procman.specs.Managing.{pending_is_behind, retargeted_pending};
ghost use Rattle.dm_procman.specs.Moving.{tells_to_move};

use crate::Pending;
use crate::making::address_at;
use dm_link::{Addr, Pid};
use dm_message::{Message, MsgId, What};
use thiserror::Error;

/// Why nothing is told to move.
#[derive(Clone, Copy, Debug, Error)]
pub enum MoveError {
    #[error("it is no child of the manager")]
    Unknown,
}

/// The message that tells what is at an address to move to machine `to`, under the name `id`, from a manager on machine `here` that
/// has moved so often.
pub fn move_message(
    here: u8,
    moves: u32,
    id: MsgId,
    to: u8,
    address: Option<Addr>,
) -> Result<Message, MoveError>
    ensures { result ≡ tells_to_move here moves id to address }
{
    match address {
        Some(address) => Ok(Message {
            id,
            to: address,
            sender: address_at(here, moves),
            what: What::Migrate { machine: to },
        }),
        None => Err(MoveError::Unknown),
    }
}

/// Tells the addresses of the children that a process is on machine `at` after so many moves; how many changed.
pub fn retarget_children(children: &mut [Addr], about: Pid, at: u8, moves: u32) -> u32
    requires { length children.old < 2 ^ 31 }
    ensures children { children.new ≡ map (retargeted about at moves) children.old }
    ensures changed { result ≡ count_by (is_behind about moves) children.old }
{
    let mut changed = 0;
    for child in children.iter_mut() {
        if child.retarget(about, at, moves) {
            changed += 1;
        }
    }
    changed
}

/// Tells the links for answers that a process is on machine `at` after so many moves; how many changed.
pub fn retarget_pending(pending: &mut [Pending], about: Pid, at: u8, moves: u32) -> u32
    requires { length pending.old < 2 ^ 31 }
    ensures pending { pending.new ≡ map (retargeted_pending about at moves) pending.old }
    ensures changed { result ≡ count_by (pending_is_behind about moves) pending.old }
{
    let mut changed = 0;
    for request in pending.iter_mut() {
        if retarget_answer(request, about, at, moves) {
            changed += 1;
        }
    }
    changed
}

/// Whether the link for the answer to a request, if it has one, leads to a process and knows fewer moves of it.
pub fn is_behind(request: &Pending, about: Pid, moves: u32) -> bool
    ensures { result ≡ pending_is_behind about moves request.now }
{
    let mut told = *request;
    retarget_answer(&mut told, about, 0, moves)
}

/// Tells the link for the answer to a request, if it has one; whether it changed.
pub fn retarget_answer(request: &mut Pending, about: Pid, at: u8, moves: u32) -> bool
    ensures request { request.new ≡ retargeted_pending about at moves request.old }
    ensures changed { result ≡ pending_is_behind about moves request.old }
{
    match &mut request.answer {
        Some(link) => link.retarget(about, at, moves),
        None => false,
    }
}
