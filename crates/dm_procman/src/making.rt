//! The messages of the process manager.
ghost use Rattle.std.specs.Prelude.{◌≡◌, ◌≤◌, IfOk, length};
ghost use Rattle.dm_procman.specs.Making.{address_at, answer_over, control_link, message_to};

use dm_link::{Addr, Area, Kind, Link, MANAGER};
use dm_memory::NoMemory;
use dm_message::{Body, Enclosed, MOST_LINKS, Message, MsgId, What};
use std::alloc::Global;

/// The manager on machine `here`, where it came after so many moves.
pub fn address_at(here: u8, moves: u32) -> Addr
    ensures { result ≡ address_at here moves }
{
    Addr {
        pid: MANAGER,
        at: here,
        moves,
    }
}

/// The manager's message of this number from machine `here`, where it came after so many moves, to a process or a kernel.
pub fn message_to(here: u8, moves: u32, number: u32, to: Addr, what: What) -> Message
    ensures { result ≡ message_to here moves number to what }
{
    Message {
        id: MsgId {
            from: MANAGER,
            n: number,
            answer: false,
        },
        to,
        sender: address_at(here, moves),
        what,
    }
}

/// The manager's message of this number from machine `here` over a link: one byte, with at most 4 links.
pub fn answer_over(
    alloc: Global,
    here: u8,
    moves: u32,
    number: u32,
    link: &Link,
    code: u8,
    links: &[Link],
) -> Result<Message, NoMemory>
    requires { length links.now ≤ MOST_LINKS }
    ensures { IfOk result (λ message. message ≡ answer_over here moves number link.now code links.now) }
{
    let what = What::User {
        code: link.code,
        channel: link.channel,
        body: Body::from_slice(alloc, &[code])?,
        links: Enclosed::from_slice(alloc, links)?,
    };
    Ok(message_to(here, moves, number, link.addr, what))
}

/// The link by which a child is controlled, to the manager on machine `here`; its code is the child's number, from 1.
pub fn control_link(here: u8, moves: u32, child: u32) -> Link
    ensures { result ≡ control_link here moves child }
{
    Link {
        addr: address_at(here, moves),
        kind: Kind::General,
        to_kernel: false,
        code: child,
        channel: 0,
        area: Area {
            base: 0,
            len: 0,
            read: false,
            write: false,
        },
    }
}
