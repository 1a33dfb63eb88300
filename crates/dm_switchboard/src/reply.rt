//! What the switchboard answers.
ghost use Rattle.std.specs.Prelude.{◌≡◌, IfOk};
ghost use Rattle.dm_switchboard.specs.Taking.{address_at, answer_over, code_of_reply, links_of_reply};

use dm_link::{Addr, Link, SWITCHBOARD};
use dm_memory::NoMemory;
use dm_message::{Body, Enclosed, Message, MsgId, What};
use std::alloc::Global;

/// The switchboard on machine `here`, where it came after so many moves.
fn address_at(here: u8, moves: u32) -> Addr
    ensures { result ≡ address_at here moves }
{
    Addr {
        pid: SWITCHBOARD,
        at: here,
        moves,
    }
}

/// The answer to a request.
#[derive(Clone, Copy)]
pub enum Reply {
    Registered,
    /// A copy of the link that is kept under the name.
    Found(Link),
    Unknown,
    Taken,
    /// The link to keep is a reply link.
    BadLink,
    BadRequest,
}

impl Reply {
    /// The byte that says it.
    pub fn code(self) -> u8
        ensures { result ≡ code_of_reply self }
    {
        match self {
            Reply::Registered => 0,
            Reply::Found(_) => 1,
            Reply::Unknown => 2,
            Reply::Taken => 3,
            Reply::BadLink => 4,
            Reply::BadRequest => 5,
        }
    }

    /// The link that goes with it.
    fn links(self, alloc: Global) -> Result<Enclosed, NoMemory>
        ensures { IfOk result (λ links. links.items ≡ links_of_reply self) }
    {
        match self {
            Reply::Found(link) => Enclosed::from_slice(alloc, &[link]),
            Reply::Registered
            | Reply::Unknown
            | Reply::Taken
            | Reply::BadLink
            | Reply::BadRequest => Ok(Enclosed::new(alloc)),
        }
    }

    /// The message that carries it over a link, the switchboard's message of this number from machine `here`, where it came
    /// after so many moves.
    pub(crate) fn over(
        self,
        alloc: Global,
        here: u8,
        moves: u32,
        link: &Link,
        number: u32,
    ) -> Result<Message, NoMemory>
        ensures { IfOk result (λ message. message ≡ answer_over here moves number link.now self) }
    {
        let body = Body::from_slice(alloc, &[self.code()])?;
        let links = self.links(alloc)?;
        Ok(Message {
            id: MsgId {
                from: SWITCHBOARD,
                n: number,
                answer: false,
            },
            to: link.addr,
            sender: address_at(here, moves),
            what: What::User {
                code: link.code,
                channel: link.channel,
                body,
                links,
            },
        })
    }
}
