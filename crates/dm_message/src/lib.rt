//! Messages: all that processes, servers and kernels say to each other.
#![tactic(auto)]

ghost use Rattle.std.specs.Prelude.{◌≡◌};
ghost use Rattle.dm_link.specs.Places.{relocated};
ghost use Rattle.dm_message.specs.Ids.{bool_eq};
ghost use Rattle.dm_message.specs.Lawful.{is_answer};
ghost use Rattle.dm_message.specs.Outcomes.{code_of_outcome};
ghost use Rattle.dm_message.specs.Plain.{plain_message};

mod copies;
pub mod kind;

use dm_link::{Addr, Link, Pid, Placeless};
use dm_lists::Bounded;
use dm_memory::Parcel;
pub use kind::MessageKind;

/// The name of a message: who sent it, how many that sender had sent before, and whether it is a kernel's answer to
/// the message of that name.
#[derive(Clone, Copy, PartialEq, Eq)]
pub struct MsgId {
    pub from: Pid,
    pub n: u32,
    pub answer: bool,
}

/// The most bytes of a message's body; in format 1 a process sends at most 64.
pub const MOST_BODY: usize = 256;

/// The most links that a message encloses.
pub const MOST_LINKS: usize = 4;

/// The most bytes of a chunk of state bytes; only the last chunk of a process may have fewer.
pub const CHUNK: usize = 512;

/// The bytes of a message.
pub type Body = Bounded<u8, MOST_BODY>;

/// The links that a user message encloses.
pub type Enclosed = Bounded<Link, MOST_LINKS>;

/// A message, with the addresses of its receiver and its sender.
#[derive(Drop)]
pub struct Message {
    pub id: MsgId,
    pub to: Addr,
    pub sender: Addr,
    pub what: What,
}

/// Who waits to hear how a requested move ended: the request's number, and the asker's address.
#[derive(Clone, Copy)]
pub struct Asker {
    pub n: u32,
    pub addr: Addr,
}

/// What a message says.
#[derive(Drop)]
pub enum What {
    /// Sent by a process or a server over a link, whose code and channel it carries.
    User {
        code: u32,
        channel: u8,
        body: Body,
        links: Enclosed,
    },
    /// The process is stopped, goes on, or ends.
    Stop,
    Resume,
    Kill,
    /// A piece of a data move is asked for, or comes: `base` is an address in the owner's memory.
    Read {
        base: u32,
        len: u16,
    },
    Write {
        base: u32,
        bytes: Body,
    },
    /// The answers to a piece: the bytes read, that they are written, that the owner has ended.
    Block {
        bytes: Body,
    },
    Written,
    Gone,
    /// A process is to be made of an image, with up to 3 links; the answers.
    Create {
        image: u16,
        links: Bounded<Link, 3>,
    },
    Created {
        pid: Pid,
    },
    NoRoom,
    /// The process is to move to a machine.
    Migrate {
        machine: u8,
    },
    /// Where a process has gone, for who sent to its old address.
    Update {
        about: Addr,
    },
    /// A process of so many blocks and state bytes wants to come; nothing but a server has no blocks.
    Ask {
        pid: Pid,
        blocks: u16,
        moves: u32,
        size: u32,
        asker: Option<Asker>,
    },
    /// It may not come: what is free.
    Refuse {
        pid: Pid,
        free_slots: u8,
        free_blocks: u16,
    },
    /// Parts of the state and of the memory are asked for, and come.
    PullState {
        pid: Pid,
        chunk: u32,
    },
    State {
        pid: Pid,
        chunk: u32,
        last: bool,
        bytes: Bounded<u8, CHUNK>,
    },
    PullBlock {
        pid: Pid,
        block: u8,
    },
    Memory {
        pid: Pid,
        block: u8,
        bytes: Parcel<[u8; 256]>,
    },
    /// All has come; the process may go on there.
    AllTaken {
        pid: Pid,
    },
    Restart {
        pid: Pid,
    },
    /// The process is to move to a machine, and the manager hears how that ended.
    Move {
        machine: u8,
    },
    Moved {
        outcome: Outcome,
    },
    /// A migration is called off.
    CallOff {
        pid: Pid,
    },
    /// A process has ended: what is known of it is to be forgotten.
    Bury {
        pid: Pid,
    },
}

/// How a requested move ended.
#[derive(Clone, Copy)]
pub enum Outcome {
    /// The process is there.
    Done,
    /// The process stayed: there was no room for it, or the move was called off.
    Stayed,
    /// The process had ended.
    Ended,
}

impl Outcome {
    /// The number that stands for it in packets, in printed lines and in the manager's answer: 0, 1 or 3.
    pub fn code(self) -> u8
        ensures { result ≡ code_of_outcome self }
    {
        match self {
            Outcome::Done => 0,
            Outcome::Stayed => 1,
            Outcome::Ended => 3,
        }
    }
}

impl MsgId {
    /// Whether the name says of a message of this kind what it is: an answer, or none.
    pub fn fits(self, kind: MessageKind) -> bool
        ensures { result ≡ bool_eq self.answer (is_answer kind) }
    {
        agree(self.answer, kind.is_answer())
    }
}

/// Whether what is said is so.
fn agree(said: bool, is_so: bool) -> bool
    ensures { result ≡ bool_eq said is_so }
{
    said == is_so
}

impl MessageKind {
    /// Whether a message of this kind answers a request, under its name.
    pub fn is_answer(self) -> bool
        ensures { result ≡ is_answer self }
    {
        matches!(
            self,
            MessageKind::Block
                | MessageKind::Written
                | MessageKind::Gone
                | MessageKind::Created
                | MessageKind::NoRoom
                | MessageKind::Moved
        )
    }
}

impl Placeless for Message {
    ghost use Rattle.std.specs.Prelude.{◌≡◌, Option};
    ghost use Rattle.dm_link.specs.Places.{relocated};
    ghost use Rattle.dm_message.specs.Plain.{PlainMessage, plain_message};

    ghost Plain = { Option PlainMessage };

    ghost plain = { plain_message };

    fn relocate(&mut self, at: u8, moves: u32)
        ensures place { self.new ≡ record self.old { to = relocated at moves self.old.to } }
        ensures plain { plain_message self.new ≡ plain_message self.old }
    {
        self.to.relocate(at, moves);
    }
}
