//! What the kernel without machines does, step by step.
ghost use Rattle.std.specs.Prelude.{◌≡◌};
ghost use Rattle.dm_onekernel.specs.Codes.{reply_code, why_code};

use dm_link::Pid;
use dm_message::{MsgId, Outcome};
use dm_processor::Fault;

/// What a call gives back in register 0.
#[derive(Clone, Copy)]
pub enum Reply {
    Done,
    /// The slot holds no link.
    NoLink,
    /// There are too few free slots.
    TableFull,
    /// A kind of link that doesn't serve here, or a slot named twice.
    BadKind,
    /// A part of a memory or an area that isn't there.
    BadRange,
    /// The link lacks the right.
    NoRight,
    /// A body or a list of links above its limit.
    TooLong,
    /// The process has ended.
    Gone,
    /// A reply link isn't copied.
    NotCopyable,
}

impl Reply {
    /// The number that stands for it in register 0 and in printed lines, 0 to 8.
    pub fn code(self) -> u8
        ensures { result ≡ reply_code self }
    {
        match self {
            Reply::Done => 0,
            Reply::NoLink => 1,
            Reply::TableFull => 2,
            Reply::BadKind => 3,
            Reply::BadRange => 4,
            Reply::NoRight => 5,
            Reply::TooLong => 6,
            Reply::Gone => 7,
            Reply::NotCopyable => 8,
        }
    }
}

/// Why a process ended.
#[derive(Clone, Copy)]
pub enum Why {
    Exit,
    /// It executed an instruction that faults.
    Fault(Fault),
    UnknownCall,
    Killed,
}

impl Why {
    /// The number that stands for it in printed lines, 0 to 5.
    pub fn code(self) -> u8
        ensures { result ≡ why_code self }
    {
        match self {
            Why::Exit => 0,
            Why::Fault(Fault::OutOfRange) => 1,
            Why::Fault(Fault::UnknownOpcode) => 2,
            Why::Fault(Fault::Unaligned) => 3,
            Why::UnknownCall => 4,
            Why::Killed => 5,
        }
    }
}

/// A step of the kernel without machines.
#[derive(Clone, Copy)]
pub enum Label {
    /// The process executed so many plain instructions.
    Ran {
        pid: Pid,
        count: u32,
    },
    /// A call that sent nothing gave a reply.
    Call {
        pid: Pid,
        number: u8,
        reply: Reply,
    },
    /// The process sent a message.
    Send {
        pid: Pid,
        id: MsgId,
    },
    /// The process waits for a message from now on.
    Wait {
        pid: Pid,
    },
    /// The process put out a word.
    Out {
        pid: Pid,
        word: u32,
    },
    End {
        pid: Pid,
        why: Why,
    },
    /// A waiting process took a message.
    Receive {
        pid: Pid,
        id: MsgId,
    },
    /// A waiting process was refused a message, which stays.
    Refuse {
        pid: Pid,
        id: MsgId,
        reply: Reply,
    },
    /// A message went whose receiver had ended.
    Dropped {
        id: MsgId,
    },
    /// The kernel where a process is did what a message for it asks: stop, resume, kill, a piece of a data move, or
    /// its answer.
    Served {
        id: MsgId,
    },
    /// A piece was asked of a process that had ended, or it was to move, which is answered.
    Gone {
        id: MsgId,
    },
    /// The switchboard or the process manager did what a message for it asks.
    Took {
        id: MsgId,
    },
    /// A process was made, as a message asked.
    Created {
        id: MsgId,
        pid: Pid,
    },
    /// A process could not be made for want of room; the numbers, of which the kernel without machines knows nothing,
    /// are what was free.
    NoSpace {
        id: MsgId,
        free_slots: u8,
        free_blocks: u16,
    },
    /// A process is to move, as a message for it asks, and follows that request until it has moved, or stays.
    Asked {
        id: MsgId,
    },
    /// The request that a process follows is answered: it has moved, or stays.
    Answered {
        id: MsgId,
        outcome: Outcome,
    },
}
