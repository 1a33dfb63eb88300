//! The lines at the end of a run.
ghost use Rattle.std.specs.Prelude.{◌≡◌};
ghost use Rattle.dm_line.specs.Ends.{is_at_home};

use arrayvec::ArrayVec;
use dm_link::{Link, Pid};
use dm_lists::Items;
use dm_message::MsgId;
use dm_onekernel::Why;
use dm_process::Direction;

/// Where a process stands on the machine that an end line names.
#[derive(Clone, Copy)]
pub enum Standing {
    Here,
    Leaving,
    Arriving,
}

impl Standing {
    /// Whether what stands so on machine m is here on machine 0, where the servers begin.
    pub fn is_at_home(self, m: u8) -> bool
        ensures { result ≡ is_at_home m self }
    {
        match self {
            Standing::Here => m == 0,
            Standing::Leaving => false,
            Standing::Arriving => false,
        }
    }
}

/// What a process does.
#[derive(Clone, Copy)]
pub enum Doing {
    Ready,
    Waiting {
        mask: u32,
        base: u32,
        cap: u32,
    },
    Moving {
        dir: Direction,
        owner: Pid,
        base: u32,
        own: u32,
        left: u32,
    },
}

/// A line at the end of a run: where everything stands then.
#[derive(Drop)]
pub enum EndLine {
    /// No directive is left.
    Final,
    /// A process that has ended.
    Ended {
        pid: Pid,
        why: Why,
    },
    /// A process that hasn't: the machine where it is, how it stands there, what it does, whether it is stopped, and how
    /// many messages it has sent.
    Process {
        pid: Pid,
        at: u8,
        standing: Standing,
        doing: Doing,
        stopped: bool,
        sent: u32,
    },
    Registers {
        pid: Pid,
        r: [u32; 16],
        pc: u32,
    },
    /// The bytes of a block up to the last that isn't 0.
    Memory {
        pid: Pid,
        block: u8,
        bytes: ArrayVec<u8, 256>,
    },
    Link {
        pid: Pid,
        slot: u8,
        link: Link,
    },
    /// How many messages a server has sent.
    Server {
        pid: Pid,
        sent: u32,
    },
    /// Where a server stands that isn't here on machine 0, behind the line that says how many messages it has sent.
    Place {
        pid: Pid,
        at: u8,
        standing: Standing,
    },
    /// A name of the switchboard.
    Name {
        name: ArrayVec<u8, 16>,
        link: Link,
    },
    /// A child of the manager, counted from 1, and the machine that the manager's link to it names.
    Child {
        number: u32,
        pid: Pid,
        at: u8,
    },
    /// A request to make a process, or to move one, without a taken answer.
    Pending(MsgId),
    /// The messages of a list that isn't empty, its front first.
    Queue {
        pid: Pid,
        ids: Items<MsgId>,
    },
    Holding {
        machine: u8,
        pid: Pid,
        ids: Items<MsgId>,
    },
    Inbox {
        machine: u8,
        ids: Items<MsgId>,
    },
    Stream {
        from: u8,
        to: u8,
        ids: Items<MsgId>,
    },
    /// How many groups there were.
    Groups(u128),
}
