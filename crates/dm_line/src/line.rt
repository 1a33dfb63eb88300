//! The lines of groups.
ghost use Rattle.std.specs.Prelude.{◌≡◌};
ghost use Rattle.dm_line.specs.Stages.{is_last};

use dm_link::Pid;
use dm_message::{MessageKind, MsgId};
use dm_onekernel::Label;
use dm_schedule::Step;

/// A line of a group.
#[derive(Clone, Copy)]
pub enum Line {
    /// The head of a group: the directive that the machine acts on.
    Head(Step),
    /// The machine had nothing to do.
    Idle(u8),
    /// A step of the kernel without machines.
    Label(Label),
    /// A message was routed from a machine to a machine.
    Put {
        from: u8,
        to: u8,
        id: MsgId,
        kind: MessageKind,
        receiver: Pid,
    },
    /// A packet was put on the wire, as number k of the pair.
    Packet {
        from: u8,
        to: u8,
        k: u64,
        load: Load,
    },
    /// What became of a delivered packet: data number n was taken, had been taken before, or came early; count n was
    /// acknowledged; there was no such packet.
    Taken {
        from: u8,
        to: u8,
        n: u32,
    },
    Old {
        from: u8,
        to: u8,
        n: u32,
    },
    Early {
        from: u8,
        to: u8,
        n: u32,
    },
    Acked {
        from: u8,
        to: u8,
        n: u32,
    },
    Nothing,
    /// So many outstanding packets go out again.
    Resent {
        machine: u8,
        count: u32,
    },
    /// A message stands at the back of its receiver's queue.
    Queued(MsgId),
    /// A message waits until its receiver's migration has ended.
    Held(MsgId),
    /// A message goes on to the machine where its receiver went.
    Forwarded {
        id: MsgId,
        to: u8,
    },
    /// So many links follow a process.
    Updated {
        id: MsgId,
        count: u32,
    },
    /// A process that has ended is forgotten, and so many other machines are told.
    Buried {
        id: MsgId,
        count: u32,
    },
    /// A step of a migration.
    Migration {
        step: Stage,
        pid: Pid,
    },
    /// Step 6 of a migration: so many messages go on to the new machine.
    SentOn {
        pid: Pid,
        count: u32,
    },
    /// A migration is called off: so many messages that were held go back to the machine that the process was to leave.
    Called {
        pid: Pid,
        count: u32,
    },
    /// A process can't come for want of room.
    Lacks {
        pid: Pid,
        free_slots: u8,
        free_blocks: u16,
    },
    /// A process stays where it was.
    Stays(Pid),
    /// A process that is to move is where it is to go, or has ended.
    Here(MsgId),
    NoMove(MsgId),
    /// A piece of a process comes from a machine from which it isn't awaited.
    Stale(MsgId),
    /// A message of a migration that is no step of it.
    Proto(MsgId),
    /// A process that is to move is none of the manager's.
    NoChild(Pid),
    /// The manager is on its way, so that no machine has it here: nothing is told to move.
    Away,
    /// A process whose migration is to be called off isn't on its way to the machine, or all of it has come.
    NoCall(Pid),
}

/// The line of a packet that is put from one machine to another as number `k` of their wire.
pub fn packet_line(from: u8, to: u8, k: u64, load: Load) -> Line
    ensures { result ≡ Line.Packet from to k load }
{
    Line::Packet { from, to, k, load }
}

/// What a packet carries: message number n, or how many messages have come.
#[derive(Clone, Copy)]
pub enum Load {
    Data(u32),
    Ack(u32),
}

/// The steps of a migration that have a line of the same form, by their numbers 1 to 5, 7 and 8.
#[derive(Clone, Copy)]
pub enum Stage {
    Frozen,
    Asked,
    Accepted,
    StateTaken,
    MemoryTaken,
    Left,
    Restarted,
}

impl Stage {
    /// Whether a migration ends with it: the process goes on where it has come.
    pub fn is_last(self) -> bool
        ensures { result ≡ is_last self }
    {
        match self {
            Stage::Frozen => false,
            Stage::Asked => false,
            Stage::Accepted => false,
            Stage::StateTaken => false,
            Stage::MemoryTaken => false,
            Stage::Left => false,
            Stage::Restarted => true,
        }
    }
}
