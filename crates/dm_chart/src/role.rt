//! What each line is for a picture.
ghost use Rattle.std.specs.Prelude.{◌≡◌};
ghost use Rattle.dm_chart.specs.Roles.{call_role, label_role, packet_role, resent_role, role_of, stage_role};

use dm_line::line::{Line, Load, Stage};
use dm_link::Pid;
use dm_message::{MessageKind, MsgId};
use dm_onekernel::{Label, Reply};
use dm_schedule::Step;

/// What a line tells of a process's life on the machine of its group.
#[derive(Clone, Copy)]
pub enum Life {
    /// Nothing.
    Same,
    /// It is made.
    Made(Pid),
    /// It goes on after it moved, or stays.
    From(Pid),
    /// It ends.
    Ends(Pid),
    /// It is frozen: its life goes on elsewhere, or here after a while.
    Leaves(Pid),
    /// It ends where this is a message that kills.
    Served(MsgId),
    /// It waits for a message.
    Waits(Pid),
    /// It has one.
    Wakes(Pid),
}

/// A message that is put, from a machine to a machine.
#[derive(Clone, Copy)]
pub struct Letter {
    pub from: u8,
    pub to: u8,
    pub id: MsgId,
    pub kind: MessageKind,
    pub receiver: Pid,
}

/// What a line is for a picture.
#[derive(Clone, Copy)]
pub enum Role {
    /// The head of a group.
    Head(Step),
    /// A message is put: an arrow begins.
    Put(Letter),
    /// A packet with message number n goes out as packet k.
    Packet { from: u8, to: u8, k: u64, n: u32 },
    /// Message number n enters the inbox.
    Taken { from: u8, to: u8, n: u32 },
    /// Message number n comes before its turn.
    Early { from: u8, to: u8, n: u32 },
    /// Message number n comes again.
    Again { from: u8, to: u8, n: u32 },
    /// A note is written, of the machine of the group.
    Note(Life),
    /// Nothing is seen of it.
    Unseen,
}

/// The role of a line.
#[tactic(auto, unfolding(crate::specs::Roles::role_of))]
pub fn role_of(line: &Line) -> Role
    ensures { result ≡ role_of line.now }
{
    match *line {
        Line::Head(step) => Role::Head(step),
        Line::Label(label) => label_role(label),
        Line::Put {
            from,
            to,
            id,
            kind,
            receiver,
        } => {
            Role::Put(Letter {
                from,
                to,
                id,
                kind,
                receiver,
            })
        }
        Line::Packet { from, to, k, load } => packet_role(from, to, k, load),
        Line::Taken { from, to, n } => Role::Taken { from, to, n },
        Line::Old { from, to, n } => Role::Again { from, to, n },
        Line::Early { from, to, n } => Role::Early { from, to, n },
        Line::Resent { count, .. } => resent_role(count),
        Line::Migration { step, pid } => stage_role(step, pid),
        Line::Stays(pid) => Role::Note(Life::From(pid)),
        Line::Idle(_) | Line::Acked { .. } | Line::Nothing | Line::Queued(_) | Line::Proto(_) =>
            Role::Unseen,
        Line::Held(_)
        | Line::Forwarded { .. }
        | Line::Updated { .. }
        | Line::Buried { .. }
        | Line::SentOn { .. }
        | Line::Called { .. }
        | Line::Lacks { .. }
        | Line::Here(_)
        | Line::NoMove(_)
        | Line::Stale(_)
        | Line::NoChild(_)
        | Line::NoCall(_)
        | Line::Away => Role::Note(Life::Same),
    }
}

/// The role of a step of the kernel without machines.
fn label_role(label: Label) -> Role
    ensures { result ≡ label_role label }
{
    match label {
        Label::Ran { .. } | Label::Send { .. } | Label::Took { .. } => Role::Unseen,
        Label::Call { reply, .. } => call_role(reply),
        Label::End { pid, .. } => Role::Note(Life::Ends(pid)),
        Label::Served { id } => Role::Note(Life::Served(id)),
        Label::Created { pid, .. } => Role::Note(Life::Made(pid)),
        Label::Wait { pid } => Role::Note(Life::Waits(pid)),
        Label::Receive { pid, .. } | Label::Refuse { pid, .. } => Role::Note(Life::Wakes(pid)),
        Label::Out { .. }
        | Label::Dropped { .. }
        | Label::Gone { .. }
        | Label::NoSpace { .. }
        | Label::Asked { .. }
        | Label::Answered { .. } => Role::Note(Life::Same),
    }
}

/// A call that was done is seen by what it did; one that was refused has a note.
fn call_role(reply: Reply) -> Role
    ensures { result ≡ call_role reply }
{
    match reply {
        Reply::Done => Role::Unseen,
        Reply::NoLink
        | Reply::TableFull
        | Reply::BadKind
        | Reply::BadRange
        | Reply::NoRight
        | Reply::TooLong
        | Reply::Gone
        | Reply::NotCopyable => Role::Note(Life::Same),
    }
}

/// Acknowledgements aren't drawn.
fn packet_role(from: u8, to: u8, k: u64, load: Load) -> Role
    ensures { result ≡ packet_role from to k load }
{
    match load {
        Load::Data(n) => Role::Packet { from, to, k, n },
        Load::Ack(_) => Role::Unseen,
    }
}

/// A tick that has nothing to send again isn't seen.
fn resent_role(count: u32) -> Role
    ensures { result ≡ resent_role count }
{
    if count == 0 {
        Role::Unseen
    } else {
        Role::Note(Life::Same)
    }
}

/// A process's life on a machine ends at step 2 of its migration, and goes on at step 8.
fn stage_role(step: Stage, pid: Pid) -> Role
    ensures { result ≡ stage_role step pid }
{
    match step {
        Stage::Asked => Role::Note(Life::Leaves(pid)),
        Stage::Restarted => Role::Note(Life::From(pid)),
        Stage::Frozen | Stage::Accepted | Stage::StateTaken | Stage::MemoryTaken | Stage::Left =>
            Role::Note(Life::Same),
    }
}
