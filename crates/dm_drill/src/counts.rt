//! What a drill counts of the lines that are printed.
ghost use Rattle.std.specs.Prelude.{◌≡◌, OnOk, Some};
ghost use Rattle.std.specs.List.{All};
ghost use Rattle.dm_text.specs.Fits.{LineFits};
ghost use Rattle.dm_drill.specs.Counts.{shown, counted_as, sort_of_label, nothing, one_more, sort_of_step, with_group, with_group_lines};

use crate::kinds::Kinds;
use crate::tally::Tally;
use dm_line::line::{Line, Stage};
use dm_memory::NoMemory;
use dm_message::MessageKind;
use dm_onekernel::Label;
use dm_text::back::line_fits;
use std::alloc::Global;

/// As what a line is counted.
#[derive(Clone, Copy)]
pub enum Counted {
    /// A message of this kind was put, from one machine to another if it is `far`.
    Put { kind: MessageKind, far: bool },
    Packet,
    Taken,
    Old,
    Early,
    Received,
    /// A process restarted on its new machine.
    Moved,
    Stayed,
    Forwarded,
    Held,
}

/// How many groups there were, and lines of each sort.
#[derive(Drop)]
pub struct Counts {
    pub groups: Tally,
    pub puts: Tally,
    pub packets: Tally,
    pub taken: Tally,
    pub repeated: Tally,
    pub early: Tally,
    pub received: Tally,
    pub moved: Tally,
    pub stayed: Tally,
    pub forwarded: Tally,
    pub held: Tally,
    /// Of the messages that were put, a count for each kind.
    pub kinds: Kinds,
}

impl Counts {
    /// Nothing is counted yet.
    pub fn new(alloc: Global) -> Counts
        ensures { shown result ≡ nothing }
    {
        Counts {
            groups: Tally::new(alloc),
            puts: Tally::new(alloc),
            packets: Tally::new(alloc),
            taken: Tally::new(alloc),
            repeated: Tally::new(alloc),
            early: Tally::new(alloc),
            received: Tally::new(alloc),
            moved: Tally::new(alloc),
            stayed: Tally::new(alloc),
            forwarded: Tally::new(alloc),
            held: Tally::new(alloc),
            kinds: Kinds::new(alloc),
        }
    }

    /// Counts a group and its lines.
    pub fn add_group(&mut self, lines: &[Line]) -> Result<(), NoMemory>
        ensures counted { OnOk result (shown self.new ≡ with_group (shown self.old) lines.now) }
        ensures fits { OnOk result (All LineFits lines.now) }
    {
        self.groups.add_one()?;
        self.add_lines(lines)
    }

    /// Counts the lines of a group.
    fn add_lines(&mut self, lines: &[Line]) -> Result<(), NoMemory>
        ensures counted { OnOk result (shown self.new ≡ with_group_lines (shown self.old) lines.now) }
        ensures fits { OnOk result (All LineFits lines.now) }
    {
        for line in lines {
            line_fits(line);
            self.add(sort_of(line))?;
        }
        Ok(())
    }

    /// Counts one more of these.
    fn add(&mut self, counted: Option<Counted>) -> Result<(), NoMemory>
        ensures { OnOk result (shown self.new ≡ one_more counted (shown self.old)) }
    {
        match counted {
            None => Ok(()),
            Some(Counted::Put { kind, far }) => self.add_put(kind, far),
            Some(Counted::Packet) => self.packets.add_one(),
            Some(Counted::Taken) => self.taken.add_one(),
            Some(Counted::Old) => self.repeated.add_one(),
            Some(Counted::Early) => self.early.add_one(),
            Some(Counted::Received) => self.received.add_one(),
            Some(Counted::Moved) => self.moved.add_one(),
            Some(Counted::Stayed) => self.stayed.add_one(),
            Some(Counted::Forwarded) => self.forwarded.add_one(),
            Some(Counted::Held) => self.held.add_one(),
        }
    }

    /// Counts a message that was put.
    fn add_put(&mut self, kind: MessageKind, far: bool) -> Result<(), NoMemory>
        ensures { OnOk result (shown self.new ≡ one_more (Some (Counted.Put kind far)) (shown self.old)) }
    {
        self.puts.add_one()?;
        self.kinds.add_put(kind, far)
    }
}

/// As what a line is counted, if it is.
pub fn sort_of(line: &Line) -> Option<Counted>
    ensures { result ≡ counted_as line.now }
{
    match *line {
        Line::Label(label) => sort_of_label(label),
        Line::Put { from, to, kind, .. } => Some(Counted::Put {
            kind,
            far: from != to,
        }),
        Line::Packet { .. } => Some(Counted::Packet),
        Line::Taken { .. } => Some(Counted::Taken),
        Line::Old { .. } => Some(Counted::Old),
        Line::Early { .. } => Some(Counted::Early),
        Line::Held(_) => Some(Counted::Held),
        Line::Forwarded { .. } => Some(Counted::Forwarded),
        Line::Migration { step, .. } => sort_of_step(step),
        Line::Stays(_) => Some(Counted::Stayed),
        _ => None,
    }
}

/// A reception.
fn sort_of_label(label: Label) -> Option<Counted>
    ensures { result ≡ sort_of_label label }
{
    match label {
        Label::Receive { .. } => Some(Counted::Received),
        _ => None,
    }
}

/// The last step of a move.
fn sort_of_step(step: Stage) -> Option<Counted>
    ensures { result ≡ sort_of_step step }
{
    if step.is_last() {
        Some(Counted::Moved)
    } else {
        None
    }
}
