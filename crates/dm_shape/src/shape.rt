//! Which texts have a shape.
ghost use Rattle.std.specs.Prelude.{◌≡◌, option_map};
ghost use Rattle.std.specs.List.{list_all, list_any};
ghost use Rattle.dm_reading.specs.Cuts.{behind, pieces};
ghost use Rattle.dm_shape.specs.declared.sort.Sort.TheVariants as sort;
ghost use Rattle.dm_shape.specs.Shapes.{ends_so, fit, has_shape, is_of_shape};
ghost use Rattle.dm_shape.specs.Sorts.{is_of};

use crate::names::message;
use crate::sort::Sort;
use dm_reading::split;

/// The shape of a line.
#[derive(Clone, Copy)]
pub enum Shape {
    /// The head of a group.
    Head(HeadShape),
    /// A step of the kernel without machines.
    Kernel(KernelShape),
    /// Another line of a group.
    Group(GroupShape),
    /// A line at the end of a run.
    End(EndShape),
}

/// The shape of the head of a group.
#[derive(Clone, Copy)]
pub enum HeadShape {
    Turn,
    Tick,
    Deliver,
    Migrate,
    CallOff,
}

/// The shape of a step of the kernel without machines.
#[derive(Clone, Copy)]
pub enum KernelShape {
    Ran,
    Call,
    Send,
    Wait,
    Out,
    End,
    Receive,
    Refuse,
    Dropped,
    Served,
    Gone,
    Took,
    Created,
    NoSpace,
    Asked,
    Answered,
}

/// The shape of another line of a group.
#[derive(Clone, Copy)]
pub enum GroupShape {
    Idle,
    Put,
    Packet,
    Taken,
    Old,
    Early,
    Acked,
    Nothing,
    Resent,
    Queued,
    Held,
    Forwarded,
    Updated,
    Buried,
    Stage,
    SentOn,
    Lacks,
    Called,
    Stays,
    Here,
    NoMove,
    Stale,
    Proto,
    NoChild,
    Away,
    NoCall,
}

/// The shape of a line at the end of a run.
#[derive(Clone, Copy)]
pub enum EndShape {
    Final,
    Ended,
    Ready,
    Waiting,
    Moving,
    Registers,
    Memory,
    Link,
    Server,
    Place,
    Name,
    Child,
    Pending,
    Queue,
    Holding,
    Inbox,
    Stream,
    Groups,
}

/// All shapes.
pub(crate) const SHAPES: [Shape; 65] = [
    Shape::Head(HeadShape::Turn),
    Shape::Head(HeadShape::Tick),
    Shape::Head(HeadShape::Deliver),
    Shape::Head(HeadShape::Migrate),
    Shape::Head(HeadShape::CallOff),
    Shape::Kernel(KernelShape::Ran),
    Shape::Kernel(KernelShape::Call),
    Shape::Kernel(KernelShape::Send),
    Shape::Kernel(KernelShape::Wait),
    Shape::Kernel(KernelShape::Out),
    Shape::Kernel(KernelShape::End),
    Shape::Kernel(KernelShape::Receive),
    Shape::Kernel(KernelShape::Refuse),
    Shape::Kernel(KernelShape::Dropped),
    Shape::Kernel(KernelShape::Served),
    Shape::Kernel(KernelShape::Gone),
    Shape::Kernel(KernelShape::Took),
    Shape::Kernel(KernelShape::Created),
    Shape::Kernel(KernelShape::NoSpace),
    Shape::Kernel(KernelShape::Asked),
    Shape::Kernel(KernelShape::Answered),
    Shape::Group(GroupShape::Idle),
    Shape::Group(GroupShape::Put),
    Shape::Group(GroupShape::Packet),
    Shape::Group(GroupShape::Taken),
    Shape::Group(GroupShape::Old),
    Shape::Group(GroupShape::Early),
    Shape::Group(GroupShape::Acked),
    Shape::Group(GroupShape::Nothing),
    Shape::Group(GroupShape::Resent),
    Shape::Group(GroupShape::Queued),
    Shape::Group(GroupShape::Held),
    Shape::Group(GroupShape::Forwarded),
    Shape::Group(GroupShape::Updated),
    Shape::Group(GroupShape::Buried),
    Shape::Group(GroupShape::Stage),
    Shape::Group(GroupShape::SentOn),
    Shape::Group(GroupShape::Lacks),
    Shape::Group(GroupShape::Called),
    Shape::Group(GroupShape::Stays),
    Shape::Group(GroupShape::Here),
    Shape::Group(GroupShape::NoMove),
    Shape::Group(GroupShape::Stale),
    Shape::Group(GroupShape::Proto),
    Shape::Group(GroupShape::NoChild),
    Shape::Group(GroupShape::Away),
    Shape::Group(GroupShape::NoCall),
    Shape::End(EndShape::Final),
    Shape::End(EndShape::Ended),
    Shape::End(EndShape::Ready),
    Shape::End(EndShape::Waiting),
    Shape::End(EndShape::Moving),
    Shape::End(EndShape::Registers),
    Shape::End(EndShape::Memory),
    Shape::End(EndShape::Link),
    Shape::End(EndShape::Server),
    Shape::End(EndShape::Place),
    Shape::End(EndShape::Name),
    Shape::End(EndShape::Child),
    Shape::End(EndShape::Pending),
    Shape::End(EndShape::Queue),
    Shape::End(EndShape::Holding),
    Shape::End(EndShape::Inbox),
    Shape::End(EndShape::Stream),
    Shape::End(EndShape::Groups),
];

/// Whether a text without line feed is a line of the format.
#[tactic(auto, unfolding(crate::specs::Shapes::has_shape))]
pub fn has_shape(line: &[u8]) -> bool
    ensures { result ≡ has_shape line.now }
{
    has_one_of(line, &SHAPES)
}

/// Whether a text has one of these shapes.
fn has_one_of(line: &[u8], shapes: &[Shape]) -> bool
    ensures { result ≡ list_any (λ s. is_of_shape s line.now) shapes.now }
{
    shapes.iter().any(|shape| shape.is_of(line))
}

impl Shape {
    /// Whether a text is of this shape.
    #[tactic(auto, unfolding(crate::specs::Shapes::is_of_shape))]
    fn is_of(self, line: &[u8]) -> bool
        ensures { result ≡ is_of_shape self line.now }
    {
        let (name, words) = split(line, b' ');
        let row = self.row();
        name == row.name.as_bytes() && fit(row.sorts, row.lists, words)
    }
}

/// Whether words are of these sorts, one by one, and then names of messages, where such a list is due.
fn fit(sorts: &[Sort], lists: bool, words: Option<&[u8]>) -> bool
    ensures { result ≡ fit sorts.now lists (behind 32 (option_map (λ t. t.now) words.entry)) }
{
    let mut rest = words;
    for sort in sorts {
        let Some(text) = rest else {
            return false;
        };
        let (word, others) = split(text, b' ');
        if !sort.has(word) {
            return false;
        }
        rest = others;
    }
    ends_so(lists, rest)
}

/// Whether no word is left, or, where a list is due, names of messages are, one or more.
fn ends_so(lists: bool, words: Option<&[u8]>) -> bool
    ensures { result ≡ ends_so lists (behind 32 (option_map (λ t. t.now) words.entry)) }
{
    match words {
        None => !lists,
        Some(text) => lists && are_messages(text),
    }
}

/// Whether each word of a text names a message.
#[tactic(auto, unfolding(crate::specs::Sorts::is_of))]
fn are_messages(text: &[u8]) -> bool
    ensures { result ≡ list_all (is_of sort.Message) (pieces 32 text.now) }
{
    let mut rest = Some(text);
    'words: while let Some(text) = rest {
        let (word, others) = split(text, b' ');
        if message(word).is_none() {
            return false;
        }
        rest = others;
    }
    true
}
