//! How many messages of each kind were put.
ghost use Rattle.std.specs.Prelude.{◌≡◌, ◌++◌, ◌+◌, ◌<◌, OnOk, map};
ghost use Rattle.dm_message.specs.Kinds.{number_of};
ghost use Rattle.dm_drill.specs.Kinds.{kind_line, kind_lines, kind_shown, no_kinds, none_of, one_more_of, with_put};

use crate::summary::write_number;
use crate::tally::Tally;
use dm_memory::{NoMemory, extend_from_slice};
use dm_message::MessageKind;
use std::alloc::Global;
use std::marker::Model;

/// How many kinds of message there are.
const KINDS: usize = 26;

/// How many messages of a kind were put, and how many of them from one machine to another.
#[derive(Drop)]
struct KindTally {
    kind: MessageKind,
    all: Tally,
    between: Tally,
}

impl KindTally {
    /// None was put yet.
    fn new(alloc: Global, kind: MessageKind) -> KindTally
        ensures { kind_shown result ≡ none_of kind }
    {
        KindTally {
            kind,
            all: Tally::new(alloc),
            between: Tally::new(alloc),
        }
    }

    /// One more.
    fn add_one(&mut self, far: bool) -> Result<(), NoMemory>
        ensures more { OnOk result (kind_shown self.new ≡ one_more_of far (kind_shown self.old)) }
        ensures kind { self.new.kind ≡ self.old.kind }
    {
        self.all.add_one()?;
        if far { self.between.add_one() } else { Ok(()) }
    }
}

/// How many messages of each kind were put: each kind's count stands in the place of its number.
#[derive(Drop)]
pub struct Kinds {
    tallies: [KindTally; KINDS],
}

impl Model for Kinds {
    ghost use Rattle.std.specs.Prelude.{List, map};
    ghost use Rattle.dm_drill.specs.Kinds.{AreNumbered, KindTotal, kind_shown};

    ghost Value = { List KindTotal };

    ghost view = { λ k. map kind_shown k.tallies };

    ghost invariant = { λ k. AreNumbered 1 (map kind_shown k.tallies) };
}

impl Kinds {
    /// None of any kind was put yet.
    pub fn new(alloc: Global) -> Kinds
        ensures { result ≡ no_kinds }
    {
        Kinds {
            tallies: [
                KindTally::new(alloc, MessageKind::User),
                KindTally::new(alloc, MessageKind::Stop),
                KindTally::new(alloc, MessageKind::Resume),
                KindTally::new(alloc, MessageKind::Kill),
                KindTally::new(alloc, MessageKind::Read),
                KindTally::new(alloc, MessageKind::Write),
                KindTally::new(alloc, MessageKind::Block),
                KindTally::new(alloc, MessageKind::Written),
                KindTally::new(alloc, MessageKind::Gone),
                KindTally::new(alloc, MessageKind::Create),
                KindTally::new(alloc, MessageKind::Created),
                KindTally::new(alloc, MessageKind::NoRoom),
                KindTally::new(alloc, MessageKind::Migrate),
                KindTally::new(alloc, MessageKind::Update),
                KindTally::new(alloc, MessageKind::Ask),
                KindTally::new(alloc, MessageKind::Refuse),
                KindTally::new(alloc, MessageKind::PullState),
                KindTally::new(alloc, MessageKind::State),
                KindTally::new(alloc, MessageKind::PullBlock),
                KindTally::new(alloc, MessageKind::Memory),
                KindTally::new(alloc, MessageKind::AllTaken),
                KindTally::new(alloc, MessageKind::Restart),
                KindTally::new(alloc, MessageKind::Move),
                KindTally::new(alloc, MessageKind::Moved),
                KindTally::new(alloc, MessageKind::CallOff),
                KindTally::new(alloc, MessageKind::Bury),
            ],
        }
    }

    /// A message of this kind was put.
    pub fn add_put(&mut self, kind: MessageKind, far: bool) -> Result<(), NoMemory>
        ensures { OnOk result (self.new ≡ map (with_put kind far) self.old) }
    {
        let tally = &mut self.tallies[place(kind)];
        tally.add_one(far)
    }

    /// Writes a line for each kind of message that was put.
    pub fn write(&self, into: &mut Vec<u8>) -> Result<(), NoMemory>
        ensures { OnOk result (into.new.items ≡ into.old.items ++ kind_lines self.now) }
    {
        write_kinds(&self.tallies, into)
    }
}

/// The place of a kind's count.
fn place(kind: MessageKind) -> usize
    ensures number { result + 1 ≡ number_of kind }
    ensures within { result < KINDS }
{
    usize::from(kind.number() - 1)
}

/// Writes a line for each of these kinds that was put.
fn write_kinds(kinds: &[KindTally], into: &mut Vec<u8>) -> Result<(), NoMemory>
    ensures { OnOk result (into.new.items ≡ into.old.items ++ kind_lines (map kind_shown kinds.now)) }
{
    for tally in kinds {
        write_kind(tally, into)?;
    }
    Ok(())
}

/// Writes the line of a kind, if it was put.
fn write_kind(tally: &KindTally, into: &mut Vec<u8>) -> Result<(), NoMemory>
    ensures { OnOk result (into.new.items ≡ into.old.items ++ kind_line (kind_shown tally.now)) }
{
    let all = tally.all.count();
    if all > 0 {
        extend_from_slice(into, tally.kind.word().as_bytes())?;
        extend_from_slice(into, b" ")?;
        write_number(all, into)?;
        extend_from_slice(into, b" ")?;
        write_number(tally.between.count(), into)?;
        extend_from_slice(into, b"\n")?;
    }
    Ok(())
}
