//! What is in the messages that wait, by their names.
ghost use Rattle.std.specs.Prelude.{◌≡◌, ◌++◌, OnOk, filter_map, length, map};
ghost use Rattle.dm_look.specs.Letters.{letter_of};
ghost use Rattle.dm_look.specs.LetterText.{text_of_letters};
ghost use Rattle.dm_world.specs.Ends.{MayEnd};
ghost use Rattle.dm_world.specs.Meets.{IsWorld, world_state};
ghost use Rattle.dm_look.specs.Waiting.{AreInOrder, waiting};
ghost use Rattle.dm_look.specs.Ranks.{rank_of};
ghost use Rattle.dm_look.specs.Looked.{TellsLetters};

use crate::letters::write_letter;
use crate::waiting::find_waiting;
use dm_link::Pid;
use dm_memory::NoMemory;
use dm_message::{Message, MsgId};
use dm_world::World;
use std::alloc::Global;

/// How messages are ordered by their names: by sender, then by number, a request before its answer.
#[derive(Clone, Copy, PartialEq, Eq, PartialOrd, Ord)]
pub struct Rank {
    pub from: Pid,
    pub n: u32,
    pub answer: bool,
}

impl Rank {
    /// That of a message's name.
    pub fn of(id: MsgId) -> Rank
        ensures { result ≡ rank_of id }
    {
        Rank {
            from: id.from,
            n: id.n,
            answer: id.answer,
        }
    }
}

/// Writes what is in the messages that wait, by their names.
pub fn write_contents(alloc: Global, world: &World, into: &mut Vec<u8>) -> Result<(), NoMemory>
    requires world { IsWorld world.now }
    requires may { MayEnd (length world.now.boot.machines) (world_state world.now) }
    ensures { OnOk result (TellsLetters (waiting (length world.now.boot.machines) (world_state world.now)) into.old.items into.new.items) }
{
    let mut waiting = find_waiting(alloc, world)?;
    sort_by_name(waiting.as_mut_slice());
    write_letters(waiting.as_slice(), into)
}

/// Writes what is in these messages.
fn write_letters(messages: &[&Message], into: &mut Vec<u8>) -> Result<(), NoMemory>
    ensures { OnOk result (into.new.items ≡ into.old.items ++ text_of_letters (filter_map letter_of (map (λ m. m.now) messages.now))) }
{
    for message in messages {
        write_letter(message, into)?;
    }
    Ok(())
}

/// Puts messages into the order of their names.
fn sort_by_name(messages: &mut [&Message])
    ensures { AreInOrder (map (λ m. m.now) messages.old) (map (λ m. m.now) messages.new) }
{
    messages.sort_unstable_by_key(|m| Rank::of(m.id));
}
