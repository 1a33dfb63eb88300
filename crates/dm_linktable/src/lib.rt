//! The links that a process holds, each in a slot of its table, by whose number the process names it (1977).
#![tactic(auto)]

ghost use Rattle.std.specs.Prelude.{◌≡◌, ◌⊎◌, ◌<◌, ◌↔◌, IsTrue, List, length, map, count_by, slice_set, IfOk, IfErr, MatchResult, option_copied, Some, None};
ghost use Rattle.std.proofs.Math.ListN.{replicate};
ghost use Rattle.std.specs.Option.{is_none};
ghost use Rattle.dm_linktable.specs.Slots.{first_empty, is_reply, link_at, plain_slot, retargeted_slot, slot_is_behind};

mod index;
mod slots;

use dm_link::{Kind, Link, Pid};
use dm_memory::{NoMemory, repeated, with_room};
use index::Index;
use slots::{count_free, first_free, retarget_slots};
use std::alloc::Global;
use std::marker::Model;

/// How many slots a process has where the boot file's format is 1.
pub const FEW_SLOTS: u8 = 32;

/// How many slots a process has where the boot file's format is 2.
pub const MOST_SLOTS: u8 = 128;

/// A table of 32 or 128 slots, each empty or with a link.
///
/// Its model is the list of its slots.
#[derive(Drop)]
pub struct Table {
    slots: Vec<Option<Link>>,
    /// Which slots lead to which process, so that `retarget` visits those alone. It has room for as many as there are
    /// slots.
    index: Index,
}

impl Model for Table {
    ghost use Rattle.std.specs.Prelude.{◌≤◌, List, length, vec_capacity};
    ghost use Rattle.std.specs.declared.option.Option.{Option};
    ghost use Rattle.dm_link.specs.declared.Link.{Link};

    ghost Value = { List (Option Link) };

    ghost use Rattle.dm_linktable.specs.Index.{IsTable};

    ghost view = { λ t. t.slots.items };

    ghost invariant = { λ t. IsTable t.slots.items t.index.items × (length t.slots.items ≤ vec_capacity t.index) };
}

impl Table {
    /// An empty table of 32 or 128 slots. It takes all the memory that it will need; no other call takes any.
    pub fn new(alloc: Global, cap: u8) -> Result<Table, NoMemory>
        requires { (cap ≡ FEW_SLOTS) ⊎ (cap ≡ MOST_SLOTS) }
        ensures { IfOk result (λ t. t ≡ replicate cap None) }
    {
        let slots = repeated(alloc, None, usize::from(cap))?;
        let index = with_room(alloc, usize::from(cap))?;
        Ok(Table { slots, index })
    }

    /// How many slots.
    pub fn cap(&self) -> u8
        ensures cap { result ≡ length self.now }
        ensures known { (result ≡ FEW_SLOTS) ⊎ (result ≡ MOST_SLOTS) }
    {
        self.slots.len() as u8
    }

    /// How many slots are empty.
    pub fn free(&self) -> u8
        ensures { result ≡ count_by is_none self.now }
    {
        count_free(&self.slots)
    }

    /// The link in a slot.
    pub fn get(&self, slot: u8) -> Option<&Link>
        ensures { option_copied result ≡ link_at self.now slot }
    {
        match self.slots.get(slot as usize) {
            Some(Some(link)) => Some(link),
            _ => None,
        }
    }

    /// Puts a link into the lowest empty slot, or hands it back.
    #[tactic(auto, using(crate::proofs::Places::first_empty_within))]
    pub fn put(&mut self, link: Link) -> Result<u8, Link>
        ensures slot { IfOk result (λ slot. first_empty self.old ≡ Some slot) }
        ensures full { IfErr result (λ back. (first_empty self.old ≡ None) × (back ≡ link)) }
        ensures after { MatchResult result (λ slot. self.new ≡ slice_set self.old slot (Some link)) (λ _. self.new ≡ self.old) }
    {
        match first_free(&self.slots) {
            Some(slot) => {
                let slot = slot as u8;
                self.place(slot, link);
                Ok(slot)
            },
            None => Err(link),
        }
    }

    /// Puts a link into an empty slot.
    pub fn place(&mut self, slot: u8, link: Link)
        requires within { slot < length self.old }
        requires empty { link_at self.old slot ≡ None }
        ensures { self.new ≡ slice_set self.old slot (Some link) }
    {
        index::add(&mut self.index, link.addr.pid, slot);
        self.slots[slot as usize] = Some(link);
    }

    /// Takes the link out of a slot.
    pub fn take(&mut self, slot: u8) -> Option<Link>
        ensures link { result ≡ link_at self.old slot }
        ensures after { self.new ≡ slice_set self.old slot None }
    {
        let link = *self.get(slot)?;
        index::remove(&mut self.index, link.addr.pid, slot);
        self.slots[slot as usize] = None;
        Some(link)
    }

    /// Sets the links to a process that know fewer moves of it than these to where it is; answers how many changed.
    pub fn retarget(&mut self, about: Pid, at: u8, moves: u32) -> u8
        ensures links { self.new ≡ map (retargeted_slot about at moves) self.old }
        ensures changed { result ≡ count_by (slot_is_behind about moves) self.old }
        ensures plain { map plain_slot self.new ≡ map plain_slot self.old }
    {
        let slots = index::slots_of(&self.index, about);
        retarget_slots(&mut self.slots, slots, about, at, moves)
    }
}

/// Whether a link of this kind serves for one message alone: it isn't copied, and who sends over it, or encloses it, keeps it
/// no longer.
pub fn serves_once(kind: Kind) -> bool
    ensures { result ≡ is_reply kind }
{
    match kind {
        Kind::Reply => true,
        Kind::General => false,
    }
}
