//! Where the children of the manager are.
ghost use Rattle.std.specs.Prelude.{◌≡◌, ◌<◌, ◌^◌, ◌++◌, ◌∷◌, [], OnErr, OnOk, Some, None, count_by, if◌then◌else◌, length, map, slice_get};
ghost use Rattle.std.specs.BTreeMap.{get};
ghost use Rattle.std.specs.Option.{option_or};
ghost use Rattle.dm_link.specs.declared.Pid.{Pid};
ghost use Rattle.dm_link.specs.Names.{pid_cmp, pid_eq};
ghost use Rattle.dm_link.specs.Places.{is_behind, retargeted};
ghost use Rattle.dm_procman.specs.Moving.{child_named};
ghost use Rattle.dm_procman.specs.Taking.{child_address};

use crate::moving::retarget_children;
use dm_link::{Addr, Pid};
use dm_memory::{NoMemory, insert, reserve_for};
use std::alloc::Global;
use std::collections::BTreeMap;
use std::marker::Model;

/// The addresses of the children, child 1 first, which are found by name and by number; contracts see a list of them.
#[derive(Drop)]
pub struct Children {
    addresses: Vec<Addr>,
    /// The place of the first child of each name.
    places: BTreeMap<Pid, usize>,
}

impl Model for Children {
    ghost use Rattle.std.specs.Prelude.{List};
    ghost use Rattle.dm_link.specs.declared.Addr.{Addr};
    ghost use Rattle.dm_procman.specs.Named.{FindsChildren};

    ghost Value = { List Addr };

    ghost view = { λ c. c.addresses.items };

    ghost invariant = { λ c. FindsChildren c.places c.addresses.items };
}

impl Children {
    /// No children. It takes no memory.
    pub fn new(alloc: Global) -> Self
        ensures { result ≡ [] }
    {
        Children {
            addresses: Vec::new(alloc),
            places: BTreeMap::new(alloc),
        }
    }

    /// How many there are.
    pub fn len(&self) -> usize
        ensures { result ≡ length self.now }
    {
        self.addresses.len()
    }

    /// Where they are, child 1 first.
    pub fn as_slice(&self) -> &[Addr]
        ensures { result.now ≡ self.now }
    {
        self.addresses.as_slice()
    }

    /// Adds a child behind the others.
    pub fn push(&mut self, child: Addr) -> Result<(), NoMemory>
        ensures ok { OnOk result (self.new ≡ self.old ++ child ∷ []) }
        ensures err { OnErr result (self.new ≡ self.old) }
    {
        reserve_for(&mut self.addresses, &child)?;
        let place = self.addresses.as_slice().len();
        set_place(&mut self.places, child.pid, place)?;
        self.addresses.push_reserved(child);
        Ok(())
    }

    /// Where the child of this name is.
    pub fn named(&self, pid: Pid) -> Option<Addr>
        ensures { result ≡ child_named pid self.now }
    {
        match self.places.get(&pid) {
            Some(place) => self.at(*place),
            None => None,
        }
    }

    /// Where child number `number` is; they are numbered from 1.
    pub fn numbered(&self, number: u32) -> Option<Addr>
        ensures { result ≡ child_address self.now number }
    {
        let index = number.checked_sub(1)?;
        self.at(index as usize)
    }

    /// Where the child at a place of the list is.
    fn at(&self, place: usize) -> Option<Addr>
        ensures { result ≡ slice_get self.now place }
    {
        self.addresses.get(place).copied()
    }

    /// Tells the addresses that a process is on machine `at` after so many moves; how many changed.
    pub fn retarget(&mut self, about: Pid, at: u8, moves: u32) -> u32
        requires { length self.old < 2 ^ 31 }
        ensures children { self.new ≡ map (retargeted about at moves) self.old }
        ensures changed { result ≡ count_by (is_behind about moves) self.old }
    {
        retarget_children(self.addresses.as_mut_slice(), about, at, moves)
    }
}

/// Sets the place of a name that has none.
fn set_place(places: &mut BTreeMap<Pid, usize>, pid: Pid, place: usize) -> Result<(), NoMemory>
    ensures ok { OnOk result ((p : Pid) → get pid_cmp places.new p ≡ option_or (get pid_cmp places.old p) (if pid_eq pid p then Some place else None)) }
    ensures err { OnErr result ((p : Pid) → get pid_cmp places.new p ≡ get pid_cmp places.old p) }
{
    if !places.contains_key(&pid) {
        insert(places, pid, place)?;
    }
    Ok(())
}
