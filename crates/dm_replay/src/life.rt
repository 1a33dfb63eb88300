//! The processes that were made: each lives, or has ended.
ghost use Rattle.std.specs.Prelude.{◌≡◌, IsSome, None, OnOk, Some};
ghost use Rattle.std.specs.Option.{option_copied};
ghost use Rattle.dm_replay.specs.Living.{HasPlace, alive_of, at, with_life, without_life};

use dm_link::Pid;
use dm_memory::{NoMemory, insert};
use dm_onekernel::Why;
use std::alloc::Global;
use std::collections::BTreeMap;

/// What became of a process that was made.
#[derive(Drop)]
pub enum Life<P> {
    Alive(P),
    Ended(Why),
}

impl<P> Life<P> {
    /// The process, if it lives.
    pub fn alive(&self) -> Option<&P>
        ensures { option_copied result ≡ alive_of (Some self.now) }
    {
        match self {
            Life::Alive(process) => Some(process),
            Life::Ended(_) => None,
        }
    }

    /// The process, if it lives.
    pub fn into_alive(self) -> Option<P>
        ensures { result ≡ alive_of (Some self) }
    {
        match self {
            Life::Alive(process) => Some(process),
            Life::Ended(_) => None,
        }
    }
}

/// What became of each process that was made. Only making one takes memory: one that is taken out keeps its place meanwhile.
#[derive(Drop)]
pub struct Lives<P> {
    places: BTreeMap<Pid, Option<Life<P>>>,
}

#[tactic(auto, unfolding(crate::specs::Living::at, crate::specs::Living::HasPlace))]
impl<P> Lives<P> {
    /// No process.
    pub fn new(alloc: Global) -> Self
        ensures { (q : _) → at result q ≡ None }
    {
        Lives {
            places: BTreeMap::new(alloc),
        }
    }

    /// What became of a process, if it was made.
    pub fn get(&self, pid: Pid) -> Option<&Life<P>>
        ensures { option_copied result ≡ at self.now pid }
    {
        match self.places.get(&pid) {
            Some(place) => place.as_ref(),
            None => None,
        }
    }

    /// A process that lives.
    pub fn alive(&self, pid: Pid) -> Option<&P>
        ensures { option_copied result ≡ alive_of (at self.now pid) }
    {
        match self.get(pid) {
            Some(life) => life.alive(),
            None => None,
        }
    }

    /// A process is made.
    pub fn set(&mut self, pid: Pid, life: Life<P>) -> Result<(), NoMemory>
    where
        P: Drop,
        ensures { OnOk result ((q : _) → at self.new q ≡ with_life (at self.old) pid life q) }
    {
        insert(&mut self.places, pid, Some(life))?;
        Ok(())
    }

    /// Takes out a process that lives, whose place stays.
    pub fn take_alive(&mut self, pid: Pid) -> P
        requires { IsSome (alive_of (at self.old pid)) }
        ensures before { alive_of (at self.old pid) ≡ Some result }
        ensures after { (q : _) → at self.new q ≡ without_life (at self.old) pid q }
        ensures place { HasPlace self.new pid }
    {
        let life = self.places.get_mut(&pid).unwrap().take().unwrap();
        life.into_alive().unwrap()
    }

    /// Sets what became of a process that was taken out.
    pub fn put_back(&mut self, pid: Pid, life: Life<P>)
    where
        P: Drop,
        requires { HasPlace self.old pid }
        ensures { (q : _) → at self.new q ≡ with_life (at self.old) pid life q }
    {
        *self.places.get_mut(&pid).unwrap() = Some(life);
    }
}
