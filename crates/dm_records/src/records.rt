//! The records of a machine, by process.
ghost use Rattle.std.specs.Prelude.{IfErr, IsSome, None, OnErr, OnOk, Some, ℕ, ◌≡◌, ◌<◌, false};
ghost use Rattle.std.specs.Borrow.{sem};
ghost use Rattle.std.specs.Option.{option_copied, option_copied_mut};
ghost use Rattle.dm_link.specs.declared.Pid.{Pid};
ghost use Rattle.dm_records.specs.Lent.{LendsFrozen, LendsHere, LendsIncoming, LendsRecord};
ghost use Rattle.dm_records.specs.Machines.{has};
ghost use Rattle.dm_records.specs.Records.{HasPlace, Grows, KeepsPreds, at, frozen_of, here_of, incoming_of, pred_at, with_pred, with_record, without_preds, without_record};

use crate::machines::Machines;
use crate::record::Record;
use dm_link::{MACHINES, Pid};
use dm_memory::{NoMemory, Parcel, insert_or_return};
use std::alloc::Global;
use std::collections::BTreeMap;

/// What is kept of a process.
#[derive(Drop)]
struct Place<H, L, A> {
    /// Its record; nothing while that is taken out.
    known: Option<Record<H, L, A>>,
    /// The other machines that may send on to this one what comes for it.
    predecessors: Machines,
}

/// What a machine knows of processes, and beside each record the predecessors of its process, which stay as the record changes. Only
/// making a record takes memory. A record can be taken out; its process keeps a place meanwhile, so it can be put back.
#[derive(Drop)]
pub struct Records<H, L, A> {
    alloc: Global,
    /// A place for each process that has a record, on the heap: a map has room for eleven values where it has one.
    places: BTreeMap<Pid, Parcel<Place<H, L, A>>>,
}

#[tactic(auto, unfolding(crate::specs::Records::at, crate::specs::Records::pred_at, crate::specs::Records::HasPlace))]
impl<H, L, A> Records<H, L, A> {
    /// No records.
    pub fn new(alloc: Global) -> Self
        ensures records { (q : Pid) → at result q ≡ None }
        ensures preds { (q : Pid) (n : ℕ) → pred_at result q n ≡ false }
    {
        Records {
            alloc,
            places: BTreeMap::new(alloc),
        }
    }

    /// The record of a process, if there is one.
    pub fn get(&self, pid: Pid) -> Option<&Record<H, L, A>>
        ensures { option_copied result ≡ at self.now pid }
    {
        match self.places.get(&pid) {
            Some(place) => place.get().known.as_ref(),
            None => None,
        }
    }

    /// A process that is here.
    pub fn here(&self, pid: Pid) -> Option<&H>
        ensures { option_copied result ≡ here_of (at self.now pid) }
    {
        match self.get(pid) {
            Some(record) => record.here(),
            None => None,
        }
    }

    /// A process that leaves.
    pub fn frozen(&self, pid: Pid) -> Option<&L>
        ensures { option_copied result ≡ frozen_of (at self.now pid) }
    {
        match self.get(pid) {
            Some(record) => record.frozen(),
            None => None,
        }
    }

    /// What has come of a process, where parts have come.
    pub fn incoming(&self, pid: Pid) -> Option<&A>
        ensures { option_copied result ≡ incoming_of (at self.now pid) }
    {
        match self.get(pid) {
            Some(record) => record.incoming(),
            None => None,
        }
    }

    /// Sets the record of a process, or hands it back; it can't fail where there is one. The predecessors stay.
    pub fn set(
        &mut self,
        pid: Pid,
        entry: Record<H, L, A>,
    ) -> Result<(), (Record<H, L, A>, NoMemory)>
    where
        H: Drop,
        L: Drop,
        A: Drop,
        ensures ok { OnOk result ((q : Pid) → at self.new q ≡ with_record (at self.old) pid entry q) }
        ensures err { OnErr result ((q : Pid) → at self.new q ≡ at self.old q) }
        ensures returned { IfErr result (λ e. e.0 ≡ entry) }
        ensures absent { OnErr result (at self.old pid ≡ None) }
        ensures grows { Grows (at self.old) (at self.new) }
        ensures preds { KeepsPreds self.old self.new }
    {
        match self.places.get_mut(&pid) {
            Some(place) => {
                place.get_mut().known = Some(entry);
                Ok(())
            }
            None => self.add(pid, entry),
        }
    }

    /// Sets the first record of a process, or hands it back.
    fn add(&mut self, pid: Pid, entry: Record<H, L, A>) -> Result<(), (Record<H, L, A>, NoMemory)>
    where
        H: Drop,
        L: Drop,
        A: Drop,
        requires no_record { at self.old pid ≡ None }
        requires no_preds { (n : ℕ) → pred_at self.old pid n ≡ false }
        ensures ok { OnOk result ((q : Pid) → at self.new q ≡ with_record (at self.old) pid entry q) }
        ensures err { OnErr result ((q : Pid) → at self.new q ≡ at self.old q) }
        ensures returned { IfErr result (λ e. e.0 ≡ entry) }
        ensures preds { KeepsPreds self.old self.new }
    {
        let place = Place {
            known: Some(entry),
            predecessors: Machines::none(),
        };
        let place = match Parcel::new_or_return(self.alloc, place) {
            Ok(place) => place,
            Err((place, no)) => return Err((place.known.unwrap(), no)),
        };
        match insert_or_return(&mut self.places, pid, place) {
            Ok(_) => Ok(()),
            Err(((_, place), no)) => Err((place.into_inner().known.unwrap(), no)),
        }
    }

    /// Removes what is kept of a process, and answers the record that it had.
    pub fn remove(&mut self, pid: Pid) -> Option<Record<H, L, A>>
        ensures before { at self.old pid ≡ result }
        ensures after { (q : Pid) → at self.new q ≡ without_record (at self.old) pid q }
        ensures preds { (q : Pid) (n : ℕ) → pred_at self.new q n ≡ without_preds (pred_at self.old) pid q n }
    {
        match self.places.remove(&pid) {
            Some(place) => place.into_inner().known,
            None => None,
        }
    }

    /// The predecessors of a process: the other machines that may send on to this one what comes for it. None where there is no record.
    pub fn predecessors(&self, pid: Pid) -> Machines
        ensures { (n : ℕ) → has result n ≡ pred_at self.now pid n }
    {
        match self.places.get(&pid) {
            Some(place) => place.get().predecessors,
            None => Machines::none(),
        }
    }

    /// Adds a machine to the predecessors of a process.
    pub fn add_predecessor(&mut self, pid: Pid, machine: u8)
        requires place { HasPlace self.old pid }
        requires machine { machine < MACHINES }
        ensures preds { (q : Pid) (n : ℕ) → pred_at self.new q n ≡ with_pred (pred_at self.old) pid machine q n }
        ensures records { (q : Pid) → at self.new q ≡ at self.old q }
        ensures places { (q : Pid) → HasPlace self.old q → HasPlace self.new q }
    {
        let place = self.places.get_mut(&pid).unwrap().get_mut();
        place.predecessors = place.predecessors.with(machine);
    }

    /// Takes out the record of a process, whose place and predecessors stay.
    pub fn take(&mut self, pid: Pid) -> Record<H, L, A>
        requires { IsSome (at self.old pid) }
        ensures before { at self.old pid ≡ Some result }
        ensures after { (q : Pid) → at self.new q ≡ without_record (at self.old) pid q }
        ensures place { HasPlace self.new pid }
        ensures preds { KeepsPreds self.old self.new }
    {
        self.places
            .get_mut(&pid)
            .unwrap()
            .get_mut()
            .known
            .take()
            .unwrap()
    }

    /// Puts a record into the place of a process whose record was taken out.
    pub fn put_back(&mut self, pid: Pid, entry: Record<H, L, A>)
    where
        H: Drop,
        L: Drop,
        A: Drop,
        requires { HasPlace self.old pid }
        ensures records { (q : Pid) → at self.new q ≡ with_record (at self.old) pid entry q }
        ensures place { HasPlace self.new pid }
        ensures preds { KeepsPreds self.old self.new }
    {
        self.places.get_mut(&pid).unwrap().get_mut().known = Some(entry);
    }

    /// Takes out a process that is here.
    pub fn take_here(&mut self, pid: Pid) -> H
    where
        L: Drop,
        A: Drop,
        requires { IsSome (here_of (at self.old pid)) }
        ensures before { here_of (at self.old pid) ≡ Some result }
        ensures after { (q : Pid) → at self.new q ≡ without_record (at self.old) pid q }
        ensures place { HasPlace self.new pid }
        ensures preds { KeepsPreds self.old self.new }
    {
        self.take(pid).into_here().unwrap()
    }

    /// Takes out a process that leaves.
    pub fn take_frozen(&mut self, pid: Pid) -> L
    where
        H: Drop,
        A: Drop,
        requires { IsSome (frozen_of (at self.old pid)) }
        ensures before { frozen_of (at self.old pid) ≡ Some result }
        ensures after { (q : Pid) → at self.new q ≡ without_record (at self.old) pid q }
        ensures place { HasPlace self.new pid }
        ensures preds { KeepsPreds self.old self.new }
    {
        self.take(pid).into_frozen().unwrap()
    }

    /// Takes out what has come of a process.
    pub fn take_incoming(&mut self, pid: Pid) -> A
    where
        H: Drop,
        L: Drop,
        requires { IsSome (incoming_of (at self.old pid)) }
        ensures before { incoming_of (at self.old pid) ≡ Some result }
        ensures after { (q : Pid) → at self.new q ≡ without_record (at self.old) pid q }
        ensures place { HasPlace self.new pid }
        ensures preds { KeepsPreds self.old self.new }
    {
        self.take(pid).into_incoming().unwrap()
    }

    /// The record of a process, for writing.
    pub fn get_mut(&mut self, pid: Pid) -> Option<&mut Record<H, L, A>>
        ensures* writes_back { sem 𝓛 (LendsRecord H.row L.row A.row self.entry pid result) }
        ensures value { option_copied_mut result ≡ at self.old pid }
    {
        match self.places.get_mut(&pid) {
            Some(place) => place.get_mut().known.as_mut(),
            None => None,
        }
    }

    /// A process that is here, for writing.
    pub fn here_mut(&mut self, pid: Pid) -> Option<&mut H>
        ensures* writes_back { sem 𝓛 (LendsHere H.row L.row A.row self.entry pid result) }
        ensures value { option_copied_mut result ≡ here_of (at self.old pid) }
    {
        match self.get_mut(pid) {
            Some(entry) => entry.here_mut(),
            None => None,
        }
    }

    /// A process that leaves, for writing.
    pub fn frozen_mut(&mut self, pid: Pid) -> Option<&mut L>
        ensures* writes_back { sem 𝓛 (LendsFrozen H.row L.row A.row self.entry pid result) }
        ensures value { option_copied_mut result ≡ frozen_of (at self.old pid) }
    {
        match self.get_mut(pid) {
            Some(entry) => entry.frozen_mut(),
            None => None,
        }
    }

    /// What has come of a process, for writing.
    pub fn incoming_mut(&mut self, pid: Pid) -> Option<&mut A>
        ensures* writes_back { sem 𝓛 (LendsIncoming H.row L.row A.row self.entry pid result) }
        ensures value { option_copied_mut result ≡ incoming_of (at self.old pid) }
    {
        match self.get_mut(pid) {
            Some(entry) => entry.incoming_mut(),
            None => None,
        }
    }
}
