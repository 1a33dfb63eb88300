//! A turn of the machine.
ghost use Rattle.dm_resident.specs.declared.Resident.TheVariants as resident;
ghost use Rattle.std.specs.Prelude.{◌≡◌, ◌<◌, [], ◌∷◌, IfOk, IfSome, OnOk, Some, is_some, length, slice_get, true};
ghost use Rattle.dm_records.specs.Records.{at};
ghost use Rattle.dm_records.specs.declared.record.Record.TheVariants.{Here};
ghost use Rattle.dm_onekernel.specs.Boot.{images_are_valid};
ghost use Rattle.dm_onekernel.specs.Options.{bind};
ghost use Rattle.dm_process.specs.Service.{IsServiceOf};
ghost use Rattle.dm_kernel.specs.Carried.{FreezesWhole};
ghost use Rattle.dm_kernel.specs.Idle.{AreIdle, KnowsIdle};
ghost use Rattle.dm_kernel.specs.May.{CanTellAll, MayAct, MayTurn};
ghost use Rattle.dm_kernel.specs.Meets.{Takes, kernel_state};
ghost use Rattle.dm_kernel.specs.Served.{IsHere};
ghost use Rattle.dm_kernel.specs.Turn.{first_runnable, goes_round, known_is_runnable, turn};

use crate::kernel::Kernel;
use crate::part::Part;
use crate::residents::process_mut;
use crate::ring::move_back;
use dm_line::line::Line;
use dm_link::{MACHINES, Pid};
use dm_memory::{NoMemory, list_of};
use dm_onekernel::Boot;
use dm_process::Service;

impl Kernel {
    /// Takes a turn: handles the message at the inbox's front, or serves the first process of the ring that can be
    /// served, or is idle. Answers what it says and routes, in order; none where it is idle, since it says that alone then.
    pub fn turn(&mut self, boot: &Boot) -> Result<Option<Vec<Part>>, NoMemory>
        requires may { MayTurn boot.now (kernel_state self.old) }
        requires images { images_are_valid boot.now.images ≡ true }
        requires idle { KnowsIdle self.old }
        ensures answers { Takes result self.new (turn boot.now (kernel_state self.old)) }
        // Where it froze a process or a server, that can be carried whole.
        ensures whole { OnOk result (FreezesWhole (kernel_state self.old) self.old.inbox) }
        ensures idle { OnOk result (KnowsIdle self.new) }
    {
        self.over = None;
        match self.inbox.pop() {
            Some(message) => {
                let parts = self.handle(boot, message)?;
                // Any process may be one now that can be served.
                self.idle = 0;
                Ok(Some(parts))
            }
            None => self.go_round(boot),
        }
    }

    /// Serves the first process of the ring that can be served, which goes to the ring's back; none where there is none.
    fn go_round(&mut self, boot: &Boot) -> Result<Option<Vec<Part>>, NoMemory>
        requires here { self.old.here < MACHINES }
        requires sent { CanTellAll (kernel_state self.old) }
        requires processes { (p : _) (x : _) → at self.old.records p ≡ Some (Here (resident.Process x)) → MayAct (kernel_state self.old) p x }
        requires idle { KnowsIdle self.old }
        ensures answers { Takes result self.new (goes_round boot.now (kernel_state self.old) (first_runnable (at self.old.records) self.old.ring)) }
        ensures idle { OnOk result (KnowsIdle self.new) }
    {
        match self.first_service() {
            Some((place, service)) => {
                let pid = *self.ring.at(place);
                move_back(&mut self.ring, place);
                let parts = self.serve(pid, service, boot.quantum)?;
                // Serving it changed none of those before it.
                self.idle = place;
                Ok(Some(parts))
            }
            None => {
                self.idle = self.ring.len();
                Ok(None)
            }
        }
    }

    /// The place in the ring of the first process that can be served, and what it does then.
    fn first_service(&mut self) -> Option<(usize, Service)>
        requires idle { KnowsIdle self.old }
        ensures unchanged { kernel_state self.new ≡ kernel_state self.old }
        ensures within { IfSome result (λ s. s.0 < length self.new.ring) }
        ensures first { bind result (λ s. slice_get self.new.ring s.0) ≡ first_runnable (at self.new.records) self.new.ring }
        ensures before { IfSome result (λ s. AreIdle (at self.new.records) self.new.ring s.0) }
        ensures service { IfSome result (λ s. IfSome (slice_get self.new.ring s.0) (λ p. IsHere (λ x. IsServiceOf x s.1) (at self.new.records p))) }
    {
        for place in self.idle..self.ring.len() {
            let pid = *self.ring.at(place);
            if let Some(service) = self.service_of(pid) {
                return Some((place, service));
            }
        }
        None
    }

    /// What a process does where it is served now; nothing where it isn't here, or can't be served.
    fn service_of(&mut self, pid: Pid) -> Option<Service>
        ensures unchanged { kernel_state self.new ≡ kernel_state self.old }
        ensures runnable { is_some result ≡ known_is_runnable (at self.new.records pid) }
        ensures service { IfSome result (λ s. IsHere (λ x. IsServiceOf x s) (at self.new.records pid)) }
    {
        match process_mut(&mut self.records, pid) {
            Some(process) => process.service(),
            None => None,
        }
    }

    /// The one part of a turn that says one line.
    pub(crate) fn say(&self, line: Line) -> Result<Vec<Part>, NoMemory>
        ensures { IfOk result (λ parts. parts.items ≡ Part.Says line ∷ []) }
    {
        list_of(self.alloc, [Part::Says(line)])
    }
}
