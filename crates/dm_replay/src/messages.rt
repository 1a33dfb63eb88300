//! The bag.
ghost use Rattle.std.specs.Prelude.{◌≡◌, IfErr, IfOk, IfSome, OnOk, Some};
ghost use Rattle.std.specs.declared.option.Option.{Option};
ghost use Rattle.dm_link.specs.Lawful.{IsMachine};
ghost use Rattle.dm_message.specs.Lawful.{IsLawfulMessage};
ghost use Rattle.dm_message.specs.Plain.{plain_message};
ghost use Rattle.dm_onekernel.specs.Kernel.{OneKernel};
ghost use Rattle.dm_onekernel.specs.Service.{without_message};
ghost use Rattle.dm_onekernel.specs.declared.boot.Boot.{Boot};
ghost use Rattle.dm_replay.specs.Answers.{Gives, IsRefused};
ghost use Rattle.dm_replay.specs.Sound.{IsSound};
ghost use Rattle.dm_replay.specs.State.{one_kernel, put_in};
ghost use Rattle.dm_replay.specs.Steps.{Becomes, Stays};

use crate::kernel::{Kernel, Refusal};
use dm_memory::Parcel;
use dm_message::{Message, MsgId};

impl Kernel {
    /// Takes a message out of the bag.
    pub(crate) fn take_message(&mut self, id: MsgId) -> Result<Message, Refusal>
        ensures gives { (b : Boot) → Gives result plain_message ((one_kernel b self.old).bag id) }
        ensures out { OnOk result (Becomes self.old self.new (λ s. without_message s id)) }
        ensures fit { (n : _) → IsSound n self.old → IfOk result IsLawfulMessage }
        ensures home { (n : _) → IsSound n self.old → OnOk result (IsMachine id.from.home) }
        ensures sound { (n : _) → IsSound n self.old → OnOk result (IsSound n self.new) }
        ensures stays { OnOk result (Stays self.old self.new) }
    {
        match self.bag.take(id) {
            Some(message) => Ok(message.into_inner()),
            None => Err(Refusal::NoStep),
        }
    }

    /// A message of the bag once more.
    pub(crate) fn copy_of(&self, id: MsgId) -> Result<Message, Refusal>
        ensures gives { (b : Boot) → Gives result plain_message ((one_kernel b self.now).bag id) }
        ensures fit { (n : _) → IsSound n self.now → IfOk result IsLawfulMessage }
    {
        match self.bag.get(id) {
            Some(message) => {
                let copy = message.get().copied(self.alloc)?;
                Ok(copy)
            }
            None => Err(Refusal::NoStep),
        }
    }

    /// Takes a message out of the bag, which goes.
    pub(crate) fn forget(&mut self, id: MsgId)
        ensures out { Becomes self.old self.new (λ s. without_message s id) }
        ensures sound { (n : _) → IsSound n self.old → IsSound n self.new }
        ensures processes { self.new.processes ≡ self.old.processes }
        ensures stays { Stays self.old self.new }
    {
        self.bag.take(id);
    }

    /// Puts a message into the bag.
    pub(crate) fn put_message(&mut self, message: Message) -> Result<(), Refusal>
        requires { IsLawfulMessage message }
        ensures state { OnOk result (Becomes self.old self.new (λ s. put_in s (Some message))) }
        ensures memory { (wanted : Option OneKernel) → IfErr result (λ e. IsRefused e wanted) }
        ensures sound { (n : _) → IsSound n self.old → OnOk result (IsSound n self.new) }
        ensures stays { OnOk result (Stays self.old self.new) }
    {
        let id = message.id;
        let message = Parcel::new(self.alloc, message)?;
        self.bag.set(id, message)?;
        Ok(())
    }

    /// Puts a message into the bag, if there is one.
    pub(crate) fn put_sent(&mut self, sent: Option<Message>) -> Result<(), Refusal>
        requires { IfSome sent IsLawfulMessage }
        ensures state { OnOk result (Becomes self.old self.new (λ s. put_in s sent)) }
        ensures memory { (wanted : Option OneKernel) → IfErr result (λ e. IsRefused e wanted) }
        ensures sound { (n : _) → IsSound n self.old → OnOk result (IsSound n self.new) }
        ensures stays { OnOk result (Stays self.old self.new) }
    {
        match sent {
            Some(message) => self.put_message(message),
            None => Ok(()),
        }
    }
}
