//! What becomes of messages for processes that have ended.
ghost use Rattle.std.specs.Prelude.{◌≡◌, ◌+◌, ◌&&◌, OnOk, is_some};
ghost use Rattle.dm_onekernel.specs.Step.{step, why_ended};
ghost use Rattle.dm_onekernel.specs.declared.label.Label.TheVariants as label_;
ghost use Rattle.dm_replay.specs.Living.{at, life_of};
ghost use Rattle.dm_replay.specs.Sound.{IsSound};
ghost use Rattle.dm_replay.specs.Steps.{Stays, Steps};
ghost use Rattle.dm_replay.specs.Tests.{is_asked_what, is_dropped_what};

use crate::kernel::{HERE, Kernel, Refusal};
use dm_datamove::gone;
use dm_message::{Message, MsgId, What};

/// Whether a message of this kind is dropped where its receiver has ended.
fn is_dropped(what: &What) -> bool
    ensures { result ≡ is_dropped_what what.now }
{
    match what {
        What::User { .. } => true,
        What::Stop => true,
        What::Resume => true,
        What::Kill => true,
        What::Block { .. } => true,
        What::Written => true,
        What::Gone => true,
        _ => false,
    }
}

/// Whether a message of this kind is answered where its receiver has ended.
fn is_request(what: &What) -> bool
    ensures { result ≡ is_asked_what what.now }
{
    match what {
        What::Read { .. } => true,
        What::Write { .. } => true,
        What::Move { .. } => true,
        _ => false,
    }
}

impl Kernel {
    /// Whether the receiver of a message has ended, and it is dropped then.
    fn drops(&self, message: &Message) -> bool
        ensures { result ≡ is_some (why_ended (life_of (at self.now.processes message.now.to.pid))) && is_dropped_what message.now.what }
    {
        self.has_ended(message.to.pid) && is_dropped(&message.what)
    }

    /// Whether the receiver of a message has ended, and it is answered then.
    fn asks_in_vain(&self, message: &Message) -> bool
        ensures { result ≡ is_some (why_ended (life_of (at self.now.processes message.now.to.pid))) && is_asked_what message.now.what }
    {
        self.has_ended(message.to.pid) && is_request(&message.what)
    }

    /// A message went whose receiver had ended.
    pub(crate) fn drop_message(&mut self, id: MsgId) -> Result<(), Refusal>
        requires sound { IsSound self.old.labels self.old }
        ensures steps { Steps self.old result self.new (λ s. step s (label_.Dropped id)) }
        ensures sound { OnOk result (IsSound (self.old.labels + 1) self.new) }
        ensures stays { OnOk result (Stays self.old self.new) }
    {
        let message = self.take_message(id)?;
        if self.drops(&message) {
            Ok(())
        } else {
            Err(Refusal::NoStep)
        }
    }

    /// A process that had ended was asked for something that is answered.
    pub(crate) fn answer_gone(&mut self, id: MsgId) -> Result<(), Refusal>
        requires sound { IsSound self.old.labels self.old }
        ensures steps { Steps self.old result self.new (λ s. step s (label_.Gone id)) }
        ensures sound { OnOk result (IsSound (self.old.labels + 1) self.new) }
        ensures stays { OnOk result (Stays self.old self.new) }
    {
        let message = self.take_message(id)?;
        if !self.asks_in_vain(&message) {
            return Err(Refusal::NoStep);
        }
        self.put_message(gone(&message, HERE))
    }
}
