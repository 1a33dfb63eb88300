//! What the servers do with a message.
ghost use Rattle.std.specs.Prelude.{◌≡◌, ◌+◌, ◌<◌, OnOk};
ghost use Rattle.dm_link.specs.Names.{pid_eq};
ghost use Rattle.dm_onekernel.specs.Boot.{manager, switchboard};
ghost use Rattle.dm_message.specs.Lawful.{IsLawfulMessage};
ghost use Rattle.dm_message.specs.Plain.{plain_message};
ghost use Rattle.dm_onekernel.specs.Step.{step};
ghost use Rattle.dm_onekernel.specs.declared.boot.Boot.{Boot};
ghost use Rattle.dm_onekernel.specs.declared.label.Label.TheVariants as label_;
ghost use Rattle.dm_replay.specs.Answers.{Gives};
ghost use Rattle.dm_replay.specs.Sound.{IsOf, IsSound};
ghost use Rattle.dm_replay.specs.State.{one_kernel};
ghost use Rattle.dm_replay.specs.Steps.{Stays, Steps};
ghost use Rattle.dm_replay.specs.Tests.{is_for_manager};
ghost use Rattle.dm_replay.specs.Serving.{board_at, manager_at};

use crate::kernel::{HERE, Kernel, MOST_LABELS, Refusal};
use dm_link::{MANAGER, Pid, SWITCHBOARD};
use dm_message::{Message, MsgId, What};
use dm_onekernel::Boot;
use dm_procman::ProcMan;

/// Whether the manager takes what a message of this number says.
fn is_for_manager(manager: &ProcMan, number: u32, what: &What) -> bool
    ensures { result ≡ is_for_manager manager.now number what.now }
{
    match what {
        What::User { .. } => true,
        What::Created { .. } => manager.awaits(number),
        What::NoRoom => manager.awaits(number),
        What::Moved { .. } => manager.awaits(number),
        _ => false,
    }
}

/// Whether it is the switchboard.
fn is_switchboard(pid: Pid) -> bool
    ensures { result ≡ pid_eq pid switchboard }
{
    pid == SWITCHBOARD
}

/// Whether it is the process manager.
fn is_manager(pid: Pid) -> bool
    ensures { result ≡ pid_eq pid manager }
{
    pid == MANAGER
}

impl Kernel {
    /// A server took a message.
    pub(crate) fn take_for_server(&mut self, boot: &Boot, id: MsgId) -> Result<(), Refusal>
        requires sound { IsSound self.old.labels self.old }
        requires room { self.old.labels < MOST_LABELS }
        requires of { IsOf boot.now self.old }
        ensures gives { Gives result (λ _. Some (one_kernel boot.now self.new)) (step (one_kernel boot.now self.old) (label_.Took id)) }
        ensures sound { OnOk result (IsSound (self.old.labels + 1) self.new) }
        ensures stays { OnOk result (Stays self.old self.new) }
    {
        let message = self.take_message(id)?;
        if is_switchboard(message.to.pid) {
            return self.take_for_board(&message);
        }
        if is_manager(message.to.pid) {
            return self.take_for_manager(&message);
        }
        Err(Refusal::NoStep)
    }

    /// The switchboard took a message.
    fn take_for_board(&mut self, message: &Message) -> Result<(), Refusal>
        requires sound { IsSound self.old.labels self.old }
        requires room { self.old.labels < MOST_LABELS }
        requires lawful { IsLawfulMessage message.now }
        ensures steps { Steps self.old result self.new (λ s. board_at s (plain_message message.now)) }
        ensures sound { OnOk result (IsSound (self.old.labels + 1) self.new) }
        ensures stays { OnOk result (Stays self.old self.new) }
    {
        match &message.what {
            What::User { .. } => {
                let took = self.board.take(self.alloc, message, HERE)?;
                self.put_sent(took.answer)
            }
            _ => Err(Refusal::NoStep),
        }
    }

    /// The process manager took a message.
    fn take_for_manager(&mut self, message: &Message) -> Result<(), Refusal>
        requires sound { IsSound self.old.labels self.old }
        requires room { self.old.labels < MOST_LABELS }
        requires lawful { IsLawfulMessage message.now }
        ensures steps { (b : Boot) → IsOf b self.old → Gives result (λ _. Some (one_kernel b self.new)) (manager_at (one_kernel b self.old) (plain_message message.now)) }
        ensures sound { OnOk result (IsSound (self.old.labels + 1) self.new) }
        ensures stays { OnOk result (Stays self.old self.new) }
    {
        if !is_for_manager(&self.manager, message.id.n, &message.what) {
            return Err(Refusal::NoStep);
        }
        let sent = self.manager.take(self.alloc, message, HERE)?;
        self.put_sent(sent)
    }
}
