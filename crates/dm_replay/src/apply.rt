//! One label.
ghost use Rattle.std.specs.Prelude.{◌≡◌, ◌+◌, ◌<◌, OnOk, Some};
ghost use Rattle.dm_onekernel.specs.Boot.{IsValid};
ghost use Rattle.dm_onekernel.specs.Step.{step};
ghost use Rattle.dm_replay.specs.Answers.{Gives};
ghost use Rattle.dm_replay.specs.Sound.{IsOf, IsSound};
ghost use Rattle.dm_replay.specs.State.{one_kernel};
ghost use Rattle.dm_replay.specs.Steps.{Stays};

use crate::kernel::{Kernel, MOST_LABELS, Refusal};
use dm_onekernel::{Boot, Label};

impl Kernel {
    /// Takes the next label: the kernel does its step, or refuses it, where it is none. A kernel that has refused a
    /// label takes no other.
    ///
    /// # Errors
    ///
    /// The label is no step, or there is no memory.
    pub fn apply(&mut self, boot: &Boot, label: Label) -> Result<(), Refusal>
        requires valid { IsValid boot.now }
        requires of { IsOf boot.now self.old }
        requires sound { IsSound self.old.labels self.old }
        requires room { self.old.labels < MOST_LABELS }
        ensures gives { Gives result (λ _. Some (one_kernel boot.now self.new)) (step (one_kernel boot.now self.old) label) }
        ensures of { OnOk result (IsOf boot.now self.new) }
        ensures sound { OnOk result (IsSound self.new.labels self.new) }
        ensures counted { OnOk result (self.new.labels ≡ self.old.labels + 1) }
    {
        self.do_step(boot, label)?;
        self.labels += 1;
        Ok(())
    }

    /// Does the step of a label, if it is one.
    fn do_step(&mut self, boot: &Boot, label: Label) -> Result<(), Refusal>
        requires valid { IsValid boot.now }
        requires of { IsOf boot.now self.old }
        requires sound { IsSound self.old.labels self.old }
        requires room { self.old.labels < MOST_LABELS }
        ensures gives { Gives result (λ _. Some (one_kernel boot.now self.new)) (step (one_kernel boot.now self.old) label) }
        ensures sound { OnOk result (IsSound (self.old.labels + 1) self.new) }
        ensures stays { OnOk result (Stays self.old self.new) }
    {
        match label {
            Label::Ran { pid, count } => self.run(pid, count),
            Label::Call { pid, number, reply } => self.reply(pid, number, reply),
            Label::Send { pid, id } => self.send(pid, id),
            Label::Wait { pid } => self.wait(pid),
            Label::Out { pid, word } => self.put_out(pid, word),
            Label::End { pid, why } => self.end(pid, why),
            Label::Receive { pid, id } => self.receive(pid, id),
            Label::Refuse { pid, id, reply } => self.refuse(pid, id, reply),
            Label::Served { id } => self.serve(id),
            Label::Took { id } => self.take_for_server(boot, id),
            Label::Dropped { id } => self.drop_message(id),
            Label::Gone { id } => self.answer_gone(id),
            Label::Created { id, pid } => self.create(boot, id, pid),
            Label::NoSpace { id, .. } => self.no_space(boot, id),
            Label::Asked { id } => self.ask(id),
            Label::Answered { id, outcome } => self.answer_move(id, outcome),
        }
    }
}
