//! Processes that are to move.
ghost use Rattle.std.specs.Prelude.{◌≡◌, ◌+◌, IfErr, IfOk, OnOk, Some};
ghost use Rattle.std.specs.declared.option.Option.{Option};
ghost use Rattle.dm_link.specs.Lawful.{IsMachine};
ghost use Rattle.dm_message.specs.Lawful.{IsLawfulMessage};
ghost use Rattle.dm_message.specs.Plain as plain;
ghost use Rattle.dm_message.specs.Plain.{plain_message};
ghost use Rattle.dm_onekernel.specs.Kernel.{OneKernel, with_note, without_note};
ghost use Rattle.dm_onekernel.specs.Pieces.{answer_id};
ghost use Rattle.dm_onekernel.specs.Step.{step};
ghost use Rattle.dm_onekernel.specs.declared.boot.Boot.{Boot};
ghost use Rattle.dm_onekernel.specs.declared.label.Label.TheVariants as label_;
ghost use Rattle.dm_replay.specs.Sound.{IsFitNote, IsSound};
ghost use Rattle.dm_replay.specs.Answers.{Gives, IsRefused};
ghost use Rattle.dm_replay.specs.State.{one_kernel, plain_note};
ghost use Rattle.dm_replay.specs.Steps.{Becomes, Stays, Steps};
ghost use Rattle.dm_replay.specs.Serving.{noted_by};
ghost use Rattle.dm_replay.specs.Tests.{is_end, is_move_what};

use crate::kernel::{HERE, Kernel, Note, Refusal};
use dm_link::{Addr, Pid};
use dm_memory::insert;
use dm_message::{Message, MsgId, Outcome, What};

/// The answer to a request to move that a process followed.
fn answer_of(id: MsgId, pid: Pid, note: Note, outcome: Outcome) -> Message
    ensures plain { plain_message result ≡ Some (record { id = answer_id id; to = note.asker.pid; sender = pid; what = plain.Moved outcome }) }
    ensures lawful { IsMachine id.from.home → IsFitNote pid note → IsLawfulMessage result }
{
    Message {
        id: MsgId { answer: true, ..id },
        to: note.asker,
        sender: Addr {
            pid,
            at: HERE,
            moves: 0,
        },
        what: What::Moved { outcome },
    }
}

/// Whether a message asks its receiver to move.
fn asks_to_move(what: &What) -> bool
    ensures { result ≡ is_move_what what.now }
{
    matches!(what, What::Move { .. })
}

/// Whether it is the outcome of a move whose process has ended.
fn is_end(outcome: Outcome) -> bool
    ensures { result ≡ is_end outcome }
{
    matches!(outcome, Outcome::Ended)
}

impl Kernel {
    /// A process is to move, as a message for it asks, and follows that request.
    pub(crate) fn ask(&mut self, id: MsgId) -> Result<(), Refusal>
        requires sound { IsSound self.old.labels self.old }
        ensures steps { Steps self.old result self.new (λ s. step s (label_.Asked id)) }
        ensures sound { OnOk result (IsSound (self.old.labels + 1) self.new) }
        ensures stays { OnOk result (Stays self.old self.new) }
    {
        let message = self.take_message(id)?;
        let to = message.to.pid;
        if !self.is_at_hand(to) {
            return Err(Refusal::NoStep);
        }
        if !asks_to_move(&message.what) {
            return Err(Refusal::NoStep);
        }
        self.note(
            to,
            Note {
                id,
                asker: message.sender,
            },
        )
    }

    /// A process follows a request from now on.
    fn note(&mut self, pid: Pid, note: Note) -> Result<(), Refusal>
        ensures state { OnOk result (Becomes self.old self.new (λ s. with_note s pid (plain_note note))) }
        ensures memory { (wanted : Option OneKernel) → IfErr result (λ e. IsRefused e wanted) }
        ensures sound { (n : _) → IsSound n self.old → IsFitNote pid note → IsMachine note.id.from.home → OnOk result (IsSound n self.new) }
        ensures stays { OnOk result (Stays self.old self.new) }
    {
        insert(&mut self.notes, pid, note)?;
        self.noted.set(note.id, pid)?;
        Ok(())
    }

    /// The request that a process follows is answered.
    pub(crate) fn answer_move(&mut self, id: MsgId, outcome: Outcome) -> Result<(), Refusal>
        requires sound { IsSound self.old.labels self.old }
        ensures steps { Steps self.old result self.new (λ s. step s (label_.Answered id outcome)) }
        ensures sound { OnOk result (IsSound (self.old.labels + 1) self.new) }
        ensures stays { OnOk result (Stays self.old self.new) }
    {
        if is_end(outcome) {
            return Err(Refusal::NoStep);
        }
        let (pid, note) = self.take_note(id)?;
        self.put_message(answer_of(id, pid, note, outcome))
    }

    /// Takes out the note of a request: who follows it, and what the note says.
    fn take_note(&mut self, id: MsgId) -> Result<(Pid, Note), Refusal>
        ensures gives { (b : Boot) → Gives result (λ r. Some (r.0, plain_note r.1)) (noted_by (one_kernel b self.old) id) }
        ensures out { IfOk result (λ r. Becomes self.old self.new (λ s. without_note s r.0 id)) }
        ensures fit { (n : _) → IsSound n self.old → IfOk result (λ r. IsFitNote r.0 r.1 × IsMachine id.from.home) }
        ensures sound { (n : _) → IsSound n self.old → OnOk result (IsSound n self.new) }
        ensures stays { OnOk result (Stays self.old self.new) }
    {
        let Some(pid) = self.noted.take(id) else {
            return Err(Refusal::NoStep);
        };
        match self.notes.remove(&pid) {
            Some(note) => Ok((pid, note)),
            None => Err(Refusal::NoStep),
        }
    }
}
