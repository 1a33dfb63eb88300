//! What kernels do with messages for processes.
ghost use Rattle.std.specs.Prelude.{◌≡◌, ◌+◌, ◌<◌, OnOk, true};
ghost use Rattle.dm_datamove.specs.Landing.{plainly_landed};
ghost use Rattle.dm_datamove.specs.Serving.{served_plainly};
ghost use Rattle.dm_message.specs.Lawful.{IsLawfulMessage};
ghost use Rattle.dm_message.specs.Plain.{plain_message};
ghost use Rattle.dm_onekernel.specs.Plain.{plain_process};
ghost use Rattle.dm_onekernel.specs.Step.{goes_on, step};
ghost use Rattle.dm_onekernel.specs.declared.label.Label.TheVariants as label_;
ghost use Rattle.dm_replay.specs.Living.{HasPlace};
ghost use Rattle.dm_replay.specs.Sound.{IsFit, IsSound};
ghost use Rattle.dm_replay.specs.Steps.{Becomes, Stays, Steps};
ghost use Rattle.dm_replay.specs.Tests.{is_answer_of, is_awaited, is_within};
ghost use Rattle.dm_replay.specs.Serving.{lands_at, serves_at};

use crate::kernel::{HERE, Kernel, MOST_LABELS, Refusal};
use dm_datamove::{Landed, land, serve};
use dm_link::Pid;
use dm_message::{MOST_BODY, Message, MsgId, What};
use dm_onekernel::Why;
use dm_process::{Direction, Process, Status};
use dm_processor::Cells;

/// Whether a request for a piece lies within a memory of so many bytes.
fn is_within(size: u32, what: &What) -> bool
    ensures { result ≡ is_within size what.now }
{
    match what {
        What::Read { base, len } => u64::from(*base) + u64::from(*len) <= u64::from(size),
        What::Write { base, bytes } => u64::from(*base) + bytes.len() as u64 <= u64::from(size),
        _ => false,
    }
}

/// Whether what is said answers the request of a data move with so many bytes left.
fn answers(dir: Direction, left: u32, what: &What) -> bool
    ensures { result ≡ is_answer_of dir left what.now }
{
    match (dir, what) {
        (Direction::FromArea, What::Block { bytes }) => bytes.len() == MOST_BODY.min(left as usize),
        (Direction::IntoArea, What::Written) => true,
        (_, What::Gone) => true,
        _ => false,
    }
}

/// Whether a process waits for this answer to a request for a piece.
fn awaits(status: Status, message: &Message) -> bool
    ensures { result ≡ is_awaited status message.now.id.n message.now.what }
{
    match status {
        Status::Moving {
            dir,
            left,
            pending,
            ..
        } => message.id.n == pending && answers(dir, left, &message.what),
        _ => false,
    }
}

impl Kernel {
    /// The kernel of a process did what a message for it asks.
    pub(crate) fn serve(&mut self, id: MsgId) -> Result<(), Refusal>
        requires sound { IsSound self.old.labels self.old }
        requires room { self.old.labels < MOST_LABELS }
        ensures steps { Steps self.old result self.new (λ s. step s (label_.Served id)) }
        ensures sound { OnOk result (IsSound (self.old.labels + 1) self.new) }
        ensures stays { OnOk result (Stays self.old self.new) }
    {
        let message = self.take_message(id)?;
        let process = self.take_at_hand(message.to.pid)?;
        match &message.what {
            What::Stop => Ok(self.set_stopped(message.to.pid, process, true)),
            What::Resume => Ok(self.set_stopped(message.to.pid, process, false)),
            What::Kill => Ok(self.put_ended(message.to.pid, Why::Killed)),
            What::Read { .. } => self.answer_piece(&message, process),
            What::Write { .. } => self.answer_piece(&message, process),
            What::Block { .. } => self.land_piece(&message, process),
            What::Written => self.land_piece(&message, process),
            What::Gone => self.land_piece(&message, process),
            _ => Err(Refusal::NoStep),
        }
    }

    /// Stops a process that was taken out, or lets it go on.
    fn set_stopped(&mut self, pid: Pid, process: Process, stopped: bool)
        requires { HasPlace self.old.processes pid }
        ensures state { Becomes self.old self.new (λ s. goes_on s pid (plain_process (record process { stopped = stopped }))) }
        ensures sound { (n : _) → IsSound n self.old → IsFit n pid process → IsSound n self.new }
        ensures stays { Stays self.old self.new }
    {
        let mut process = process;
        process.stopped = stopped;
        self.put_back(pid, process);
    }

    /// Reads or writes a piece of a process's memory, and answers.
    fn answer_piece(&mut self, message: &Message, process: Process) -> Result<(), Refusal>
        requires sound { IsSound self.old.labels self.old }
        requires room { self.old.labels < MOST_LABELS }
        requires place { HasPlace self.old.processes message.now.to.pid }
        requires fit { IsFit self.old.labels message.now.to.pid process }
        requires lawful { IsLawfulMessage message.now }
        ensures steps { Steps self.old result self.new (λ s. serves_at s message.now.to.pid (served_plainly process (plain_message message.now))) }
        ensures sound { OnOk result (IsSound (self.old.labels + 1) self.new) }
        ensures stays { OnOk result (Stays self.old self.new) }
    {
        if !is_within(process.memory.len(), &message.what) {
            return Err(Refusal::NoStep);
        }
        let mut process = process;
        let answer = serve(self.alloc, &mut process, message, HERE)?;
        self.put_back(message.to.pid, process);
        self.put_message(answer)
    }

    /// Lands the answer to a piece at the process that asked for it, which may ask for the next one.
    fn land_piece(&mut self, message: &Message, process: Process) -> Result<(), Refusal>
        requires sound { IsSound self.old.labels self.old }
        requires room { self.old.labels < MOST_LABELS }
        requires place { HasPlace self.old.processes message.now.to.pid }
        requires fit { IsFit self.old.labels message.now.to.pid process }
        requires lawful { IsLawfulMessage message.now }
        ensures steps { Steps self.old result self.new (λ s. lands_at s message.now.to.pid (plainly_landed process (plain_message message.now))) }
        ensures sound { OnOk result (IsSound (self.old.labels + 1) self.new) }
        ensures stays { OnOk result (Stays self.old self.new) }
    {
        if !awaits(process.status, message) {
            return Err(Refusal::NoStep);
        }
        let mut process = process;
        let landed = land(self.alloc, &mut process, message, HERE)?;
        self.put_back(message.to.pid, process);
        match landed {
            Landed::Next(request) => self.put_message(request),
            Landed::Done(_) => Ok(()),
        }
    }
}
