//! What a machine's kernel does where a process or a server leaves it.
ghost use Rattle.dm_resident.specs.Residents.{memory_of, name_of};
ghost use Rattle.dm_resident.specs.Packed.{state_of};
ghost use Rattle.dm_resident.specs.declared.Resident.TheVariants as resident;
ghost use Rattle.std.specs.Prelude.{◌≡◌, ◌≢◌, ◌<◌, ◌+◌, ◌++◌, ◌∷◌, [], IfOk, IfSome, IsSome, OnOk, length, map};
ghost use Rattle.dm_records.specs.Records.{at, frozen_of, here_of};
ghost use Rattle.dm_migrate.specs.Departure.{CanMove, Departure};
ghost use Rattle.dm_migrate.specs.Pieces.{HasBlock, HasChunk, block_of, chunk_of};
ghost use Rattle.dm_onekernel.specs.Options.{bind};
ghost use Rattle.dm_kernel.specs.Departing.{asked_to_move, freezing, gives_piece, holds_leaving, leaves, migrates, stays, takes_step, tells_asker, with_frozen, tells_of};
ghost use Rattle.dm_kernel.specs.May.{IsSuch, MayLeave, MayFreeze};
ghost use Rattle.dm_kernel.specs.Meets.{Answers, kernel_state};
ghost use Rattle.dm_kernel.specs.Served.{IsHere};
ghost use Rattle.dm_kernel.specs.State.{preceded, turned, with_sent, process_in};
ghost use Rattle.dm_line.specs.declared.line.Line.TheVariants as line_;
ghost use Rattle.dm_line.specs.declared.line.Stage.TheVariants as stage_;

use crate::kernel::Kernel;
use crate::part::Part;
use crate::ring::remove;
use dm_line::line::{Line, Stage};
use dm_link::{Addr, MACHINES, Pid};
use dm_memory::{NoMemory, Parcel, list_of, push};
use dm_message::{Asker, Message, Outcome, What};
use dm_migrate::{asker_of, freeze, moved_answer, release, request_of};
use dm_onekernel::Label;
use dm_process::Process;
use dm_records::Record;
use dm_resident::Resident;
use std::alloc::Global;

impl Kernel {
    /// Lets a process or a server leave for a machine, if it isn't there.
    pub(crate) fn migrate(&mut self, message: &Message, to: u8) -> Result<Vec<Part>, NoMemory>
        requires resident { IsSuch (MayFreeze (kernel_state self.old)) (here_of (at self.old.records message.now.to.pid)) }
        ensures answers { Answers result self.new (bind (here_of (at self.old.records message.now.to.pid))
            (λ x. migrates (kernel_state self.old) message.now x to)) }
        ensures whole { OnOk result (to ≢ self.old.here → IfSome (here_of (at self.old.records message.now.to.pid)) CanMove) }
    {
        if to == self.here {
            self.say(Line::Here(message.id))
        } else {
            self.freeze(message.to.pid, to, None, Vec::new(self.alloc))
        }
    }

    /// Lets a process leave for a machine, as it is asked, and tells who asked how that ended; at once, where the process is
    /// there already.
    pub(crate) fn move_asked(&mut self, message: &Message, to: u8) -> Result<Vec<Part>, NoMemory>
        requires process { IsHere (λ x. MayFreeze (kernel_state self.old) (resident.Process x)) (at self.old.records message.now.to.pid) }
        ensures answers { Answers result self.new (bind (process_in (at self.old.records message.now.to.pid))
            (λ x. asked_to_move (kernel_state self.old) message.now x to)) }
        ensures whole { OnOk result (to ≢ self.old.here → IfSome (here_of (at self.old.records message.now.to.pid)) CanMove) }
    {
        let asked = Line::Label(Label::Asked { id: message.id });
        let asker = Some(asker_of(message));
        if to == self.here {
            let resident = self.records.here(message.to.pid).unwrap();
            self.say_and_tell(asked, resident, Outcome::Done, asker)
        } else {
            let parts = self.say(asked)?;
            self.freeze(message.to.pid, to, asker, parts)
        }
    }

    /// The parts of a turn that says one line, and tells who asked for the move of a process how it ended, if somebody asked; nobody
    /// asks for that of a server.
    pub(crate) fn say_and_tell(
        &self,
        line: Line,
        resident: &Resident,
        outcome: Outcome,
        asker: Option<Asker>,
    ) -> Result<Vec<Part>, NoMemory>
        ensures { IfOk result (λ parts. parts.items ≡ Part.Says line ∷ tells_of self.now.here resident.now outcome asker) }
    {
        match resident {
            Resident::Process(process) => self.tell(line, process, outcome, asker),
            Resident::Board(_) | Resident::Manager(_) => self.say(line),
        }
    }

    /// The parts of a turn that says one line, and tells who asked for the move of a process how it ended, if somebody asked.
    fn tell(
        &self,
        line: Line,
        process: &Process,
        outcome: Outcome,
        asker: Option<Asker>,
    ) -> Result<Vec<Part>, NoMemory>
        ensures { IfOk result (λ parts. parts.items ≡ Part.Says line ∷ tells_asker self.now.here process.now outcome asker) }
    {
        let mut parts = self.say(line)?;
        tell_asker(self.alloc, process, self.here, outcome, asker, &mut parts)?;
        Ok(parts)
    }

    /// Freezes what is to leave for a machine, and keeps who waits to hear how that ends: a process isn't served any more, and
    /// that machine is asked, behind what is said so far.
    fn freeze(
        &mut self,
        pid: Pid,
        to: u8,
        asker: Option<Asker>,
        parts: Vec<Part>,
    ) -> Result<Vec<Part>, NoMemory>
        requires resident { IsSuch (MayFreeze (kernel_state self.old)) (here_of (at self.old.records pid)) }
        ensures answers { Answers result self.new (bind (here_of (at self.old.records pid))
            (λ x. turned (with_sent (with_frozen (kernel_state self.old) pid x to asker)) (parts.items ++ freezing (kernel_state self.old) pid x to asker))) }
        ensures whole { OnOk result (IfSome (here_of (at self.old.records pid)) CanMove) }
    {
        let resident = self.records.take_here(pid);
        match freeze(self.alloc, resident, to, asker) {
            Ok((leaving, ask)) => {
                self.records.put_back(pid, Record::Frozen(leaving));
                remove(&mut self.ring, pid);
                let ask = self.send(Addr::of_kernel(to), ask);
                self.say_asked(pid, ask, parts)
            }
            Err((resident, e)) => {
                self.records.put_back(pid, Record::Here(resident));
                Err(e)
            }
        }
    }

    /// What is said of what is frozen, and the ask that goes out, behind what is said so far.
    fn say_asked(&self, pid: Pid, ask: Message, mut parts: Vec<Part>) -> Result<Vec<Part>, NoMemory>
        ensures { IfOk result (λ said. said.items ≡ parts.items ++ takes_step stage_.Frozen pid ∷ takes_step stage_.Asked pid ∷ Part.Routes ask ∷ []) }
    {
        push(&mut parts, step(Stage::Frozen, pid))?;
        step_and_route(self.alloc, Stage::Asked, pid, ask, &mut parts)?;
        Ok(parts)
    }

    /// Keeps a message for what leaves.
    pub(crate) fn hold_leaving(&mut self, message: Parcel<Message>) -> Result<Vec<Part>, NoMemory>
        requires { IsSome (frozen_of (at self.old.records message.to.pid)) }
        ensures { Answers result self.new (bind (frozen_of (at self.old.records message.to.pid)) (λ d. holds_leaving (kernel_state self.old) message d)) }
    {
        let message = message.into_inner();
        let id = message.id;
        let leaving = self.records.frozen_mut(message.to.pid).unwrap();
        match leaving.hold(message) {
            Ok(()) => self.say(Line::Held(id)),
            Err((_, e)) => Err(e),
        }
    }

    /// Lets stay what was to leave: a process is served again, and what was held is handled first; whoever asked for the move
    /// is told.
    pub(crate) fn stay(&mut self, pid: Pid) -> Result<Vec<Part>, NoMemory>
        requires { IsSome (frozen_of (at self.old.records pid)) }
        ensures { Answers result self.new (bind (frozen_of (at self.old.records pid)) (stays (kernel_state self.old) pid)) }
    {
        let leaving = self.records.frozen(pid).unwrap();
        let parts = self.say_and_tell(
            Line::Stays(pid),
            leaving.resident(),
            Outcome::Stayed,
            leaving.asker(),
        )?;
        let going = self.records.take_frozen(pid).stay();
        self.go_on(pid, going)?;
        Ok(parts)
    }

    /// Lets stay what was to leave, where the other machine has called its migration off: that one sends on to this one from
    /// now on.
    pub(crate) fn stay_behind(&mut self, message: &Message, pid: Pid) -> Result<Vec<Part>, NoMemory>
        requires leaves { IsSome (frozen_of (at self.old.records pid)) }
        requires caller { message.now.id.from.home < MACHINES }
        ensures { Answers result self.new (bind (frozen_of (at self.old.records pid))
            (stays (preceded (kernel_state self.old) pid message.now.id.from.home) pid)) }
    {
        self.records.add_predecessor(pid, message.id.from.home);
        self.stay(pid)
    }

    /// Gives a chunk of the state bytes of what leaves.
    pub(crate) fn give_chunk(
        &mut self,
        message: &Message,
        pid: Pid,
        chunk: u32,
    ) -> Result<Vec<Part>, NoMemory>
        requires sent { self.old.sent < u32.MAX }
        requires chunk { IsSuch (λ (d : Departure). HasChunk (state_of d.resident) chunk) (frozen_of (at self.old.records pid)) }
        ensures { Answers result self.new (bind (frozen_of (at self.old.records pid))
            (λ d. gives_piece (kernel_state self.old) message.now (chunk_of (name_of d.resident) (state_of d.resident) chunk))) }
    {
        let piece = self.records.frozen(pid).unwrap().chunk(chunk)?;
        self.give(message, piece)
    }

    /// Gives a block of the memory of a process that leaves.
    pub(crate) fn give_block(
        &mut self,
        message: &Message,
        pid: Pid,
        block: u8,
    ) -> Result<Vec<Part>, NoMemory>
        requires sent { self.old.sent < u32.MAX }
        requires block { IsSuch (λ (d : Departure). HasBlock (memory_of d.resident) block) (frozen_of (at self.old.records pid)) }
        ensures { Answers result self.new (bind (frozen_of (at self.old.records pid))
            (λ d. gives_piece (kernel_state self.old) message.now (block_of (name_of d.resident) (memory_of d.resident) block))) }
    {
        let piece = self.records.frozen(pid).unwrap().block(block)?;
        self.give(message, piece)
    }

    /// Sends a piece to who asked for it.
    fn give(&mut self, message: &Message, piece: What) -> Result<Vec<Part>, NoMemory>
        requires { self.old.sent < u32.MAX }
        ensures { Answers result self.new (gives_piece (kernel_state self.old) message.now piece) }
    {
        let piece = self.send(message.sender, piece);
        self.say_and_route(Line::Proto(message.id), piece)
    }

    /// Lets go a process or a server of which all has come to the other machine: what waits for it goes on.
    pub(crate) fn let_go(&mut self, pid: Pid) -> Result<Vec<Part>, NoMemory>
        requires sent { self.old.sent < u32.MAX }
        requires process { IsSuch (MayLeave self.old.room) (frozen_of (at self.old.records pid)) }
        ensures { Answers result self.new (bind (frozen_of (at self.old.records pid)) (leaves (kernel_state self.old) pid)) }
    {
        let leaving = self.records.take_frozen(pid);
        let to = leaving.to();
        let moves = leaving.resident().moves() + 1;
        self.records
            .put_back(pid, Record::Forward { at: to, moves });
        release(&mut self.room, leaving.resident().blocks());
        match leaving.forward_all() {
            Ok(messages) => {
                let restart = self.send(Addr::of_kernel(to), What::Restart { pid });
                self.say_left(pid, messages, restart)
            }
            Err((_, e)) => Err(e),
        }
    }

    /// What is said of what has gone, with the messages that go on to it and the one that lets it go on.
    fn say_left(
        &self,
        pid: Pid,
        messages: Vec<Message>,
        restart: Message,
    ) -> Result<Vec<Part>, NoMemory>
        requires { length messages.items < u32.MAX }
        ensures { IfOk result (λ parts. parts.items ≡
            Part.Says (line_.SentOn pid (length messages.items)) ∷ map Part.Routes messages.items ++ takes_step stage_.Left pid ∷ Part.Routes restart ∷ []) }
    {
        let count = messages.len() as u32;
        let mut parts = self.say(Line::SentOn { pid, count })?;
        route_all(self.alloc, messages, &mut parts)?;
        step_and_route(self.alloc, Stage::Left, pid, restart, &mut parts)?;
        Ok(parts)
    }
}

/// Tells who asked for the move of a process how it ended, if somebody asked; the process is on machine `here`.
fn tell_asker(
    alloc: Global,
    process: &Process,
    here: u8,
    outcome: Outcome,
    asker: Option<Asker>,
    parts: &mut Vec<Part>,
) -> Result<(), NoMemory>
    ensures { OnOk result (parts.new.items ≡ parts.old.items ++ tells_asker here process.now outcome asker) }
{
    let Some(asker) = asker else {
        return Ok(());
    };
    let id = request_of(asker);
    push(
        parts,
        Part::Says(Line::Label(Label::Answered { id, outcome })),
    )?;
    route(alloc, moved_answer(process, here, outcome, asker), parts)
}

/// What is said of a step of a migration.
pub(crate) fn step(step: Stage, pid: Pid) -> Part
    ensures { result ≡ takes_step step pid }
{
    Part::Says(Line::Migration { step, pid })
}

/// Says a step of a migration, and routes a message behind it.
fn step_and_route(
    alloc: Global,
    said: Stage,
    pid: Pid,
    message: Message,
    parts: &mut Vec<Part>,
) -> Result<(), NoMemory>
    ensures { OnOk result (parts.new.items ≡ parts.old.items ++ takes_step said pid ∷ Part.Routes message ∷ []) }
{
    push(parts, step(said, pid))?;
    route(alloc, message, parts)
}

/// Routes messages, in order.
pub(crate) fn route_all(
    alloc: Global,
    messages: Vec<Message>,
    parts: &mut Vec<Part>,
) -> Result<(), NoMemory>
    ensures { OnOk result (parts.new.items ≡ parts.old.items ++ map Part.Routes messages.items) }
{
    for message in messages {
        route(alloc, message, parts)?;
    }
    Ok(())
}

/// Routes a message.
pub(crate) fn route(alloc: Global, message: Message, parts: &mut Vec<Part>) -> Result<(), NoMemory>
    ensures { OnOk result (parts.new.items ≡ parts.old.items ++ Part.Routes message ∷ []) }
{
    let message = Parcel::new(alloc, message)?;
    push(parts, Part::Routes(message))
}
