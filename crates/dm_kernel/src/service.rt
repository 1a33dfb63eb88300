//! What a machine's kernel does with a message for a process, a row a function.
ghost use Rattle.std.specs.Prelude.{◌≡◌, ◌<◌, [], ◌∷◌, IfOk, IsSome};
ghost use Rattle.dm_datamove.specs.Serving.{IsRequest};
ghost use Rattle.dm_records.specs.Records.{at};
ghost use Rattle.dm_message.specs.Lawful.{IsLawfulMessage};
ghost use Rattle.dm_onekernel.specs.Options.{bind};
ghost use Rattle.dm_onekernel.specs.declared.label.Label.TheVariants as label_;
ghost use Rattle.dm_datamove.specs.Landing.{landing};
ghost use Rattle.dm_line.specs.declared.line.Line.TheVariants as line_;
ghost use Rattle.dm_kernel.specs.Handle.{answered, is_dropped, is_gone, killed, lands, queued, served_as};
ghost use Rattle.dm_kernel.specs.Meets.{Answers, kernel_state};
ghost use Rattle.dm_kernel.specs.Served.{AwaitsPiece, HasPlace, IsHere, OwnsPiece};
ghost use Rattle.dm_kernel.specs.State.{says, turned, with_here, process_in};

use crate::kernel::Kernel;
use crate::part::Part;
use crate::residents::process_mut;
use dm_datamove::{Landed, gone, land, serve};
use dm_line::line::Line;
use dm_link::MACHINES;
use dm_memory::{NoMemory, Parcel, list_of};
use dm_message::{Message, MsgId};
use dm_onekernel::{Label, Why};

impl Kernel {
    /// Puts a message at the back of its receiver's queue.
    pub(crate) fn queue(&mut self, message: Parcel<Message>) -> Result<Vec<Part>, NoMemory>
        requires { IsSome (process_in (at self.old.records message.to.pid)) }
        ensures { Answers result self.new (bind (process_in (at self.old.records message.to.pid))
            (λ x. turned (with_here (kernel_state self.old) message.to.pid (queued x message)) (Part.Says (line_.Queued message.id) ∷ []))) }
    {
        let (id, to) = (message.get().id, message.get().to);
        let process = process_mut(&mut self.records, to.pid).unwrap();
        process.queue.push(message)?;
        self.say(Line::Queued(id))
    }

    /// Stops a process, or lets it go on.
    pub(crate) fn set_stopped(
        &mut self,
        message: &Message,
        stopped: bool,
    ) -> Result<Vec<Part>, NoMemory>
        requires { IsSome (process_in (at self.old.records message.now.to.pid)) }
        ensures { Answers result self.new (bind (process_in (at self.old.records message.now.to.pid))
            (λ x. served_as (kernel_state self.old) message.now (record x { stopped = stopped }))) }
    {
        let process = process_mut(&mut self.records, message.to.pid).unwrap();
        process.stopped = stopped;
        self.say_served(message.id)
    }

    /// Ends a process that is to be killed.
    pub(crate) fn kill(&mut self, message: &Message) -> Result<Vec<Part>, NoMemory>
        requires { IsHere (HasPlace (kernel_state self.old)) (at self.old.records message.now.to.pid) }
        ensures { Answers result self.new (bind (process_in (at self.old.records message.now.to.pid)) (λ x. killed (kernel_state self.old) message.now x)) }
    {
        let mut parts = self.say_served(message.id)?;
        self.end_behind(message.to.pid, Why::Killed, &mut parts)?;
        Ok(parts)
    }

    /// Reads or writes a piece of a process's memory, and answers.
    pub(crate) fn answer_piece(&mut self, message: &Message) -> Result<Vec<Part>, NoMemory>
        requires lawful { IsLawfulMessage message.now }
        requires here { self.old.here < MACHINES }
        requires owner { IsHere (OwnsPiece message.now) (at self.old.records message.now.to.pid) }
        ensures { Answers result self.new (bind (process_in (at self.old.records message.now.to.pid)) (λ x. answered (kernel_state self.old) message.now x)) }
    {
        let here = self.here;
        let process = process_mut(&mut self.records, message.to.pid).unwrap();
        let answer = serve(self.alloc, process, message, here)?;
        let answer = Parcel::new(self.alloc, answer)?;
        self.serve_and_route(message.id, answer)
    }

    /// Lands the answer to a piece at the process that asked for it, which may ask for the next one.
    pub(crate) fn land_piece(&mut self, message: &Message) -> Result<Vec<Part>, NoMemory>
        requires lawful { IsLawfulMessage message.now }
        requires here { self.old.here < MACHINES }
        requires mover { IsHere (AwaitsPiece message.now) (at self.old.records message.now.to.pid) }
        ensures { Answers result self.new (bind (process_in (at self.old.records message.now.to.pid))
            (λ x. lands (kernel_state self.old) message.now (landing self.old.here x message.now.what x.status))) }
    {
        let here = self.here;
        let process = process_mut(&mut self.records, message.to.pid).unwrap();
        match land(self.alloc, process, message, here)? {
            Landed::Next(request) => {
                let request = Parcel::new(self.alloc, request)?;
                self.serve_and_route(message.id, request)
            }
            Landed::Done(_) => self.say_served(message.id),
        }
    }

    /// Answers a request for a piece of a process that has ended, or one that it move.
    pub(crate) fn answer_gone(&self, message: &Message) -> Result<Vec<Part>, NoMemory>
        requires lawful { IsLawfulMessage message.now }
        requires here { self.now.here < MACHINES }
        requires request { IsRequest message.now.what }
        ensures { Answers result self.now (is_gone (kernel_state self.now) message.now) }
    {
        let answer = Parcel::new(self.alloc, gone(message, self.here))?;
        let said = Line::Label(Label::Gone { id: message.id });
        list_of(self.alloc, [Part::Says(said), Part::Routes(answer)])
    }

    /// Drops a message for a process that has ended.
    pub(crate) fn drop_message(&self, message: &Message) -> Result<Vec<Part>, NoMemory>
        ensures { Answers result self.now (is_dropped (kernel_state self.now) message.now) }
    {
        self.say(Line::Label(Label::Dropped { id: message.id }))
    }

    /// The one part of a turn that served a message.
    fn say_served(&self, id: MsgId) -> Result<Vec<Part>, NoMemory>
        ensures { IfOk result (λ parts. parts.items ≡ says (label_.Served id) ∷ []) }
    {
        self.say(Line::Label(Label::Served { id }))
    }

    /// The parts of a turn that served a message and sends one.
    fn serve_and_route(&self, id: MsgId, message: Parcel<Message>) -> Result<Vec<Part>, NoMemory>
        ensures { IfOk result (λ parts. parts.items ≡ says (label_.Served id) ∷ Part.Routes message ∷ []) }
    {
        let said = Line::Label(Label::Served { id });
        list_of(self.alloc, [Part::Says(said), Part::Routes(message)])
    }
}
