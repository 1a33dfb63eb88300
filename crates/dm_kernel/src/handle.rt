//! How a message comes, and how it is handled: by what is known of its receiver, by what that is, and by its kind.
ghost use Rattle.dm_resident.specs.declared.Resident.TheVariants as resident;
ghost use Rattle.dm_kernel.specs.State.{process_in};
ghost use Rattle.std.specs.Prelude.{◌≡◌, ◌<◌, ◌∷◌, ◌++◌, [], IfSome, OnErr, OnOk, Some, true};
ghost use Rattle.dm_records.specs.Records.{at, here_of};
ghost use Rattle.dm_records.specs.declared.record.Record.TheVariants.{Here};
ghost use Rattle.dm_message.specs.Lawful.{IsLawfulMessage};
ghost use Rattle.dm_migrate.specs.Departure.{CanMove};
ghost use Rattle.dm_onekernel.specs.Boot.{images_are_valid};
ghost use Rattle.dm_onekernel.specs.Options.{bind};
ghost use Rattle.dm_kernel.specs.Carried.{FreezesReceiverWhole, KnownIsWhole, WhereSentOff};
ghost use Rattle.dm_kernel.specs.Handle.{ended_handles, handles, here_handles, kernel_handles, process_handles};
ghost use Rattle.dm_kernel.specs.May.{FitsEnded, FitsKernel, FitsKnown, MayAct, MayHandle};
ghost use Rattle.dm_kernel.specs.Meets.{Answers, kernel_state};
ghost use Rattle.dm_kernel.specs.Served.{Handles, IsHere};

use crate::kernel::Kernel;
use crate::make::image_of;
use crate::part::Part;
use dm_line::line::Line;
use dm_link::MACHINES;
use dm_memory::{NoMemory, Parcel};
use dm_message::{Message, What};
use dm_migrate::Ask;
use dm_onekernel::Boot;
use dm_records::Record;
use dm_resident::Resident;

impl Kernel {
    /// A message comes, and waits behind the others.
    pub fn enters(&mut self, message: Parcel<Message>) -> Result<(), NoMemory>
        ensures ok { OnOk result (self.new ≡ record self.old { inbox = self.old.inbox ++ message ∷ [] }) }
        ensures err { OnErr result (self.new ≡ self.old) }
    {
        self.inbox.push(message)?;
        Ok(())
    }

    /// Handles a message for the machine's kernel, a server or a process.
    pub(crate) fn handle(
        &mut self,
        boot: &Boot,
        message: Parcel<Message>,
    ) -> Result<Vec<Part>, NoMemory>
        requires may { MayHandle boot.now (kernel_state self.old) message }
        requires images { images_are_valid boot.now.images ≡ true }
        requires here { self.old.here < MACHINES }
        requires processes { (p : _) (x : _) → at self.old.records p ≡ Some (Here (resident.Process x)) → MayAct (kernel_state self.old) p x }
        ensures answers { Answers result self.new (handles boot.now (kernel_state self.old) message) }
        ensures whole { OnOk result (FreezesReceiverWhole (kernel_state self.old) message) }
    {
        if message.get().to.pid.num == 0 {
            self.for_kernel(boot, message.get())
        } else {
            self.for_process(message)
        }
    }

    /// Handles a message for the machine's kernel: it makes a process, lets one or a server leave or come, or forgets one.
    fn for_kernel(&mut self, boot: &Boot, message: &Message) -> Result<Vec<Part>, NoMemory>
        requires lawful { IsLawfulMessage message.now }
        requires images { images_are_valid boot.now.images ≡ true }
        requires fits { FitsKernel boot.now (kernel_state self.old) message.now message.now.what }
        ensures { Answers result self.new (kernel_handles boot.now (kernel_state self.old) message.now message.now.what) }
    {
        match &message.what {
            What::Create { image, links } => {
                self.make(boot, message, image_of(boot, *image), links.as_slice())
            }
            What::Ask {
                pid,
                blocks,
                moves,
                size,
                asker,
            } => {
                let ask = Ask {
                    pid: *pid,
                    source: message.id.from.home,
                    blocks: *blocks,
                    moves: *moves,
                    size: *size,
                    asker: *asker,
                };
                self.answer(boot, message, ask)
            }
            What::Refuse { pid, .. } => self.stay(*pid),
            What::PullState { pid, chunk } => self.give_chunk(message, *pid, *chunk),
            What::State {
                pid,
                chunk,
                last,
                bytes,
            } => self.take_chunk(message, *pid, *chunk, *last, bytes.as_slice()),
            What::PullBlock { pid, block } => self.give_block(message, *pid, *block),
            What::Memory { pid, block, bytes } => {
                self.take_block(message, *pid, *block, bytes.get())
            }
            What::AllTaken { pid } => self.let_go(*pid),
            What::Restart { pid } => self.restart(boot, *pid),
            What::CallOff { pid } => self.stay_behind(message, *pid),
            What::Bury { pid } => self.bury(message, *pid),
            // No other kind is sent to a kernel: what a message must fit says so.
            _ => unreachable!(),
        }
    }

    /// Handles a message for a process or a server, by what is known of it.
    fn for_process(&mut self, message: Parcel<Message>) -> Result<Vec<Part>, NoMemory>
        requires lawful { IsLawfulMessage message }
        requires here { self.old.here < MACHINES }
        requires fits { FitsKnown (kernel_state self.old) message (at self.old.records message.to.pid) }
        requires acts { (x : _) → at self.old.records message.to.pid ≡ Some (Here (resident.Process x)) → MayAct (kernel_state self.old) message.to.pid x }
        ensures answers { Answers result self.new (process_handles (kernel_state self.old) message (at self.old.records message.to.pid)) }
        ensures whole { OnOk result (KnownIsWhole self.old.here message.what (at self.old.records message.to.pid)) }
    {
        match self.records.get(message.get().to.pid) {
            None => self.for_ended(message.get()),
            Some(Record::Here(Resident::Process(_))) => self.for_here(message),
            Some(Record::Here(Resident::Board(_))) => self.for_board(message.get()),
            Some(Record::Here(Resident::Manager(_))) => self.for_manager(message.get()),
            Some(Record::Frozen(_)) => self.hold_leaving(message),
            Some(Record::Incoming(_)) => self.hold_arriving(message),
            Some(Record::Forward { at, moves }) => {
                let (at, moves) = (*at, *moves);
                self.forward(message, at, moves)
            }
        }
    }

    /// Handles a message for a process that is here.
    fn for_here(&mut self, message: Parcel<Message>) -> Result<Vec<Part>, NoMemory>
        requires lawful { IsLawfulMessage message }
        requires here { self.old.here < MACHINES }
        requires process { IsHere (Handles (kernel_state self.old) message) (at self.old.records message.to.pid) }
        ensures answers { Answers result self.new (bind (process_in (at self.old.records message.to.pid))
            (λ x. here_handles (kernel_state self.old) message x message.what)) }
        ensures whole { OnOk result (WhereSentOff self.old.here message.what (IfSome (here_of (at self.old.records message.to.pid)) CanMove)) }
    {
        let said = message.get();
        match &said.what {
            What::User { .. } => self.queue(message),
            What::Stop => self.set_stopped(said, true),
            What::Resume => self.set_stopped(said, false),
            What::Kill => self.kill(said),
            What::Read { .. } | What::Write { .. } => self.answer_piece(said),
            What::Block { .. } | What::Written | What::Gone => self.land_piece(said),
            What::Migrate { machine } => self.migrate(said, *machine),
            What::Move { machine } => self.move_asked(said, *machine),
            What::Update { about } => self.follow(said, *about),
            // No other kind is sent to a process: what a message must fit says so.
            _ => unreachable!(),
        }
    }

    /// Handles a message for a process that has ended.
    fn for_ended(&self, message: &Message) -> Result<Vec<Part>, NoMemory>
        requires lawful { IsLawfulMessage message.now }
        requires here { self.now.here < MACHINES }
        requires fits { FitsEnded message.now.what }
        ensures { Answers result self.now (ended_handles (kernel_state self.now) message.now message.now.what) }
    {
        match &message.what {
            What::Read { .. } => self.answer_gone(message),
            What::Write { .. } => self.answer_gone(message),
            What::Move { .. } => self.answer_gone(message),
            What::User { .. } => self.drop_message(message),
            What::Stop => self.drop_message(message),
            What::Resume => self.drop_message(message),
            What::Kill => self.drop_message(message),
            What::Block { .. } => self.drop_message(message),
            What::Written => self.drop_message(message),
            What::Gone => self.drop_message(message),
            What::Migrate { .. } => self.say(Line::NoMove(message.id)),
            What::Update { .. } => self.say_updated(message.id, 0),
            // No other kind is sent to a process that ends before it comes.
            _ => unreachable!(),
        }
    }
}
