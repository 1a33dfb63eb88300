//! What the servers do with a message.
ghost use Rattle.dm_records.specs.Records.{at, here_of};
ghost use Rattle.dm_kernel.specs.Carried.{WhereSentOff};
ghost use Rattle.std.specs.Option.{IfSome};
ghost use Rattle.dm_migrate.specs.Departure.{CanMove};
ghost use Rattle.std.specs.Prelude.{◌≡◌, ◌<◌, ◌∷◌, IfOk, length, OnOk};
ghost use Rattle.dm_message.specs.Kinds.{kind_of};
ghost use Rattle.dm_message.specs.declared.kind.MessageKind.TheVariants as kind;
ghost use Rattle.dm_onekernel.specs.Options.{bind};
ghost use Rattle.dm_onekernel.specs.declared.label.Label.TheVariants as label_;
ghost use Rattle.dm_procman.specs.Taking as manage;
ghost use Rattle.dm_procman.specs.Taking.{IsForManager};
ghost use Rattle.dm_switchboard.specs.Taking.{takes};
ghost use Rattle.dm_kernel.specs.Handle.{board_handles, board_took, manager_handles, manager_took, routes};
ghost use Rattle.dm_kernel.specs.May.{FitsBoard, FitsManager, IsSuch};
ghost use Rattle.dm_kernel.specs.Meets.{Answers, kernel_state};
ghost use Rattle.dm_kernel.specs.State.{says, board_in, manager_in};

use crate::kernel::Kernel;
use crate::part::Part;
use crate::residents::{board_mut, manager_mut};
use dm_line::line::Line;
use dm_link::MACHINES;
use dm_memory::{NoMemory, Parcel, list_of};
use dm_message::{Message, MsgId, What};
use dm_onekernel::Label;

impl Kernel {
    /// Handles a message for the switchboard.
    pub(crate) fn for_board(&mut self, message: &Message) -> Result<Vec<Part>, NoMemory>
        requires fits { IsSuch (λ v. FitsBoard (kernel_state self.old) v message.now.what) (board_in (at self.old.records message.now.to.pid)) }
        requires here { self.old.here < MACHINES }
        ensures answers { Answers result self.new (bind (board_in (at self.old.records message.now.to.pid)) (board_handles (kernel_state self.old) message.now)) }
        ensures whole { OnOk result (WhereSentOff self.old.here message.now.what (IfSome (here_of (at self.old.records message.now.to.pid)) CanMove)) }
    {
        match &message.what {
            What::Update { about } => self.follow_board(message, *about),
            What::Migrate { machine } => self.migrate(message, *machine),
            _ => self.take_for_board(message),
        }
    }

    /// Lets the switchboard take a user message.
    fn take_for_board(&mut self, message: &Message) -> Result<Vec<Part>, NoMemory>
        requires user { kind_of message.now.what ≡ kind.User }
        requires fits { IsSuch (λ v. v.sent < u32.MAX) (board_in (at self.old.records message.now.to.pid)) }
        requires here { self.old.here < MACHINES }
        ensures { Answers result self.new (bind (board_in (at self.old.records message.now.to.pid))
            (λ v. board_took (kernel_state self.old) message.now v (takes self.old.here v message.now.what))) }
    {
        let (alloc, here) = (self.alloc, self.here);
        let took = board_mut(&mut self.records, message.to.pid)
            .unwrap()
            .take(alloc, message, here)?;
        self.took(message.id, took.answer)
    }

    /// Handles a message for the process manager.
    pub(crate) fn for_manager(&mut self, message: &Message) -> Result<Vec<Part>, NoMemory>
        requires fits { IsSuch (λ v. FitsManager (kernel_state self.old) v message.now.id.n message.now.what) (manager_in (at self.old.records message.now.to.pid)) }
        requires here { self.old.here < MACHINES }
        ensures answers { Answers result self.new (bind (manager_in (at self.old.records message.now.to.pid)) (manager_handles (kernel_state self.old) message.now)) }
        ensures whole { OnOk result (WhereSentOff self.old.here message.now.what (IfSome (here_of (at self.old.records message.now.to.pid)) CanMove)) }
    {
        match &message.what {
            What::Update { about } => self.follow_manager(message, *about),
            What::Migrate { machine } => self.migrate(message, *machine),
            _ => self.take_for_manager(message),
        }
    }

    /// Lets the process manager take a user message, or an answer that it waits for.
    fn take_for_manager(&mut self, message: &Message) -> Result<Vec<Part>, NoMemory>
        requires fits { IsSuch (λ v. IsForManager v message.now.id.n message.now.what × (v.sent < u32.MAX) × (length v.children < 4294967295))
            (manager_in (at self.old.records message.now.to.pid)) }
        requires here { self.old.here < MACHINES }
        ensures { Answers result self.new (bind (manager_in (at self.old.records message.now.to.pid))
            (λ v. manager_took (kernel_state self.old) message.now v (manage.takes self.old.here v message.now.id.n message.now.what))) }
    {
        let (alloc, here) = (self.alloc, self.here);
        let sent = manager_mut(&mut self.records, message.to.pid)
            .unwrap()
            .take(alloc, message, here)?;
        self.took(message.id, sent)
    }

    /// The parts of a turn in which a server took a message, and may send one.
    fn took(&self, id: MsgId, sent: Option<Message>) -> Result<Vec<Part>, NoMemory>
        ensures { IfOk result (λ parts. parts.items ≡ says (label_.Took id) ∷ routes sent) }
    {
        let said = Part::Says(Line::Label(Label::Took { id }));
        match sent {
            Some(message) => {
                let message = Parcel::new(self.alloc, message)?;
                list_of(self.alloc, [said, Part::Routes(message)])
            }
            None => list_of(self.alloc, [said]),
        }
    }
}
