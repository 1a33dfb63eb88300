//! The process manager: it makes processes, controls those that it made, and tells them to move, as they ask it themselves or
//! as it is told (1983).
#![tactic(auto)]

ghost use Rattle.std.specs.Prelude.{◌≡◌, ◌+◌, ◌<◌, ◌≤◌, ◌^◌, ◌++◌, ◌∷◌, [], false, if◌then◌else◌, IfOk, IfSome, IsSome, Ok, OnErr, OnOk, Some, is_some, length};
ghost use Rattle.dm_link.specs.Lawful.{IsMachine};
ghost use Rattle.dm_message.specs.Lawful.{IsLawfulMessage};
ghost use Rattle.dm_message.specs.Plain.{plain_message};
ghost use Rattle.dm_statebytes.specs.Servers.{Gives, IsUnpacked};
ghost use Rattle.dm_onekernel.specs.Boot.{IsValid};
ghost use Rattle.dm_procman.specs.Lawful.{IsLawfulManager};
ghost use Rattle.dm_procman.specs.Making.{control_link};
ghost use Rattle.dm_procman.specs.Managing.{Managing, at_home, behind_in, plain_manager, retargeted_manager, starting};
ghost use Rattle.dm_procman.specs.Moving.{asks_to_move, known_address};
ghost use Rattle.dm_procman.specs.Packed.{IsSpelledManager, manager_of_bytes, manager_spelling};
ghost use Rattle.dm_procman.specs.Plainly.{plain_taken, plainly_taken};
ghost use Rattle.dm_procman.specs.Taking.{IsForManager, answers_over, pending_request, settled, takes, takes_created, takes_moved, takes_no_room, takes_user};

mod children;
mod making;
mod moving;
mod pending;
mod reading;
mod requests;
mod starting;
mod writing;

use children::Children;
use dm_link::{Addr, Link, MACHINES, MANAGER, Pid, SWITCHBOARD};
use dm_memory::NoMemory;
use dm_message::{MOST_LINKS, Message, MsgId, Outcome, What};
use dm_onekernel::Boot;
pub use dm_statebytes::server::ServerError;
use making::{address_at, answer_over, control_link};
pub use moving::MoveError;
use moving::move_message;
pub use pending::Pending;
use pending::Unanswered;
use reading::manager_at;
use std::alloc::Global;
use std::marker::Model;
use writing::manager_bytes;

/// The processes that were made, and the requests to make one, and to move one, that wait for an answer.
///
/// Its model is a record of the children's addresses, child 1 first, the pending requests, where the switchboard is, the
/// number of messages that were sent, that of its moves, and how many machines and images there are.
#[derive(Drop)]
pub struct ProcMan {
    children: Children,
    pending: Unanswered,
    /// Where the switchboard was last known to be.
    board: Addr,
    sent: u32,
    /// How often the manager has moved to another machine.
    moves: u32,
    machines: u8,
    images: u16,
}

impl Model for ProcMan {
    ghost use Rattle.dm_procman.specs.Managing.{Managing};

    ghost Value = { Managing };

    ghost view = { λ g. record { children = g.children; pending = g.pending; board = g.board; sent = g.sent; moves = g.moves; machines = g.machines; images = g.images } };
}

impl ProcMan {
    /// The manager of a system at its start: its children are the processes of the boot file, in their order.
    pub fn new(alloc: Global, boot: &Boot) -> Result<ProcMan, NoMemory>
        requires { IsValid boot.now }
        ensures exact { IfOk result (λ g. g ≡ starting boot.now) }
        ensures lawful { IfOk result IsLawfulManager }
    {
        ProcMan::start(alloc, boot)
    }

    /// The manager of a system at its start.
    fn start(alloc: Global, boot: &Boot) -> Result<ProcMan, NoMemory>
        requires { IsValid boot.now }
        ensures { IfOk result (λ g. g ≡ starting boot.now) }
    {
        Ok(ProcMan {
            children: starting::children_of(alloc, boot)?,
            pending: Unanswered::new(alloc),
            board: Addr {
                pid: SWITCHBOARD,
                at: 0,
                moves: 0,
            },
            sent: 0,
            moves: 0,
            machines: boot.machines.len() as u8,
            images: boot.images.len() as u16,
        })
    }

    /// Where the children are, child 1 first.
    pub fn children(&self) -> &[Addr]
        ensures { result.now ≡ self.now.children }
    {
        self.children.as_slice()
    }

    /// A list of the requests that wait for an answer, in order.
    pub fn pending(&self) -> Result<Vec<Pending>, NoMemory>
        ensures { IfOk result (λ list. list.items ≡ self.now.pending) }
    {
        self.pending.listed()
    }

    /// How many requests wait for an answer.
    pub fn waiting(&self) -> usize
        ensures { result ≡ length self.now.pending }
    {
        self.pending.len()
    }

    /// Whether a request of this number waits for an answer.
    pub fn awaits(&self, number: u32) -> bool
        ensures { result ≡ is_some (pending_request number self.now.pending) }
    {
        self.pending.has(number)
    }

    /// How many messages were sent.
    pub fn sent(&self) -> u32
        ensures { result ≡ self.now.sent }
    {
        self.sent
    }

    /// How often it has moved.
    pub fn moves(&self) -> u32
        ensures { result ≡ self.now.moves }
    {
        self.moves
    }

    /// It has moved once more. It takes no memory.
    pub fn moved(&mut self)
        requires { self.old.moves < u32.MAX }
        ensures manager { self.new ≡ record self.old { moves = self.old.moves + 1 } }
        ensures plain { plain_manager self.new ≡ plain_manager self.old }
        ensures lawful { IsLawfulManager self.old → IsLawfulManager self.new }
    {
        self.moves += 1;
    }

    /// Takes a user message, or the answer to a pending request, on machine `here`; the message that it sends, if any.
    pub fn take(
        &mut self,
        alloc: Global,
        message: &Message,
        here: u8,
    ) -> Result<Option<Message>, NoMemory>
        requires row { IsForManager self.old message.now.id.n message.now.what }
        requires counts { self.old.sent < u32.MAX }
        requires children { length self.old.children < u32.MAX }
        requires here { here < MACHINES }
        ensures exact { IfOk result (λ sent. takes here self.old message.now.id.n message.now.what ≡ Some (record { manager = self.new; message = sent })) }
        ensures err { OnErr result (self.new ≡ self.old) }
        ensures plain { IfOk result (λ sent. plain_taken self.new sent ≡ plainly_taken self.old (plain_message message.now)) }
        ensures lawful { IsLawfulManager self.old → IsLawfulMessage message.now → IsLawfulManager self.new }
        ensures lawful_message { IsLawfulManager self.old → IsLawfulMessage message.now → IfOk result (λ sent. IfSome sent IsLawfulMessage) }
    {
        self.take_what(alloc, here, message.id.n, &message.what)
    }

    /// Takes what a message says, by its number.
    fn take_what(
        &mut self,
        alloc: Global,
        here: u8,
        number: u32,
        what: &What,
    ) -> Result<Option<Message>, NoMemory>
        requires row { IsForManager self.old number what.now }
        requires counts { self.old.sent < u32.MAX }
        requires children { length self.old.children < u32.MAX }
        ensures exact { IfOk result (λ sent. takes here self.old number what.now ≡ Some (record { manager = self.new; message = sent })) }
        ensures err { OnErr result (self.new ≡ self.old) }
    {
        match what {
            What::User {
                code,
                body,
                links,
                ..
            } => self.take_user(alloc, here, *code, body.as_slice(), links.as_slice()),
            What::Created { pid } => self.take_created(alloc, here, number, *pid),
            What::NoRoom => self.take_no_room(alloc, here, number),
            What::Moved { outcome } => self.take_moved(alloc, here, number, *outcome),
            // No other kind is for the manager: `row` says so.
            _ => unreachable!(),
        }
    }

    /// Takes a user message that came over a link with this code.
    fn take_user(
        &mut self,
        alloc: Global,
        here: u8,
        code: u32,
        body: &[u8],
        links: &[Link],
    ) -> Result<Option<Message>, NoMemory>
        requires counts { self.old.sent < u32.MAX }
        requires links { length links.now ≤ MOST_LINKS }
        ensures exact { IfOk result (λ sent. takes_user here self.old code body.now links.now ≡ record { manager = self.new; message = sent }) }
        ensures err { OnErr result (self.new ≡ self.old) }
    {
        if code == 0 {
            self.request(alloc, here, body, links)
        } else {
            self.control(alloc, here, code, body, links)
        }
    }

    /// Takes the news that the child of a pending request stands.
    fn take_created(
        &mut self,
        alloc: Global,
        here: u8,
        number: u32,
        pid: Pid,
    ) -> Result<Option<Message>, NoMemory>
        requires pending { IsSome (pending_request number self.old.pending) }
        requires counts { self.old.sent < u32.MAX }
        requires children { length self.old.children < u32.MAX }
        ensures exact { IfOk result (λ sent. takes_created here self.old number pid (pending_request number self.old.pending) ≡
            Some (record { manager = self.new; message = sent })) }
        ensures err { OnErr result (self.new ≡ self.old) }
    {
        let request = self.request_numbered(number);
        let control = self.next_control(here);
        let answer = self.answer_to(alloc, here, request, 0, &[control])?;
        self.add_child(pid)?;
        self.settle(number, answer.is_some());
        Ok(answer)
    }

    /// Takes the news that there was no room for the child of a pending request.
    fn take_no_room(
        &mut self,
        alloc: Global,
        here: u8,
        number: u32,
    ) -> Result<Option<Message>, NoMemory>
        requires pending { IsSome (pending_request number self.old.pending) }
        requires counts { self.old.sent < u32.MAX }
        ensures exact { IfOk result (λ sent. takes_no_room here self.old number (pending_request number self.old.pending) ≡
            Some (record { manager = self.new; message = sent })) }
        ensures err { OnErr result (self.new ≡ self.old) }
    {
        let request = self.request_numbered(number);
        let answer = self.answer_to(alloc, here, request, 1, &[])?;
        self.settle(number, answer.is_some());
        Ok(answer)
    }

    /// Takes the news of how the move of a pending request ended.
    fn take_moved(
        &mut self,
        alloc: Global,
        here: u8,
        number: u32,
        outcome: Outcome,
    ) -> Result<Option<Message>, NoMemory>
        requires pending { IsSome (pending_request number self.old.pending) }
        requires counts { self.old.sent < u32.MAX }
        ensures exact { IfOk result (λ sent. takes_moved here self.old number outcome (pending_request number self.old.pending) ≡
            Some (record { manager = self.new; message = sent })) }
        ensures err { OnErr result (self.new ≡ self.old) }
    {
        let request = self.request_numbered(number);
        let answer = self.answer_to(alloc, here, request, outcome.code(), &[])?;
        self.settle(number, answer.is_some());
        Ok(answer)
    }

    /// The request of this number that is pending.
    fn request_numbered(&self, number: u32) -> Pending
        requires { IsSome (pending_request number self.now.pending) }
        ensures { pending_request number self.now.pending ≡ Some result }
    {
        self.pending.numbered(number)
    }

    /// The link by which the next child is controlled.
    fn next_control(&self, here: u8) -> Link
        requires { length self.now.children < u32.MAX }
        ensures { result ≡ control_link here self.now.moves (length self.now.children + 1) }
    {
        control_link(here, self.moves, self.children.len() as u32 + 1)
    }

    /// Adds a child, which stands at its home.
    fn add_child(&mut self, pid: Pid) -> Result<(), NoMemory>
        ensures ok { OnOk result (self.new ≡ record self.old { children = self.old.children ++ at_home pid ∷ [] }) }
        ensures err { OnErr result (self.new ≡ self.old) }
    {
        self.children.push(Addr {
            pid,
            at: pid.home,
            moves: 0,
        })
    }

    /// The answer to a request that is pending, one byte and at most 4 links, over its link, if it has one.
    fn answer_to(
        &self,
        alloc: Global,
        here: u8,
        request: Pending,
        code: u8,
        links: &[Link],
    ) -> Result<Option<Message>, NoMemory>
        requires { length links.now ≤ MOST_LINKS }
        ensures { IfOk result (λ sent. sent ≡ (answers_over here self.now request.answer code links.now).message) }
    {
        let Some(link) = request.answer else {
            return Ok(None);
        };
        answer_over(alloc, here, self.moves, self.sent, &link, code, links).map(Some)
    }

    /// A request isn't pending any more; its answer, if it is sent, counts.
    fn settle(&mut self, number: u32, answered: bool)
        requires pending { IsSome (pending_request number self.old.pending) }
        requires counts { self.old.sent < u32.MAX }
        ensures { self.new ≡ record (settled self.old number) { sent = if answered then self.old.sent + 1 else self.old.sent } }
    {
        self.pending.take(number);
        if answered {
            self.sent += 1;
        }
    }

    /// The message that tells a child, the switchboard or the manager itself to move to machine `to`, under the name `id`, from
    /// machine `here`, where the manager is.
    pub fn ask_move(&self, here: u8, pid: Pid, to: u8, id: MsgId) -> Result<Message, MoveError>
        ensures exact { result ≡ asks_to_move here self.now pid to id }
        ensures lawful { IsLawfulManager self.now → IsMachine here → IsMachine to → IsMachine id.from.home → id.answer ≡ false → IfOk result IsLawfulMessage }
    {
        move_message(here, self.moves, id, to, self.address_of(here, pid))
    }

    /// Where the manager, on machine `here`, knows a child, the switchboard or itself to be.
    fn address_of(&self, here: u8, pid: Pid) -> Option<Addr>
        ensures { result ≡ known_address here self.now pid }
    {
        if pid == SWITCHBOARD {
            Some(self.board)
        } else if pid == MANAGER {
            Some(address_at(here, self.moves))
        } else {
            self.children.named(pid)
        }
    }

    /// Sets the addresses of the children and of the switchboard, and the links for answers, that lead to a process and know
    /// fewer moves of it than these to where it is; answers how many changed.
    pub fn retarget(&mut self, about: Pid, at: u8, moves: u32) -> u32
        requires { length self.old.children + length self.old.pending < 2 ^ 31 }
        ensures manager { self.new ≡ retargeted_manager about at moves self.old }
        ensures changed { result ≡ behind_in about moves self.old }
        ensures plain { plain_manager self.new ≡ plain_manager self.old }
        ensures lawful { IsMachine at → IsLawfulManager self.old → IsLawfulManager self.new }
    {
        self.follow(about, at, moves)
    }

    /// Follows a process to where it is; answers how many addresses and links changed.
    fn follow(&mut self, about: Pid, at: u8, moves: u32) -> u32
        requires { length self.old.children + length self.old.pending < 2 ^ 31 }
        ensures manager { self.new ≡ retargeted_manager about at moves self.old }
        ensures changed { result ≡ behind_in about moves self.old }
    {
        let behind = self.board.retarget(about, at, moves);
        let changed = self.children.retarget(about, at, moves)
            + self.pending.retarget(about, at, moves);
        if behind { 1 + changed } else { changed }
    }

    /// The manager as bytes, what a machine hands on when it moves; how many machines and images there are isn't among them.
    pub fn pack(&self, alloc: Global) -> Result<Vec<u8>, NoMemory>
        requires few { length self.now.children + length self.now.pending < 2 ^ 31 }
        requires lawful { IsLawfulManager self.now }
        ensures ok { IfOk result (λ v. v.items ≡ manager_spelling self.now) }
        // What is packed is unpacked to the same manager.
        ensures again { IfOk result (λ v. manager_of_bytes self.now.machines self.now.images v.items ≡ Ok self.now) }
    {
        let children = self.children.as_slice();
        let pending = self.pending.listed()?;
        let requests = pending.as_slice();
        manager_bytes(
            alloc,
            children,
            self.board,
            requests,
            (self.sent, self.moves),
        )
    }

    /// The manager of so many machines and images that the bytes spell, all of them, or the first rule from the left that they
    /// break, or want of memory.
    pub fn unpack(
        alloc: Global,
        bytes: &[u8],
        machines: u8,
        images: u16,
    ) -> Result<ProcMan, ServerError>
        // Which manager, and which rule.
        ensures exact { IsUnpacked result (manager_of_bytes machines images bytes.now) }
        // What is read is lawful, and spelled so and in no other way.
        ensures found { machines ≤ 16 → IfOk result (λ g. IsSpelledManager machines images g × (bytes.now ≡ manager_spelling g)) }
        // What is spelled so is read, unless memory lacks.
        ensures only { (g : Managing) → IsSpelledManager machines images g → bytes.now ≡ manager_spelling g → Gives result g }
    {
        manager_at(alloc, bytes, machines, images)
    }
}
