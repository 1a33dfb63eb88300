//! The switchboard (1977): a list of names, each with a link that is handed out to whoever looks the name up.
#![tactic(auto)]

ghost use Rattle.std.specs.Prelude.{◌≡◌, ◌+◌, ◌<◌, ◌^◌, [], IfOk, IfSome, Ok, OnErr, Some, count_by, length, map, option_map, slice_get};
ghost use Rattle.dm_link.specs.Lawful.{IsMachine};
ghost use Rattle.dm_message.specs.declared.kind.MessageKind.TheVariants as kind;
ghost use Rattle.dm_message.specs.Kinds.{kind_of};
ghost use Rattle.dm_message.specs.Lawful.{IsLawfulMessage};
ghost use Rattle.dm_message.specs.Plain.{plain_message};
ghost use Rattle.dm_statebytes.specs.Servers.{Gives, IsUnpacked};
ghost use Rattle.dm_switchboard.specs.Board.{Board, named_is_behind, plain_board, retargeted_named};
ghost use Rattle.dm_switchboard.specs.Lawful.{IsLawfulBoard};
ghost use Rattle.dm_switchboard.specs.Packed.{HaveOwnNames, IsSpelledBoard, board_of_bytes, board_spelling};
ghost use Rattle.dm_switchboard.specs.Plainly.{plain_taken, plainly_taken};
ghost use Rattle.dm_switchboard.specs.Taking.{takes, takes_request};

mod names;
mod reading;
mod reply;
mod requests;
mod writing;

use dm_link::{Link, MACHINES, Pid};
use dm_memory::NoMemory;
use dm_message::{Message, What};
pub use dm_statebytes::server::ServerError;
use indexmap::IndexMap;
use names::{Decision, Names, keep, retarget_names};
use reading::board_at;
pub use reply::Reply;
use requests::ask;
use std::alloc::Global;
use std::marker::Model;
use writing::board_bytes;

/// The names that processes have registered, in order of registration.
///
/// Its model is the list of names, each with its link, the number of messages that were sent, and that of its moves.
#[derive(Drop)]
pub struct Switchboard {
    names: Names,
    sent: u32,
    /// How often it has moved to another machine.
    moves: u32,
}

impl Model for Switchboard {
    ghost use Rattle.dm_switchboard.specs.Board.{Board, listed};

    ghost Value = { Board };

    ghost view = { λ b. record { names = listed b.names.entries; sent = b.sent; moves = b.moves } };
}

/// What came of a message.
#[derive(Drop)]
pub struct Took {
    /// What is answered; nothing to a request without links.
    pub reply: Option<Reply>,
    /// The message that carries it.
    pub answer: Option<Message>,
}

impl Switchboard {
    /// No names. It takes no memory.
    pub fn new(alloc: Global) -> Self
        ensures { result ≡ record { names = []; sent = 0; moves = 0 } }
    {
        Switchboard {
            names: IndexMap::new(alloc),
            sent: 0,
            moves: 0,
        }
    }

    /// How many messages were sent.
    pub fn sent(&self) -> u32
        ensures { result ≡ self.now.sent }
    {
        self.sent
    }

    /// How often it has moved.
    pub fn moves(&self) -> u32
        ensures { result ≡ self.now.moves }
    {
        self.moves
    }

    /// It has moved once more. It takes no memory.
    pub fn moved(&mut self)
        requires { self.old.moves < u32.MAX }
        ensures board { self.new ≡ record self.old { moves = self.old.moves + 1 } }
        ensures plain { plain_board self.new ≡ plain_board self.old }
        ensures lawful { IsLawfulBoard self.old → IsLawfulBoard self.new }
    {
        self.moves += 1;
    }

    /// How many names there are.
    pub fn len(&self) -> usize
        ensures { result ≡ length self.now.names }
    {
        self.names.len()
    }

    /// The bytes of a name and its link, by its place in the order of registration, from 0.
    pub fn name(&self, place: usize) -> Option<(&[u8], &Link)>
        ensures { option_map (λ e. record { name = e.0.now; link = e.1.now }) result ≡ slice_get self.now.names place }
    {
        let (name, link) = self.names.get_index(place)?;
        Some((name.as_slice(), link))
    }

    /// Takes a user message on machine `here`, and answers a request that has a link for the answer.
    pub fn take(&mut self, alloc: Global, message: &Message, here: u8) -> Result<Took, NoMemory>
        requires user { kind_of message.now.what ≡ kind.User }
        requires counts { self.old.sent < u32.MAX }
        requires here { here < MACHINES }
        ensures exact { IfOk result (λ t. takes here self.old message.now.what ≡ Some (record { board = self.new; took = t })) }
        ensures err { OnErr result (self.new ≡ self.old) }
        ensures plain { IfOk result (λ t. plain_taken self.new t ≡ plainly_taken self.old (plain_message message.now)) }
        ensures lawful { IsLawfulBoard self.old → IsLawfulMessage message.now → IsLawfulBoard self.new }
        ensures lawful_answer { IsLawfulBoard self.old → IsLawfulMessage message.now → IfOk result (λ t. IfSome t.answer IsLawfulMessage) }
    {
        match &message.what {
            What::User { body, links, .. } => self.take_request(
                alloc,
                here,
                body.as_slice(),
                links.as_slice(),
            ),
            // No other kind is for the switchboard: `user` says so.
            _ => unreachable!(),
        }
    }

    /// Takes a request with its links, the first for the answer.
    fn take_request(
        &mut self,
        alloc: Global,
        here: u8,
        body: &[u8],
        links: &[Link],
    ) -> Result<Took, NoMemory>
        requires { self.old.sent < u32.MAX }
        ensures exact { IfOk result (λ t. takes_request here self.old body.now links.now ≡ record { board = self.new; took = t }) }
        ensures err { OnErr result (self.new ≡ self.old) }
    {
        let [first, others @ ..] = links else {
            return Ok(Took {
                reply: None,
                answer: None,
            });
        };
        let Decision { reply, new } = ask(&self.names, body, others);
        let answer = reply.over(alloc, here, self.moves, first, self.sent)?;
        keep(&mut self.names, new)?;
        self.sent += 1;
        Ok(Took {
            reply: Some(reply),
            answer: Some(answer),
        })
    }

    /// Sets the links to a process that know fewer moves of it than these to where it is; answers how many changed.
    pub fn retarget(&mut self, about: Pid, at: u8, moves: u32) -> u32
        requires { length self.old.names < 2 ^ 31 }
        ensures names { self.new ≡ record self.old { names = map (retargeted_named about at moves) self.old.names } }
        ensures changed { result ≡ count_by (named_is_behind about moves) self.old.names }
        ensures plain { plain_board self.new ≡ plain_board self.old }
        ensures lawful { IsMachine at → IsLawfulBoard self.old → IsLawfulBoard self.new }
    {
        retarget_names(&mut self.names, about, at, moves)
    }

    /// The switchboard as bytes, what a machine hands on when it moves. Its names stand in their order.
    pub fn pack(&self, alloc: Global) -> Result<Vec<u8>, NoMemory>
        requires few { length self.now.names < 2 ^ 31 }
        requires lawful { IsLawfulBoard self.now }
        ensures ok { IfOk result (λ v. v.items ≡ board_spelling self.now) }
        // No name stands twice.
        ensures apart { HaveOwnNames self.now.names }
        // What is packed is unpacked to the same switchboard.
        ensures again { IfOk result (λ v. board_of_bytes v.items ≡ Ok self.now) }
    {
        board_bytes(alloc, &self.names, self.sent, self.moves)
    }

    /// The switchboard that the bytes spell, all of them, or the first rule from the left that they break, or want of memory.
    pub fn unpack(alloc: Global, bytes: &[u8]) -> Result<Switchboard, ServerError>
        // Which switchboard, and which rule.
        ensures exact { IsUnpacked result (board_of_bytes bytes.now) }
        // What is read is lawful, and spelled so and in no other way.
        ensures found { IfOk result (λ b. IsSpelledBoard b × (bytes.now ≡ board_spelling b)) }
        // What is spelled so is read, unless memory lacks.
        ensures only { (b : Board) → IsSpelledBoard b → bytes.now ≡ board_spelling b → Gives result b }
    {
        board_at(alloc, bytes)
    }
}
