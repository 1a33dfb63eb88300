//! What is frozen where it leaves, a process or a server, and what it gives of itself.
ghost use Rattle.std.specs.Prelude.{◌≡◌, ◌+◌, ◌*◌, ◌<◌, ◌≤◌, ◌++◌, ◌∷◌, [], IfErr, IfOk, IfSome, OnErr, OnOk, length, map};
ghost use Rattle.std.specs.List.{All};
ghost use Rattle.std.specs.Vec.{vec_capacity, vec_len};
ghost use Rattle.dm_link.specs.Lawful.{IsLawfulAddr, IsMachine};
ghost use Rattle.dm_message.specs.Lawful.{IsLawfulMessage, IsLawfulWhat};
ghost use Rattle.dm_message.specs.Plain.{plain_message};
ghost use Rattle.dm_resident.specs.Lawful.{HasFewAddresses, IsLawfulResident};
ghost use Rattle.dm_resident.specs.Packed.{state_of};
ghost use Rattle.dm_resident.specs.Residents.{memory_of, moves_of, name_of, queue_of};
ghost use Rattle.dm_migrate.specs.Departure.{CanMove, IsNamed, all_sent_on, ask_of, frozen, sent_on, with_held};
ghost use Rattle.dm_migrate.specs.Pieces.{HasBlock, HasChunk, block_of, chunk_bytes, chunk_of};

use dm_link::Placeless;
use dm_lists::{Bounded, Queue};
use dm_memory::{NoMemory, Parcel, push_or_return};
use dm_message::{Asker, CHUNK, Message, What};
use dm_process::Process;
use dm_resident::Resident;
use std::alloc::Global;
use std::marker::Model;

/// A process or a server that is frozen until it has gone, or stays.
#[derive(Drop)]
pub struct Leaving {
    resident: Resident,
    to: u8,
    asker: Option<Asker>,
    state: Vec<u8>,
    held: Vec<Message>,
    alloc: Global,
}

impl Model for Leaving {
    ghost use Rattle.std.specs.Prelude.{◌≡◌};
    ghost use Rattle.dm_migrate.specs.Departure.{CanMove, Departure};
    ghost use Rattle.dm_resident.specs.Packed.{state_of};

    ghost Value = { Departure };

    ghost view = { λ l. record { resident = l.resident; to = l.to; asker = l.asker; held = l.held.items } };

    ghost invariant = { λ l. CanMove l.resident × (l.state.items ≡ state_of l.resident) };
}

/// Freezes what is to go to a machine, and gives what is to be asked there. It takes the memory of the state bytes; where there
/// is none, it is handed back.
pub fn freeze(
    alloc: Global,
    resident: Resident,
    to: u8,
    asker: Option<Asker>,
) -> Result<(Leaving, What), (Resident, NoMemory)>
    requires lawful { IsLawfulResident resident }
    requires moves { moves_of resident < u32.MAX }
    requires few { HasFewAddresses resident }
    requires size { length (state_of resident) ≤ u32.MAX }
    ensures frozen { IfOk result (λ l. l.0 ≡ frozen resident to asker) }
    ensures ask { IfOk result (λ l. l.1 ≡ ask_of resident asker) }
    ensures lawful { IsNamed resident → IfSome asker (λ a. IsLawfulAddr a.addr) → IfOk result (λ l. IsLawfulWhat l.1) }
    ensures can_move { OnOk result (CanMove resident) }
    ensures returned { IfErr result (λ e. e.0 ≡ resident) }
{
    let state = match resident.pack(alloc) {
        Ok(state) => state,
        Err(none) => return Err((resident, none)),
    };
    let ask = What::Ask {
        pid: resident.pid(),
        blocks: resident.blocks(),
        moves: resident.moves(),
        size: state.len() as u32,
        asker,
    };
    let leaving = Leaving {
        resident,
        to,
        asker,
        state,
        held: Vec::new(alloc),
        alloc,
    };
    Ok((leaving, ask))
}

impl Leaving {
    /// What was frozen, as it was then.
    pub fn resident(&self) -> &Resident
        ensures resident { result.now ≡ self.now.resident }
        ensures can_move { CanMove self.now.resident }
    {
        &self.resident
    }

    /// The machine that it goes to.
    pub fn to(&self) -> u8
        ensures { result ≡ self.now.to }
    {
        self.to
    }

    /// Who waits to hear how the move ends.
    pub fn asker(&self) -> Option<Asker>
        ensures { result ≡ self.now.asker }
    {
        self.asker
    }

    /// The messages that came for it since it was frozen, in order.
    pub fn held(&self) -> &[Message]
        ensures { result.now ≡ self.now.held }
    {
        self.held.as_slice()
    }

    /// The chunk of this number of its state bytes.
    pub fn chunk(&self, k: u32) -> Result<What, NoMemory>
        requires { HasChunk (state_of self.now.resident) k }
        ensures piece { IfOk result (λ what. what ≡ chunk_of (name_of self.now.resident) (state_of self.now.resident) k) }
        ensures lawful { IfOk result IsLawfulWhat }
    {
        Ok(What::State {
            pid: self.resident.pid(),
            chunk: k,
            last: self.state.len() <= CHUNK * (k as usize + 1),
            bytes: Bounded::from_slice(self.alloc, chunk_at(&self.state, k as usize))?,
        })
    }

    /// The block of this number of its memory.
    pub fn block(&self, k: u8) -> Result<What, NoMemory>
        requires { HasBlock (memory_of self.now.resident) k }
        ensures piece { IfOk result (λ what. what ≡ block_of (name_of self.now.resident) (memory_of self.now.resident) k) }
        ensures lawful { IfOk result IsLawfulWhat }
    {
        let process = self.resident.process().unwrap();
        Ok(What::Memory {
            pid: process.pid,
            block: k,
            bytes: Parcel::new(self.alloc, *process.memory.block(k))?,
        })
    }

    /// Keeps a message that came for it, or hands it back.
    pub fn hold(&mut self, message: Message) -> Result<(), (Message, NoMemory)>
        ensures ok { OnOk result (self.new ≡ with_held self.old message) }
        ensures err { OnErr result (self.new ≡ self.old) }
        ensures returned { IfErr result (λ e. e.0 ≡ message) }
    {
        push_or_return(&mut self.held, message)
    }

    /// It has gone: the messages that go on to it, its queue and then what was held. Where there is no memory it is
    /// handed back.
    pub fn forward_all(self) -> Result<Vec<Message>, (Leaving, NoMemory)>
        ensures messages { IfOk result (λ r. r.items ≡ all_sent_on self) }
        ensures plain { IfOk result (λ r. map plain_message r.items ≡ map plain_message (queue_of self.resident ++ self.held)) }
        ensures lawful { IsMachine self.to → All IsLawfulMessage self.held → IfOk result (λ r. All IsLawfulMessage r.items) }
        ensures returned { IfErr result (λ e. e.0 ≡ self) }
    {
        let mut messages = match room_for(&self) {
            Ok(messages) => messages,
            Err(none) => return Err((self, none)),
        };
        let Leaving {
            resident,
            to,
            held,
            ..
        } = self;
        let moves = resident.moves() + 1;
        send_queue(&mut messages, resident, to, moves);
        send_held(&mut messages, held, to, moves);
        Ok(messages)
    }

    /// It stays: the process or the server as it was, and what was held.
    pub fn stay(self) -> (Resident, Vec<Message>)
        ensures resident { result.0 ≡ self.resident }
        ensures lawful { IsLawfulResident result.0 }
        ensures held { result.1.items ≡ self.held }
    {
        let Leaving { resident, held, .. } = self;
        (resident, held)
    }
}

/// The bytes of a chunk of state bytes.
fn chunk_at(state: &[u8], k: usize) -> &[u8]
    requires { HasChunk state.now k }
    ensures bytes { result.now ≡ chunk_bytes state.now k }
    ensures few { length result.now ≤ CHUNK }
{
    let rest = &state[CHUNK * k..];
    &rest[..CHUNK.min(rest.len())]
}

/// An empty vector with room for all that goes on: the queue, and what was held.
fn room_for(leaving: &Leaving) -> Result<Vec<Message>, NoMemory>
    ensures items { IfOk result (λ r. r.items ≡ []) }
    ensures room { IfOk result (λ r. vec_len r + (length (queue_of leaving.now.resident) + length leaving.now.held) ≤ vec_capacity r) }
{
    match leaving.resident.process() {
        Some(process) => process
            .queue
            .messages()
            .room_with(leaving.alloc, &leaving.held),
        None => Queue::new(leaving.alloc).room_with(leaving.alloc, &leaving.held),
    }
}

/// Adds the messages that wait for a process, which go on to a machine, where there is room for them; a server has no queue.
fn send_queue(messages: &mut Vec<Message>, resident: Resident, to: u8, moves: u32)
    requires room { vec_len messages.old + length (queue_of resident) ≤ vec_capacity messages.old }
    ensures items { messages.new.items ≡ messages.old.items ++ map (sent_on to moves) (queue_of resident) }
    ensures len { vec_len messages.new ≡ vec_len messages.old + length (queue_of resident) }
    ensures capacity { vec_capacity messages.old ≤ vec_capacity messages.new }
{
    let Some(process) = resident.into_process() else {
        return;
    };
    let Process { queue, .. } = process;
    let mut queue = queue.into_queue();
    while let Some(message) = queue.pop() {
        send_on(messages, message, to, moves);
    }
}

/// Adds messages that were held, which go on to a machine, where there is room for them.
fn send_held(messages: &mut Vec<Message>, held: Vec<Message>, to: u8, moves: u32)
    requires room { vec_len messages.old + length held.items ≤ vec_capacity messages.old }
    ensures items { messages.new.items ≡ messages.old.items ++ map (sent_on to moves) held.items }
    ensures len { vec_len messages.new ≡ vec_len messages.old + length held.items }
    ensures capacity { vec_capacity messages.old ≤ vec_capacity messages.new }
{
    for message in held {
        send_on(messages, message, to, moves);
    }
}

/// Adds a message that goes on to a machine, where there is room for it.
fn send_on(messages: &mut Vec<Message>, mut message: Message, to: u8, moves: u32)
    requires room { vec_len messages.old < vec_capacity messages.old }
    ensures items { messages.new.items ≡ messages.old.items ++ sent_on to moves message ∷ [] }
    ensures len { vec_len messages.new ≡ vec_len messages.old + 1 }
    ensures capacity { vec_capacity messages.old ≤ vec_capacity messages.new }
{
    message.relocate(to, moves);
    messages.push_reserved(message);
}
