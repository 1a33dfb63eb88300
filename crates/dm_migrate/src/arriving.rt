//! What comes to a machine piece by piece, a process or a server.
ghost use Rattle.std.specs.Prelude.{◌≡◌, ◌⊎◌, ◌+◌, ◌*◌, ◌^◌, ◌<◌, ◌≤◌, ◌++◌, [], ℕ, IfErr, IfOk, None, Ok, OnErr, OnOk, Some, false, length, map, replicate, take, drop, true};
ghost use Rattle.std.specs.Option.{IfSome};
ghost use Rattle.dm_onekernel.specs.Boot.{manager, switchboard};
ghost use Rattle.dm_statebytes.specs.Shell.{shell_of_bytes};
ghost use Rattle.dm_switchboard.specs.Packed.{board_of_bytes};
ghost use Rattle.dm_procman.specs.Packed.{manager_of_bytes};
ghost use Rattle.dm_resident.specs.Lawful.{IsLawfulResident};
ghost use Rattle.dm_resident.specs.Residents.{manager_of};
ghost use Rattle.dm_resident.specs.declared.Resident.TheVariants as resident;
ghost use Rattle.dm_migrate.specs.Coming.{IsBody, memory_in};
ghost use Rattle.dm_migrate.specs.Arrival.{IsNextChunk, IsServerState, after_block, after_chunk, all_sent_back, comes_from, expected, is_process_coming, is_whole, moved_board, moved_manager, pull, restarted, revived, server_of_bytes, with_block, with_chunk, with_held};
ghost use Rattle.dm_migrate.specs.Departure.{sent_on};

use crate::answer::Ask;
use dm_link::{Pid, Placeless, SWITCHBOARD};
use dm_linktable::{FEW_SLOTS, MOST_SLOTS, Table};
use dm_memory::{NoMemory, push_or_return, with_room_for_bytes};
use dm_message::{Asker, CHUNK, Message, What};
use dm_process::{Mailbox, Process};
use dm_processor::{MOST_BLOCKS, Memory};
use dm_procman::{ProcMan, ServerError};
use dm_resident::Resident;
use dm_statebytes::{Shell, unpack};
use dm_switchboard::Switchboard;
use std::alloc::Global;
use std::marker::Model;

/// The piece that is asked for.
#[derive(Clone, Copy)]
pub enum Wanted {
    /// A chunk of 512 of its state bytes, or fewer where it is the last.
    Chunk(u32),
    /// A block of 256 bytes of a process's memory.
    Block(u8),
    /// All has come.
    Nothing,
}

/// What a process has beside its state bytes: as it comes, room for it.
#[derive(Drop)]
struct Body {
    /// All of it; the blocks that haven't come are 0.
    memory: Memory,
    /// An empty one, for its links.
    table: Table,
}

/// A process or a server that is on its way to a machine, which has taken the memory that all of it needs while it comes.
#[derive(Drop)]
pub struct Arriving {
    pid: Pid,
    /// The machine that it comes from, 0 to 15.
    source: u8,
    moves: u32,
    asker: Option<Asker>,
    cap: u8,
    /// As many as there will be; those that haven't come are 0.
    state: Vec<u8>,
    /// A server has none.
    body: Option<Body>,
    wanted: Wanted,
    held: Vec<Message>,
    alloc: Global,
}

impl Model for Arriving {
    ghost use Rattle.dm_migrate.specs.Arrival.{Arrival};
    ghost use Rattle.dm_migrate.specs.Coming.{IsBody, IsComing, come_of, memory_in, Parts};
    ghost use Rattle.std.specs.Option.{IfSome};

    ghost Value = { Arrival };

    ghost view = { λ a. come_of (record {
      pid = a.pid;
      source = a.source;
      moves = a.moves;
      asker = a.asker;
      cap = a.cap;
      state = a.state.items;
      memory = memory_in a.body;
      wanted = a.wanted;
      held = a.held.items;
    }) };

    ghost invariant = { λ a. IsComing (record {
      pid = a.pid;
      source = a.source;
      moves = a.moves;
      asker = a.asker;
      cap = a.cap;
      state = a.state.items;
      memory = memory_in a.body;
      wanted = a.wanted;
      held = a.held.items;
    }) × IfSome a.body (IsBody a.cap) };
}

/// Makes room for what is to come, with nothing of it yet.
pub(crate) fn expect(alloc: Global, ask: Ask, cap: u8) -> Result<Arriving, NoMemory>
    requires most { ask.blocks ≤ MOST_BLOCKS }
    requires moves { ask.moves < u32.MAX }
    requires cap { (cap ≡ FEW_SLOTS) ⊎ (cap ≡ MOST_SLOTS) }
    ensures { IfOk result (λ a. a ≡ expected ask.pid ask.source ask.blocks ask.moves ask.size ask.asker cap) }
{
    Ok(Arriving {
        pid: ask.pid,
        source: ask.source,
        moves: ask.moves,
        asker: ask.asker,
        cap,
        state: room_for_state(alloc, ask.size)?,
        body: body_of(alloc, ask.blocks, cap)?,
        wanted: Wanted::Chunk(0),
        held: Vec::new(alloc),
        alloc,
    })
}

/// As many zeros as there will be state bytes.
fn room_for_state(alloc: Global, size: u32) -> Result<Vec<u8>, NoMemory>
    ensures { IfOk result (λ state. state.items ≡ replicate size 0) }
{
    let mut state = with_room_for_bytes(alloc, size)?;
    match state.resize(size as usize, 0) {
        Ok(()) => Ok(state),
        // There is room for them.
        Err(_) => unreachable!(),
    }
}

/// Room for the memory and the links of a process of so many blocks; a server has none.
fn body_of(alloc: Global, blocks: u16, cap: u8) -> Result<Option<Body>, NoMemory>
    requires most { blocks ≤ MOST_BLOCKS }
    requires cap { (cap ≡ FEW_SLOTS) ⊎ (cap ≡ MOST_SLOTS) }
    ensures memory { IfOk result (λ b. memory_in b ≡ replicate (256 * blocks) 0) }
    ensures body { IfOk result (λ b. IfSome b (IsBody cap)) }
{
    if blocks == 0 {
        return Ok(None);
    }
    Ok(Some(Body {
        memory: Memory::from_image(alloc, &[], blocks)?,
        table: Table::new(alloc, cap)?,
    }))
}

impl Arriving {
    /// The name of the process.
    pub fn pid(&self) -> Pid
        ensures { result ≡ self.now.pid }
    {
        self.pid
    }

    /// The machine that it comes from, 0 to 15.
    pub fn source(&self) -> u8
        ensures { result ≡ self.now.source }
    {
        self.source
    }

    /// Whether it comes from a machine: a piece that another one sends isn't one of it.
    pub fn comes_from(&self, machine: u8) -> bool
        ensures { result ≡ comes_from self.now machine }
    {
        machine == self.source
    }

    /// How many blocks of memory it has: a process 1 to 256, a server none.
    pub fn blocks(&self) -> u16
        ensures { result ≡ self.now.blocks }
    {
        match &self.body {
            Some(body) => body.memory.blocks(),
            None => 0,
        }
    }

    /// How often it had moved before.
    pub fn moves(&self) -> u32
        ensures { result ≡ self.now.moves }
    {
        self.moves
    }

    /// Who waits to hear how the move ends.
    pub fn asker(&self) -> Option<Asker>
        ensures { result ≡ self.now.asker }
    {
        self.asker
    }

    /// The piece that is asked for.
    pub fn wanted(&self) -> Wanted
        ensures { result ≡ self.now.wanted }
    {
        self.wanted
    }

    /// The messages that came for it meanwhile, in order.
    pub fn held(&self) -> &[Message]
        ensures { result.now ≡ self.now.held }
    {
        self.held.as_slice()
    }

    /// How many slots its table has, 32 or 128.
    pub fn cap(&self) -> u8
        ensures cap { result ≡ self.now.cap }
        ensures known { (result ≡ FEW_SLOTS) ⊎ (result ≡ MOST_SLOTS) }
    {
        self.cap
    }

    /// Whether it is a process, and not a server.
    pub fn is_process(&self) -> bool
        ensures { result ≡ is_process_coming self.now }
    {
        self.body.is_some()
    }

    /// All of a process but for its memory and its queue, where all has come, with a table that is handed in, empty. It takes no
    /// memory.
    pub fn shell(&self, empty: Table) -> Shell
        requires whole { self.now.wanted ≡ Wanted.Nothing }
        requires process { is_process_coming self.now ≡ true }
        requires empty { empty ≡ replicate self.now.cap None }
        ensures exact { shell_of_bytes self.now.state self.now.cap ≡ Ok result }
        ensures process { (machines images : ℕ) → restarted machines images self.now ≡ Some (resident.Process (revived result self.now.memory)) }
    {
        unpack(&self.state, self.cap, empty).unwrap()
    }

    /// The memory of a process, where all has come.
    pub fn memory(&self) -> &Memory
        requires whole { self.now.wanted ≡ Wanted.Nothing }
        requires process { is_process_coming self.now ≡ true }
        ensures { result.now ≡ self.now.memory }
    {
        &self.body.as_ref().unwrap().memory
    }

    /// The server that has come, on a machine of a system of so many machines and images; it has moved once more.
    pub fn server(&self, machines: u8, images: u16) -> Result<Resident, NoMemory>
        requires whole { self.now.wanted ≡ Wanted.Nothing }
        requires server { is_process_coming self.now ≡ false }
        ensures exact { IfOk result (λ r. restarted machines images self.now ≡ Some r) }
        // What is read of a system's machines is lawful, and each of the manager's children has a number.
        ensures lawful { machines ≤ 16 → IfOk result IsLawfulResident }
        ensures numbered { machines ≤ 16 → IfOk result (λ r. IfSome (manager_of r) (λ g. length g.children < 2 ^ 32)) }
    {
        server_of(self.alloc, self.pid, &self.state, machines, images)
    }

    /// Takes the chunk that was asked for; asks for the next piece. It takes no memory.
    pub fn take_chunk(&mut self, chunk: u32, last: bool, bytes: &[u8]) -> What
        requires { IsNextChunk self.old self.old.pid chunk last bytes.now }
        ensures after { self.new ≡ with_chunk self.old chunk last bytes.now }
        ensures pull { result ≡ pull self.new.pid self.new.wanted }
    {
        self.put_chunk(chunk, last, bytes);
        self.pull()
    }

    /// Takes the block that was asked for; asks for the next, or says that all has come. It takes no memory.
    pub fn take_block(&mut self, block: u8, bytes: &[u8; 256]) -> What
        requires { self.old.wanted ≡ Wanted.Block block }
        ensures after { self.new ≡ with_block self.old block bytes.now }
        ensures pull { result ≡ pull self.new.pid self.new.wanted }
    {
        self.put_block(block, bytes);
        self.pull()
    }

    /// Keeps a message that came for it, or hands it back.
    pub fn hold(&mut self, message: Message) -> Result<(), (Message, NoMemory)>
        ensures ok { OnOk result (self.new ≡ with_held self.old message) }
        ensures err { OnErr result (self.new ≡ self.old) }
        ensures returned { IfErr result (λ e. e.0 ≡ message) }
    {
        push_or_return(&mut self.held, message)
    }

    /// It doesn't come: the messages that go back to the machine that it was to leave, which are those that were held, and what tells
    /// that one's kernel. It takes no memory. Where all of it has come, it is handed back.
    pub fn call_off(self) -> Result<(Vec<Message>, What), Arriving>
        ensures messages { IfOk result (λ r. r.0.items ≡ all_sent_back self) }
        ensures told { IfOk result (λ r. r.1 ≡ What.CallOff self.pid) }
        ensures coming { OnOk result (is_whole self.wanted ≡ false) }
        ensures whole { OnErr result (is_whole self.wanted ≡ true) }
        ensures returned { IfErr result (λ a. a ≡ self) }
    {
        if is_whole(self.wanted) {
            return Err(self);
        }
        let Arriving {
            pid,
            source,
            moves,
            mut held,
            ..
        } = self;
        send_back(held.as_mut_slice(), source, moves);
        Ok((held, What::CallOff { pid }))
    }

    /// It is here: what has come, which has moved once more, and what was held; on a machine of a system of so many machines and
    /// images. Only a server takes memory.
    pub fn restart(self, machines: u8, images: u16) -> Result<(Resident, Vec<Message>), NoMemory>
        requires { self.wanted ≡ Wanted.Nothing }
        ensures resident { IfOk result (λ r. restarted machines images self ≡ Some r.0) }
        ensures lawful { machines ≤ 16 → IfOk result (λ r. IsLawfulResident r.0) }
        ensures held { IfOk result (λ r. r.1.items ≡ self.held) }
    {
        let Arriving {
            pid,
            cap,
            state,
            body,
            held,
            alloc,
            ..
        } = self;
        let resident = match body {
            Some(body) => {
                let shell = unpack(&state, cap, body.table).unwrap();
                Resident::Process(revive(alloc, shell, body.memory))
            }
            None => server_of(alloc, pid, &state, machines, images)?,
        };
        Ok((resident, held))
    }

    /// Asks for the piece that is to come next.
    fn pull(&self) -> What
        ensures { result ≡ pull self.now.pid self.now.wanted }
    {
        let pid = self.pid;
        match self.wanted {
            Wanted::Chunk(chunk) => What::PullState { pid, chunk },
            Wanted::Block(block) => What::PullBlock { pid, block },
            Wanted::Nothing => What::AllTaken { pid },
        }
    }

    /// Takes the chunk that was asked for.
    fn put_chunk(&mut self, chunk: u32, last: bool, bytes: &[u8])
        requires { IsNextChunk self.old self.old.pid chunk last bytes.now }
        ensures { self.new ≡ with_chunk self.old chunk last bytes.now }
    {
        let blocks = self.blocks();
        put_at(&mut self.state, CHUNK * chunk as usize, bytes);
        self.wanted = after_chunk(chunk, last, blocks);
    }

    /// Takes the block that was asked for.
    fn put_block(&mut self, block: u8, bytes: &[u8; 256])
        requires { self.old.wanted ≡ Wanted.Block block }
        ensures { self.new ≡ with_block self.old block bytes.now }
    {
        let memory = &mut self.body.as_mut().unwrap().memory;
        let blocks = memory.blocks();
        memory.put_block(block, bytes);
        self.wanted = after_block(block, blocks);
    }
}

/// Whether all has come.
fn is_whole(wanted: Wanted) -> bool
    ensures { result ≡ is_whole wanted }
{
    match wanted {
        Wanted::Chunk(_) => false,
        Wanted::Block(_) => false,
        Wanted::Nothing => true,
    }
}

/// Addresses messages to a machine, where their receiver has moved so many times.
fn send_back(messages: &mut [Message], to: u8, moves: u32)
    ensures { messages.new ≡ map (sent_on to moves) messages.old }
{
    for message in messages.iter_mut() {
        message.relocate(to, moves);
    }
}

/// What is asked for after a chunk, where there are so many blocks; a server has none.
fn after_chunk(chunk: u32, last: bool, blocks: u16) -> Wanted
    requires { chunk < u32.MAX }
    ensures { result ≡ after_chunk chunk last blocks }
{
    if !last {
        Wanted::Chunk(chunk + 1)
    } else if blocks == 0 {
        Wanted::Nothing
    } else {
        Wanted::Block(0)
    }
}

/// What is asked for after a block, where there are so many.
fn after_block(block: u8, blocks: u16) -> Wanted
    requires { blocks ≤ MOST_BLOCKS }
    ensures { result ≡ after_block block blocks }
{
    if u16::from(block) + 1 < blocks {
        Wanted::Block(block + 1)
    } else {
        Wanted::Nothing
    }
}

/// The server that has come as these bytes, after one move more.
fn server_of(
    alloc: Global,
    pid: Pid,
    state: &[u8],
    machines: u8,
    images: u16,
) -> Result<Resident, NoMemory>
    requires { IsServerState pid state.now }
    ensures exact { IfOk result (λ r. server_of_bytes machines images pid state.now ≡ Some r) }
    ensures lawful { machines ≤ 16 → IfOk result IsLawfulResident }
    ensures numbered { machines ≤ 16 → IfOk result (λ r. IfSome (manager_of r) (λ g. length g.children < 2 ^ 32)) }
{
    if pid == SWITCHBOARD {
        board_of(alloc, state)
    } else {
        manager_of(alloc, state, machines, images)
    }
}

/// The switchboard that has come as these bytes, after one move more.
fn board_of(alloc: Global, state: &[u8]) -> Result<Resident, NoMemory>
    requires { IsServerState switchboard state.now }
    ensures exact { IfOk result (λ r. moved_board (board_of_bytes state.now) ≡ Some r) }
    ensures lawful { IfOk result IsLawfulResident }
    ensures board { IfOk result (λ r. manager_of r ≡ None) }
{
    match Switchboard::unpack(alloc, state) {
        Ok(board) => {
            let mut board = board;
            board.moved();
            Ok(Resident::Board(board))
        }
        Err(ServerError::NoMemory(none)) => Err(none),
        // What has come whole spells it.
        Err(ServerError::StateBytes(_)) => unreachable!(),
    }
}

/// The manager that has come as these bytes, after one move more.
fn manager_of(alloc: Global, state: &[u8], machines: u8, images: u16) -> Result<Resident, NoMemory>
    requires { IsServerState manager state.now }
    ensures exact { IfOk result (λ r. moved_manager (manager_of_bytes machines images state.now) ≡ Some r) }
    ensures lawful { machines ≤ 16 → IfOk result IsLawfulResident }
    ensures numbered { machines ≤ 16 → IfOk result (λ r. IfSome (manager_of r) (λ g. length g.children < 2 ^ 32)) }
{
    match ProcMan::unpack(alloc, state, machines, images) {
        Ok(manager) => {
            let mut manager = manager;
            manager.moved();
            Ok(Resident::Manager(manager))
        }
        Err(ServerError::NoMemory(none)) => Err(none),
        // What has come whole spells it.
        Err(ServerError::StateBytes(_)) => unreachable!(),
    }
}

/// The process that a shell and a memory make, after one move more.
fn revive(alloc: Global, shell: Shell, memory: Memory) -> Process
    requires { shell.moves < u32.MAX }
    ensures { result ≡ revived shell memory }
{
    Process {
        pid: shell.pid,
        regs: shell.regs,
        memory,
        table: shell.table,
        status: shell.status,
        stopped: shell.stopped,
        sent: shell.sent,
        moves: shell.moves + 1,
        queue: Mailbox::new(alloc),
    }
}

/// Copies all of a slice to a place in a vector.
fn put_at(bytes: &mut Vec<u8>, at: usize, from: &[u8])
    requires { at + length from.now ≤ length bytes.old.items }
    ensures { bytes.new.items ≡ take at bytes.old.items ++ from.now ++ drop (at + length from.now) bytes.old.items }
{
    bytes[at..at + from.len()].copy_from_slice(from);
}
