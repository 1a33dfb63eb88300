//! What stands on a machine and can move to another: a process, or one of the two servers.
#![tactic(auto)]

ghost use Rattle.std.specs.Prelude.{◌≡◌, ◌<◌, ◌/◌, IfOk, OnOk, option_copied};
ghost use Rattle.std.specs.Borrow.{sem};
ghost use Rattle.std.specs.Option.{option_copied_mut};
ghost use Rattle.dm_resident.specs.Lawful.{HasFewAddresses, IsLawfulResident};
ghost use Rattle.dm_resident.specs.Lent.{LendsBoard, LendsManager, LendsProcess};
ghost use Rattle.dm_resident.specs.Packed.{IsReadAgain, state_of};
ghost use Rattle.dm_resident.specs.Residents.{blocks_of, board_of, manager_of, moves_of, name_of, process_of};

use dm_link::{MANAGER, Pid, SWITCHBOARD};
use dm_memory::NoMemory;
use dm_process::Process;
use dm_procman::ProcMan;
use dm_statebytes::pack;
use dm_switchboard::Switchboard;
use std::alloc::Global;

/// What stands on a machine and can move to another.
#[derive(Drop)]
pub enum Resident {
    Process(Process),
    /// The switchboard, which takes no room and has no queue: it takes each message at once (1977).
    Board(Switchboard),
    /// The process manager, alike (1977).
    Manager(ProcMan),
}

impl Resident {
    /// Its name.
    pub fn pid(&self) -> Pid
        ensures { result ≡ name_of self.now }
    {
        match self {
            Resident::Process(process) => process.pid,
            Resident::Board(_) => SWITCHBOARD,
            Resident::Manager(_) => MANAGER,
        }
    }

    /// How often it has moved.
    pub fn moves(&self) -> u32
        ensures { result ≡ moves_of self.now }
    {
        match self {
            Resident::Process(process) => process.moves,
            Resident::Board(board) => board.moves(),
            Resident::Manager(manager) => manager.moves(),
        }
    }

    /// How many blocks of memory it has: a process 1 to 256, a server none.
    pub fn blocks(&self) -> u16
        ensures { result ≡ blocks_of self.now }
    {
        match self {
            Resident::Process(process) => process.memory.blocks(),
            Resident::Board(_) | Resident::Manager(_) => 0,
        }
    }

    /// The process, if it is one.
    pub fn process(&self) -> Option<&Process>
        ensures { option_copied result ≡ process_of self.now }
    {
        match self {
            Resident::Process(process) => Some(process),
            Resident::Board(_) | Resident::Manager(_) => None,
        }
    }

    /// The switchboard, if it is that.
    pub fn board(&self) -> Option<&Switchboard>
        ensures { option_copied result ≡ board_of self.now }
    {
        match self {
            Resident::Board(board) => Some(board),
            Resident::Process(_) | Resident::Manager(_) => None,
        }
    }

    /// The process manager, if it is that.
    pub fn manager(&self) -> Option<&ProcMan>
        ensures { option_copied result ≡ manager_of self.now }
    {
        match self {
            Resident::Manager(manager) => Some(manager),
            Resident::Process(_) | Resident::Board(_) => None,
        }
    }

    /// The process, if it is one, for writing.
    pub fn process_mut(&mut self) -> Option<&mut Process>
        ensures* writes_back { sem 𝓛 (LendsProcess self.entry result) }
        ensures value { option_copied_mut result ≡ process_of self.old }
    {
        match self {
            Resident::Process(process) => Some(process),
            Resident::Board(_) | Resident::Manager(_) => None,
        }
    }

    /// The switchboard, if it is that, for writing.
    pub fn board_mut(&mut self) -> Option<&mut Switchboard>
        ensures* writes_back { sem 𝓛 (LendsBoard self.entry result) }
        ensures value { option_copied_mut result ≡ board_of self.old }
    {
        match self {
            Resident::Board(board) => Some(board),
            Resident::Process(_) | Resident::Manager(_) => None,
        }
    }

    /// The process manager, if it is that, for writing.
    pub fn manager_mut(&mut self) -> Option<&mut ProcMan>
        ensures* writes_back { sem 𝓛 (LendsManager self.entry result) }
        ensures value { option_copied_mut result ≡ manager_of self.old }
    {
        match self {
            Resident::Manager(manager) => Some(manager),
            Resident::Process(_) | Resident::Board(_) => None,
        }
    }

    /// The process, if it is one.
    pub fn into_process(self) -> Option<Process>
        ensures { result ≡ process_of self }
    {
        match self {
            Resident::Process(process) => Some(process),
            Resident::Board(_) | Resident::Manager(_) => None,
        }
    }

    /// Its state bytes: all of it but its memory and its queue.
    pub fn pack(&self, alloc: Global) -> Result<Vec<u8>, NoMemory>
        requires lawful { IsLawfulResident self.now }
        requires few { HasFewAddresses self.now }
        ensures ok { IfOk result (λ v. v.items ≡ state_of self.now) }
        // What is packed is read again as what it was made of.
        ensures again { OnOk result (IsReadAgain self.now) }
    {
        match self {
            Resident::Process(process) => pack(alloc, process),
            Resident::Board(board) => board.pack(alloc),
            Resident::Manager(manager) => manager.pack(alloc),
        }
    }
}
