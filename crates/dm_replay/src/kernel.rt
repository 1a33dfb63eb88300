//! The kernel without machines.
ghost use Rattle.std.specs.Prelude.{◌≡◌};
ghost use Rattle.dm_replay.specs.declared.kernel.Refusal.TheVariants as no;

use crate::by_name::ByName;
use crate::life::Lives;
use dm_link::{Addr, MACHINES, Pid};
use dm_memory::{NoMemory, Parcel};
use dm_message::{Message, MsgId};
use dm_process::Process;
use dm_procman::ProcMan;
use dm_switchboard::Switchboard;
use std::alloc::Global;
use std::collections::BTreeMap;
use thiserror::Error;

/// The one place that there is: a machine, since addresses name one.
pub const HERE: u8 = 0;

/// How many labels a kernel takes at most, so that none of its counts can wear out.
pub const MOST_LABELS: u32 = 16_777_216;

/// Why a label isn't taken.
#[derive(Clone, Copy, Debug, Error)]
pub enum Refusal {
    /// It is no step of the kernel.
    #[error("no step")]
    NoStep,
    #[error("no memory")]
    NoMemory(NoMemory),
}

impl From<NoMemory> for Refusal {
    ghost from_gives = { λ none e. e ≡ no.NoMemory none };

    fn from(none: NoMemory) -> Refusal {
        Refusal::NoMemory(none)
    }
}

/// A request to move that a process follows until it has moved, or stays.
#[derive(Clone, Copy)]
pub struct Note {
    /// The request's name.
    pub id: MsgId,
    /// Who sent it.
    pub asker: Addr,
}

/// The whole system, wherever its parts are.
#[derive(Drop)]
pub struct Kernel {
    pub(crate) alloc: Global,
    /// What became of each process that was made.
    pub(crate) processes: Lives<Process>,
    /// How many processes of each home were made.
    pub(crate) made: [u32; MACHINES as usize],
    /// The messages that nobody has got yet.
    pub(crate) bag: ByName<Parcel<Message>>,
    /// The request to move that each process follows, if it follows one.
    pub(crate) notes: BTreeMap<Pid, Note>,
    /// Who follows each request.
    pub(crate) noted: ByName<Pid>,
    pub(crate) board: Switchboard,
    pub(crate) manager: ProcMan,
    /// How many labels were taken.
    pub(crate) labels: u32,
}

impl Kernel {
    /// How many labels were taken.
    pub fn labels(&self) -> u32
        ensures { result ≡ self.now.labels }
    {
        self.labels
    }
}
