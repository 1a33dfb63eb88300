//! The kernel of a machine.
use dm_link::Pid;
use dm_lists::Queue;
use dm_memory::Parcel;
use dm_message::Message;
use dm_migrate::{Arriving, Leaving};
use dm_onekernel::Why;
use dm_records::Records;
use dm_resident::Resident;
use dm_room::Room;
use std::alloc::Global;

/// The kernel of a machine.
#[derive(Drop)]
pub struct Kernel {
    pub(crate) alloc: Global,
    /// The machine's number, 0 to 15.
    pub(crate) here: u8,
    /// What is known of each process and of the servers.
    pub(crate) records: Records<Resident, Leaving, Arriving>,
    /// The processes that are here, in the order in which they are served.
    pub(crate) ring: Queue<Pid>,
    /// How many processes at the ring's front are known to be none that can be served.
    pub(crate) idle: usize,
    /// The messages that have come and wait to be handled.
    pub(crate) inbox: Queue<Parcel<Message>>,
    /// How many processes were made here.
    pub(crate) made: u32,
    /// How many messages of its own the kernel has sent.
    pub(crate) sent: u32,
    /// The slots and blocks.
    pub(crate) room: Room,
    /// The process that ended in the last turn, and why.
    pub(crate) over: Option<(Pid, Why)>,
}
