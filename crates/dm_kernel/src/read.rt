//! What can be read of a kernel.
ghost use Rattle.dm_kernel.specs.State.{manager_in};
ghost use Rattle.dm_records.specs.Records.{at};
ghost use Rattle.std.specs.Prelude.{◌≡◌, is_some};

use crate::kernel::Kernel;
use crate::residents::manager;
use dm_link::{MANAGER, Pid};
use dm_lists::Queue;
use dm_memory::Parcel;
use dm_message::Message;
use dm_migrate::{Arriving, Leaving};
use dm_onekernel::Why;
use dm_records::Records;
use dm_resident::Resident;

impl Kernel {
    /// The machine's number, 0 to 15.
    pub fn here(&self) -> u8
        ensures { result ≡ self.now.here }
    {
        self.here
    }

    /// What is known of each process and of the servers.
    pub fn records(&self) -> &Records<Resident, Leaving, Arriving>
        ensures { result.now ≡ self.now.records }
    {
        &self.records
    }

    /// The messages that have come and wait to be handled.
    pub fn inbox(&self) -> &Queue<Parcel<Message>>
        ensures { result.now ≡ self.now.inbox }
    {
        &self.inbox
    }

    /// How many processes were made here.
    pub fn count_made(&self) -> u32
        ensures { result ≡ self.now.made }
    {
        self.made
    }

    /// The process that ended in the last turn, if one did, and why.
    pub fn over(&self) -> Option<(Pid, Why)>
        ensures { result ≡ self.now.over }
    {
        self.over
    }

    /// Whether the manager is here.
    pub fn has_manager(&self) -> bool
        ensures { result ≡ is_some (manager_in (at self.now.records MANAGER)) }
    {
        manager(&self.records).is_some()
    }
}
