//! The order in which the processes of a machine are served. Only who joins takes memory.
ghost use Rattle.std.specs.Prelude.{◌≡◌, ◌<◌, OnOk, Some, length, slice_get};
ghost use Rattle.dm_line.specs.Sets.{moved_back, without};
ghost use Rattle.dm_kernel.specs.State.{ring_with};

use dm_link::Pid;
use dm_lists::Queue;
use dm_memory::NoMemory;
use dm_resident::Resident;

/// Puts what goes on at the ring's back, if it is a process.
pub fn join(ring: &mut Queue<Pid>, pid: Pid, resident: &Resident) -> Result<(), NoMemory>
    ensures { OnOk result (ring.new ≡ ring_with ring.old pid resident.now) }
{
    match resident {
        Resident::Process(_) => ring.push(pid),
        Resident::Board(_) | Resident::Manager(_) => Ok(()),
    }
}

/// Takes a process out of the ring.
pub fn remove(ring: &mut Queue<Pid>, pid: Pid)
    ensures { ring.new ≡ without pid ring.old }
{
    ring.retain(|other| pid != *other);
}

/// Puts the process at a place of the ring at its back.
pub fn move_back(ring: &mut Queue<Pid>, place: usize)
    requires { place < length ring.old }
    ensures { (p : _) → slice_get ring.old place ≡ Some p → ring.new ≡ moved_back p ring.old }
{
    let pid = *ring.at(place);
    ring.retain_then(|other| pid != *other, place);
}
