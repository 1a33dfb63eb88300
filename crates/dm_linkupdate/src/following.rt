//! What an update does to the process that gets it.
ghost use Rattle.std.specs.Prelude.{◌≡◌, count_by, map};
ghost use Rattle.dm_linktable.specs.Slots.{plain_slot, slot_is_behind};
ghost use Rattle.dm_link.specs.Lawful.{IsMachine};
ghost use Rattle.dm_process.specs.Lawful.{IsLawfulProcess};
ghost use Rattle.dm_linkupdate.specs.Applied.{applied, status_after};

use dm_link::Pid;
use dm_process::{Process, Status};

/// Tells a process that the process `about` is on machine `at` after so many moves; how many of its links changed.
///
/// A data move in progress follows too, and isn't counted.
pub fn apply(process: &mut Process, about: Pid, at: u8, moves: u32) -> u8
    ensures process { process.new ≡ applied about at moves process.old }
    ensures changed { result ≡ count_by (slot_is_behind about moves) process.old.table }
    ensures lawful { IsMachine at → IsLawfulProcess process.old → IsLawfulProcess process.new }
    ensures plain { map plain_slot process.new.table ≡ map plain_slot process.old.table }
{
    follow_owner(&mut process.status, about, at, moves);
    process.table.retarget(about, at, moves)
}

/// A data move goes on with its owner where that is.
fn follow_owner(status: &mut Status, about: Pid, at: u8, moves: u32)
    ensures { status.new ≡ status_after about at moves status.old }
{
    match status {
        Status::Moving { owner, .. } => {
            owner.retarget(about, at, moves);
        },
        Status::Ready | Status::Waiting { .. } => {},
    }
}
