//! What stands on a machine, by what it is.
ghost use Rattle.std.specs.Prelude.{◌≡◌};
ghost use Rattle.std.specs.Borrow.{sem};
ghost use Rattle.std.specs.Option.{option_copied, option_copied_mut};
ghost use Rattle.dm_records.specs.Records.{at};
ghost use Rattle.dm_kernel.specs.Lent.{LendsBoard, LendsManager, LendsProcess};
ghost use Rattle.dm_kernel.specs.State.{board_in, manager_in, process_in};

use dm_link::{MANAGER, Pid};
use dm_migrate::{Arriving, Leaving};
use dm_process::Process;
use dm_procman::ProcMan;
use dm_records::Records;
use dm_resident::Resident;
use dm_switchboard::Switchboard;

/// What is known of each process and of the servers.
type Known = Records<Resident, Leaving, Arriving>;

/// A process that is here.
pub fn process(records: &Known, pid: Pid) -> Option<&Process>
    ensures { option_copied result ≡ process_in (at records.now pid) }
{
    match records.here(pid) {
        Some(resident) => resident.process(),
        None => None,
    }
}

/// The manager, if it is here.
pub fn manager(records: &Known) -> Option<&ProcMan>
    ensures { option_copied result ≡ manager_in (at records.now MANAGER) }
{
    match records.here(MANAGER) {
        Some(resident) => resident.manager(),
        None => None,
    }
}

/// A process that is here, for writing.
pub fn process_mut(records: &mut Known, pid: Pid) -> Option<&mut Process>
    ensures* writes_back { sem 𝓛 (LendsProcess records.entry pid result) }
    ensures value { option_copied_mut result ≡ process_in (at records.old pid) }
{
    match records.here_mut(pid) {
        Some(resident) => resident.process_mut(),
        None => None,
    }
}

/// The switchboard, if that is here under this name, for writing.
pub fn board_mut(records: &mut Known, pid: Pid) -> Option<&mut Switchboard>
    ensures* writes_back { sem 𝓛 (LendsBoard records.entry pid result) }
    ensures value { option_copied_mut result ≡ board_in (at records.old pid) }
{
    match records.here_mut(pid) {
        Some(resident) => resident.board_mut(),
        None => None,
    }
}

/// The manager, if that is here under this name, for writing.
pub fn manager_mut(records: &mut Known, pid: Pid) -> Option<&mut ProcMan>
    ensures* writes_back { sem 𝓛 (LendsManager records.entry pid result) }
    ensures value { option_copied_mut result ≡ manager_in (at records.old pid) }
{
    match records.here_mut(pid) {
        Some(resident) => resident.manager_mut(),
        None => None,
    }
}
