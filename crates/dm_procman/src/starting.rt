//! The manager at the start of a system.
ghost use Rattle.std.specs.Prelude.{◌≡◌, IfOk, map};
ghost use Rattle.dm_procman.specs.Managing.{child_at_home};

use crate::children::Children;
use dm_link::Addr;
use dm_memory::NoMemory;
use dm_onekernel::Boot;
use std::alloc::Global;

/// Where the processes of the boot file start, in its order.
pub fn children_of(alloc: Global, boot: &Boot) -> Result<Children, NoMemory>
    ensures { IfOk result (λ children. children ≡ map child_at_home boot.now.processes) }
{
    let mut children = Children::new(alloc);
    for process in boot.processes.as_slice() {
        let child = Addr {
            pid: process.pid,
            at: process.pid.home,
            moves: 0,
        };
        children.push(child)?;
    }
    Ok(children)
}
