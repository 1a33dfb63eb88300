//! How a process is made of an image.
ghost use Rattle.std.specs.Prelude.{◌≡◌, ◌≤◌, ◌⊎◌, IfOk, length, true};
ghost use Rattle.dm_onekernel.specs.Boot.{image_is_valid, slots_of};
ghost use Rattle.dm_onekernel.specs.Child.{child_of};
ghost use Rattle.dm_onekernel.specs.Start.{slots_with};

use crate::boot::{Boot, BootImage};
use dm_link::{Link, Pid};
use dm_linktable::{FEW_SLOTS, MOST_SLOTS, Table};
use dm_memory::NoMemory;
use dm_process::Process;
use std::alloc::Global;

/// A process of an image with these links from slot 0 on, which hasn't executed anything yet.
pub fn child_of(
    alloc: Global,
    boot: &Boot,
    pid: Pid,
    image: &BootImage,
    links: &[Link],
) -> Result<Process, NoMemory>
    requires image { image_is_valid image.now ≡ true }
    requires links { length links.now ≤ slots_of boot.now.format }
    ensures { IfOk result (λ x. x ≡ child_of boot.now pid image.now links.now) }
{
    let table = table_of(alloc, links, boot.format.slots())?;
    let bytes = image.bytes.as_slice();
    Ok(Process::new(alloc, pid, bytes, image.blocks, table)?)
}

/// A table with these links from slot 0 on.
fn table_of(alloc: Global, links: &[Link], slots: u8) -> Result<Table, NoMemory>
    requires slots { (slots ≡ FEW_SLOTS) ⊎ (slots ≡ MOST_SLOTS) }
    requires fits { length links.now ≤ slots }
    ensures { IfOk result (λ table. table ≡ slots_with slots links.now) }
{
    let mut table = Table::new(alloc, slots)?;
    for link in links {
        table.put(*link).unwrap();
    }
    Ok(table)
}
