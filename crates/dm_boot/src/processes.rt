//! The processes with their names and links.
ghost use Rattle.std.specs.Prelude.{◌≡◌, ◌≤◌, IfOk, codes, length};
ghost use Rattle.toml.specs.View.{view};
ghost use Rattle.dm_boot.specs.Tables.{count, text_at};
ghost use Rattle.dm_boot.specs.Build.{linked_all, process_tables};
ghost use Rattle.dm_boot.specs.Sound.{all_sound};

use crate::MOST_PROCESSES;
use crate::document::Document;
use crate::links::links_of;
use crate::tables::{items_at, text_at};
use dm_lists::Items;
use dm_memory::{NoMemory, from_slice, push, with_room_for};
use dm_onekernel::boot::BootProcess;
use std::alloc::Global;
use toml::Value;

/// The processes, and whether the tables of all their links are sound.
#[derive(Drop)]
pub struct ReadProcesses {
    pub processes: Items<BootProcess>,
    pub sound: bool,
}

/// These processes, each with the name and the links of its table.
pub fn processes_of(
    alloc: Global,
    document: &Document<'_>,
    starts: &[BootProcess],
) -> Result<ReadProcesses, NoMemory>
    requires few { count (process_tables (view document.now.top.now)) ≤ MOST_PROCESSES }
    requires many { length starts.now ≡ count (process_tables (view document.now.top.now)) }
    ensures sound { IfOk result (λ read. read.sound ≡ all_sound (view document.now.top.now)) }
    ensures processes { IfOk result (λ read. read.processes ≡
        linked_all (view document.now.top.now) starts.now starts.now (process_tables (view document.now.top.now))) }
{
    let tables = items_at(document.top, "process");
    let mut processes = with_room_for(alloc, starts)?;
    let mut sound = true;
    for (i, start) in starts.iter().enumerate() {
        let table = &tables[i];
        let name = name_of(alloc, table)?;
        let read = links_of(alloc, document, starts, table)?;
        sound = sound && read.sound;
        push(
            &mut processes,
            BootProcess {
                pid: start.pid,
                name,
                image: start.image,
                links: read.links,
            },
        )?;
    }
    Ok(ReadProcesses {
        processes: Items::from_vec(processes),
        sound,
    })
}

/// The name in the table of a process.
fn name_of(alloc: Global, table: &Value) -> Result<Items<u8>, NoMemory>
    ensures { IfOk result (λ name. name ≡ text_at (codes "name") (view table.now)) }
{
    let name = from_slice(alloc, text_at(table, "name").as_bytes())?;
    Ok(Items::from_vec(name))
}
