//! The machines.
ghost use Rattle.std.specs.Prelude.{◌≡◌, IfOk};
ghost use Rattle.toml.specs.View.{items_view, view};
ghost use Rattle.dm_boot.specs.Tables.{map_items};
ghost use Rattle.dm_boot.specs.Build.{boot_machine};

use crate::tables::number_at;
use dm_lists::Items;
use dm_memory::NoMemory;
use dm_onekernel::boot::BootMachine;
use std::alloc::Global;
use toml::Value;

/// The machines of these tables.
#[tactic(auto, using(crate::proofs::Elements::map_lemmas))]
pub fn machines_of(alloc: Global, tables: &[Value]) -> Result<Items<BootMachine>, NoMemory>
    ensures { IfOk result (λ ms. ms ≡ map_items boot_machine (items_view tables.now)) }
{
    let mut machines = Items::new(alloc);
    for table in tables {
        machines.push(machine_of(table))?;
    }
    Ok(machines)
}

/// The room of a machine.
#[tactic(auto, unfolding(crate::specs::Build::boot_machine))]
fn machine_of(value: &Value) -> BootMachine
    ensures { result ≡ boot_machine (view value.now) }
{
    BootMachine {
        slots: number_at(value, "slots", 0, 0, 64).unwrap_or(0) as u8,
        blocks: number_at(value, "blocks", 0, 0, 4096).unwrap_or(0) as u16,
    }
}
