//! The system of a drill.
ghost use Rattle.std.specs.Prelude.{◌≡◌, ◌≤◌, ◌<◌, ◌*◌, ◌∷◌, [], IfOk, length};
ghost use Rattle.dm_onekernel.specs.Boot.{IsValid};
ghost use Rattle.dm_draw.specs.Boot.{boot_of_machines, first_processes, image, link_to_process, pid_at, process_at, small_machines};

use dm_link::{Addr, Area, FIRST_NUMBER, Kind, Link, MACHINES, Pid};
use dm_lists::Items;
use dm_memory::{NoMemory, from_slice};
use dm_onekernel::Boot;
use dm_onekernel::boot::{BootImage, BootMachine, BootProcess, Format};
use std::alloc::Global;

/// The program of all processes: it sends over link 0, receives, moves data over link 1, and goes round.
const PROGRAM: [u8; 60] = [
    1, 1, 0, 0, 1, 3, 0, 4, 1, 4, 0, 0, 20, 0, 0, 6, 1, 1, 0, 1, 1, 2, 0, 200, 1, 3, 0, 8, 20, 0,
    0, 7, 1, 1, 0, 1, 1, 2, 0, 0, 1, 3, 0, 0, 1, 4, 0, 240, 1, 5, 0, 8, 20, 0, 0, 8, 16, 0, 0, 0,
];

/// The system of so many machines, 2 to 16.
#[tactic(auto, unfolding(crate::specs::Boot::boot_of_machines))]
pub fn drill_boot(alloc: Global, machines: u8) -> Result<Boot, NoMemory>
    requires { (2 ≤ machines) × (machines ≤ MACHINES) }
    ensures boot { IfOk result (λ b. b ≡ boot_of_machines machines) }
    ensures valid { IfOk result IsValid }
    ensures machines { IfOk result (λ b. length b.machines ≡ machines) }
{
    Ok(Boot {
        numbers: 1_048_576,
        quantum: 16,
        format: Format::One,
        machines: machines_of(alloc, machines)?,
        images: images_of(alloc)?,
        processes: processes_of(alloc, machines)?,
    })
}

/// Machines with room for three processes of one block.
fn machines_of(alloc: Global, machines: u8) -> Result<Items<BootMachine>, NoMemory>
    ensures { IfOk result (λ items. items ≡ small_machines machines) }
{
    let mut items = Items::new(alloc);
    for _ in 0..machines {
        items.push(BootMachine {
            slots: 3,
            blocks: 3,
        })?;
    }
    Ok(items)
}

/// The one program, in a memory of one block.
fn images_of(alloc: Global) -> Result<Items<BootImage>, NoMemory>
    ensures { IfOk result (λ images. images ≡ image ∷ []) }
{
    let bytes = Items::from_vec(from_slice(alloc, &PROGRAM)?);
    let mut images = Items::new(alloc);
    images.push(BootImage { bytes, blocks: 1 })?;
    Ok(images)
}

/// Two processes a machine, one after another round the machines.
fn processes_of(alloc: Global, machines: u8) -> Result<Items<BootProcess>, NoMemory>
    requires { (2 ≤ machines) × (machines ≤ MACHINES) }
    ensures { IfOk result (λ items. items ≡ first_processes machines (2 * machines)) }
{
    let mut items = Items::new(alloc);
    for i in 0..2 * machines {
        items.push(process_at(alloc, machines, i)?)?;
    }
    Ok(items)
}

/// A process with its two links.
fn process_at(alloc: Global, machines: u8, i: u8) -> Result<BootProcess, NoMemory>
    requires machines { (2 ≤ machines) × (machines ≤ MACHINES) }
    requires within { i < 2 * machines }
    ensures { IfOk result (λ p. p ≡ process_at machines i) }
{
    let mut links = Items::new(alloc);
    links.push(link_to(machines, (i + 1) % (2 * machines), u32::from(i), 0, 0))?;
    links.push(link_to(machines, (i + machines) % (2 * machines), 0, 192, 16))?;
    Ok(BootProcess {
        pid: pid_at(machines, i),
        name: Items::new(alloc),
        image: 0,
        links,
    })
}

/// The name of process `i`.
fn pid_at(machines: u8, i: u8) -> Pid
    requires { 0 < machines }
    ensures { result ≡ pid_at machines i }
{
    Pid {
        home: i % machines,
        num: FIRST_NUMBER + u32::from(i / machines),
    }
}

/// A link to process `i`, with a code, to an area that may be read where it has a byte.
fn link_to(machines: u8, i: u8, code: u32, base: u32, len: u32) -> Link
    requires { 0 < machines }
    ensures { result ≡ link_to_process machines i code base len }
{
    Link {
        addr: Addr {
            pid: pid_at(machines, i),
            at: i % machines,
            moves: 0,
        },
        kind: Kind::General,
        to_kernel: false,
        code,
        channel: 0,
        area: Area {
            base,
            len,
            read: len != 0,
            write: false,
        },
    }
}
