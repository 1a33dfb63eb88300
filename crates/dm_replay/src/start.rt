//! The kernel as the boot file has it.
ghost use Rattle.std.specs.Prelude.{◌≡◌, ◌+◌, ◌<◌, ◌≤◌, [], IfOk, OnOk, Some, length, map, slice_get, slice_index, true};
ghost use Rattle.std.specs.List.{All};
ghost use Rattle.dm_link.specs.Lawful.{IsLawfulEnclosed};
ghost use Rattle.dm_link.specs.Plain.{plain_link};
ghost use Rattle.dm_onekernel.specs.Boot.{IsValid, images_are_valid, slots_of};
ghost use Rattle.dm_onekernel.specs.Service.{with_created};
ghost use Rattle.dm_onekernel.specs.Start.{start};
ghost use Rattle.dm_onekernel.specs.declared.boot.BootImage.{BootImage};
ghost use Rattle.dm_replay.specs.Begun.{started};
ghost use Rattle.dm_replay.specs.Steps.{Stays};
ghost use Rattle.dm_replay.specs.Sound.{IsOf, IsSound, first_count};
ghost use Rattle.dm_replay.specs.State.{one_kernel};

use crate::by_name::ByName;
use crate::kernel::Kernel;
use crate::life::Lives;
use dm_link::MACHINES;
use dm_memory::NoMemory;
use dm_onekernel::{Boot, BootProcess};
use dm_procman::ProcMan;
use dm_switchboard::Switchboard;
use std::alloc::Global;
use std::collections::BTreeMap;

impl Kernel {
    /// The kernel before the first label: the processes of the boot file, and no message.
    pub fn start(alloc: Global, boot: &Boot) -> Result<Kernel, NoMemory>
        requires valid { IsValid boot.now }
        ensures state { IfOk result (λ k. one_kernel boot.now k ≡ start boot.now) }
        ensures sound { IfOk result (λ k. IsSound k.labels k) }
        ensures of { IfOk result (IsOf boot.now) }
        ensures labels { IfOk result (λ k. k.labels ≡ 0) }
    {
        let mut kernel = Kernel::empty(alloc, boot)?;
        let processes = boot.processes.as_slice();
        let mut left = processes.len();
        // The last first, so that the others are what is left of the list.
        while left > 0 {
            left -= 1;
            kernel.begin(boot, &processes[left])?;
        }
        Ok(kernel)
    }

    /// The kernel without any process.
    fn empty(alloc: Global, boot: &Boot) -> Result<Kernel, NoMemory>
        requires valid { IsValid boot.now }
        ensures state { IfOk result (λ k. one_kernel boot.now k ≡ started boot.now []) }
        ensures sound { IfOk result (λ k. IsSound 0 k) }
        ensures of { IfOk result (IsOf boot.now) }
        ensures labels { IfOk result (λ k. k.labels ≡ 0) }
    {
        Ok(Kernel {
            alloc,
            processes: Lives::new(alloc),
            made: [0; MACHINES as usize],
            bag: ByName::new(alloc),
            notes: BTreeMap::new(alloc),
            noted: ByName::new(alloc),
            board: Switchboard::new(alloc),
            manager: ProcMan::new(alloc, boot)?,
            labels: 0,
        })
    }

    /// A process of the boot file begins.
    fn begin(&mut self, boot: &Boot, process: &BootProcess) -> Result<(), NoMemory>
        requires home { process.now.pid.home < MACHINES }
        requires counts { slice_index self.old.made process.now.pid.home < u32.MAX }
        requires images { images_are_valid boot.now.images ≡ true }
        requires image { process.now.image < length boot.now.images }
        requires links { length process.now.links ≤ slots_of boot.now.format }
        ensures state { OnOk result ((i : BootImage) → slice_get boot.now.images process.now.image ≡ Some i →
            one_kernel boot.now self.new ≡ with_created (one_kernel boot.now self.old) process.now.pid i (map plain_link process.now.links)) }
        ensures sound { (n : _) → IsSound n self.old → All IsLawfulEnclosed process.now.links → slice_index self.old.made process.now.pid.home < first_count + n → OnOk result (IsSound n self.new) }
        ensures stays { OnOk result (Stays self.old self.new) }
    {
        let image = &boot.images.as_slice()[usize::from(process.image)];
        self.stand(boot, process.pid, image, process.links.as_slice())
    }
}
