//! A machine as the boot file has it.
ghost use Rattle.std.specs.Prelude.{◌≡◌, ◌<◌, ◌≤◌, ◌==◌, if◌then◌else◌, IfOk, OnOk, length, slice_get, true};
ghost use Rattle.dm_onekernel.specs.Boot.{IsValid, blocks_of_image, images_are_valid, slots_of};
ghost use Rattle.dm_room.specs.Room.{HasRoom};
ghost use Rattle.dm_kernel.specs.Begun.{bare, begins_process, empty, opened, with_servers};
ghost use Rattle.dm_kernel.specs.Idle.{KnowsIdle};
ghost use Rattle.dm_kernel.specs.Meets.{IsIn, kernel_state};

use crate::kernel::Kernel;
use crate::make::image_of;
use dm_link::{MANAGER, SWITCHBOARD};
use dm_lists::Queue;
use dm_memory::NoMemory;
use dm_onekernel::{Boot, BootProcess, child_of};
use dm_procman::ProcMan;
use dm_records::{Record, Records};
use dm_resident::Resident;
use dm_room::Room;
use dm_switchboard::Switchboard;
use std::alloc::Global;

impl Kernel {
    /// The kernel of a machine of the boot file, with the processes whose home it is; machine 0 has the servers.
    pub fn new(alloc: Global, boot: &Boot, here: u8) -> Result<Kernel, NoMemory>
        requires valid { IsValid boot.now }
        requires here { here < length boot.now.machines }
        ensures state { IfOk result (λ k. IsIn k (opened boot.now here)) }
        ensures idle { IfOk result (λ k. KnowsIdle k) }
    {
        let mut kernel = Kernel::empty(alloc, boot, here)?;
        for process in boot.processes.as_slice() {
            kernel.begin(boot, process)?;
        }
        // None of them was looked at yet.
        kernel.idle = 0;
        Ok(kernel)
    }

    /// The kernel of a machine of the boot file, without any process.
    fn empty(alloc: Global, boot: &Boot, here: u8) -> Result<Kernel, NoMemory>
        requires valid { IsValid boot.now }
        requires here { here < length boot.now.machines }
        ensures { IfOk result (λ k. IsIn k (empty boot.now here)) }
    {
        let mut kernel = Kernel::bare(alloc, boot, here);
        kernel.begin_servers(boot)?;
        Ok(kernel)
    }

    /// The kernel of a machine of the boot file, without any process and without the servers. It takes no memory.
    fn bare(alloc: Global, boot: &Boot, here: u8) -> Kernel
        requires { here < length boot.now.machines }
        ensures { IsIn result (bare boot.now here) }
    {
        let machine = &boot.machines.as_slice()[usize::from(here)];
        Kernel {
            alloc,
            here,
            records: Records::new(alloc),
            ring: Queue::new(alloc),
            idle: 0,
            inbox: Queue::new(alloc),
            made: 0,
            sent: 0,
            room: Room::new(machine.slots, machine.blocks),
            over: None,
        }
    }

    /// Begins the servers, if this is machine 0.
    fn begin_servers(&mut self, boot: &Boot) -> Result<(), NoMemory>
        requires { IsValid boot.now }
        ensures { OnOk result (IsIn self.new (if self.old.here == 0 then with_servers boot.now (kernel_state self.old) else kernel_state self.old)) }
    {
        if self.here != 0 {
            return Ok(());
        }
        self.place_servers(boot)
    }

    /// The servers are here.
    fn place_servers(&mut self, boot: &Boot) -> Result<(), NoMemory>
        requires { IsValid boot.now }
        ensures { OnOk result (IsIn self.new (with_servers boot.now (kernel_state self.old))) }
    {
        let board = Resident::Board(Switchboard::new(self.alloc));
        self.set_known(SWITCHBOARD, Record::Here(board))?;
        let manager = Resident::Manager(ProcMan::new(self.alloc, boot)?);
        self.set_known(MANAGER, Record::Here(manager))
    }

    /// Begins a process of the boot file, if this is its home.
    fn begin(&mut self, boot: &Boot, process: &BootProcess) -> Result<(), NoMemory>
        requires images { images_are_valid boot.now.images ≡ true }
        requires image { process.now.image < length boot.now.images }
        requires links { length process.now.links ≤ slots_of boot.now.format }
        requires room { process.now.pid.home ≡ self.old.here → HasRoom self.old.room (blocks_of_image (slice_get boot.now.images process.now.image)) }
        requires counts { self.old.made < u32.MAX }
        ensures { OnOk result (IsIn self.new (begins_process boot.now (kernel_state self.old) process.now (slice_get boot.now.images process.now.image))) }
    {
        if process.pid.home != self.here {
            return Ok(());
        }
        let image = image_of(boot, process.image);
        self.room.reserve(image.blocks).unwrap();
        let child = child_of(
            self.alloc,
            boot,
            process.pid,
            image,
            process.links.as_slice(),
        )?;
        self.stand(process.pid, child)
    }
}
