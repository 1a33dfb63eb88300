//! What processes take of their machines.
ghost use Rattle.std.specs.Prelude.{◌≡◌, ◌+◌, ◌<◌, ◌≤◌, replicate, slice_index, slice_set};

use dm_link::MACHINES;

/// How many slots and blocks of each machine are taken.
#[derive(Clone, Copy)]
pub struct Taken {
    slots: [u32; MACHINES as usize],
    blocks: [u32; MACHINES as usize],
}

impl Taken {
    /// Nothing is taken.
    pub fn new() -> Taken
        ensures slots { result.slots ≡ replicate MACHINES 0 }
        ensures blocks { result.blocks ≡ replicate MACHINES 0 }
    {
        Taken {
            slots: [0; MACHINES as usize],
            blocks: [0; MACHINES as usize],
        }
    }

    /// The slots that are taken on a machine.
    pub fn slots(&self, machine: u8) -> u32
        requires { machine < MACHINES }
        ensures { result ≡ slice_index self.now.slots machine }
    {
        self.slots[usize::from(machine)]
    }

    /// The blocks that are taken on a machine.
    pub fn blocks(&self, machine: u8) -> u32
        requires { machine < MACHINES }
        ensures { result ≡ slice_index self.now.blocks machine }
    {
        self.blocks[usize::from(machine)]
    }

    /// Takes one slot more of a machine, and so many blocks.
    pub fn add(&mut self, machine: u8, blocks: u32)
        requires machine { machine < MACHINES }
        requires slots { slice_index self.old.slots machine ≤ 255 }
        requires blocks { slice_index self.old.blocks machine + blocks ≤ 65535 }
        ensures slots { self.new.slots ≡ slice_set self.old.slots machine (slice_index self.old.slots machine + 1) }
        ensures blocks { self.new.blocks ≡ slice_set self.old.blocks machine (slice_index self.old.blocks machine + blocks) }
    {
        let place = usize::from(machine);
        self.slots[place] += 1;
        self.blocks[place] += blocks;
    }
}
