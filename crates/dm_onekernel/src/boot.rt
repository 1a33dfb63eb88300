//! What a system starts with.
ghost use Rattle.std.specs.Prelude.{◌≡◌};
ghost use Rattle.dm_onekernel.specs.Boot.{body_of, slots_of};

use dm_link::{Link, Pid};
use dm_lists::Items;

/// Which limits hold.
#[derive(Clone, Copy)]
pub enum Format {
    /// 32 link slots for a process, 64 bytes in a message.
    One,
    /// 128 link slots, 256 bytes.
    Two,
}

impl Format {
    /// The link slots of a process.
    pub fn slots(self) -> u8
        ensures { result ≡ slots_of self }
    {
        match self {
            Format::One => 32,
            Format::Two => 128,
        }
    }

    /// The greatest length of a message's body, in bytes.
    pub fn body(self) -> u32
        ensures { result ≡ body_of self }
    {
        match self {
            Format::One => 64,
            Format::Two => 256,
        }
    }
}

/// The room of a machine.
#[derive(Clone, Copy)]
pub struct BootMachine {
    /// How many processes, 0 to 64.
    pub slots: u8,
    /// How many blocks of 256 bytes, 0 to 4,096.
    pub blocks: u16,
}

/// What the memory of a process starts with: these bytes, then zeros.
#[derive(Drop)]
pub struct BootImage {
    pub bytes: Items<u8>,
    /// The size of the memory in blocks of 256 bytes, 1 to 256.
    pub blocks: u16,
}

/// A process that is there from the start, on its home machine.
#[derive(Drop)]
pub struct BootProcess {
    pub pid: Pid,
    /// Its name in the boot file: empty where there is none. No rule asks for it.
    pub name: Items<u8>,
    /// Its place among the images, from 0.
    pub image: u16,
    /// Its links, from slot 0 on.
    pub links: Items<Link>,
}

/// What a boot file says.
#[derive(Drop)]
pub struct Boot {
    /// The greatest number of messages that a pair of machines may count, 1 to 1,048,576.
    pub numbers: u32,
    /// The greatest number of plain instructions in a turn, 1 to 1,000.
    pub quantum: u32,
    pub format: Format,
    pub machines: Items<BootMachine>,
    pub images: Items<BootImage>,
    /// In the order of the file.
    pub processes: Items<BootProcess>,
}
