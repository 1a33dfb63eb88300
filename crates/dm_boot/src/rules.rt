//! The rules that a boot file keeps, and why one gives no system.
ghost use Rattle.std.specs.Prelude.{◌≡◌};
ghost use Rattle.dm_boot.specs.Rules.{rule_number, rule_of};

use dm_memory::NoMemory;
use thiserror::Error;

/// The rule that a boot file breaks, in the order of their numbers.
#[derive(Clone, Copy, Debug)]
pub enum BootRule {
    /// The file is a document.
    Document,
    /// The top table has only its keys, with the right types.
    TopKeys,
    /// `numbers`, `quantum` and `format` are within their limits.
    Settings,
    /// There are 1 to 16 machines.
    MachineCount,
    /// A machine has its keys, with the right types.
    MachineKeys,
    /// A machine has at most 64 slots and 4,096 blocks.
    MachineRoom,
    /// There are at most 256 images.
    ImageCount,
    /// An image has its keys, with the right types.
    ImageKeys,
    /// An image's name is a name that no earlier image has.
    ImageName,
    /// An image has 1 to 256 blocks.
    ImageBlocks,
    /// The assembler takes an image's text.
    ImageText,
    /// An image's bytes fit its blocks.
    ImageBytes,
    /// A process and its links have their keys, with the right types.
    ProcessKeys,
    /// A process's name is a name that no server and no earlier process has.
    ProcessName,
    /// A process's machine is one of the file's.
    ProcessMachine,
    /// A process's image is one of the file's.
    ProcessImage,
    /// A process fits its machine with the earlier ones.
    ProcessRoom,
    /// A process has no more links than its format lets it have.
    LinkCount,
    /// A process's links lead to processes and servers.
    LinkTarget,
    /// The numbers of a process's links are within their limits.
    LinkLimits,
}

impl BootRule {
    /// The number of the rule, 1 to 20.
    #[tactic(auto, unfolding(crate::specs::Rules::rule_number))]
    pub fn number(self) -> u8
        ensures { result ≡ rule_number self }
    {
        match self {
            BootRule::Document => 1,
            BootRule::TopKeys => 2,
            BootRule::Settings => 3,
            BootRule::MachineCount => 4,
            BootRule::MachineKeys => 5,
            BootRule::MachineRoom => 6,
            BootRule::ImageCount => 7,
            BootRule::ImageKeys => 8,
            BootRule::ImageName => 9,
            BootRule::ImageBlocks => 10,
            BootRule::ImageText => 11,
            BootRule::ImageBytes => 12,
            BootRule::ProcessKeys => 13,
            BootRule::ProcessName => 14,
            BootRule::ProcessMachine => 15,
            BootRule::ProcessImage => 16,
            BootRule::ProcessRoom => 17,
            BootRule::LinkCount => 18,
            BootRule::LinkTarget => 19,
            BootRule::LinkLimits => 20,
        }
    }
}

/// A rule that tables alone decide; the others need the images' bytes, or the processes before.
#[derive(Clone, Copy)]
pub enum TableRule {
    TopKeys,
    Settings,
    MachineCount,
    MachineKeys,
    MachineRoom,
    ImageCount,
    ImageKeys,
    ImageName,
    ImageBlocks,
    ProcessKeys,
    ProcessName,
    ProcessMachine,
    ProcessImage,
    LinkCount,
    LinkTarget,
    LinkLimits,
}

impl TableRule {
    /// The rule that it is.
    #[tactic(auto, unfolding(crate::specs::Rules::rule_of))]
    pub fn rule(self) -> BootRule
        ensures { result ≡ rule_of self }
    {
        match self {
            TableRule::TopKeys => BootRule::TopKeys,
            TableRule::Settings => BootRule::Settings,
            TableRule::MachineCount => BootRule::MachineCount,
            TableRule::MachineKeys => BootRule::MachineKeys,
            TableRule::MachineRoom => BootRule::MachineRoom,
            TableRule::ImageCount => BootRule::ImageCount,
            TableRule::ImageKeys => BootRule::ImageKeys,
            TableRule::ImageName => BootRule::ImageName,
            TableRule::ImageBlocks => BootRule::ImageBlocks,
            TableRule::ProcessKeys => BootRule::ProcessKeys,
            TableRule::ProcessName => BootRule::ProcessName,
            TableRule::ProcessMachine => BootRule::ProcessMachine,
            TableRule::ProcessImage => BootRule::ProcessImage,
            TableRule::LinkCount => BootRule::LinkCount,
            TableRule::LinkTarget => BootRule::LinkTarget,
            TableRule::LinkLimits => BootRule::LinkLimits,
        }
    }
}

/// Why a boot file gives no system.
#[derive(Clone, Copy, Debug, Error)]
pub enum BootError {
    /// The first rule that it breaks, and the place of the element that breaks it: its index in its
    /// array, or 0 for the top table.
    #[error("{rule:?} at {place}")]
    Refused { rule: BootRule, place: u64 },
    #[error("no memory")]
    NoMemory(NoMemory),
}
