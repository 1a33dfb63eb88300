//! The rules of a boot file, by what they are of.
ghost use Rattle.std.specs.Prelude.{◌≡◌};
ghost use Rattle.dm_explain.specs.Told.{family_of};

use crate::told::images::{ImageRule, MachineRule};
use crate::told::keys::TopRule;
use crate::told::processes::ProcessRule;
use dm_boot::BootRule;

/// A rule, by what it is of.
#[derive(Clone, Copy)]
pub enum Family {
    /// That there is a document.
    Document,
    Top(TopRule),
    Machine(MachineRule),
    Image(ImageRule),
    Process(ProcessRule),
}

/// What a rule is of.
pub(super) fn family_of(rule: BootRule) -> Family
    ensures { result ≡ family_of rule }
{
    match rule {
        BootRule::Document => Family::Document,
        BootRule::TopKeys => Family::Top(TopRule::Keys),
        BootRule::Settings => Family::Top(TopRule::Settings),
        BootRule::MachineCount => Family::Top(TopRule::Machines),
        BootRule::MachineKeys => Family::Machine(MachineRule::Keys),
        BootRule::MachineRoom => Family::Machine(MachineRule::Room),
        BootRule::ImageCount => Family::Top(TopRule::Images),
        BootRule::ImageKeys => Family::Image(ImageRule::Keys),
        BootRule::ImageName => Family::Image(ImageRule::Name),
        BootRule::ImageBlocks => Family::Image(ImageRule::Blocks),
        BootRule::ImageText => Family::Image(ImageRule::Text),
        BootRule::ImageBytes => Family::Image(ImageRule::Bytes),
        BootRule::ProcessKeys => Family::Process(ProcessRule::Keys),
        BootRule::ProcessName => Family::Process(ProcessRule::Name),
        BootRule::ProcessMachine => Family::Process(ProcessRule::Machine),
        BootRule::ProcessImage => Family::Process(ProcessRule::Image),
        BootRule::ProcessRoom => Family::Process(ProcessRule::Room),
        BootRule::LinkCount => Family::Process(ProcessRule::LinkCount),
        BootRule::LinkTarget => Family::Process(ProcessRule::LinkTarget),
        BootRule::LinkLimits => Family::Process(ProcessRule::LinkLimits),
    }
}
