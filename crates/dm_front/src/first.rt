//! What is said of a boot file or a schedule that is refused, before the line of the status: what `explain` says first of it.
ghost use Rattle.std.specs.Prelude.{◌≡◌, ◌++◌, Err, IfOk, length};
ghost use Rattle.std.specs.List.{position};
ghost use Rattle.dm_boot.specs.Boot.{boot_of};
ghost use Rattle.dm_front.specs.Firsts.{FirstTold, boot_text, first_line, schedule_text};
ghost use Rattle.dm_explain.specs.Explained.{TellsRefused};
ghost use Rattle.dm_explain.specs.Naming.{name_told};
ghost use Rattle.dm_explain.specs.Schedules.{line_told};
ghost use Rattle.dm_onekernel.specs.Boot.{IsValid};
ghost use Rattle.dm_reading.specs.Lines.{ends_line};
ghost use Rattle.dm_schedule.specs.Schedule.{Refused, directives_of};

use dm_boot::BootRule;
use dm_explain::{BootTold, ScheduleTold, explain_boot, explain_name, explain_schedule};
use dm_memory::{NoMemory, extend_from_slice};
use dm_onekernel::Boot;
use dm_schedule::LineFault;
use std::alloc::Global;

/// The first line of what is said of a boot file that breaks this rule, at the element of this place.
pub(crate) fn first_of_boot(
    alloc: Global,
    bytes: &[u8],
    rule: BootRule,
    place: u64,
) -> Result<Vec<u8>, NoMemory>
    requires { boot_of bytes.now ≡ Err (rule, place) }
    ensures { IfOk result (λ said. FirstTold (λ text. TellsRefused bytes.now rule place text) said.items) }
{
    let told = explain_boot(alloc, bytes)?;
    Ok(first_line(boot_text(told)))
}

/// The first line of what is said of a schedule that is refused at this line, for this system, and whose name stands where a process's
/// number must.
pub(crate) fn first_of_schedule(
    alloc: Global,
    boot: &Boot,
    bytes: &[u8],
    line: u64,
    fault: LineFault,
) -> Result<Vec<u8>, NoMemory>
    requires valid { IsValid boot.now }
    requires refused { directives_of bytes.now (length boot.now.machines) ≡ Refused line fault }
    ensures { IfOk result (λ said. said.items ≡
        first_line (line_told bytes.now (length boot.now.machines) line fault) ++ name_told boot.now bytes.now line fault) }
{
    let machines = boot.machines.len() as u8;
    let mut said = first_of_line(alloc, bytes, machines, line, fault)?;
    let name = explain_name(alloc, boot, bytes, line, fault)?;
    extend_from_slice(&mut said, name.as_slice())?;
    Ok(said)
}

/// The first line of what is said of a schedule for so many machines that is refused at this line.
fn first_of_line(
    alloc: Global,
    bytes: &[u8],
    machines: u8,
    line: u64,
    fault: LineFault,
) -> Result<Vec<u8>, NoMemory>
    requires { directives_of bytes.now machines ≡ Refused line fault }
    ensures { IfOk result (λ said. said.items ≡ first_line (line_told bytes.now machines line fault)) }
{
    let told = explain_schedule(alloc, bytes, machines)?;
    Ok(first_line(schedule_text(told)))
}

/// What is said of a boot file.
fn boot_text(told: BootTold) -> Vec<u8>
    ensures { result.items ≡ boot_text told }
{
    match told {
        BootTold::System { text, .. } => text,
        BootTold::Refused { text, .. } => text,
    }
}

/// What is said of a schedule.
fn schedule_text(told: ScheduleTold) -> Vec<u8>
    ensures { result.items ≡ schedule_text told }
{
    match told {
        ScheduleTold::Directives { text, .. } => text,
        ScheduleTold::Refused { text, .. } => text,
    }
}

/// The first line of a text, with its line feed.
#[tactic(auto, unfolding(crate::specs::Firsts::first_line))]
fn first_line(text: Vec<u8>) -> Vec<u8>
    ensures { result.items ≡ first_line text.items }
{
    let mut line = text;
    if let Some(end) = line_end(line.as_slice()) {
        line.truncate(end + 1);
    }
    line
}

/// Where the first line of a text ends.
fn line_end(text: &[u8]) -> Option<usize>
    ensures { result ≡ position ends_line text.now }
{
    text.iter().position(|c| *c == b'\n')
}
