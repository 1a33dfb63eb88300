//! The judge.
ghost use Rattle.std.specs.Prelude.{◌≡◌, ◌≤◌, ◌<◌, ◌+◌, IfOk, OnOk, Some, length};
ghost use Rattle.dm_onekernel.specs.Boot.{IsValid};
ghost use Rattle.dm_replay.specs.Answers.{Gives};
ghost use Rattle.dm_replay.specs.Sound.{IsOf, IsSound};
ghost use Rattle.dm_replay.specs.State.{one_kernel};
ghost use Rattle.dm_labels.specs.Judged.{judged, labels_in, line_step};

use crate::read::{is_skipped, label_of};
use dm_memory::NoMemory;
use dm_onekernel::Boot;
use dm_reading::first_source_line;
use dm_replay::{Kernel, MOST_LABELS, Refusal};
use std::alloc::Global;

/// How many bytes a text of labels has at most: a label has more than one.
pub const MOST_TEXT: usize = MOST_LABELS as usize;

/// What labels come to.
#[derive(Clone, Copy)]
pub enum Verdict {
    /// All are steps, so many.
    Good { labels: u32 },
    /// The first line, counted from 1, that is no label, or whose label is no step.
    Refused { line: u32 },
}

/// Judges labels.
///
/// # Errors
///
/// There is no memory.
pub fn judge(alloc: Global, boot: &Boot, text: &[u8]) -> Result<Verdict, NoMemory>
    requires valid { IsValid boot.now }
    requires short { length text.now ≤ MOST_TEXT }
    ensures { IfOk result (λ v. v ≡ judged boot.now text.now) }
{
    let mut kernel = Kernel::start(alloc, boot)?;
    let mut rest = text;
    let mut line = 1;
    while !rest.is_empty() {
        let (first, behind) = first_source_line(rest);
        match take_line(&mut kernel, boot, first) {
            Ok(()) => {}
            Err(Refusal::NoStep) => return Ok(Verdict::Refused { line }),
            Err(Refusal::NoMemory(none)) => return Err(none),
        }
        line += 1;
        rest = behind;
    }
    Ok(Verdict::Good {
        labels: kernel.labels(),
    })
}

/// Takes the label of a line, if it says one.
fn take_line(kernel: &mut Kernel, boot: &Boot, line: &[u8]) -> Result<(), Refusal>
    requires valid { IsValid boot.now }
    requires of { IsOf boot.now kernel.old }
    requires sound { IsSound kernel.old.labels kernel.old }
    requires room { kernel.old.labels < MOST_LABELS }
    ensures gives { Gives result (λ _. Some (one_kernel boot.now kernel.new)) (line_step (one_kernel boot.now kernel.old) line.now) }
    ensures of { OnOk result (IsOf boot.now kernel.new) }
    ensures sound { OnOk result (IsSound kernel.new.labels kernel.new) }
    ensures counted { OnOk result (kernel.new.labels ≡ kernel.old.labels + labels_in line.now) }
{
    if is_skipped(line) {
        return Ok(());
    }
    match label_of(line) {
        Some(label) => kernel.apply(boot, label),
        None => Err(Refusal::NoStep),
    }
}
