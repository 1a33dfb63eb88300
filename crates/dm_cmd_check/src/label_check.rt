//! The command `check` with labels: whether they are steps of one kernel without machines, from a boot file on.
ghost use Rattle.std.specs.Prelude.{◌≡◌, ◌≤◌, ℕ, List, IfErr, IfOk, None, length};
ghost use Rattle.dm_onekernel.specs.declared.boot.Boot.{Boot as TheBoot};
ghost use Rattle.dm_onekernel.specs.Boot.{IsValid};
ghost use Rattle.dm_labels.specs.Judged.{judged};
ghost use Rattle.dm_labels.specs.declared.judge.Verdict.TheVariants as verdict;
ghost use Rattle.dm_front.specs.Firsts.{FirstOfBoot};
ghost use Rattle.dm_front.specs.Asked.{Alone, Both};
ghost use Rattle.dm_front.specs.Inputs.{HasFile};
ghost use Rattle.dm_cmd_check.specs.LabelChecks.{HasLabels, LabelsMeet, LabelsSay, NoLabelBytes, NoLabels, good_labels_line, most_labels};
ghost use Rattle.dm_front.specs.Meets.{MeetsShelf, MeetsSink, status_so_far};
ghost use Rattle.dm_front.specs.Outside.{around, shelf_around, sink_around};
ghost use Rattle.dm_ending.specs.declared.status.Input.TheVariants as input_;

use arrayvec::ArrayString;
use dm_ending::status::{Input, LONGEST_LINE, Status, push_number, words};
use dm_front::inputs::read_system;
use dm_front::read::{ReadError, read_file};
use dm_labels::judge::judge;
use dm_labels::{MOST_TEXT, Verdict};
use dm_onekernel::Boot;
use dm_outside::{Shelf, Sink};
use dm_run::write_all;
use std::alloc::Global;

/// What there is to judge: a system, and the bytes of labels.
#[derive(Drop)]
struct Labelled {
    boot: Boot,
    labels: Vec<u8>,
}

/// Checks that the labels of the second name are steps of one kernel without machines, from the boot file of the first on, and
/// says so.
pub fn check_label_files<F: Shelf, K: Sink>(
    alloc: Global,
    boot: &str,
    labels: &str,
    shelf: &mut F,
    out: &mut K,
    said: &mut Vec<u8>,
) -> Status
    ensures meets { LabelsMeet boot.now labels.now
        (around (shelf_around F.asked F.told F.faults F.last_failed shelf.old shelf.new)
        (sink_around K.told K.faults K.last_failed out.old out.new)) None result }
    ensures said { FirstOfBoot (F.told shelf.old) boot.now result said.new.items }
{
    match read_label_files(alloc, boot, labels, shelf, said) {
        Ok(labelled) => check(alloc, &labelled.boot, labelled.labels.as_slice(), out),
        Err(status) => status,
    }
}

/// The system of the boot file of the first name, and the labels of the second, or why there is nothing to judge.
fn read_label_files<F: Shelf>(
    alloc: Global,
    boot: &str,
    labels: &str,
    shelf: &mut F,
    said: &mut Vec<u8>,
) -> Result<Labelled, Status>
    ensures has { IfOk result (λ l. HasLabels (F.told shelf.old) boot.now labels.now l.boot l.labels.items) }
    ensures valid { IfOk result (λ l. IsValid l.boot) }
    ensures short { IfOk result (λ l. length l.labels.items ≤ MOST_TEXT) }
    ensures none { IfErr result (λ s. NoLabels (F.told shelf.old) boot.now labels.now (F.faults shelf.old) (F.faults shelf.new) s) }
    ensures shelf { MeetsShelf (Both boot.now input_.Labels labels.now)
        (shelf_around F.asked F.told F.faults F.last_failed shelf.old shelf.new) (status_so_far result) }
    ensures said { FirstOfBoot (F.told shelf.old) boot.now (status_so_far result) said.new.items }
{
    let boot = read_system(alloc, boot, shelf, said)?;
    let labels = read_labels(alloc, labels, shelf)?;
    Ok(Labelled { boot, labels })
}

/// The bytes of the labels of this name.
fn read_labels<F: Shelf>(alloc: Global, name: &str, shelf: &mut F) -> Result<Vec<u8>, Status>
    ensures file { IfOk result (λ t. HasFile (F.told shelf.old) name.now most_labels t.items) }
    ensures none { IfErr result (λ s. NoLabelBytes (F.told shelf.old) name.now (F.faults shelf.old) (F.faults shelf.new) s) }
    ensures shelf { MeetsShelf (Alone input_.Labels name.now)
        (shelf_around F.asked F.told F.faults F.last_failed shelf.old shelf.new) (status_so_far result) }
{
    match read_file(alloc, shelf, name, MOST_TEXT as u32) {
        Ok(bytes) => Ok(bytes),
        Err(ReadError::Fault) => Err(Status::ReadFault(Input::Labels)),
        Err(ReadError::NoMemory(no)) => Err(Status::NoMemory(no)),
        Err(ReadError::TooLong) => Err(Status::TooLong(Input::Labels)),
    }
}

/// Judges labels, and says that they are good.
fn check<K: Sink>(alloc: Global, boot: &Boot, labels: &[u8], out: &mut K) -> Status
    requires valid { IsValid boot.now }
    requires short { length labels.now ≤ MOST_TEXT }
    ensures says { LabelsSay boot.now labels.now (K.told out.old) (K.told out.new) result }
    ensures sink { MeetsSink (sink_around K.told K.faults K.last_failed out.old out.new) result }
{
    match judge(alloc, boot, labels) {
        Ok(Verdict::Good { labels }) => say_good(labels, out),
        Ok(Verdict::Refused { line }) => Status::LabelsRefused {
            line: u64::from(line),
        },
        Err(no) => Status::NoMemory(no),
    }
}

/// Says that labels are good.
fn say_good<K: Sink>(labels: u32, out: &mut K) -> Status
    ensures says { (b : TheBoot) (bytes : List ℕ) → judged b bytes ≡ verdict.Good labels →
        LabelsSay b bytes (K.told out.old) (K.told out.new) result }
    ensures sink { MeetsSink (sink_around K.told K.faults K.last_failed out.old out.new) result }
{
    let line = good_line(labels);
    match write_all(out, line.as_bytes()) {
        Ok(()) => Status::Done,
        Err(_) => Status::WriteFault,
    }
}

/// The line of so many good labels, with its line feed.
fn good_line(labels: u32) -> ArrayString<LONGEST_LINE>
    ensures { result.bytes ≡ good_labels_line labels }
{
    let mut line = words("good ");
    push_number(&mut line, u64::from(labels));
    line.push_str(" labels\n");
    line
}
