//! The system of a document's top table.
ghost use Rattle.std.specs.Prelude.{◌≡◌, ◌≤◌, ◌++◌, None, OnOk, map};
ghost use Rattle.toml.specs.View.{view};
ghost use Rattle.dm_boot.specs.Before.{before_images};
ghost use Rattle.dm_boot.specs.Tables.{count};
ghost use Rattle.dm_boot.specs.Build.{image_tables, images_of, machines_of, process_tables, processes_of, starts_of, system_with};
ghost use Rattle.dm_boot.specs.Rules.{first_broken, image_rules, link_rules, process_rules, rule_of};
ghost use Rattle.dm_boot.specs.Sound.{all_sound};
ghost use Rattle.dm_boot.specs.Boot.{Answers, boot_of_table, unless};

use crate::checks::first_broken;
use crate::document::Document;
use crate::images::{first_long, images_of};
use crate::limits::{format_of, numbers_of, quantum_of};
use crate::machines::machines_of;
use crate::processes::processes_of;
use crate::rules::{BootError, BootRule, TableRule};
use crate::starts::starts_of;
use crate::tables::items_at;
use crate::{MOST_IMAGES, MOST_PROCESSES};
use dm_lists::Items;
use dm_onekernel::boot::{Boot, BootImage, BootMachine, BootProcess};
use std::alloc::Global;
use toml::Value;

/// The system of the top table, or the first rule that it breaks.
pub fn system_of(alloc: Global, top: &Value) -> Result<Boot, BootError>
    ensures { Answers (boot_of_table (view top.now)) result }
{
    match Document::new(alloc, top) {
        Ok(document) => read_system(alloc, &document),
        Err(none) => Err(BootError::NoMemory(none)),
    }
}

/// The system of a document, or the first rule that it breaks.
fn read_system(alloc: Global, document: &Document<'_>) -> Result<Boot, BootError>
    ensures { Answers (boot_of_table (view document.now.top.now)) result }
{
    match read_images(alloc, document) {
        Ok(images) => system_of_images(alloc, document, images),
        Err(e) => Err(e),
    }
}

/// The system of a document with these images, of which none breaks a rule.
fn system_of_images(
    alloc: Global,
    document: &Document<'_>,
    images: Items<BootImage>,
) -> Result<Boot, BootError>
    requires none { first_broken image_rules (view document.now.top.now) ≡ None }
    requires images { images ≡ images_of (view document.now.top.now) }
    requires few { count (image_tables (view document.now.top.now)) ≤ MOST_IMAGES }
    ensures { Answers (boot_of_table (view document.now.top.now)) result }
{
    let machines = match machines_of(alloc, items_at(document.top, "machine")) {
        Ok(machines) => machines,
        Err(none) => return Err(BootError::NoMemory(none)),
    };
    match read_linked(alloc, document, machines.as_slice(), images.as_slice()) {
        Ok(processes) => Ok(system_with(document.top, machines, images, processes)),
        Err(e) => Err(e),
    }
}

/// The processes with their links, where no rule of processes and none of links is broken.
fn read_linked(
    alloc: Global,
    document: &Document<'_>,
    machines: &[BootMachine],
    images: &[BootImage],
) -> Result<Items<BootProcess>, BootError>
    requires machines { machines.now ≡ machines_of (view document.now.top.now) }
    requires images { images.now ≡ images_of (view document.now.top.now) }
    requires few { count (image_tables (view document.now.top.now)) ≤ MOST_IMAGES }
    ensures { Answers (unless (first_broken (process_rules ++ link_rules) (view document.now.top.now)) (processes_of (view document.now.top.now))) result }
{
    match read_starts(alloc, document, machines, images) {
        Ok(starts) => read_processes(alloc, document, starts.as_slice()),
        Err(e) => Err(e),
    }
}

/// A system with these machines, images and processes.
#[tactic(auto, unfolding(crate::specs::Build::system_with))]
fn system_with(
    top: &Value,
    machines: Items<BootMachine>,
    images: Items<BootImage>,
    processes: Items<BootProcess>,
) -> Boot
    ensures { result ≡ system_with (view top.now) machines images processes }
{
    Boot {
        numbers: numbers_of(top).unwrap_or(0),
        quantum: quantum_of(top).unwrap_or(0),
        format: format_of(top),
        machines,
        images,
        processes,
    }
}

/// The rules before those of the images' texts and bytes, in the order in which they are tested.
#[tactic(auto, unfolding(crate::specs::Rules::rule_of))]
fn before_images() -> [TableRule; 9]
    ensures { map rule_of result ≡ before_images }
{
    [
        TableRule::TopKeys,
        TableRule::Settings,
        TableRule::MachineCount,
        TableRule::MachineKeys,
        TableRule::MachineRoom,
        TableRule::ImageCount,
        TableRule::ImageKeys,
        TableRule::ImageName,
        TableRule::ImageBlocks,
    ]
}

/// The images, where no rule before those of the processes is broken.
#[tactic(auto, unfolding(crate::specs::Rules::rule_of))]
fn read_images(alloc: Global, document: &Document<'_>) -> Result<Items<BootImage>, BootError>
    ensures images { Answers (unless (first_broken image_rules (view document.now.top.now)) (images_of (view document.now.top.now))) result }
    ensures few { OnOk result (count (image_tables (view document.now.top.now)) ≤ MOST_IMAGES) }
{
    let before = before_images();
    if let Some((rule, place)) = first_broken(document, &before) {
        return Err(BootError::Refused { rule, place });
    }
    let images = match images_of(alloc, items_at(document.top, "image")) {
        Ok(images) => images,
        Err(e) => return Err(e),
    };
    if let Some(place) = first_long(images.as_slice()) {
        return Err(BootError::Refused {
            rule: BootRule::ImageBytes,
            place: place as u64,
        });
    }
    Ok(images)
}

/// The processes without their links, where no rule of processes is broken.
#[tactic(auto, unfolding(crate::specs::Rules::rule_of))]
fn read_starts(
    alloc: Global,
    document: &Document<'_>,
    machines: &[BootMachine],
    images: &[BootImage],
) -> Result<Items<BootProcess>, BootError>
    requires machines { machines.now ≡ machines_of (view document.now.top.now) }
    requires images { images.now ≡ images_of (view document.now.top.now) }
    requires few { count (image_tables (view document.now.top.now)) ≤ MOST_IMAGES }
    ensures starts { Answers (unless (first_broken process_rules (view document.now.top.now)) (starts_of (view document.now.top.now))) result }
    ensures few { OnOk result (count (process_tables (view document.now.top.now)) ≤ MOST_PROCESSES) }
{
    let before = [
        TableRule::ProcessKeys,
        TableRule::ProcessName,
        TableRule::ProcessMachine,
        TableRule::ProcessImage,
    ];
    if let Some((rule, place)) = first_broken(document, &before) {
        return Err(BootError::Refused { rule, place });
    }
    match starts_of(alloc, document, machines, images) {
        Ok(starts) => Ok(starts),
        Err(e) => Err(e),
    }
}

/// The processes with their links, where no rule of links is broken.
#[tactic(auto, using(crate::proofs::Sound::length_lemmas))]
fn read_processes(
    alloc: Global,
    document: &Document<'_>,
    starts: &[BootProcess],
) -> Result<Items<BootProcess>, BootError>
    requires starts { starts.now ≡ starts_of (view document.now.top.now) }
    requires few { count (process_tables (view document.now.top.now)) ≤ MOST_PROCESSES }
    ensures { Answers (unless (first_broken link_rules (view document.now.top.now)) (processes_of (view document.now.top.now))) result }
{
    let read = match processes_of(alloc, document, starts) {
        Ok(read) => read,
        Err(none) => return Err(BootError::NoMemory(none)),
    };
    if let Some((rule, place)) = first_broken_link(document, read.sound) {
        return Err(BootError::Refused { rule, place });
    }
    Ok(read.processes)
}

/// The first rule of links that is broken; where all links are sound only their number can break one.
#[tactic(auto, unfolding(crate::specs::Rules::rule_of), using(crate::proofs::Sound::sound_lemmas))]
fn first_broken_link(document: &Document<'_>, sound: bool) -> Option<(BootRule, u64)>
    requires { sound ≡ all_sound (view document.now.top.now) }
    ensures { result ≡ first_broken link_rules (view document.now.top.now) }
{
    if sound {
        first_broken(document, &[TableRule::LinkCount])
    } else {
        let rules = [
            TableRule::LinkCount,
            TableRule::LinkTarget,
            TableRule::LinkLimits,
        ];
        first_broken(document, &rules)
    }
}
