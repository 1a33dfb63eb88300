//! The processes without their links, and whether they fit their machines.
ghost use Rattle.std.specs.Prelude.{◌≡◌, ◌≤◌, ◌<◌, ◌+◌, ◌^◌, ℕ, OnOk, nat_le, slice_get, slice_index};
ghost use Rattle.std.specs.Bool.{OnTrue};
ghost use Rattle.toml.specs.View.{view};
ghost use Rattle.dm_onekernel.specs.Boot.{blocks_of_image};
ghost use Rattle.dm_boot.specs.Tables.{count, first_failing};
ghost use Rattle.dm_boot.specs.Build.{home_of, image_tables, images_of, machines_of, process_tables, starts_of};
ghost use Rattle.dm_boot.specs.Rules.{fits_machine, has_place};
ghost use Rattle.dm_boot.specs.Started.{started};
ghost use Rattle.dm_boot.specs.Boot.{Answers, unless_at};
ghost use Rattle.dm_boot.specs.declared.rules.BootRule.TheVariants as rules;

use crate::document::Document;
use crate::limits::{image_place, machine_number};
use crate::rules::{BootError, BootRule};
use crate::tables::items_at;
use crate::taken::Taken;
use crate::{MOST_IMAGES, MOST_PROCESSES};
use dm_link::{FIRST_NUMBER, Pid};
use dm_lists::Items;
use dm_onekernel::boot::{BootImage, BootMachine, BootProcess};
use std::alloc::Global;
use toml::Value;

/// The processes without their names and links, unless one doesn't fit its machine with the earlier ones.
pub fn starts_of(
    alloc: Global,
    document: &Document<'_>,
    machines: &[BootMachine],
    images: &[BootImage],
) -> Result<Items<BootProcess>, BootError>
    requires machines { machines.now ≡ machines_of (view document.now.top.now) }
    requires images { images.now ≡ images_of (view document.now.top.now) }
    requires few { count (image_tables (view document.now.top.now)) ≤ MOST_IMAGES }
    ensures starts { Answers (unless_at rules.ProcessRoom
        (first_failing (has_place (view document.now.top.now)) 0 (process_tables (view document.now.top.now))) (starts_of (view document.now.top.now))) result }
    ensures few { OnOk result (count (process_tables (view document.now.top.now)) ≤ MOST_PROCESSES) }
{
    let tables = items_at(document.top, "process");
    let mut starts = Items::new(alloc);
    let mut taken = Taken::new();
    for (i, table) in tables.iter().enumerate() {
        let start = start_of(alloc, document, &taken, table);
        let home = start.pid.home;
        let more = blocks_of_image(images, start.image);
        if !fits_machine(machines, &taken, home, more) {
            return Err(BootError::Refused {
                rule: BootRule::ProcessRoom,
                place: i as u64,
            });
        }
        taken.add(home, more);
        if let Err(none) = starts.push(start) {
            return Err(BootError::NoMemory(none));
        }
    }
    Ok(starts)
}

/// A process without its name and links, after those that take so much.
#[tactic(auto)]
fn start_of(alloc: Global, document: &Document<'_>, taken: &Taken, table: &Value) -> BootProcess
    requires few { (m : ℕ) → slice_index taken.now.slots m ≤ 255 }
    requires few_images { count (image_tables (view document.now.top.now)) ≤ MOST_IMAGES }
    ensures start { result ≡ started (view document.now.top.now) (view table.now) (slice_index taken.now.slots (home_of (view table.now))) }
    ensures home { result.pid.home ≤ 15 }
{
    let home = machine_number(table).unwrap_or(0) as u8;
    let others = taken.slots(home);
    BootProcess {
        pid: Pid {
            home,
            num: FIRST_NUMBER + others,
        },
        name: Items::new(alloc),
        image: image_place(document, table).unwrap_or(0) as u16,
        links: Items::new(alloc),
    }
}

/// Whether a room has place for so many blocks more where so many are taken.
fn has_place_for(more: u32, taken: u32, room: u16) -> bool
    requires { taken + more < 2 ^ 32 }
    ensures fits { result ≡ nat_le (taken + more) room }
    ensures few { OnTrue result (taken + more ≤ 65535) }
{
    taken + more <= u32::from(room)
}

/// Whether a process of so many blocks fits a machine with what is taken of it.
#[tactic(auto, using(std::proofs::lemmas::Option::gets))]
fn fits_machine(machines: &[BootMachine], taken: &Taken, home: u8, more: u32) -> bool
    requires home { home ≤ 15 }
    requires few { (m : ℕ) → slice_index taken.now.blocks m ≤ 65535 }
    requires few_blocks { more ≤ 65535 }
    ensures fits { result ≡ fits_machine (slice_get machines.now home) (slice_index taken.now.slots home) (slice_index taken.now.blocks home) more }
    ensures slots { OnTrue result (slice_index taken.now.slots home < 255) }
    ensures blocks { OnTrue result (slice_index taken.now.blocks home + more ≤ 65535) }
{
    let place = usize::from(home);
    if place >= machines.len() {
        return false;
    }
    let slots = machines[place].slots;
    if taken.slots(home) >= u32::from(slots) {
        return false;
    }
    if !has_place_for(more, taken.blocks(home), machines[place].blocks) {
        return false;
    }
    true
}

/// The blocks of an image.
#[tactic(auto, using(std::proofs::lemmas::Option::gets))]
fn blocks_of_image(images: &[BootImage], image: u16) -> u32
    ensures blocks { result ≡ blocks_of_image (slice_get images.now image) }
    ensures few { result ≤ 65535 }
{
    let place = usize::from(image);
    if place >= images.len() {
        return 0;
    }
    u32::from(images[place].blocks)
}
