//! What the elements of a boot file must be, one function for each rule.
ghost use Rattle.std.specs.Prelude.{◌≡◌, ◌<◌, ◌≤◌, ◌==◌, IfSome, false, option_map, unwrap_or};
ghost use Rattle.toml.specs.View.{view};
ghost use Rattle.dm_boot.specs.Tables.{count};
ghost use Rattle.dm_boot.specs.Build.{format_number, format_of, image_blocks, image_place, image_tables, machine_number, numbers_of, process_tables, quantum_of};
ghost use Rattle.dm_boot.specs.Rules.{has_good_image_count, has_good_machine_count, has_good_room, has_good_settings, has_link_count, has_machine, has_own_name, has_process_name};

use crate::MOST_IMAGES;
use crate::document::Document;
use crate::names::{is_name, is_server};
use crate::tables::{items_at, number_at, text_at};
use dm_link::MACHINES;
use dm_onekernel::boot::Format;
use toml::Value;

/// The greatest number of messages that a pair of machines may count, 1 to 1,048,576.
pub fn numbers_of(top: &Value) -> Option<u32>
    ensures { result ≡ numbers_of (view top.now) }
{
    number_at(top, "numbers", 1_048_576, 1, 1_048_576)
}

/// The greatest number of plain instructions in a turn, 1 to 1,000.
pub fn quantum_of(top: &Value) -> Option<u32>
    ensures { result ≡ quantum_of (view top.now) }
{
    number_at(top, "quantum", 16, 1, 1000)
}

/// Whether the settings are within their limits.
#[tactic(auto, unfolding(crate::specs::Rules::has_good_settings))]
pub fn has_good_settings(top: &Value) -> bool
    ensures { result ≡ has_good_settings (view top.now) }
{
    numbers_of(top).is_some() && quantum_of(top).is_some() && format_number(top).is_some()
}

/// The number of the format, 1 or 2.
fn format_number(top: &Value) -> Option<u32>
    ensures { result ≡ format_number (view top.now) }
{
    number_at(top, "format", 1, 1, 2)
}

/// Which limits hold.
#[tactic(auto, unfolding(crate::specs::Build::format_of))]
pub fn format_of(top: &Value) -> Format
    ensures { result ≡ format_of (view top.now) }
{
    match format_number(top) {
        Some(2) => Format::Two,
        _ => Format::One,
    }
}

/// Whether there are 1 to 16 machines.
#[tactic(auto, unfolding(crate::specs::Rules::has_good_machine_count), using(crate::proofs::Elements::count_lemmas))]
pub fn has_good_machine_count(top: &Value) -> bool
    ensures { result ≡ has_good_machine_count (view top.now) }
{
    let count = items_at(top, "machine").len();
    1 <= count && count <= usize::from(MACHINES)
}

/// Whether there are at most 256 images.
#[tactic(auto, unfolding(crate::specs::Rules::has_good_image_count), using(crate::proofs::Elements::count_lemmas))]
pub fn has_good_image_count(top: &Value) -> bool
    ensures { result ≡ has_good_image_count (view top.now) }
{
    items_at(top, "image").len() <= MOST_IMAGES
}

/// Whether a machine's room is within its limits.
#[tactic(auto, unfolding(crate::specs::Rules::has_good_room))]
pub fn has_good_room(machine: &Value) -> bool
    ensures { result ≡ has_good_room (view machine.now) }
{
    number_at(machine, "slots", 0, 0, 64).is_some()
        && number_at(machine, "blocks", 0, 0, 4096).is_some()
}

/// Whether an image has a name that no earlier one has.
#[tactic(auto, unfolding(crate::specs::Rules::has_own_name))]
pub fn has_image_name(document: &Document<'_>, place: usize, image: &Value) -> bool
    ensures { result ≡ has_own_name (image_tables (view document.now.top.now)) place (view image.now) }
{
    let name = text_at(image, "name");
    is_name(name) && is_place(document.image_named(name), place)
}

/// Whether a place is the first that was found.
fn is_place(first: Option<usize>, place: usize) -> bool
    ensures { result ≡ unwrap_or (option_map (λ k. k == place) first) false }
{
    match first {
        Some(first) => first == place,
        None => false,
    }
}

/// Whether a process has a name that no server and no earlier process has.
#[tactic(auto, unfolding(crate::specs::Rules::has_own_name, crate::specs::Rules::has_process_name))]
pub fn has_process_name(document: &Document<'_>, place: usize, process: &Value) -> bool
    ensures { result ≡ has_process_name (process_tables (view document.now.top.now)) place (view process.now) }
{
    let name = text_at(process, "name");
    is_name(name) && is_place(document.process_named(name), place) && !is_server(name)
}

/// The blocks of an image's memory, 1 to 256.
pub fn image_blocks(image: &Value) -> Option<u32>
    ensures blocks { result ≡ image_blocks (view image.now) }
    ensures few { IfSome result (λ n. n ≤ 256) }
{
    number_at(image, "blocks", 1, 1, 256)
}

/// The machine on which a process starts, 0 to 15.
pub fn machine_number(process: &Value) -> Option<u32>
    ensures machine { result ≡ machine_number (view process.now) }
    ensures few { IfSome result (λ n. n ≤ 15) }
{
    number_at(process, "machine", 0, 0, u32::from(MACHINES) - 1)
}

/// Whether a process's machine is one of the file's.
#[tactic(auto, unfolding(crate::specs::Rules::has_machine), using(crate::proofs::Elements::count_lemmas))]
pub fn has_machine(top: &Value, process: &Value) -> bool
    ensures { result ≡ has_machine (view top.now) (view process.now) }
{
    let count = items_at(top, "machine").len();
    match machine_number(process) {
        Some(machine) => (machine as usize) < count,
        None => false,
    }
}

/// The place of a process's image.
#[tactic(auto, using(crate::proofs::Named::named_lemmas))]
pub fn image_place(document: &Document<'_>, process: &Value) -> Option<usize>
    ensures place { result ≡ image_place (view document.now.top.now) (view process.now) }
    ensures within { IfSome result (λ k. k < count (image_tables (view document.now.top.now))) }
{
    document.image_named(text_at(process, "image"))
}

/// Whether a process has no more links than its format lets it have.
#[tactic(auto, unfolding(crate::specs::Rules::has_link_count), using(crate::proofs::Elements::count_lemmas))]
pub fn has_link_count(top: &Value, process: &Value) -> bool
    ensures { result ≡ has_link_count (view top.now) (view process.now) }
{
    items_at(process, "links").len() <= usize::from(format_of(top).slots())
}
