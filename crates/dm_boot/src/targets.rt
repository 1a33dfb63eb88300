//! Where links lead, and the limits of their numbers.
ghost use Rattle.std.specs.Prelude.{◌≡◌, ◌≤◌, IfSome, [], codes, option_and_then, option_map, unwrap_or};
ghost use Rattle.toml.specs.View.{items_view, view};
ghost use Rattle.dm_boot.specs.Tables.{all_items, named, or_zero, text_at};
ghost use Rattle.dm_boot.specs.Build.{base_in, base_of, channel_in, code_in, image_blocks, image_tables, is_control, label_behind, len_in, len_of, place_at, program_of};
ghost use Rattle.dm_boot.specs.Rules.{has_area, has_target, is_limited, is_plain, memory_size_of};

use crate::document::Document;
use crate::limits::image_blocks;
use crate::names::is_server;
use crate::tables::{has_text, number_at, text_at, truth_at};
use dm_asm::label_address;
use dm_link::LAST_CHANNEL;
use dm_processor::{BLOCK, MOST_MEMORY};
use toml::Value;

/// Whether a link controls a child.
pub fn is_control(link: &Value) -> bool
    ensures { result ≡ is_control (view link.now) }
{
    has_text(link, "control")
}

/// Whether a link leads to a process or a server, and a control link to a process.
#[tactic(auto, unfolding(crate::specs::Rules::has_target))]
pub fn has_target(document: &Document<'_>, link: &Value) -> bool
    ensures { result ≡ has_target (view document.now.top.now) (view link.now) }
{
    if is_control(link) {
        return document.process_named(text_at(link, "control")).is_some();
    }
    let name = text_at(link, "to");
    is_server(name) || document.process_named(name).is_some()
}

/// Whether each of these links leads somewhere.
#[tactic(auto, using(crate::proofs::Elements::all_lemmas))]
pub fn have_targets(document: &Document<'_>, links: &[Value]) -> bool
    ensures { result ≡ all_items (has_target (view document.now.top.now)) (items_view links.now) }
{
    for link in links {
        if !has_target(document, link) {
            return false;
        }
    }
    true
}

/// The numbers of a link; 0 where it has none.
pub fn code_in(link: &Value, most: u32) -> Option<u32>
    ensures { result ≡ code_in most (view link.now) }
{
    number_at(link, "code", 0, 0, most)
}

pub fn channel_in(link: &Value) -> Option<u32>
    ensures channel { result ≡ channel_in (view link.now) }
    ensures few { IfSome result (λ n. n ≤ LAST_CHANNEL) }
{
    number_at(link, "channel", 0, 0, u32::from(LAST_CHANNEL))
}

pub fn base_in(link: &Value, most: u32) -> Option<u32>
    ensures base { result ≡ base_in most (view link.now) }
    ensures few { IfSome result (λ n. n ≤ most) }
{
    number_at(link, "base", 0, 0, most)
}

pub fn len_in(link: &Value, most: u32) -> Option<u32>
    ensures len { result ≡ len_in most (view link.now) }
    ensures few { IfSome result (λ n. n ≤ most) }
{
    number_at(link, "len", 0, 0, most)
}

/// How far a label of a program stands behind an address, if there is one and it doesn't stand before.
#[tactic(auto, unfolding(crate::specs::Build::label_behind))]
fn label_behind(program: &str, from: u32, label: &str) -> Option<u32>
    ensures value { result ≡ label_behind program.now from label.now }
    ensures few { IfSome result (λ n. n ≤ MOST_MEMORY) }
{
    match label_address(program, label) {
        Some(at) if at >= u128::from(from) && at <= u128::from(MOST_MEMORY) => {
            Some(at as u32 - from)
        }
        _ => None,
    }
}

/// The number at a key, or how far the label there stands behind an address.
#[tactic(auto, unfolding(crate::specs::Build::place_at))]
fn place_at(link: &Value, program: &str, from: u32, key: &str) -> Option<u32>
    ensures place { result ≡ place_at program.now from key.now (view link.now) }
    ensures few { IfSome result (λ n. n ≤ MOST_MEMORY) }
{
    if has_text(link, key) {
        label_behind(program, from, text_at(link, key))
    } else {
        number_at(link, key, 0, 0, MOST_MEMORY)
    }
}

/// Where the area of a link begins, in the memory of a process with this program.
pub fn base_of(link: &Value, program: &str) -> Option<u32>
    ensures base { result ≡ base_of program.now (view link.now) }
    ensures few { IfSome result (λ n. n ≤ MOST_MEMORY) }
{
    place_at(link, program, 0, "base")
}

/// How long it is; a label is where it ends.
pub fn len_of(link: &Value, program: &str) -> Option<u32>
    ensures len { result ≡ len_of program.now (view link.now) }
    ensures few { IfSome result (λ n. n ≤ MOST_MEMORY) }
{
    place_at(link, program, base_of(link, program).unwrap_or(0), "len")
}

/// The text of an image that was found.
fn text_of_named(image: Option<&Value>) -> &str
    ensures { result.now ≡ unwrap_or (option_map (λ t. text_at (codes "text") t) (option_map (λ v. view v.now) image.entry)) [] }
{
    match image {
        Some(image) => text_at(image, "text"),
        None => "",
    }
}

/// The text of the image of the process with a name; empty where there is none.
#[tactic(auto, unfolding(crate::specs::Build::program_of))]
pub fn program_of<'d>(document: &Document<'d>, name: &str) -> &'d str
    ensures { result.now ≡ program_of (view document.now.top.now) name.now }
{
    match document.process(name) {
        Some(process) => text_of_named(document.image(text_at(process, "image"))),
        None => "",
    }
}

/// Whether a link's area lies within the memory of the process with a name. For an area that ends at 0, which lies within any, the
/// memory isn't looked up.
#[tactic(auto, unfolding(crate::specs::Rules::has_area))]
fn has_area(document: &Document<'_>, name: &str, link: &Value) -> bool
    ensures { result ≡ has_area (memory_size_of (view document.now.top.now) name.now) (program_of (view document.now.top.now) name.now) (view link.now) }
{
    let program = program_of(document, name);
    match (base_of(link, program), len_of(link, program)) {
        (Some(base), Some(len)) => base + len == 0 || base + len <= memory_of(document, name),
        _ => false,
    }
}

/// Whether a link has no code and no area, as one to a server.
#[tactic(auto, unfolding(crate::specs::Rules::is_plain))]
fn is_plain(link: &Value) -> bool
    ensures { result ≡ is_plain (view link.now) }
{
    code_in(link, 0).is_some()
        && base_in(link, 0).is_some()
        && len_in(link, 0).is_some()
        && !truth_at(link, "read")
        && !truth_at(link, "write")
}

/// The blocks of an image that was found.
fn blocks_of_named(image: Option<&Value>) -> u32
    ensures blocks { result ≡ or_zero (option_and_then image_blocks (option_map (λ v. view v.now) image.entry)) }
    ensures few { result ≤ 256 }
{
    match image {
        Some(image) => image_blocks(image).unwrap_or(0),
        None => 0,
    }
}

/// The blocks of a process that was found.
fn blocks_of_process(document: &Document<'_>, process: Option<&Value>) -> u32
    ensures blocks { result ≡ or_zero (option_and_then image_blocks
        (option_and_then (λ t. named (text_at (codes "image") t) (image_tables (view document.now.top.now))) (option_map (λ v. view v.now) process.entry))) }
    ensures few { result ≤ 256 }
{
    match process {
        Some(process) => {
            let image = document.image(text_at(process, "image"));
            blocks_of_named(image)
        }
        None => 0,
    }
}

/// The bytes of the memory of the process with a name.
#[tactic(auto, unfolding(crate::specs::Rules::memory_size_of))]
pub fn memory_of(document: &Document<'_>, name: &str) -> u32
    ensures { result ≡ memory_size_of (view document.now.top.now) name.now }
{
    BLOCK as u32 * blocks_of_process(document, document.process(name))
}

/// Whether a link's numbers are within their limits.
#[tactic(auto, unfolding(crate::specs::Rules::is_limited))]
pub fn is_limited(document: &Document<'_>, link: &Value) -> bool
    ensures { result ≡ is_limited (view document.now.top.now) (view link.now) }
{
    if channel_in(link).is_none() {
        return false;
    }
    let name = text_at(link, "to");
    if is_control(link) || is_server(name) {
        is_plain(link)
    } else {
        code_in(link, u32::MAX).is_some() && has_area(document, name, link)
    }
}

/// Whether the numbers of each of these links are within their limits.
#[tactic(auto, using(crate::proofs::Elements::all_lemmas))]
pub fn are_limited(document: &Document<'_>, links: &[Value]) -> bool
    ensures { result ≡ all_items (is_limited (view document.now.top.now)) (items_view links.now) }
{
    for link in links {
        if !is_limited(document, link) {
            return false;
        }
    }
    true
}
