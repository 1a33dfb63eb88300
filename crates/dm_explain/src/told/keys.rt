//! What is said of the keys and numbers of the top table.
ghost use Rattle.std.specs.Prelude.{◌≡◌, ◌++◌, OnOk, is_some, map, option_map};
ghost use Rattle.std.specs.List.{concat};
ghost use Rattle.toml.specs.Data.{as_table};
ghost use Rattle.toml.specs.View.{items_view, view};
ghost use Rattle.dm_boot.specs.Tables.{first_failing};
ghost use Rattle.dm_explain.specs.Faults.{key_fault};
ghost use Rattle.dm_explain.specs.Parts.{part_text};
ghost use Rattle.dm_explain.specs.Told.{count_told, first_no_table, no_table_at, no_table_or, not_table, top_told};
ghost use Rattle.dm_explain.specs.Wanted.{top_wishes};

use crate::faults::{put_key_fault, put_number_fault};
use crate::part::{Part, put_parts};
use crate::wanted::{TOP_KEYS, TOP_RANGES};
use dm_boot::tables::items_at;
use dm_memory::NoMemory;
use toml::Value;

/// A rule of the top table.
#[derive(Clone, Copy)]
pub enum TopRule {
    Keys,
    Settings,
    Machines,
    Images,
}

/// Writes what is wrong with the top table.
#[tactic(auto, using(dm_boot::proofs::Elements::count_lemmas))]
pub(super) fn put_top(into: &mut Vec<u8>, top: &Value, rule: TopRule) -> Result<(), NoMemory>
    ensures { OnOk result (into.new.items ≡ into.old.items ++ top_told rule (view top.now)) }
{
    match rule {
        TopRule::Keys => put_top_keys(into, top),
        TopRule::Settings => put_number_fault(into, top, &TOP_RANGES, &[]),
        TopRule::Machines => { put_count(into, items_at(top, "machine").len(), "machines", 1, 16) }
        TopRule::Images => put_count(into, items_at(top, "image").len(), "images", 0, 256),
    }
}

/// An element that is no table: the key of its array, and its place there.
#[derive(Clone, Copy)]
pub struct NotTable {
    pub key: &'static str,
    pub place: u64,
}

/// The place of the first of these that is no table.
#[tactic(auto, using(dm_boot::proofs::Elements::failing_lemmas))]
fn first_other(items: &[Value]) -> Option<u64>
    ensures { result ≡ first_failing (λ i t. is_some (as_table t)) 0 (items_view items.now) }
{
    for (i, item) in items.iter().enumerate() {
        if !item.is_table() {
            return Some(i as u64);
        }
    }
    None
}

/// The first element of the array at a key that is no table, or another.
fn no_table_or(top: &Value, key: &'static str, other: Option<NotTable>) -> Option<NotTable>
    ensures { option_map not_table result ≡ no_table_or key.now (no_table_at key.now (view top.now)) (option_map not_table other) }
{
    match first_other(items_at(top, key)) {
        Some(place) => Some(NotTable { key, place }),
        None => other,
    }
}

/// The first machine, image or process that is no table.
fn first_no_table(top: &Value) -> Option<NotTable>
    ensures { option_map not_table result ≡ first_no_table (view top.now) }
{
    let process = no_table_or(top, "process", None);
    let image = no_table_or(top, "image", process);
    no_table_or(top, "machine", image)
}

/// Writes what is wrong with the keys of the top table, or which machine, image or process is no table.
fn put_top_keys(into: &mut Vec<u8>, top: &Value) -> Result<(), NoMemory>
    ensures { OnOk result (into.new.items ≡ into.old.items ++ top_told TopRule.Keys (view top.now)) }
{
    match first_no_table(top) {
        Some(found) => put_top_fault(
            into,
            top,
            &[
                Part::Text(found.key),
                Part::Text(" "),
                Part::Count(found.place),
                Part::Text(": it must be a table"),
            ],
        ),
        None => put_top_fault(into, top, &[]),
    }
}

/// Writes what is wrong with the keys of the top table, or something else.
fn put_top_fault(into: &mut Vec<u8>, top: &Value, other: &[Part]) -> Result<(), NoMemory>
    ensures { OnOk result (into.new.items ≡ into.old.items ++ key_fault top_wishes (concat (map part_text other.now)) (view top.now)) }
{
    put_key_fault(
        into,
        top,
        &TOP_KEYS,
        &[
            "format", "numbers", "quantum", "machine", "image", "process",
        ],
        other,
    )
}

/// Writes how many there are, and how many there may be.
#[tactic(auto, unfolding(crate::specs::Told::count_told))]
pub(super) fn put_count(
    into: &mut Vec<u8>,
    count: usize,
    what: &'static str,
    least: u64,
    most: u64,
) -> Result<(), NoMemory>
    ensures { OnOk result (into.new.items ≡ into.old.items ++ count_told count what.now least most) }
{
    put_parts(
        into,
        &[
            Part::Count(count as u64),
            Part::Text(" "),
            Part::Text(what),
            Part::Text(", which must be "),
            Part::Count(least),
            Part::Text(" to "),
            Part::Count(most),
        ],
    )
}
