//! How an element of a boot file is named, and where it is.
ghost use Rattle.std.specs.Prelude.{◌≡◌, ◌∷◌, ◌++◌, [], OnOk, option_map};
ghost use Rattle.std.specs.List.{concat};
ghost use Rattle.toml.specs.View.{view};
ghost use Rattle.toml.specs.Data.{get_item};
ghost use Rattle.dm_boot.specs.Tables.{items_at};
ghost use Rattle.dm_explain.specs.Parts.{quoted};
ghost use Rattle.dm_explain.specs.Told.{name_at, place_title, titled};

use crate::part::{Part, put_parts};
use dm_boot::tables::{items_at, text_at};
use dm_memory::NoMemory;
use toml::Value;

/// The element at a place of the array at a key, where there is one.
#[tactic(auto, using(dm_boot::proofs::Elements::found_lemmas, crate::proofs::Loops::missing_lemmas))]
pub(super) fn element<'a>(table: &'a Value, key: &str, place: u64) -> Option<&'a Value>
    ensures { option_map (λ v. view v.now) result ≡ get_item place (items_at key.now (view table.now)) }
{
    items_at(table, key).get(place as usize)
}

/// Writes what an element is, by its place.
#[tactic(auto, unfolding(crate::specs::Told::place_title))]
pub(super) fn put_numbered(
    into: &mut Vec<u8>,
    kind: &'static str,
    place: u64,
) -> Result<(), NoMemory>
    ensures { OnOk result (into.new.items ≡ into.old.items ++ place_title kind.now place) }
{
    put_parts(
        into,
        &[
            Part::Text(kind),
            Part::Text(" "),
            Part::Count(place),
            Part::Text(": "),
        ],
    )
}

/// Writes what an element is, by its name.
#[tactic(auto, unfolding(crate::specs::Told::titled))]
pub(super) fn put_titled(
    into: &mut Vec<u8>,
    kind: &'static str,
    table: &Value,
) -> Result<(), NoMemory>
    ensures { OnOk result (into.new.items ≡ into.old.items ++ titled kind.now (view table.now)) }
{
    put_parts(
        into,
        &[
            Part::Text(kind),
            Part::Text(" "),
            Part::Quoted(text_at(table, "name")),
            Part::Text(": "),
        ],
    )
}

/// Writes a name, and what is wrong with it.
pub(super) fn put_name(
    into: &mut Vec<u8>,
    table: &Value,
    words: &'static str,
) -> Result<(), NoMemory>
    ensures { OnOk result (into.new.items ≡ into.old.items ++ concat (quoted (name_at (view table.now)) ∷ words.now ∷ [])) }
{
    put_parts(
        into,
        &[Part::Quoted(text_at(table, "name")), Part::Text(words)],
    )
}
