//! What is wrong with the keys and the numbers of a table.
ghost use Rattle.std.specs.Prelude.{◌≡◌, ◌++◌, OnOk, map, not, option_copied, string_bytes};
ghost use Rattle.std.specs.BTreeMap.{keys};
ghost use Rattle.std.specs.List.{concat, find, list_any};
ghost use Rattle.std.specs.Str.{bytes_eq};
ghost use Rattle.toml.specs.Data.{get};
ghost use Rattle.toml.specs.View.{table_view, view};
ghost use Rattle.dm_boot.specs.Tables.{has_only, is_known};
ghost use Rattle.dm_explain.specs.Faults.{absence_told, first_unknown, integer_at, is_met, is_sort, is_within, key_fault, keys_text, limit_told, number_fault, other_keys_told, unknown_key, unknown_key_told, wish_fault, wish_told};
ghost use Rattle.dm_explain.specs.Parts.{part_text};
ghost use Rattle.dm_explain.specs.Wanted.{limit_of, wish_of};

use crate::part::{Part, put, put_parts};
use crate::wanted::{Key, Range, Sort};
use dm_boot::tables::{has_only, has_text, number_at};
use dm_memory::NoMemory;
use toml::{Table, Value};

/// Writes what is wrong with the keys of a table, which may have these, or something else.
#[tactic(auto, unfolding(crate::specs::Faults::key_fault), using(crate::proofs::Pieces::join_lemmas))]
pub fn put_key_fault(
    into: &mut Vec<u8>,
    table: &Value,
    keys: &[Key],
    names: &[&str],
    other: &[Part],
) -> Result<(), NoMemory>
    requires { map (λ n. n.now) names.now ≡ map (λ w. w.key) (map wish_of keys.now) }
    ensures { OnOk result (into.new.items ≡ into.old.items ++ key_fault (map wish_of keys.now) (concat (map part_text other.now)) (view table.now)) }
{
    if has_only(table, names) {
        put_wish_fault(into, table, keys, other)
    } else {
        put_other_keys(into, table, keys, names)
    }
}

/// Writes which keys a table may have, and one that it has beside them.
#[tactic(auto, using(crate::proofs::Pieces::join_lemmas))]
fn put_other_keys(
    into: &mut Vec<u8>,
    table: &Value,
    keys: &[Key],
    names: &[&str],
) -> Result<(), NoMemory>
    ensures { OnOk result (into.new.items ≡ into.old.items ++ other_keys_told (map wish_of keys.now) (map (λ n. n.now) names.now) (view table.now)) }
{
    put(into, "its keys may be")?;
    put_keys(into, keys)?;
    put_unknown(into, unknown_key(table, names))
}

/// Writes a key that is none of those that a table may have.
fn put_unknown(into: &mut Vec<u8>, key: Option<&str>) -> Result<(), NoMemory>
    ensures { OnOk result (into.new.items ≡ into.old.items ++ unknown_key_told (option_copied key.entry)) }
{
    match key {
        Some(key) => put_parts(into, &[Part::Text(", not "), Part::Quoted(key)]),
        None => Ok(()),
    }
}

/// The first key of a table that is none of these.
fn unknown_key<'a>(value: &'a Value, names: &[&str]) -> Option<&'a str>
    ensures { option_copied result ≡ unknown_key (map (λ n. n.now) names.now) (view value.now) }
{
    match value {
        Value::Table(table) => first_unknown(table, names),
        Value::String(_)
        | Value::Integer(_)
        | Value::Float(_)
        | Value::Boolean(_)
        | Value::Datetime(_)
        | Value::Array(_) => None,
    }
}

/// The first key of a table that is none of these.
#[tactic(auto, using(crate::proofs::Unknown::unknown_lemmas))]
fn first_unknown<'a>(table: &'a Table, names: &[&str]) -> Option<&'a str>
    ensures { option_copied result ≡ first_unknown (map (λ n. n.now) names.now) (table_view table.now) }
{
    match other_key(table, names) {
        Some(key) => Some(key.as_str()),
        None => None,
    }
}

/// The same, as the table has it.
fn other_key<'a>(table: &'a Table, names: &[&str]) -> Option<&'a String>
    ensures { option_copied result ≡ find (λ k. not (is_known (map (λ n. n.now) names.now) (string_bytes k))) (keys table.now) }
{
    table.keys().find(|key| !is_known(names, key.as_str()))
}

/// Whether a key is among these.
#[tactic(auto, using(dm_boot::proofs::Keys::keys_lemmas))]
fn is_known(names: &[&str], key: &str) -> bool
    ensures { result ≡ is_known (map (λ n. n.now) names.now) key.now }
{
    names_any(names, key)
}

/// Whether one of these names is a key.
fn names_any(names: &[&str], key: &str) -> bool
    ensures { result ≡ list_any (λ k. bytes_eq k.now key.now) names.now }
{
    names.iter().any(|name| *name == key)
}

/// Writes the first wish that isn't met, or something else.
#[tactic(auto, unfolding(crate::specs::Faults::wish_fault), using(crate::proofs::Loops::bad_lemmas))]
fn put_wish_fault(
    into: &mut Vec<u8>,
    table: &Value,
    keys: &[Key],
    other: &[Part],
) -> Result<(), NoMemory>
    ensures { OnOk result (into.new.items ≡ into.old.items ++ wish_fault (map wish_of keys.now) (concat (map part_text other.now)) (view table.now)) }
{
    for key in keys {
        if !is_met(key, table) {
            return put_wish(into, key, table);
        }
    }
    put_parts(into, other)
}

/// Writes what a key must be, and whether it is missing.
fn put_wish(into: &mut Vec<u8>, key: &Key, table: &Value) -> Result<(), NoMemory>
    ensures { OnOk result (into.new.items ≡ into.old.items ++ wish_told (wish_of key.now) (view table.now)) }
{
    put_parts(
        into,
        &[
            Part::Text(key.name),
            Part::Text(" must be "),
            Part::Text(key.sort.words()),
        ],
    )?;
    put_absence(into, key, table)
}

/// Writes that a key is missing, where it is.
fn put_absence(into: &mut Vec<u8>, key: &Key, table: &Value) -> Result<(), NoMemory>
    ensures { OnOk result (into.new.items ≡ into.old.items ++ absence_told (get key.now.name.now (view table.now))) }
{
    match table.get(key.name) {
        Some(_) => Ok(()),
        None => put(into, ", and it is missing"),
    }
}

/// Whether a key has what it must be.
#[tactic(auto, unfolding(crate::specs::Faults::is_met))]
fn is_met(key: &Key, table: &Value) -> bool
    ensures { result ≡ is_met (wish_of key.now) (view table.now) }
{
    match table.get(key.name) {
        Some(found) => is_sort(key.sort, found),
        None => !key.needed,
    }
}

fn is_sort(sort: Sort, found: &Value) -> bool
    ensures { result ≡ is_sort sort (view found.now) }
{
    match sort {
        Sort::Integer => found.is_integer(),
        Sort::Text => found.is_str(),
        Sort::Truth => found.is_bool(),
        Sort::Array => found.is_array(),
        Sort::Place => found.is_integer() || found.is_str(),
    }
}

/// Writes keys, each behind a space.
fn put_keys(into: &mut Vec<u8>, keys: &[Key]) -> Result<(), NoMemory>
    ensures { OnOk result (into.new.items ≡ into.old.items ++ keys_text (map wish_of keys.now)) }
{
    for key in keys {
        put(into, " ")?;
        put(into, key.name)?;
    }
    Ok(())
}

/// Writes the first number of a table that is outside its limits, or something else.
#[tactic(auto, unfolding(crate::specs::Faults::number_fault), using(crate::proofs::Loops::bad_lemmas))]
pub fn put_number_fault(
    into: &mut Vec<u8>,
    table: &Value,
    ranges: &[Range],
    other: &[Part],
) -> Result<(), NoMemory>
    ensures { OnOk result (into.new.items ≡ into.old.items ++ number_fault (map limit_of ranges.now) (concat (map part_text other.now)) (view table.now)) }
{
    for range in ranges {
        if !is_within(range, table) {
            return put_limit(into, range, table);
        }
    }
    put_parts(into, other)
}

/// Whether a number lies within its limits, or isn't there, or a text stands in its place.
#[tactic(auto, unfolding(crate::specs::Faults::is_within))]
fn is_within(range: &Range, table: &Value) -> bool
    ensures { result ≡ is_within (limit_of range.now) (view table.now) }
{
    has_text(table, range.name)
        || number_at(table, range.name, range.most, range.least, range.most).is_some()
}

/// Writes a number that is outside its limits.
#[tactic(auto, unfolding(crate::specs::Faults::limit_told), using(crate::proofs::Pieces::join_lemmas))]
fn put_limit(into: &mut Vec<u8>, range: &Range, table: &Value) -> Result<(), NoMemory>
    ensures { OnOk result (into.new.items ≡ into.old.items ++ limit_told (limit_of range.now) (view table.now)) }
{
    put_parts(
        into,
        &[
            Part::Text(range.name),
            Part::Text(" = "),
            Part::Integer(integer_at(table, range.name)),
            Part::Text(", which must be "),
            Part::Number(range.least),
            Part::Text(" to "),
            Part::Number(range.most),
        ],
    )
}

/// The integer at a key.
#[tactic(auto, unfolding(crate::specs::Faults::integer_at))]
pub fn integer_at(table: &Value, key: &str) -> Option<i64>
    ensures { result ≡ integer_at key.now (view table.now) }
{
    match table.get(key) {
        Some(found) => found.as_integer(),
        None => None,
    }
}
