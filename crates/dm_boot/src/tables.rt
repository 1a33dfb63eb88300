//! What a table of the boot file holds at its keys.
ghost use Rattle.std.specs.Prelude.{◌≡◌, ◌≤◌, IfSome, map, option_copied, string_bytes};
ghost use Rattle.std.specs.List.{list_all, list_any};
ghost use Rattle.std.specs.Str.{bytes_eq};
ghost use Rattle.std.specs.BTreeMap.{keys};
ghost use Rattle.toml.specs.Data.{as_array, as_bool, as_integer, as_str, member, no_members, string, table};
ghost use Rattle.toml.specs.View.{items_view, table_view, view};
ghost use Rattle.dm_boot.specs.Tables.{all_known, has_only, has_value, in_range, is_known, items_at, lone_member, lone_text, may_have, number_at, text_at, truth_at};

use toml::{Table, Value};

/// Whether a value is a table with no other keys than these.
pub fn has_only(value: &Value, known: &[&str]) -> bool
    ensures { result ≡ has_only (map (λ k. k.now) known.now) (view value.now) }
{
    match value {
        Value::Table(table) => all_known(table, known),
        _ => false,
    }
}

/// Whether each key of a table is among these.
#[tactic(auto, using(crate::proofs::Keys::keys_lemmas))]
fn all_known(table: &Table, known: &[&str]) -> bool
    ensures { result ≡ all_known (map (λ k. k.now) known.now) (table_view table.now) }
{
    each_known(table, known)
}

/// Whether each key of a table is among these.
fn each_known(table: &Table, known: &[&str]) -> bool
    ensures { result ≡ list_all (λ k. is_known (map (λ k. k.now) known.now) (string_bytes k)) (keys table.now) }
{
    table.keys().all(|key| is_known(known, key.as_str()))
}

/// Whether a key is among these.
#[tactic(auto, using(crate::proofs::Keys::keys_lemmas))]
fn is_known(known: &[&str], key: &str) -> bool
    ensures { result ≡ is_known (map (λ k. k.now) known.now) key.now }
{
    names_any(known, key)
}

/// Whether one of these names is a key.
fn names_any(known: &[&str], key: &str) -> bool
    ensures { result ≡ list_any (λ k. bytes_eq k.now key.now) known.now }
{
    known.iter().any(|k| *k == key)
}

/// Whether the key has an integer.
pub fn has_integer(value: &Value, key: &str) -> bool
    ensures { result ≡ has_value as_integer key.now (view value.now) }
{
    match value.get(key) {
        Some(found) => found.is_integer(),
        None => false,
    }
}

/// Whether the key is missing or has an integer.
pub fn may_have_integer(value: &Value, key: &str) -> bool
    ensures { result ≡ may_have as_integer key.now (view value.now) }
{
    match value.get(key) {
        Some(found) => found.is_integer(),
        None => true,
    }
}

/// Whether the key has a text.
pub fn has_text(value: &Value, key: &str) -> bool
    ensures { result ≡ has_value as_str key.now (view value.now) }
{
    match value.get(key) {
        Some(found) => found.is_str(),
        None => false,
    }
}

/// Whether the key is missing or has a truth.
pub fn may_have_truth(value: &Value, key: &str) -> bool
    ensures { result ≡ may_have as_bool key.now (view value.now) }
{
    match value.get(key) {
        Some(found) => found.is_bool(),
        None => true,
    }
}

/// Whether the key is missing or has an array.
pub fn may_have_array(value: &Value, key: &str) -> bool
    ensures { result ≡ may_have as_array key.now (view value.now) }
{
    match value.get(key) {
        Some(found) => found.is_array(),
        None => true,
    }
}

/// The text at a key; empty where there is none.
pub fn text_at<'a>(value: &'a Value, key: &str) -> &'a str
    ensures { result.now ≡ text_at key.now (view value.now) }
{
    match value.get(key) {
        Some(found) => match found.as_str() {
            Some(text) => text,
            None => "",
        },
        None => "",
    }
}

/// The text of a table that has this key alone, where it has a text.
pub fn lone_text<'a>(value: &'a Value, key: &str) -> Option<&'a str>
    ensures text { option_copied result ≡ lone_text key.now (view value.now) }
    ensures alone { IfSome result (λ text. view value.now ≡ table (member key.now (string text.now) no_members)) }
{
    match value {
        Value::Table(table) => lone_member(table, key),
        _ => None,
    }
}

/// The text of a table that has this key alone, where it has a text.
#[tactic(auto, using(crate::proofs::Keys::lone_lemmas))]
fn lone_member<'a>(table: &'a Table, key: &str) -> Option<&'a str>
    ensures text { option_copied result ≡ lone_member key.now (table_view table.now) }
    ensures alone { IfSome result (λ text. table_view table.now ≡ member key.now (string text.now) no_members) }
{
    if table.len() != 1 {
        return None;
    }
    match table.first_key_value() {
        Some((name, value)) => {
            if name.as_str() == key {
                value.as_str()
            } else {
                None
            }
        }
        None => None,
    }
}

/// The truth at a key; false where there is none.
pub fn truth_at(value: &Value, key: &str) -> bool
    ensures { result ≡ truth_at key.now (view value.now) }
{
    match value.get(key) {
        Some(found) => match found.as_bool() {
            Some(truth) => truth,
            None => false,
        },
        None => false,
    }
}

/// The integer at a key, where it lies within these bounds; the default where the key is missing.
#[tactic(auto, unfolding(crate::specs::Tables::number_at))]
pub fn number_at(value: &Value, key: &str, default: u32, least: u32, most: u32) -> Option<u32>
    requires { default ≤ most }
    ensures number { result ≡ number_at default least most key.now (view value.now) }
    ensures within { IfSome result (λ n. n ≤ most) }
{
    match value.get(key) {
        Some(found) => match found.as_integer() {
            Some(n) => in_range(n, least, most),
            None => None,
        },
        None => Some(default),
    }
}

/// A number, where it lies within these bounds.
fn in_range(n: i64, least: u32, most: u32) -> Option<u32>
    ensures number { result ≡ in_range least most n }
    ensures within { IfSome result (λ n. n ≤ most) }
{
    if n >= i64::from(least) && n <= i64::from(most) {
        Some(n as u32)
    } else {
        None
    }
}

/// The elements of the array at a key; none where there is none.
#[tactic(auto, unfolding(crate::specs::Tables::items_at))]
pub fn items_at<'a>(value: &'a Value, key: &str) -> &'a [Value]
    ensures { items_view result.now ≡ items_at key.now (view value.now) }
{
    match value.get(key) {
        Some(Value::Array(items)) => items.as_slice(),
        _ => &[],
    }
}
