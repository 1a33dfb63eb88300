//! The keys of tables, and the types of their values.
ghost use Rattle.std.specs.Prelude.{◌≡◌, is_some};
ghost use Rattle.toml.specs.Data.{as_table};
ghost use Rattle.toml.specs.View.{items_view, view};
ghost use Rattle.dm_boot.specs.Tables.{all_items};
ghost use Rattle.dm_boot.specs.Rules.{is_control_link, is_image, is_link, is_link_to, is_machine, is_process, is_top, may_have_place, may_have_tables};

use crate::tables::{
    has_integer, has_only, has_text, items_at, lone_text, may_have_array, may_have_integer,
    may_have_truth,
};
use toml::Value;

/// The keys of the top table.
const TOP_KEYS: [&str; 6] = [
    "format", "numbers", "quantum", "machine", "image", "process",
];

/// Whether the top table has only its keys, with the right types.
#[tactic(auto, unfolding(crate::specs::Rules::is_top))]
pub fn is_top(value: &Value) -> bool
    ensures { result ≡ is_top (view value.now) }
{
    has_only(value, &TOP_KEYS)
        && may_have_integer(value, "format")
        && may_have_integer(value, "numbers")
        && may_have_integer(value, "quantum")
        && may_have_tables(value, "machine")
        && may_have_tables(value, "image")
        && may_have_tables(value, "process")
}

/// Whether the key is missing or has an array of tables.
#[tactic(auto, unfolding(crate::specs::Rules::may_have_tables))]
fn may_have_tables(value: &Value, key: &str) -> bool
    ensures { result ≡ may_have_tables key.now (view value.now) }
{
    may_have_array(value, key) && are_tables(items_at(value, key))
}

/// Whether each of these is a table.
#[tactic(auto, using(crate::proofs::Elements::all_lemmas))]
fn are_tables(items: &[Value]) -> bool
    ensures { result ≡ all_items (λ t. is_some (as_table t)) (items_view items.now) }
{
    for item in items {
        if !item.is_table() {
            return false;
        }
    }
    true
}

/// Whether a machine has its keys, with the right types.
#[tactic(auto, unfolding(crate::specs::Rules::is_machine))]
pub fn is_machine(value: &Value) -> bool
    ensures { result ≡ is_machine (view value.now) }
{
    has_only(value, &["slots", "blocks"])
        && has_integer(value, "slots")
        && has_integer(value, "blocks")
}

/// Whether an image has its keys, with the right types.
#[tactic(auto, unfolding(crate::specs::Rules::is_image))]
pub fn is_image(value: &Value) -> bool
    ensures { result ≡ is_image (view value.now) }
{
    has_only(value, &["name", "blocks", "text"])
        && has_text(value, "name")
        && has_integer(value, "blocks")
        && has_text(value, "text")
}

/// Whether a process has its keys, with the right types, and so have its links.
#[tactic(auto, unfolding(crate::specs::Rules::is_process))]
pub fn is_process(value: &Value) -> bool
    ensures { result ≡ is_process (view value.now) }
{
    has_only(value, &["name", "image", "machine", "links"])
        && has_text(value, "name")
        && has_text(value, "image")
        && has_integer(value, "machine")
        && may_have_array(value, "links")
        && are_links(items_at(value, "links"))
}

/// Whether each of these is a link.
#[tactic(auto, using(crate::proofs::Elements::all_lemmas))]
fn are_links(items: &[Value]) -> bool
    ensures { result ≡ all_items is_link (items_view items.now) }
{
    for item in items {
        if !is_link(item) {
            return false;
        }
    }
    true
}

/// Whether a link has its keys, with the right types: `control` alone, or `to` and others.
#[tactic(auto, unfolding(crate::specs::Rules::is_link), using(crate::proofs::Lone::lone_lemmas))]
pub fn is_link(value: &Value) -> bool
    ensures { result ≡ is_link (view value.now) }
{
    lone_text(value, "to").is_some() || is_link_to(value) || is_control_link(value)
}

fn is_control_link(value: &Value) -> bool
    ensures { result ≡ is_control_link (view value.now) }
{
    has_only(value, &["control"]) && has_text(value, "control")
}

/// Whether the key is missing or has an integer or a label.
fn may_have_place(value: &Value, key: &str) -> bool
    ensures { result ≡ may_have_place key.now (view value.now) }
{
    may_have_integer(value, key) || has_text(value, key)
}

/// The keys of a link that leads to a process or a server.
const LINK_KEYS: [&str; 8] = [
    "to", "code", "channel", "base", "len", "reply", "read", "write",
];

fn is_link_to(value: &Value) -> bool
    ensures { result ≡ is_link_to (view value.now) }
{
    has_only(value, &LINK_KEYS)
        && has_text(value, "to")
        && (may_have_integer(value, "code")
            && may_have_integer(value, "channel")
            && may_have_place(value, "base")
            && may_have_place(value, "len"))
        && (may_have_truth(value, "reply")
            && may_have_truth(value, "read")
            && may_have_truth(value, "write"))
}
