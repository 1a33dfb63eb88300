//! What is said of the links of processes, and of where they lead.
ghost use Rattle.std.specs.Prelude.{◌≡◌, ◌++◌, ◌∷◌, [], OnOk, codes};
ghost use Rattle.std.specs.List.{concat};
ghost use Rattle.toml.specs.Data.{get};
ghost use Rattle.toml.specs.View.{items_view, view};
ghost use Rattle.dm_boot.specs.Build.{program_of};
ghost use Rattle.dm_boot.specs.Tables.{first_failing, text_at};
ghost use Rattle.dm_explain.specs.Faults.{number_fault};
ghost use Rattle.dm_explain.specs.Parts.{quoted};
ghost use Rattle.dm_explain.specs.Wanted.{link_limits};
ghost use Rattle.dm_explain.specs.Told.{area_told, at_link, bad_link, image_name_of, limits_told, link_keeps, link_keys_told, link_rule_told, no_line_told, places_told, table_keys_told, target_told};

use crate::faults::{put_key_fault, put_number_fault};
use crate::part::{Part, put, put_parts};
use crate::told::elements::{element, put_numbered};
use crate::wanted::{CHANNEL_RANGES, CONTROL_KEYS, LINK_KEYS, LINK_RANGES};
use dm_asm::label_address;
use dm_boot::document::Document;
use dm_boot::names::is_server;
use dm_boot::shapes::is_link;
use dm_boot::tables::{items_at, text_at};
use dm_boot::targets::{
    base_of, has_target, is_control, is_limited, len_of, memory_of, program_of,
};
use dm_memory::NoMemory;
use toml::Value;

/// A rule of links.
#[derive(Clone, Copy)]
pub enum LinkRule {
    Keys,
    Target,
    Limits,
}

/// The place of the first of these links that breaks a rule.
#[tactic(auto, using(dm_boot::proofs::Elements::failing_lemmas))]
pub(super) fn bad_link(document: &Document<'_>, rule: LinkRule, links: &[Value]) -> Option<usize>
    ensures { result ≡ first_failing (λ k l. link_keeps rule (view document.now.top.now) l) 0 (items_view links.now) }
{
    for (k, link) in links.iter().enumerate() {
        if !keeps(document, rule, link) {
            return Some(k);
        }
    }
    None
}

/// Whether a link keeps a rule.
fn keeps(document: &Document<'_>, rule: LinkRule, link: &Value) -> bool
    ensures { result ≡ link_keeps rule (view document.now.top.now) (view link.now) }
{
    match rule {
        LinkRule::Keys => is_link(link),
        LinkRule::Target => has_target(document, link),
        LinkRule::Limits => is_limited(document, link),
    }
}

/// Writes what is wrong with the first link of a process that breaks a rule.
pub(super) fn put_bad_link(
    into: &mut Vec<u8>,
    document: &Document<'_>,
    rule: LinkRule,
    process: &Value,
) -> Result<(), NoMemory>
    ensures { OnOk result (into.new.items ≡ into.old.items ++
        at_link rule (view document.now.top.now) (view process.now) (bad_link rule (view document.now.top.now) (view process.now))) }
{
    match bad_link(document, rule, items_at(process, "links")) {
        Some(place) => put_link_at(into, document, rule, process, place as u64),
        None => Ok(()),
    }
}

/// Writes what is wrong with the link at a place.
pub(super) fn put_link_at(
    into: &mut Vec<u8>,
    document: &Document<'_>,
    rule: LinkRule,
    process: &Value,
    place: u64,
) -> Result<(), NoMemory>
    ensures { OnOk result (into.new.items ≡ into.old.items ++ at_link rule (view document.now.top.now) (view process.now) (Some place)) }
{
    put_numbered(into, "link", place)?;
    match element(process, "links", place) {
        Some(link) => put_link(into, document, rule, link),
        None => Ok(()),
    }
}

/// Writes what is wrong with a link.
fn put_link(
    into: &mut Vec<u8>,
    document: &Document<'_>,
    rule: LinkRule,
    link: &Value,
) -> Result<(), NoMemory>
    ensures { OnOk result (into.new.items ≡ into.old.items ++ link_rule_told rule (view document.now.top.now) (view link.now)) }
{
    match rule {
        LinkRule::Keys => put_link_keys(into, link),
        LinkRule::Target => put_target(into, link),
        LinkRule::Limits => put_limits(into, document, link),
    }
}

/// Writes what is wrong with the keys of a link.
fn put_link_keys(into: &mut Vec<u8>, link: &Value) -> Result<(), NoMemory>
    ensures { OnOk result (into.new.items ≡ into.old.items ++ link_keys_told (view link.now)) }
{
    if link.is_table() {
        put_table_keys(into, link)
    } else {
        put(into, "it must be a table")
    }
}

/// Writes what is wrong with the keys of a table that is to be a link.
fn put_table_keys(into: &mut Vec<u8>, link: &Value) -> Result<(), NoMemory>
    ensures { OnOk result (into.new.items ≡ into.old.items ++ table_keys_told (view link.now) (get (codes "control") (view link.now))) }
{
    match link.get("control") {
        Some(_) => put_key_fault(into, link, &CONTROL_KEYS, &["control"], &[]),
        None => put_key_fault(
            into,
            link,
            &LINK_KEYS,
            &[
                "to", "code", "channel", "base", "len", "reply", "read", "write",
            ],
            &[],
        ),
    }
}

/// Writes that a link leads nowhere.
fn put_target(into: &mut Vec<u8>, link: &Value) -> Result<(), NoMemory>
    ensures { OnOk result (into.new.items ≡ into.old.items ++ target_told (view link.now)) }
{
    if is_control(link) {
        put_parts(
            into,
            &[
                Part::Text("no process is named "),
                Part::Quoted(text_at(link, "control")),
            ],
        )
    } else {
        put_parts(
            into,
            &[
                Part::Text("no process or server is named "),
                Part::Quoted(text_at(link, "to")),
            ],
        )
    }
}

/// Writes which number of a link is outside its limits.
fn put_limits(into: &mut Vec<u8>, document: &Document<'_>, link: &Value) -> Result<(), NoMemory>
    ensures { OnOk result (into.new.items ≡ into.old.items ++ limits_told (view document.now.top.now) (view link.now)) }
{
    let to = text_at(link, "to");
    if is_server(to) {
        let words = "a link to a server has no code, base, len, read or write";
        return put_number_fault(into, link, &CHANNEL_RANGES, &[Part::Text(words)]);
    }
    put_places(into, document, link, to)
}

/// Writes which number of a link to a process is outside its limits, or which label isn't where it must be.
fn put_places(
    into: &mut Vec<u8>,
    document: &Document<'_>,
    link: &Value,
    to: &str,
) -> Result<(), NoMemory>
    requires { to.now ≡ text_at (codes "to") (view link.now) }
    ensures { OnOk result (into.new.items ≡ into.old.items ++
        number_fault link_limits (places_told (program_of (view document.now.top.now) to.now) (view document.now.top.now) (view link.now)) (view link.now)) }
{
    let program = program_of(document, to);
    if base_of(link, program).is_none() {
        put_no_line(into, document, link, "base", to)
    } else if len_of(link, program).is_some() {
        put_area(into, document, link, to)
    } else if label_address(program, text_at(link, "len")).is_some() {
        put_before(into, link)
    } else {
        put_no_line(into, document, link, "len", to)
    }
}

/// The name of the image of the process with a name.
#[tactic(auto, unfolding(crate::specs::Told::image_name_of))]
fn image_name_of<'d>(document: &Document<'d>, name: &str) -> &'d str
    ensures { result.now ≡ image_name_of (view document.now.top.now) name.now }
{
    match document.process(name) {
        Some(process) => text_at(process, "image"),
        None => "",
    }
}

/// Writes which number of a link is outside its limits, or that no line has the label at a key.
fn put_no_line<'d>(
    into: &mut Vec<u8>,
    document: &Document<'d>,
    link: &'d Value,
    key: &'static str,
    to: &str,
) -> Result<(), NoMemory>
    requires { to.now ≡ text_at (codes "to") (view link.now) }
    ensures { OnOk result (into.new.items ≡ into.old.items ++ number_fault link_limits (no_line_told key.now (view document.now.top.now) (view link.now)) (view link.now)) }
{
    put_number_fault(
        into,
        link,
        &LINK_RANGES,
        &[
            Part::Text(key),
            Part::Text(" = "),
            Part::Quoted(text_at(link, key)),
            Part::Text(", and no line of image "),
            Part::Quoted(image_name_of(document, to)),
            Part::Text(" has this label"),
        ],
    )
}

/// Writes which number of a link is outside its limits, or that the label where its area is to end stands before the base.
fn put_before(into: &mut Vec<u8>, link: &Value) -> Result<(), NoMemory>
    ensures { OnOk result (into.new.items ≡ into.old.items ++ number_fault link_limits (concat (codes "len = " ∷ quoted (text_at (codes "len") (view link.now)) ∷ codes ", and this label stands before base" ∷ [])) (view link.now)) }
{
    put_number_fault(
        into,
        link,
        &LINK_RANGES,
        &[
            Part::Text("len = "),
            Part::Quoted(text_at(link, "len")),
            Part::Text(", and this label stands before base"),
        ],
    )
}

/// Writes which number of a link is outside its limits, or that its area isn't within the memory.
fn put_area(
    into: &mut Vec<u8>,
    document: &Document<'_>,
    link: &Value,
    to: &str,
) -> Result<(), NoMemory>
    requires { to.now ≡ text_at (codes "to") (view link.now) }
    ensures { OnOk result (into.new.items ≡ into.old.items ++ number_fault link_limits (area_told (view document.now.top.now) (view link.now)) (view link.now)) }
{
    let size = memory_of(document, to);
    put_number_fault(
        into,
        link,
        &LINK_RANGES,
        &[
            Part::Text("base and len are more than "),
            Part::Number(size),
            Part::Text(" together, the bytes of the memory of "),
            Part::Quoted(to),
        ],
    )
}
