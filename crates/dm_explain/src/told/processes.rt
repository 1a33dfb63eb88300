//! What is said of processes.
ghost use Rattle.std.specs.Prelude.{◌≡◌, ◌∷◌, ◌++◌, [], OnOk, codes};
ghost use Rattle.std.specs.List.{concat};
ghost use Rattle.toml.specs.View.{view};
ghost use Rattle.dm_onekernel.specs.Boot.{slots_of};
ghost use Rattle.dm_boot.specs.Build.{format_of, link_tables};
ghost use Rattle.dm_boot.specs.Tables.{count, text_at};
ghost use Rattle.dm_explain.specs.Parts.{quoted};
ghost use Rattle.dm_explain.specs.Told.{bad_link, count_told, home_told, keys_told, name_at, no_room_told, process_fault, process_name_words, process_rule_told, process_title, room_told};

use crate::faults::{integer_at, put_key_fault};
use crate::part::{Part, put_parts};
use crate::told::elements::{element, put_name, put_numbered, put_titled};
use crate::told::keys::put_count;
use crate::told::links::{LinkRule, bad_link, put_bad_link, put_link_at};
use crate::wanted::PROCESS_KEYS;
use dm_boot::document::Document;
use dm_boot::limits::{format_of, machine_number};
use dm_boot::names::{is_name, is_server};
use dm_boot::tables::{items_at, text_at};
use dm_memory::NoMemory;
use toml::Value;

/// A rule of processes.
#[derive(Clone, Copy)]
pub enum ProcessRule {
    Keys,
    Name,
    Machine,
    Image,
    Room,
    LinkCount,
    LinkTarget,
    LinkLimits,
}

/// Writes what is wrong with a process, and which it is.
pub(super) fn put_process(
    into: &mut Vec<u8>,
    document: &Document<'_>,
    rule: ProcessRule,
    place: u64,
    process: &Value,
) -> Result<(), NoMemory>
    ensures { OnOk result (into.new.items ≡ into.old.items ++ process_rule_told rule (view document.now.top.now) place (view process.now)) }
{
    put_process_title(into, rule, place, process)?;
    put_process_fault(into, document, rule, process)
}

/// Writes which process it is that breaks a rule.
fn put_process_title(
    into: &mut Vec<u8>,
    rule: ProcessRule,
    place: u64,
    process: &Value,
) -> Result<(), NoMemory>
    ensures { OnOk result (into.new.items ≡ into.old.items ++ process_title rule place (view process.now)) }
{
    match rule {
        ProcessRule::Keys | ProcessRule::Name => put_numbered(into, "process", place),
        ProcessRule::Machine
        | ProcessRule::Image
        | ProcessRule::Room
        | ProcessRule::LinkCount
        | ProcessRule::LinkTarget
        | ProcessRule::LinkLimits => put_titled(into, "process", process),
    }
}

/// Writes what is wrong with a process.
fn put_process_fault(
    into: &mut Vec<u8>,
    document: &Document<'_>,
    rule: ProcessRule,
    process: &Value,
) -> Result<(), NoMemory>
    ensures { OnOk result (into.new.items ≡ into.old.items ++ process_fault rule (view document.now.top.now) (view process.now)) }
{
    match rule {
        ProcessRule::Keys => put_process_keys(into, document, process),
        ProcessRule::Name => put_process_name(into, process),
        ProcessRule::Machine => put_home(into, document.top, process),
        ProcessRule::Image => put_no_image(into, process),
        ProcessRule::Room => put_no_room(into, document.top, process),
        ProcessRule::LinkCount => put_link_count(into, document.top, process),
        ProcessRule::LinkTarget => put_bad_link(into, document, LinkRule::Target, process),
        ProcessRule::LinkLimits => put_bad_link(into, document, LinkRule::Limits, process),
    }
}

/// Writes the name of a process, and what is wrong with it.
fn put_process_name(into: &mut Vec<u8>, process: &Value) -> Result<(), NoMemory>
    ensures { OnOk result (into.new.items ≡ into.old.items ++ concat (quoted (name_at (view process.now)) ∷ process_name_words (name_at (view process.now)) ∷ [])) }
{
    put_name(into, process, process_name_words(text_at(process, "name")))
}

/// Writes that no image has the name that a process gives.
fn put_no_image(into: &mut Vec<u8>, process: &Value) -> Result<(), NoMemory>
    ensures { OnOk result (into.new.items ≡ into.old.items ++ concat (codes "no image is named " ∷ quoted (text_at (codes "image") (view process.now)) ∷ [])) }
{
    put_parts(
        into,
        &[
            Part::Text("no image is named "),
            Part::Quoted(text_at(process, "image")),
        ],
    )
}

/// Writes how many links a process has, and how many it may have.
#[tactic(auto, using(dm_boot::proofs::Elements::count_lemmas))]
fn put_link_count(into: &mut Vec<u8>, top: &Value, process: &Value) -> Result<(), NoMemory>
    ensures { OnOk result (into.new.items ≡ into.old.items ++
        count_told (count (link_tables (view process.now))) (codes "links") 0 (slots_of (format_of (view top.now)))) }
{
    let most = u64::from(format_of(top).slots());
    put_count(into, items_at(process, "links").len(), "links", 0, most)
}

/// What is wrong with the name of a process.
fn process_name_words(name: &str) -> &'static str
    ensures { result.now ≡ process_name_words name.now }
{
    if !is_name(name) {
        " is no name, which has 1 to 16 of a to z, 0 to 9 and _"
    } else if is_server(name) {
        " is a server's name"
    } else {
        " is an earlier process's name"
    }
}

/// Writes what is wrong with the keys of a process, or with those of its first bad link.
fn put_process_keys(
    into: &mut Vec<u8>,
    document: &Document<'_>,
    process: &Value,
) -> Result<(), NoMemory>
    ensures { OnOk result (into.new.items ≡ into.old.items ++
        keys_told (view document.now.top.now) (view process.now) (bad_link LinkRule.Keys (view document.now.top.now) (view process.now))) }
{
    match bad_link(document, LinkRule::Keys, items_at(process, "links")) {
        Some(place) => put_link_at(into, document, LinkRule::Keys, process, place as u64),
        None => put_key_fault(
            into,
            process,
            &PROCESS_KEYS,
            &["name", "image", "machine", "links"],
            &[],
        ),
    }
}

/// Writes on which machine a process is to start, and which there are.
#[tactic(auto, using(dm_boot::proofs::Elements::count_lemmas))]
fn put_home(into: &mut Vec<u8>, top: &Value, process: &Value) -> Result<(), NoMemory>
    ensures { OnOk result (into.new.items ≡ into.old.items ++ home_told (view top.now) (view process.now)) }
{
    put_parts(
        into,
        &[
            Part::Text("machine = "),
            Part::Integer(integer_at(process, "machine")),
            Part::Text(", and the machines are "),
            Part::Count(items_at(top, "machine").len() as u64),
            Part::Text(", from 0 on"),
        ],
    )
}

/// Writes that a machine has no room for a process, and what it has.
fn put_no_room(into: &mut Vec<u8>, top: &Value, process: &Value) -> Result<(), NoMemory>
    ensures { OnOk result (into.new.items ≡ into.old.items ++ no_room_told (view top.now) (view process.now)) }
{
    let home = u64::from(machine_number(process).unwrap_or(0));
    put_parts(
        into,
        &[
            Part::Text("with those before it there is no room for it on machine "),
            Part::Count(home),
        ],
    )?;
    match element(top, "machine", home) {
        Some(machine) => put_room(into, machine),
        None => Ok(()),
    }
}

/// Writes the room of a machine.
#[tactic(auto, using(crate::proofs::Pieces::join_lemmas))]
fn put_room(into: &mut Vec<u8>, machine: &Value) -> Result<(), NoMemory>
    ensures { OnOk result (into.new.items ≡ into.old.items ++ room_told (view machine.now)) }
{
    put_parts(
        into,
        &[
            Part::Text(", which has slots = "),
            Part::Integer(integer_at(machine, "slots")),
            Part::Text(" and blocks = "),
            Part::Integer(integer_at(machine, "blocks")),
        ],
    )
}
