//! What is said of a boot file that breaks a rule.
ghost use Rattle.std.specs.Prelude.{◌≡◌, ◌++◌, [], OnOk, codes, if◌then◌else◌, nat_lt};
ghost use Rattle.toml.specs.Data.{get_item};
ghost use Rattle.toml.specs.View.{items_view, view};
ghost use Rattle.dm_asm.specs.Assembled.{assembled};
ghost use Rattle.dm_boot.specs.Build.{image_tables, machine_tables, process_tables};
ghost use Rattle.dm_boot.specs.Tables.{text_at};
ghost use Rattle.dm_explain.specs.Told.{behind_told, broken_told, family_of, image_rule_told, later_images, machine_rule_told, of_element, process_rule_told, program_told, rule_title, rule_told, whole_program_told};

mod elements;
mod families;
mod images;
mod keys;
mod links;
mod processes;
mod programs;
mod refused;

use crate::part::put;
use dm_boot::BootRule;
use dm_boot::document::Document;
use dm_boot::tables::items_at;
use dm_memory::NoMemory;
use elements::element;
use families::{Family, family_of};
use images::{ImageRule, MachineRule, put_image, put_machine};
use keys::put_top;
use processes::{ProcessRule, put_process};
use programs::{put_program, put_title, put_whole_program};
use std::alloc::Global;
use toml::Value;

/// Writes what is said of a rule that the element at a place breaks, with the rule's number, in lines.
pub fn put_broken(
    alloc: Global,
    into: &mut Vec<u8>,
    file: &[u8],
    top: &Value,
    rule: BootRule,
    place: u64,
) -> Result<(), NoMemory>
    ensures { OnOk result (into.new.items ≡ into.old.items ++ broken_told file.now rule place (view top.now)) }
{
    let document = Document::new(alloc, top)?;
    put_told(alloc, into, file, &document, rule, place)
}

/// Writes the same of a document.
fn put_told(
    alloc: Global,
    into: &mut Vec<u8>,
    file: &[u8],
    document: &Document<'_>,
    rule: BootRule,
    place: u64,
) -> Result<(), NoMemory>
    ensures { OnOk result (into.new.items ≡ into.old.items ++ broken_told file.now rule place (view document.now.top.now)) }
{
    let family = family_of(rule);
    put_line(alloc, into, document, rule, family, place)?;
    put_behind(alloc, into, file, document.top, family, place)
}

/// Writes how a rule is named, and what is said of it, as a line.
fn put_line(
    alloc: Global,
    into: &mut Vec<u8>,
    document: &Document<'_>,
    rule: BootRule,
    family: Family,
    place: u64,
) -> Result<(), NoMemory>
    ensures { OnOk result (into.new.items ≡ into.old.items ++ (rule_title rule ++ rule_told family place (view document.now.top.now) ++ codes "\n")) }
{
    put_title(into, rule)?;
    put_rule(alloc, into, document, family, place)?;
    put(into, "\n")
}

/// Writes what else is said of it, in lines behind that: of the other lines of its text, and of later images.
#[tactic(auto, using(crate::proofs::Pieces::join_lemmas))]
fn put_behind(
    alloc: Global,
    into: &mut Vec<u8>,
    file: &[u8],
    top: &Value,
    family: Family,
    place: u64,
) -> Result<(), NoMemory>
    ensures { OnOk result (into.new.items ≡ into.old.items ++ behind_told file.now family place (view top.now)) }
{
    match family {
        Family::Image(ImageRule::Text) => {
            put_program_at(alloc, into, file, top, place)?;
            put_later_images(alloc, into, file, items_at(top, "image"), place)
        }
        Family::Image(ImageRule::Keys | ImageRule::Name | ImageRule::Blocks | ImageRule::Bytes)
        | Family::Document
        | Family::Top(_)
        | Family::Machine(_)
        | Family::Process(_) => Ok(()),
    }
}

/// Writes what is said behind the first line of the text of the image at a place that is refused.
fn put_program_at(
    alloc: Global,
    into: &mut Vec<u8>,
    file: &[u8],
    top: &Value,
    place: u64,
) -> Result<(), NoMemory>
    ensures { OnOk result (into.new.items ≡ into.old.items ++ of_element (get_item place (image_tables (view top.now)))
        (λ t. program_told file.now t (text_at (codes "text") t) (assembled (text_at (codes "text") t)))) }
{
    match element(top, "image", place) {
        Some(image) => put_program(alloc, into, file, image),
        None => Ok(()),
    }
}

/// Writes each line that is refused of the texts of images that stand behind a place.
fn put_later_images(
    alloc: Global,
    into: &mut Vec<u8>,
    file: &[u8],
    images: &[Value],
    place: u64,
) -> Result<(), NoMemory>
    ensures { OnOk result (into.new.items ≡ into.old.items ++ later_images file.now place 0 (items_view images.now)) }
{
    for (i, image) in images.iter().enumerate() {
        put_image_behind(alloc, into, file, image, i as u64, place)?;
    }
    Ok(())
}

/// Writes each line that is refused of an image's text, if the image stands behind a place.
fn put_image_behind(
    alloc: Global,
    into: &mut Vec<u8>,
    file: &[u8],
    image: &Value,
    i: u64,
    place: u64,
) -> Result<(), NoMemory>
    ensures { OnOk result (into.new.items ≡ into.old.items ++
        (if nat_lt place i then whole_program_told file.now (view image.now) (text_at (codes "text") (view image.now)) else [])) }
{
    if place < i {
        put_whole_program(alloc, into, file, image)
    } else {
        Ok(())
    }
}

/// Writes what is wrong with the machine at a place.
fn put_machine_at(
    into: &mut Vec<u8>,
    top: &Value,
    rule: MachineRule,
    place: u64,
) -> Result<(), NoMemory>
    ensures { OnOk result (into.new.items ≡ into.old.items ++ of_element (get_item place (machine_tables (view top.now))) (λ t. machine_rule_told rule place t)) }
{
    match element(top, "machine", place) {
        Some(machine) => put_machine(into, rule, place, machine),
        None => Ok(()),
    }
}

/// Writes what is wrong with the image at a place.
fn put_image_at(
    alloc: Global,
    into: &mut Vec<u8>,
    top: &Value,
    rule: ImageRule,
    place: u64,
) -> Result<(), NoMemory>
    ensures { OnOk result (into.new.items ≡ into.old.items ++ of_element (get_item place (image_tables (view top.now))) (λ t. image_rule_told rule place t)) }
{
    match element(top, "image", place) {
        Some(image) => put_image(alloc, into, rule, place, image),
        None => Ok(()),
    }
}

/// Writes what is wrong with the process at a place.
fn put_process_at(
    into: &mut Vec<u8>,
    document: &Document<'_>,
    rule: ProcessRule,
    place: u64,
) -> Result<(), NoMemory>
    ensures { OnOk result (into.new.items ≡ into.old.items ++ of_element (get_item place (process_tables (view document.now.top.now)))
        (λ t. process_rule_told rule (view document.now.top.now) place t)) }
{
    match element(document.top, "process", place) {
        Some(process) => put_process(into, document, rule, place, process),
        None => Ok(()),
    }
}

/// Writes what is said of a rule that the element at a place breaks.
fn put_rule(
    alloc: Global,
    into: &mut Vec<u8>,
    document: &Document<'_>,
    family: Family,
    place: u64,
) -> Result<(), NoMemory>
    ensures { OnOk result (into.new.items ≡ into.old.items ++ rule_told family place (view document.now.top.now)) }
{
    match family {
        Family::Document => Ok(()),
        Family::Top(rule) => put_top(into, document.top, rule),
        Family::Machine(rule) => put_machine_at(into, document.top, rule, place),
        Family::Image(rule) => put_image_at(alloc, into, document.top, rule, place),
        Family::Process(rule) => put_process_at(into, document, rule, place),
    }
}
