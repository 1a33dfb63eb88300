//! What is said of machines and of images.
ghost use Rattle.std.specs.Prelude.{◌≡◌, ◌++◌, Ok, OnOk, codes};
ghost use Rattle.toml.specs.View.{view};
ghost use Rattle.dm_asm.specs.Assembled.{assembled};
ghost use Rattle.dm_boot.specs.Tables.{text_at};
ghost use Rattle.dm_explain.specs.Told.{bytes_told, image_fault, image_name_words, image_rule_told, image_title, machine_fault, machine_rule_told, text_told};

use crate::faults::{integer_at, put_key_fault, put_number_fault};
use crate::line::text_line;
use crate::part::{Part, put_parts};
use crate::told::elements::{put_name, put_numbered, put_titled};
use crate::told::programs::put_line;
use crate::wanted::{IMAGE_KEYS, IMAGE_RANGES, MACHINE_KEYS, MACHINE_RANGES};
use dm_asm::labels::Labels;
use dm_asm::{AssembleError, Image, assemble};
use dm_boot::names::is_name;
use dm_boot::tables::text_at;
use dm_memory::NoMemory;
use std::alloc::Global;
use toml::Value;

/// A rule of machines.
#[derive(Clone, Copy)]
pub enum MachineRule {
    Keys,
    Room,
}

/// A rule of images.
#[derive(Clone, Copy)]
pub enum ImageRule {
    Keys,
    Name,
    Blocks,
    Text,
    Bytes,
}

/// Writes what is wrong with a machine, and which it is.
pub(super) fn put_machine(
    into: &mut Vec<u8>,
    rule: MachineRule,
    place: u64,
    machine: &Value,
) -> Result<(), NoMemory>
    ensures { OnOk result (into.new.items ≡ into.old.items ++ machine_rule_told rule place (view machine.now)) }
{
    put_numbered(into, "machine", place)?;
    put_machine_fault(into, rule, machine)
}

/// Writes what is wrong with a machine.
fn put_machine_fault(into: &mut Vec<u8>, rule: MachineRule, machine: &Value) -> Result<(), NoMemory>
    ensures { OnOk result (into.new.items ≡ into.old.items ++ machine_fault rule (view machine.now)) }
{
    match rule {
        MachineRule::Keys => {
            put_key_fault(into, machine, &MACHINE_KEYS, &["slots", "blocks"], &[])
        }
        MachineRule::Room => put_number_fault(into, machine, &MACHINE_RANGES, &[]),
    }
}

/// Writes what is wrong with an image, and which it is.
pub(super) fn put_image(
    alloc: Global,
    into: &mut Vec<u8>,
    rule: ImageRule,
    place: u64,
    image: &Value,
) -> Result<(), NoMemory>
    ensures { OnOk result (into.new.items ≡ into.old.items ++ image_rule_told rule place (view image.now)) }
{
    put_image_title(into, rule, place, image)?;
    put_image_fault(alloc, into, rule, image)
}

/// Writes which image it is that breaks a rule; what is said of its text and its bytes names it by itself.
fn put_image_title(
    into: &mut Vec<u8>,
    rule: ImageRule,
    place: u64,
    image: &Value,
) -> Result<(), NoMemory>
    ensures { OnOk result (into.new.items ≡ into.old.items ++ image_title rule place (view image.now)) }
{
    match rule {
        ImageRule::Keys | ImageRule::Name => put_numbered(into, "image", place),
        ImageRule::Blocks => put_titled(into, "image", image),
        ImageRule::Text | ImageRule::Bytes => Ok(()),
    }
}

/// Writes what is wrong with an image.
fn put_image_fault(
    alloc: Global,
    into: &mut Vec<u8>,
    rule: ImageRule,
    image: &Value,
) -> Result<(), NoMemory>
    ensures { OnOk result (into.new.items ≡ into.old.items ++ image_fault rule (view image.now)) }
{
    match rule {
        ImageRule::Keys => {
            put_key_fault(into, image, &IMAGE_KEYS, &["name", "blocks", "text"], &[])
        }
        ImageRule::Name => put_name(into, image, image_name_words(text_at(image, "name"))),
        ImageRule::Blocks => put_number_fault(into, image, &IMAGE_RANGES, &[]),
        ImageRule::Text => put_text(alloc, into, image),
        ImageRule::Bytes => put_bytes(alloc, into, image),
    }
}

/// What is wrong with the name of an image.
fn image_name_words(name: &str) -> &'static str
    ensures { result.now ≡ image_name_words name.now }
{
    if is_name(name) {
        " is an earlier image's name"
    } else {
        " is no name, which has 1 to 16 of a to z, 0 to 9 and _"
    }
}

/// Writes which line of an image's text is refused, and why.
fn put_text(alloc: Global, into: &mut Vec<u8>, image: &Value) -> Result<(), NoMemory>
    ensures { OnOk result (into.new.items ≡ into.old.items ++
        text_told (view image.now) (text_at (codes "text") (view image.now)) (assembled (text_at (codes "text") (view image.now)))) }
{
    let text = text_at(image, "text");
    match assemble(alloc, text) {
        Ok(_) => Ok(()),
        Err(AssembleError::Fault { line, why }) => {
            let labels = Labels::of(alloc, text.as_bytes())?;
            put_line(
                into,
                image,
                &labels,
                line,
                why,
                text_line(text.as_bytes(), line),
            )
        }
        Err(AssembleError::NoMemory(no)) => Err(no),
    }
}

/// Writes how many bytes an image's text makes, and for how many there is room.
fn put_bytes(alloc: Global, into: &mut Vec<u8>, image: &Value) -> Result<(), NoMemory>
    ensures { OnOk result (into.new.items ≡ into.old.items ++
        bytes_told (view image.now) (assembled (text_at (codes "text") (view image.now)))) }
{
    match assemble(alloc, text_at(image, "text")) {
        Ok(made) => put_size(into, image, &made),
        Err(AssembleError::Fault { .. }) => Ok(()),
        Err(AssembleError::NoMemory(no)) => Err(no),
    }
}

/// Writes how many bytes were made, and for how many there is room.
#[tactic(auto, using(crate::proofs::Pieces::join_lemmas))]
fn put_size(into: &mut Vec<u8>, image: &Value, made: &Image) -> Result<(), NoMemory>
    ensures { OnOk result (into.new.items ≡ into.old.items ++ bytes_told (view image.now) (Ok made.now)) }
{
    put_titled(into, "image", image)?;
    put_parts(
        into,
        &[
            Part::Count(made.as_bytes().len() as u64),
            Part::Text(" bytes, and 256 times blocks = "),
            Part::Integer(integer_at(image, "blocks")),
            Part::Text(" have room"),
        ],
    )
}
