//! What a boot file says that breaks no rule.
ghost use Rattle.std.specs.Prelude.{◌≡◌, ◌++◌, OnOk};
ghost use Rattle.toml.specs.View.{items_view, view};
ghost use Rattle.toml.specs.Data.{get_item};
ghost use Rattle.dm_explain.specs.System.{area_rights_word, boot_process_told, each, format_word, image_told, link_kind_word, link_told, machine_told, settings_told, system_told, text_in};

use crate::part::{Part, put_parts};
use dm_boot::tables::{items_at, text_at};
use dm_link::{Kind, Link};
use dm_memory::NoMemory;
use dm_onekernel::boot::{Boot, BootImage, BootMachine, BootProcess, Format};
use toml::Value;

/// Writes what a boot file says.
pub fn put_system(into: &mut Vec<u8>, boot: &Boot, top: &Value) -> Result<(), NoMemory>
    ensures { OnOk result (into.new.items ≡ into.old.items ++ system_told boot.now (view top.now)) }
{
    put_settings(into, boot)?;
    put_machines(into, boot.machines.as_slice())?;
    put_images(into, boot.images.as_slice(), items_at(top, "image"))?;
    put_processes(into, boot.processes.as_slice(), items_at(top, "process"))
}

/// Writes the settings.
#[tactic(auto, unfolding(crate::specs::System::settings_told))]
fn put_settings(into: &mut Vec<u8>, boot: &Boot) -> Result<(), NoMemory>
    ensures { OnOk result (into.new.items ≡ into.old.items ++ settings_told boot.now) }
{
    put_parts(
        into,
        &[
            Part::Text("format "),
            Part::Text(format_word(boot.format)),
            Part::Text(", numbers "),
            Part::Number(boot.numbers),
            Part::Text(", quantum "),
            Part::Number(boot.quantum),
            Part::Text("\n"),
        ],
    )
}

fn format_word(format: Format) -> &'static str
    ensures { result.now ≡ format_word format }
{
    match format {
        Format::One => "1",
        Format::Two => "2",
    }
}

/// Writes the machines, a line each.
fn put_machines(into: &mut Vec<u8>, machines: &[BootMachine]) -> Result<(), NoMemory>
    ensures { OnOk result (into.new.items ≡ into.old.items ++ each machine_told 0 machines.now) }
{
    for (i, machine) in machines.iter().enumerate() {
        put_machine(into, i, machine)?;
    }
    Ok(())
}

#[tactic(auto, unfolding(crate::specs::System::machine_told))]
fn put_machine(into: &mut Vec<u8>, i: usize, machine: &BootMachine) -> Result<(), NoMemory>
    ensures { OnOk result (into.new.items ≡ into.old.items ++ machine_told i machine.now) }
{
    put_parts(
        into,
        &[
            Part::Text("machine "),
            Part::Count(i as u64),
            Part::Text(": "),
            Part::Byte(machine.slots),
            Part::Text(" slots, "),
            Part::Number(u32::from(machine.blocks)),
            Part::Text(" blocks\n"),
        ],
    )
}

/// Writes the images, a line each, with their names in these tables.
fn put_images(into: &mut Vec<u8>, images: &[BootImage], tables: &[Value]) -> Result<(), NoMemory>
    ensures { OnOk result (into.new.items ≡ into.old.items ++ each (image_told (items_view tables.now)) 0 images.now) }
{
    for (i, image) in images.iter().enumerate() {
        put_image(into, i, image, tables)?;
    }
    Ok(())
}

#[tactic(auto, unfolding(crate::specs::System::image_told))]
fn put_image(
    into: &mut Vec<u8>,
    i: usize,
    image: &BootImage,
    tables: &[Value],
) -> Result<(), NoMemory>
    ensures { OnOk result (into.new.items ≡ into.old.items ++ image_told (items_view tables.now) i image.now) }
{
    put_parts(
        into,
        &[
            Part::Text("image "),
            Part::Count(i as u64),
            Part::Text(": "),
            Part::Quoted(text_in(tables, i, "name")),
            Part::Text(", "),
            Part::Number(u32::from(image.blocks)),
            Part::Text(" blocks, "),
            Part::Count(image.bytes.len() as u64),
            Part::Text(" bytes of text\n"),
        ],
    )
}

/// Writes the processes with their links, a line each, with the names of their images in these tables.
fn put_processes(
    into: &mut Vec<u8>,
    processes: &[BootProcess],
    tables: &[Value],
) -> Result<(), NoMemory>
    ensures { OnOk result (into.new.items ≡ into.old.items ++ each (boot_process_told (items_view tables.now)) 0 processes.now) }
{
    for (i, process) in processes.iter().enumerate() {
        put_process(into, i, process, tables)?;
    }
    Ok(())
}

#[tactic(auto, unfolding(crate::specs::System::boot_process_told))]
fn put_process<'b>(
    into: &mut Vec<u8>,
    i: usize,
    process: &'b BootProcess,
    tables: &'b [Value],
) -> Result<(), NoMemory>
    ensures { OnOk result (into.new.items ≡ into.old.items ++ boot_process_told (items_view tables.now) i process.now) }
{
    put_parts(
        into,
        &[
            Part::Text("process "),
            Part::Process(process.pid),
            Part::Text(": "),
            Part::Line(process.name.as_slice()),
            Part::Text(", image "),
            Part::Quoted(text_in(tables, i, "image")),
            Part::Text(", links: "),
            Part::Count(process.links.len() as u64),
            Part::Text("\n"),
        ],
    )?;
    put_links(into, process.links.as_slice())
}

/// Writes the links of a process, a line each.
fn put_links(into: &mut Vec<u8>, links: &[Link]) -> Result<(), NoMemory>
    ensures { OnOk result (into.new.items ≡ into.old.items ++ each link_told 0 links.now) }
{
    for (k, link) in links.iter().enumerate() {
        put_link(into, k, link)?;
    }
    Ok(())
}

#[tactic(auto, unfolding(crate::specs::System::link_told))]
fn put_link(into: &mut Vec<u8>, k: usize, link: &Link) -> Result<(), NoMemory>
    ensures { OnOk result (into.new.items ≡ into.old.items ++ link_told k link.now) }
{
    put_parts(
        into,
        &[
            Part::Text("    link "),
            Part::Count(k as u64),
            Part::Text(": "),
            Part::Text(kind_word(link.kind)),
            Part::Text(" to "),
            Part::Process(link.addr.pid),
            Part::Text(" at "),
            Part::Byte(link.addr.at),
            Part::Text(", code "),
            Part::Number(link.code),
            Part::Text(", channel "),
            Part::Byte(link.channel),
            Part::Text(", area "),
            Part::Number(link.area.base),
            Part::Text(" "),
            Part::Number(link.area.len),
            Part::Text(rights_word(link.area.read, link.area.write)),
            Part::Text("\n"),
        ],
    )
}

fn kind_word(kind: Kind) -> &'static str
    ensures { result.now ≡ link_kind_word kind }
{
    match kind {
        Kind::General => "general",
        Kind::Reply => "reply",
    }
}

/// What may be done with a link's area.
fn rights_word(read: bool, write: bool) -> &'static str
    ensures { result.now ≡ area_rights_word read write }
{
    if read {
        if write {
            ", to read and write"
        } else {
            ", to read"
        }
    } else if write {
        ", to write"
    } else {
        ""
    }
}

/// The text at a key of the table at a place; empty where there is none.
#[tactic(auto, using(dm_boot::proofs::Elements::found_lemmas, crate::proofs::Loops::missing_lemmas))]
pub fn text_in<'a>(tables: &'a [Value], place: usize, key: &str) -> &'a str
    ensures { result.now ≡ text_in key.now (get_item place (items_view tables.now)) }
{
    match tables.get(place) {
        Some(table) => text_at(table, key),
        None => "",
    }
}
