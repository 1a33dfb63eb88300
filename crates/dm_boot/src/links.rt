//! The links.
ghost use Rattle.std.specs.Prelude.{◌≡◌, ◌≤◌, ◌||◌, IfOk, false, is_some, option_map, slice_get, true, unwrap_or};
ghost use Rattle.toml.specs.View.{view};
ghost use Rattle.dm_link.specs.Names.{pid_of};
ghost use Rattle.dm_onekernel.specs.Calls.{kind_of_flag};
ghost use Rattle.dm_boot.specs.Tables.{count, element_place, map_items};
ghost use Rattle.dm_boot.specs.Text.{is_server_name};
ghost use Rattle.dm_boot.specs.Build.{is_control, link_of, link_tables, link_to, pid_named, process_tables};
ghost use Rattle.dm_boot.specs.Sound.{general_link, has_sound_links, is_sound};

use crate::document::Document;
use crate::names::{is_manager, is_switchboard};
use crate::tables::{items_at, lone_text, text_at, truth_at};
use crate::targets::{base_of, channel_in, code_in, is_control, is_limited, len_of, program_of};
use dm_link::{Addr, Area, Kind, Link, MANAGER, Pid, SWITCHBOARD};
use dm_lists::Items;
use dm_memory::{NoMemory, push, with_room};
use dm_onekernel::boot::BootProcess;
use std::alloc::Global;
use toml::Value;

/// No process has more links: so many have room from the first on.
const MOST_LINKS: usize = 128;

/// A link as its table says, and whether the table is sound: it leads somewhere, and its numbers are within their limits.
#[derive(Drop)]
struct ReadLink {
    link: Link,
    sound: bool,
}

/// The links of a process, and whether the tables of all are sound.
#[derive(Drop)]
pub struct ReadLinks {
    pub links: Items<Link>,
    pub sound: bool,
}

/// Whom a link leads to, and whether there is such a process or server.
#[derive(Clone, Copy)]
struct Led {
    pid: Pid,
    found: bool,
}

/// The links of a process, the first in slot 0. The starts are the processes in the order of the file.
pub fn links_of(
    alloc: Global,
    document: &Document<'_>,
    starts: &[BootProcess],
    process: &Value,
) -> Result<ReadLinks, NoMemory>
    requires { count (process_tables (view document.now.top.now)) ≤ 4294967294 }
    ensures links { IfOk result (λ read. read.links ≡ map_items (link_of (view document.now.top.now) starts.now) (link_tables (view process.now))) }
    ensures sound { IfOk result (λ read. read.sound ≡ has_sound_links (view document.now.top.now) (view process.now)) }
{
    let tables = items_at(process, "links");
    let mut links = with_room(alloc, tables.len().min(MOST_LINKS))?;
    let mut sound = true;
    for table in tables {
        let read = link_of(document, starts, table);
        push(&mut links, read.link)?;
        sound = sound && read.sound;
    }
    Ok(ReadLinks {
        links: Items::from_vec(links),
        sound,
    })
}

/// A link, as its table says.
#[tactic(auto, using(crate::proofs::Lone::lone_lemmas))]
fn link_of(document: &Document<'_>, starts: &[BootProcess], link: &Value) -> ReadLink
    requires { count (process_tables (view document.now.top.now)) ≤ 4294967294 }
    ensures link { result.link ≡ link_of (view document.now.top.now) starts.now (view link.now) }
    ensures sound { result.sound ≡ is_sound (view document.now.top.now) (view link.now) }
{
    if let Some(name) = lone_text(link, "to") {
        return plain_link(led_to(document, starts, name));
    }
    if is_control(link) {
        control_link(document, starts, link)
    } else {
        full_link(document, starts, link)
    }
}

/// A general link with no code and no area to whom it leads.
#[tactic(auto, unfolding(crate::specs::Build::link_to))]
fn plain_link(led: Led) -> ReadLink
    ensures link { result.link ≡ general_link led.pid 0 }
    ensures sound { result.sound ≡ led.found }
{
    ReadLink {
        link: general_link(led.pid, 0),
        sound: led.found,
    }
}

/// A link that controls a child.
#[tactic(auto, unfolding(crate::specs::Build::link_of, crate::specs::Build::link_of_control, crate::specs::Rules::has_target, crate::specs::Sound::is_sound), using(crate::proofs::Named::named_lemmas))]
fn control_link(document: &Document<'_>, starts: &[BootProcess], link: &Value) -> ReadLink
    requires few { count (process_tables (view document.now.top.now)) ≤ 4294967294 }
    requires control { is_control (view link.now) ≡ true }
    ensures link { result.link ≡ link_of (view document.now.top.now) starts.now (view link.now) }
    ensures sound { result.sound ≡ is_sound (view document.now.top.now) (view link.now) }
{
    let child = document.process_named(text_at(link, "control"));
    ReadLink {
        link: general_link(MANAGER, child.unwrap_or(0) as u32 + 1),
        sound: child.is_some() && is_limited(document, link),
    }
}

/// A link that leads to a process or server.
#[tactic(auto, unfolding(crate::specs::Build::link_of, crate::specs::Rules::has_target, crate::specs::Sound::is_sound))]
fn full_link(document: &Document<'_>, starts: &[BootProcess], link: &Value) -> ReadLink
    requires { is_control (view link.now) ≡ false }
    ensures link { result.link ≡ link_of (view document.now.top.now) starts.now (view link.now) }
    ensures sound { result.sound ≡ is_sound (view document.now.top.now) (view link.now) }
{
    let name = text_at(link, "to");
    let led = led_to(document, starts, name);
    ReadLink {
        link: link_to(led.pid, program_of(document, name), link),
        sound: led.found && is_limited(document, link),
    }
}

/// The process or server with a name.
#[tactic(auto, unfolding(crate::specs::Build::pid_named, crate::specs::Text::is_server_name))]
fn led_to(document: &Document<'_>, starts: &[BootProcess], name: &str) -> Led
    ensures pid { result.pid ≡ pid_named (view document.now.top.now) starts.now name.now }
    ensures found { result.found ≡ (is_server_name name.now || is_some (element_place name.now (process_tables (view document.now.top.now)))) }
{
    if is_switchboard(name) {
        return Led {
            pid: SWITCHBOARD,
            found: true,
        };
    }
    if is_manager(name) {
        return Led {
            pid: MANAGER,
            found: true,
        };
    }
    let place = document.process_named(name);
    Led {
        pid: pid_of_start(starts, place.unwrap_or(0)),
        found: place.is_some(),
    }
}

/// The name of the process at a place.
#[tactic(auto, using(std::proofs::lemmas::Option::gets))]
fn pid_of_start(starts: &[BootProcess], place: usize) -> Pid
    ensures { result ≡ unwrap_or (option_map (λ p. p.pid) (slice_get starts.now place)) (pid_of 0 0) }
{
    if place >= starts.len() {
        return Pid { home: 0, num: 0 };
    }
    starts[place].pid
}

/// A link to a process with this program where it starts.
#[tactic(auto, unfolding(crate::specs::Build::link_to))]
fn link_to(pid: Pid, program: &str, link: &Value) -> Link
    ensures { result ≡ link_to pid program.now (view link.now) }
{
    Link {
        addr: Addr {
            pid,
            at: pid.home,
            moves: 0,
        },
        kind: kind_with(truth_at(link, "reply")),
        to_kernel: false,
        code: code_in(link, u32::MAX).unwrap_or(0),
        channel: channel_in(link).unwrap_or(0) as u8,
        area: Area {
            base: base_of(link, program).unwrap_or(0),
            len: len_of(link, program).unwrap_or(0),
            read: truth_at(link, "read"),
            write: truth_at(link, "write"),
        },
    }
}

fn kind_with(reply: bool) -> Kind
    ensures { result ≡ kind_of_flag reply }
{
    if reply { Kind::Reply } else { Kind::General }
}

/// A general link to a process where it starts, with a code and no area.
fn general_link(pid: Pid, code: u32) -> Link
    ensures { result ≡ general_link pid code }
{
    Link {
        addr: Addr {
            pid,
            at: pid.home,
            moves: 0,
        },
        kind: Kind::General,
        to_kernel: false,
        code,
        channel: 0,
        area: Area {
            base: 0,
            len: 0,
            read: false,
            write: false,
        },
    }
}
