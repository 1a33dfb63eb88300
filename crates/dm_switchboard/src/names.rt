//! The list of names.
ghost use Rattle.std.specs.Prelude.{◌≡◌, ◌<◌, ◌^◌, IfSome, None, OnErr, OnOk, Some, count_by, length, map};
ghost use Rattle.dm_onekernel.specs.Boot.{is_general};
ghost use Rattle.dm_switchboard.specs.Board.{listed, named_is_behind, retargeted_named};
ghost use Rattle.dm_switchboard.specs.declared.reply.Reply.TheVariants as reply_;
ghost use Rattle.dm_switchboard.specs.Deciding.{IsFree, decided, with_new};
ghost use Rattle.dm_switchboard.specs.Following.{behind_at, told_at};
ghost use Rattle.dm_switchboard.specs.Taking.{found_or_unknown, link_named, name_of, registers, registers_new};

use crate::Reply;
use arrayvec::ArrayVec;
use dm_link::{Kind, Link, Pid};
use dm_memory::NoMemory;
use dm_memory::of_indexmap::insert;
use indexmap::IndexMap;

/// The greatest length of a name, in bytes.
const LONGEST: usize = 16;

/// A name of 1 to 16 bytes.
pub type Name = ArrayVec<u8, 16>;

/// The links by name, in order of registration.
pub type Names = IndexMap<Name, Link>;

/// These bytes as a name, if they are one.
pub fn name_of(bytes: &[u8]) -> Option<Name>
    ensures { result ≡ name_of bytes.now }
{
    if bytes.is_empty() || bytes.len() > LONGEST {
        return None;
    }
    let mut name = Name::new();
    let _ = name.try_extend_from_slice(bytes);
    Some(name)
}

/// Looks a name up.
pub fn look_up(names: &Names, name: &Name) -> Reply
    ensures { result ≡ found_or_unknown (link_named name.now.items (listed names.now.entries)) }
{
    match names.get(name) {
        Some(link) => found(*link),
        None => Reply::Unknown,
    }
}

/// What is answered where a name has this link.
fn found(link: Link) -> Reply
    ensures { result ≡ reply_.Found link }
{
    Reply::Found(link)
}

/// Whether a link of this kind may be kept: a reply link serves for one message.
fn may_be_kept(kind: Kind) -> bool
    ensures { result ≡ is_general kind }
{
    match kind {
        Kind::General => true,
        Kind::Reply => false,
    }
}

/// What a request comes to: the answer, and the name that is new then, with its link.
#[derive(Drop)]
pub struct Decision {
    pub reply: Reply,
    pub new: Option<(Name, Link)>,
}

/// An answer that leaves the names as they are.
pub fn answered(reply: Reply) -> Decision
    ensures { result ≡ record { reply = reply; new = None } }
{
    Decision { reply, new: None }
}

/// Whether a general link is to be kept under a name, which isn't taken then.
pub fn register(names: &Names, name: Name, link: Link) -> Decision
    ensures exact { registers (listed names.now.entries) name.items link ≡ decided (listed names.now.entries) result }
    ensures free { IfSome result.new (IsFree (listed names.now.entries)) }
{
    if may_be_kept(link.kind) {
        register_general(names, name, link)
    } else {
        answered(Reply::BadLink)
    }
}

/// Whether a link is to be kept under a name, which isn't taken then.
fn register_general(names: &Names, name: Name, link: Link) -> Decision
    ensures exact { registers_new (listed names.now.entries) name.items link (link_named name.items (listed names.now.entries)) ≡
        decided (listed names.now.entries) result }
    ensures free { IfSome result.new (IsFree (listed names.now.entries)) }
{
    if names.contains_key(&name) {
        return answered(Reply::Taken);
    }
    Decision {
        reply: Reply::Registered,
        new: Some((name, link)),
    }
}

/// Keeps a link under a name that isn't taken, if there is one to keep.
pub fn keep(names: &mut Names, new: Option<(Name, Link)>) -> Result<(), NoMemory>
    requires { IfSome new (IsFree (listed names.old.entries)) }
    ensures ok { OnOk result (listed names.new.entries ≡ with_new (listed names.old.entries) new) }
    ensures err { OnErr result (names.new.entries ≡ names.old.entries) }
{
    match new {
        Some((name, link)) => keep_new(names, name, link),
        None => Ok(()),
    }
}

/// Keeps a link under a name that isn't taken.
fn keep_new(names: &mut Names, name: Name, link: Link) -> Result<(), NoMemory>
    requires { IsFree (listed names.old.entries) (name, link) }
    ensures ok { OnOk result (listed names.new.entries ≡ with_new (listed names.old.entries) (Some (name, link))) }
    ensures err { OnErr result (names.new.entries ≡ names.old.entries) }
{
    insert(names, name, link)?;
    Ok(())
}

/// Tells the link at a place that a process is on machine `at` after so many moves; whether it changed.
fn retarget_at(names: &mut Names, place: usize, about: Pid, at: u8, moves: u32) -> bool
    requires { place < length names.old.entries }
    ensures names { names.new.entries ≡ told_at about at moves place names.old.entries }
    ensures changed { result ≡ behind_at about moves place names.old.entries }
{
    let (_, link) = names.pair_mut(place);
    link.retarget(about, at, moves)
}

/// Tells all links that a process is on machine `at` after so many moves; how many changed.
pub fn retarget_names(names: &mut Names, about: Pid, at: u8, moves: u32) -> u32
    requires { length names.old.entries < 2 ^ 31 }
    ensures names { listed names.new.entries ≡ map (retargeted_named about at moves) (listed names.old.entries) }
    ensures changed { result ≡ count_by (named_is_behind about moves) (listed names.old.entries) }
{
    let mut changed = 0;
    for place in 0..names.len() {
        if retarget_at(names, place, about, at, moves) {
            changed += 1;
        }
    }
    changed
}
