//! What the lines ahead and behind tell of a line.
ghost use Rattle.std.specs.Prelude.{◌≡◌, ◌++◌, IfOk, OnOk, false, option_to_list};
ghost use Rattle.dm_link.specs.Names.{pid_eq};
ghost use Rattle.dm_message.specs.Ids.{id_eq};
ghost use Rattle.dm_chart.specs.Ahead.{first_ahead, is_delivery, is_end, is_restart, is_taken, is_wait_end, is_wanted};
ghost use Rattle.dm_chart.specs.Behind.{kill_in, kill_with, kills_of, letter_last, message_is_among, news_behind, news_here, news_of, number_among, puts_between, puts_id, puts_it, waits_behind, waits_on, waits_with, was_put};

use crate::role::{Letter, Life, Role, role_of};
use crate::spot::{Spot, next_spot};
use dm_line::line::Line;
use dm_link::Pid;
use dm_lists::Items;
use dm_memory::NoMemory;
use dm_message::{MessageKind, MsgId};
use dm_schedule::Step;
use std::alloc::Global;

/// A line that is looked for.
#[derive(Clone, Copy)]
pub enum Wanted<'a> {
    /// Message number n enters the inbox.
    Taken { from: u8, to: u8, n: usize },
    /// Packet k is delivered.
    Delivery { from: u8, to: u8, k: u64 },
    /// A process's life on a machine ends; these are the messages that kill it.
    End { pid: Pid, kills: &'a [MsgId] },
    /// It waits no more: it has a message, or its life on the machine ends.
    WaitEnd { pid: Pid, kills: &'a [MsgId] },
    /// A process goes on after it has moved.
    Restart(Pid),
}

/// Behind the first line ahead that is looked for.
#[tactic(auto, using(crate::proofs::Walks::ahead_lemmas))]
pub fn first_ahead(wanted: Wanted, from: Spot, lines: &[Line]) -> Option<Spot>
    ensures { result ≡ first_ahead (is_wanted wanted.entry) from lines.now }
{
    let mut spot = from;
    for line in lines {
        spot = next_spot(spot, line);
        if is_wanted(wanted, role_of(line)) {
            return Some(spot);
        }
    }
    None
}

/// Whether a line of this role is the one that is looked for.
#[tactic(auto, unfolding(crate::specs::Ahead::is_wanted))]
fn is_wanted(wanted: Wanted, role: Role) -> bool
    ensures { result ≡ is_wanted wanted.entry role }
{
    match wanted {
        Wanted::Taken { from, to, n } => is_taken(from, to, n, role),
        Wanted::Delivery { from, to, k } => is_delivery(from, to, k, role),
        Wanted::End { pid, kills } => is_end(pid, kills, role),
        Wanted::WaitEnd { pid, kills } => is_wait_end(pid, kills, role),
        Wanted::Restart(pid) => is_restart(pid, role),
    }
}

/// Whether a line of this role takes message number n into an inbox.
pub fn is_taken(from: u8, to: u8, n: usize, role: Role) -> bool
    ensures { result ≡ is_taken from to n role }
{
    match role {
        Role::Taken {
            from: a,
            to: b,
            n: k,
        } => a == from && b == to && k as usize == n,
        _ => false,
    }
}

/// Whether a line of this role is the head of the delivery of packet k.
pub fn is_delivery(from: u8, to: u8, k: u64, role: Role) -> bool
    ensures { result ≡ is_delivery from to k role }
{
    match role {
        Role::Head(Step::Deliver { a, b, k: j }) => a == from && b == to && j == k,
        _ => false,
    }
}

/// Whether in a line of this role a process's life on a machine ends; these are the messages that kill it.
pub fn is_end(pid: Pid, kills: &[MsgId], role: Role) -> bool
    ensures { result ≡ is_end pid kills.now role }
{
    match role {
        Role::Note(Life::Ends(p)) => same_pid(p, pid),
        Role::Note(Life::Leaves(p)) => same_pid(p, pid),
        Role::Note(Life::Served(id)) => is_among(id, kills),
        _ => false,
    }
}

/// Whether in a line of this role it waits no more.
pub fn is_wait_end(pid: Pid, kills: &[MsgId], role: Role) -> bool
    ensures { result ≡ is_wait_end pid kills.now role }
{
    match role {
        Role::Note(Life::Wakes(p)) => same_pid(p, pid),
        Role::Note(Life::Ends(p)) => same_pid(p, pid),
        Role::Note(Life::Leaves(p)) => same_pid(p, pid),
        Role::Note(Life::Served(id)) => is_among(id, kills),
        _ => false,
    }
}

/// Whether in a line of this role a process goes on.
pub fn is_restart(pid: Pid, role: Role) -> bool
    ensures { result ≡ is_restart pid role }
{
    match role {
        Role::Note(Life::From(p)) => same_pid(p, pid),
        _ => false,
    }
}

/// Whether two names of processes are one.
pub fn same_pid(p: Pid, q: Pid) -> bool
    ensures { result ≡ pid_eq p q }
{
    p.home == q.home && p.num == q.num
}

/// Whether two names of messages are one.
fn same_id(i: MsgId, j: MsgId) -> bool
    ensures { result ≡ id_eq i j }
{
    same_pid(i.from, j.from) && i.n == j.n && i.answer == j.answer
}

fn is_among(id: MsgId, ids: &[MsgId]) -> bool
    ensures { result ≡ message_is_among id ids.now }
{
    ids.iter().any(|i| same_id(*i, id))
}

/// The messages of these lines that kill a process.
#[tactic(auto, using(crate::proofs::Pieces::flat_lemmas))]
pub fn kills_of(alloc: Global, lines: &[Line], pid: Pid) -> Result<Items<MsgId>, NoMemory>
    ensures { IfOk result (λ ids. ids ≡ kills_of pid lines.now) }
{
    let mut ids = Items::new(alloc);
    for line in lines {
        add(&mut ids, kill_in(pid, role_of(line)))?;
    }
    Ok(ids)
}

/// Adds a message, where there is one.
fn add(ids: &mut Items<MsgId>, found: Option<MsgId>) -> Result<(), NoMemory>
    ensures { OnOk result (ids.new ≡ ids.old ++ option_to_list found) }
{
    let Some(id) = found else {
        return Ok(());
    };
    ids.push(id)
}

/// The message that kills a process, where it is put.
fn kill_in(pid: Pid, role: Role) -> Option<MsgId>
    ensures { option_to_list result ≡ kill_in pid role }
{
    match role {
        Role::Put(letter) => kill_with(pid, letter),
        _ => None,
    }
}

fn kill_with(pid: Pid, letter: Letter) -> Option<MsgId>
    ensures { option_to_list result ≡ kill_with pid letter.id letter.kind letter.receiver }
{
    match letter.kind {
        MessageKind::Kill => {
            if same_pid(letter.receiver, pid) {
                Some(letter.id)
            } else {
                None
            }
        }
        _ => None,
    }
}

/// Whether a process waits behind these lines.
#[tactic(auto, using(crate::proofs::Walks::wait_lemmas))]
pub fn waits_behind(lines: &[Line], pid: Pid) -> bool
    ensures { result ≡ waits_behind pid false lines.now }
{
    let mut waits = false;
    for line in lines {
        waits = waits_on(pid, waits, role_of(line));
    }
    waits
}

/// Whether a process waits, with a line of this role.
fn waits_on(pid: Pid, waits: bool, role: Role) -> bool
    ensures { result ≡ waits_on pid waits role }
{
    match role {
        Role::Note(life) => waits_with(pid, waits, life),
        _ => waits,
    }
}

fn waits_with(pid: Pid, waits: bool, life: Life) -> bool
    ensures { result ≡ waits_with pid waits life }
{
    match life {
        Life::Waits(p) => { if same_pid(p, pid) { true } else { waits } }
        Life::Wakes(p) => { if same_pid(p, pid) { false } else { waits } }
        _ => waits,
    }
}

/// What a message says that tells where a process is.
#[derive(Clone, Copy)]
pub struct News {
    /// Whose links follow.
    pub whom: Pid,
    /// The process that has moved, and the machine to which it has gone.
    pub of: Pid,
    pub at: u8,
}

/// What a message says that tells where a process is, by the lines before: it is put behind the message that was forwarded.
#[tactic(auto, using(crate::proofs::Walks::news_lemmas))]
pub fn news_of(lines: &[Line], id: MsgId) -> Option<News>
    ensures { result ≡ news_of id lines.now }
{
    let mut last: Option<Letter> = None;
    for line in lines {
        let role = role_of(line);
        if puts_it(id, role) {
            return news_here(role, last);
        }
        last = letter_last(last, role);
    }
    None
}

/// The last message that was put, with a line of this role.
fn letter_last(last: Option<Letter>, role: Role) -> Option<Letter>
    ensures { result ≡ letter_last last role }
{
    match role {
        Role::Put(letter) => Some(letter),
        _ => last,
    }
}

fn news_here(role: Role, last: Option<Letter>) -> Option<News>
    ensures { result ≡ news_here role last }
{
    match role {
        Role::Put(letter) => news_behind(letter, last),
        _ => None,
    }
}

fn news_behind(letter: Letter, last: Option<Letter>) -> Option<News>
    ensures { result ≡ news_behind letter last }
{
    let forwarded = last?;
    Some(News {
        whom: letter.receiver,
        of: forwarded.receiver,
        at: forwarded.to,
    })
}

/// Whether a line of this role puts a message.
fn puts_it(id: MsgId, role: Role) -> bool
    ensures { result ≡ puts_it id role }
{
    match role {
        Role::Put(letter) => same_id(letter.id, id),
        _ => false,
    }
}

/// Whether one of these lines put a message.
pub fn was_put(lines: &[Line], id: MsgId) -> bool
    ensures { result ≡ was_put id lines.now }
{
    lines.iter().any(|line| puts_id(id, line))
}

fn puts_id(id: MsgId, line: &Line) -> bool
    ensures { result ≡ puts_id id line.now }
{
    match role_of(line) {
        Role::Put(letter) => same_id(letter.id, id),
        _ => false,
    }
}

/// How many messages these lines put from one machine to another: the number of the next one on the stream.
pub fn number_among(lines: &[Line], from: u8, to: u8) -> usize
    ensures { result ≡ number_among from to lines.now }
{
    lines
        .iter()
        .filter(|line| puts_between(from, to, line))
        .count()
}

fn puts_between(from: u8, to: u8, line: &Line) -> bool
    ensures { result ≡ puts_between from to line.now }
{
    match role_of(line) {
        Role::Put(letter) => letter.from == from && letter.to == to,
        _ => false,
    }
}
