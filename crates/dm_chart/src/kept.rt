//! Which groups a picture shows.
ghost use Rattle.std.specs.Prelude.{◌≡◌, ◌≤◌, ◌++◌, OnOk};
ghost use Rattle.dm_chart.specs.Kept.{comes_before, is_put_line, keep, messages_in, none_kept, plus, rows_fit, rows_in};

use crate::role::{Role, role_of};
use crate::spot::{MOST_ROWS, first_spot, shown_spot};
use dm_line::line::Line;
use dm_lists::Items;
use dm_memory::NoMemory;
use std::alloc::Global;

/// The groups of a run that a picture is asked for, by their numbers, from 1.
#[derive(Clone, Copy)]
pub struct Part {
    /// The first of them and the last; there is none of them where the last comes before the first.
    pub first: u64,
    pub last: u64,
}

/// All groups of a run.
pub const ALL_GROUPS: Part = Part {
    first: 1,
    last: u64::MAX,
};

/// The groups of a run that a picture shows: of those that it is asked for those of which something is seen, one after
/// another, as long as there is room; and how many there were.
#[derive(Drop)]
pub struct Kept {
    pub part: Part,
    /// Of each group that is shown, which one of the run it is, from 1.
    pub numbers: Items<u64>,
    /// The lines of those before them, and then their own.
    pub lines: Items<Line>,
    /// How many of these lines stand before the first group that is shown.
    pub hidden: u64,
    pub rows: u32,
    /// A group was left out for want of room.
    pub full: bool,
    pub groups: u64,
    pub messages: u64,
    pub left_groups: u64,
    pub left_messages: u64,
}

impl Kept {
    /// No group has come, of a picture of these groups.
    pub fn new(alloc: Global, part: Part) -> Kept
        ensures { result ≡ none_kept part }
    {
        Kept {
            part,
            numbers: Items::new(alloc),
            lines: Items::new(alloc),
            hidden: 0,
            rows: 0,
            full: false,
            groups: 0,
            messages: 0,
            left_groups: 0,
            left_messages: 0,
        }
    }
}

/// One more group.
#[tactic(auto, unfolding(crate::specs::Kept::keep))]
pub fn keep(kept: &mut Kept, group: Vec<Line>) -> Result<(), NoMemory>
    requires { kept.old.rows ≤ MOST_ROWS }
    ensures kept { OnOk result (kept.new ≡ keep kept.old group.items) }
    ensures rows { OnOk result (kept.new.rows ≤ MOST_ROWS) }
{
    let rows = rows_in(group.as_slice());
    let messages = messages_in(group.as_slice()) as u64;
    let number = plus(kept.groups, 1);
    if rows > 0 {
        if comes_before(kept) {
            append(&mut kept.lines, group)?;
            kept.hidden = kept.lines.len() as u64;
        } else if fits(kept, rows) {
            kept.numbers.push(number)?;
            append(&mut kept.lines, group)?;
            kept.rows += rows;
        } else {
            kept.full = true;
            kept.left_groups = plus(kept.left_groups, 1);
            kept.left_messages = plus(kept.left_messages, messages);
        }
    }
    kept.groups = number;
    kept.messages = plus(kept.messages, messages);
    Ok(())
}

/// Whether one group more stands before the first that is to be shown.
fn comes_before(kept: &Kept) -> bool
    ensures { result ≡ comes_before kept.now }
{
    !kept.full && plus(kept.groups, 1) < kept.part.first
}

/// Whether one group more is to be shown, and its rows have room.
fn fits(kept: &Kept, rows: u32) -> bool
    requires kept { kept.now.rows ≤ MOST_ROWS }
    requires rows { rows ≤ MOST_ROWS }
    ensures { result ≡ rows_fit kept.now rows }
{
    !kept.full && plus(kept.groups, 1) <= kept.part.last && kept.rows + rows < MOST_ROWS
}

/// A sum within 64 bits.
fn plus(a: u64, b: u64) -> u64
    ensures { result ≡ plus a b }
{
    a.saturating_add(b)
}

/// How many rows a group has.
#[tactic(auto, using(crate::proofs::Walks::behind_lemmas))]
fn rows_in(group: &[Line]) -> u32
    ensures rows { result ≡ rows_in group.now }
    ensures most { result ≤ MOST_ROWS }
{
    let mut spot = first_spot(0);
    for line in group {
        spot = shown_spot(spot, line);
    }
    spot.row
}

/// How many messages a group puts.
fn messages_in(group: &[Line]) -> usize
    ensures { result ≡ messages_in group.now }
{
    let mut count = 0;
    for line in group {
        if puts(line) {
            count += 1;
        }
    }
    count
}

#[tactic(auto, unfolding(crate::specs::Kept::is_put_line))]
fn puts(line: &Line) -> bool
    ensures { result ≡ is_put_line line.now }
{
    matches!(role_of(line), Role::Put(_))
}

/// Adds lines at the end.
fn append(lines: &mut Items<Line>, group: Vec<Line>) -> Result<(), NoMemory>
    ensures { OnOk result (lines.new ≡ lines.old ++ group.items) }
{
    for line in group {
        lines.push(line)?;
    }
    Ok(())
}
