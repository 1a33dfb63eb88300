//! Which of the lines before the first group that is shown may leave something to draw: so the others needn't be asked again for
//! each layer what becomes of what they begin.
ghost use Rattle.std.specs.Prelude.{◌≡◌, ℕ, ◌<◌, ◌≤◌, ◌+◌, ◌*◌, IfOk, IsTrue, slice_index};
ghost use Rattle.std.specs.List.{list_any};
ghost use Rattle.dm_chart.specs.Left.{IsLeft, counted, delivers_it, ends_it, is_counted, letter_left, letter_number, life_left, number_in, restarts_it, role_left, takes_it, wakes_it, with_letter};

use crate::frame::{Frame, lane_of};
use crate::role::{Letter, Life, Role, role_of};
use crate::scan::{is_delivery, is_end, is_restart, is_taken, is_wait_end};
use dm_line::line::Line;
use dm_link::Pid;
use dm_lists::Items;
use dm_memory::NoMemory;
use std::alloc::Global;

/// The most machines.
const MACHINES: u8 = 16;

/// Of each line before the first group that is shown, whether something may be left to draw of it.
pub fn left_of(alloc: Global, frame: &Frame, lines: &[Line]) -> Result<Items<bool>, NoMemory>
    ensures { IfOk result (λ left. IsLeft frame.now lines.now left) }
{
    let hidden = hidden_within(frame, lines.len());
    let front = &lines[..hidden];
    let mut left = Items::new(alloc);
    let mut counts = [0_usize; 256];
    for (i, line) in front.iter().enumerate() {
        let due = &lines[hidden - 1..];
        let role = role_of(line);
        let number = number_in(&counts, role);
        left.push(role_left(frame, number, &front[i + 1..], due, role))?;
        count(&mut counts, role);
    }
    Ok(left)
}

/// How many of so many lines stand before the first group that is shown.
fn hidden_within(frame: &Frame, count: usize) -> usize
    ensures within { result ≤ count }
    ensures few { result ≤ frame.now.hidden }
{
    if frame.hidden < count as u64 {
        frame.hidden as usize
    } else {
        count
    }
}

/// Where the messages from one machine to another are counted.
fn place(from: u8, to: u8) -> usize
    requires from { from < MACHINES }
    requires to { to < MACHINES }
    ensures place { result ≡ 16 * from + to }
    ensures within { result < 256 }
{
    16 * from as usize + to as usize
}

/// Whether a message is put between two of sixteen machines.
fn is_counted(letter: Letter) -> bool
    ensures counted { result ≡ is_counted letter }
    ensures from { IsTrue result → letter.from < MACHINES }
    ensures to { IsTrue result → letter.to < MACHINES }
{
    letter.from < MACHINES && letter.to < MACHINES
}

/// The number on its stream of the message that a line of this role puts, between two of sixteen machines.
fn number_in(counts: &[usize; 256], role: Role) -> Option<usize>
    ensures { result ≡ number_in counts.now role }
{
    match role {
        Role::Put(letter) => letter_number(counts, letter),
        _ => None,
    }
}

fn letter_number(counts: &[usize; 256], letter: Letter) -> Option<usize>
    ensures { result ≡ letter_number counts.now letter }
{
    if is_counted(letter) {
        Some(counts[place(letter.from, letter.to)])
    } else {
        None
    }
}

/// Counts the message that a line of this role puts.
fn count(counts: &mut [usize; 256], role: Role)
    requires { (k : ℕ) → k < 256 → slice_index counts.old k < usize.MAX }
    ensures { counts.new ≡ counted counts.old role }
{
    match role {
        Role::Put(letter) => count_letter(counts, letter),
        _ => {}
    }
}

fn count_letter(counts: &mut [usize; 256], letter: Letter)
    requires { (k : ℕ) → k < 256 → slice_index counts.old k < usize.MAX }
    ensures { counts.new ≡ with_letter counts.old letter }
{
    if is_counted(letter) {
        let at = place(letter.from, letter.to);
        counts[at] += 1;
    }
}

/// Whether something may be left to draw of a line of this role, by the number of its message, the lines ahead that aren't
/// shown, and the last of these with all that are.
fn role_left(frame: &Frame, number: Option<usize>, ahead: &[Line], due: &[Line], role: Role) -> bool
    ensures { result ≡ role_left frame.now number ahead.now due.now role }
{
    match role {
        Role::Put(letter) => letter_left(number, ahead, letter),
        Role::Packet { from, to, k, .. } => delivers(due, from, to, k),
        Role::Note(life) => life_left(frame, ahead, life),
        _ => false,
    }
}

fn letter_left(number: Option<usize>, ahead: &[Line], letter: Letter) -> bool
    ensures { result ≡ letter_left number ahead.now letter }
{
    match number {
        None => true,
        Some(n) => letter.from != letter.to && !takes(ahead, letter.from, letter.to, n),
    }
}

fn life_left(frame: &Frame, ahead: &[Line], life: Life) -> bool
    ensures { result ≡ life_left frame.now ahead.now life }
{
    match life {
        Life::Made(pid) | Life::From(pid) => lane_of(frame, pid).is_some() && !ends(ahead, pid),
        Life::Leaves(pid) => lane_of(frame, pid).is_some() && !restarts(ahead, pid),
        Life::Waits(pid) => lane_of(frame, pid).is_some() && !wakes(ahead, pid),
        Life::Same | Life::Ends(_) | Life::Served(_) | Life::Wakes(_) => false,
    }
}

/// Whether one of these lines takes a message into an inbox.
fn takes(lines: &[Line], from: u8, to: u8, n: usize) -> bool
    ensures { result ≡ list_any (takes_it from to n) lines.now }
{
    lines.iter().any(|line| takes_it(line, from, to, n))
}

fn takes_it(line: &Line, from: u8, to: u8, n: usize) -> bool
    ensures { result ≡ takes_it from to n line.now }
{
    is_taken(from, to, n, role_of(line))
}

/// Whether one of them delivers a packet.
fn delivers(lines: &[Line], from: u8, to: u8, k: u64) -> bool
    ensures { result ≡ list_any (delivers_it from to k) lines.now }
{
    lines.iter().any(|line| delivers_it(line, from, to, k))
}

fn delivers_it(line: &Line, from: u8, to: u8, k: u64) -> bool
    ensures { result ≡ delivers_it from to k line.now }
{
    is_delivery(from, to, k, role_of(line))
}

/// Whether a process's life on a machine ends in one of them, not counting messages that kill it.
fn ends(lines: &[Line], pid: Pid) -> bool
    ensures { result ≡ list_any (ends_it pid) lines.now }
{
    lines.iter().any(|line| ends_it(line, pid))
}

fn ends_it(line: &Line, pid: Pid) -> bool
    ensures { result ≡ ends_it pid line.now }
{
    is_end(pid, &[], role_of(line))
}

/// Whether it waits no more.
fn wakes(lines: &[Line], pid: Pid) -> bool
    ensures { result ≡ list_any (wakes_it pid) lines.now }
{
    lines.iter().any(|line| wakes_it(line, pid))
}

fn wakes_it(line: &Line, pid: Pid) -> bool
    ensures { result ≡ wakes_it pid line.now }
{
    is_wait_end(pid, &[], role_of(line))
}

/// Whether it goes on.
fn restarts(lines: &[Line], pid: Pid) -> bool
    ensures { result ≡ list_any (restarts_it pid) lines.now }
{
    lines.iter().any(|line| restarts_it(line, pid))
}

fn restarts_it(line: &Line, pid: Pid) -> bool
    ensures { result ≡ restarts_it pid line.now }
{
    is_restart(pid, role_of(line))
}
