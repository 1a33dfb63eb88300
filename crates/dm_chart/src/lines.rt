//! The shapes of lines.
ghost use Rattle.std.specs.Prelude.{◌≡◌, [], ◌∷◌, ◌++◌, ◌<◌, IfOk, IsTrue, OnOk, false, length, slice_index_or, true};
ghost use Rattle.dm_chart.specs.Ahead.{first_ahead, is_end, is_restart};
ghost use Rattle.dm_chart.specs.Behind.{kills_of, waits_behind};
ghost use Rattle.dm_chart.specs.Drawn.{all_drawn, draw_note, unless_over};
ghost use Rattle.dm_chart.specs.Layers.{end_seen};
ghost use Rattle.dm_chart.specs.Left.{IsLeft};
ghost use Rattle.dm_chart.specs.Notes.{note_of};
ghost use Rattle.dm_chart.specs.Shapes.{bar, comes_at, deliveries, fate_here, group_shapes, letter_shapes, life_shapes, line_shapes, moves_shown, own_shapes, row_or, sending_shapes, shapes_from, wait, wait_if};
ghost use Rattle.dm_chart.specs.Spots.{first_spot};

use crate::bars::{put_bar, put_moves, put_waits};
use crate::frame::{Frame, Place, lane_of};
use crate::headings::put_group;
use crate::layers::{bar_shows, end_shows, letter_shows, move_shows, packet_shows, wait_shows};
use crate::notes::put_note;
use crate::role::{Letter, Life, Role, role_of};
use crate::scan::{
    Wanted, first_ahead, is_delivery, kills_of, number_among, waits_behind, was_put,
};
use crate::spot::{Spot, first_spot, next_spot};
use crate::style::style_of;
use crate::ways::{put_arrow, put_lost, put_marked_packet, put_packet};
use dm_line::line::Line;
use dm_link::Pid;
use dm_memory::NoMemory;
use std::alloc::Global;

/// The way of a packet: from a machine to a machine, as packet k, from a row on.
#[derive(Clone, Copy)]
struct Sending {
    from: u8,
    to: u8,
    k: u64,
    row: u32,
    /// It goes out with its message.
    own: bool,
}

/// All lines, and those before and after one of them.
#[derive(Clone, Copy)]
struct Page<'a> {
    all: &'a [Line],
    before: &'a [Line],
    after: &'a [Line],
}

/// Draws all lines, by what may be left of those that stand before the first group that is shown.
pub fn put_lines(
    alloc: Global,
    into: &mut Vec<u8>,
    frame: &Frame,
    lines: &[Line],
    left: &[bool],
) -> Result<(), NoMemory>
    requires { IsLeft frame.now lines.now left.now }
    ensures { OnOk result (into.new.items ≡ into.old.items ++ all_drawn frame.now (shapes_from frame.now.rows lines.now [] (first_spot frame.now.hidden) lines.now)) }
{
    let mut spot = first_spot(frame.hidden);
    for (i, line) in lines.iter().enumerate() {
        let page = Page {
            all: lines,
            before: &lines[..i],
            after: &lines[i + 1..],
        };
        put_unless(alloc, into, frame, &page, spot, line, is_over(left, i))?;
        spot = next_spot(spot, line);
    }
    Ok(())
}

/// Whether nothing is left to draw of line i, the first at 0.
fn is_over(left: &[bool], i: usize) -> bool
    ensures within { IsTrue result → i < length left.now }
    ensures over { IsTrue result → slice_index_or left.now i true ≡ false }
{
    i < left.len() && !left[i]
}

/// Draws a line of a page, unless nothing is left to draw of it.
fn put_unless(
    alloc: Global,
    into: &mut Vec<u8>,
    frame: &Frame,
    page: &Page,
    before: Spot,
    line: &Line,
    over: bool,
) -> Result<(), NoMemory>
    requires { IsTrue over → all_drawn frame.now (line_shapes frame.now.rows page.now.all.now page.now.before.now before line.now page.now.after.now) ≡ [] }
    ensures { OnOk result (into.new.items ≡ into.old.items ++
        all_drawn frame.now (line_shapes frame.now.rows page.now.all.now page.now.before.now before line.now page.now.after.now)) }
{
    if over {
        Ok(())
    } else {
        put_line(alloc, into, frame, page, before, line)
    }
}

/// Draws a line of a page.
#[tactic(auto, using(crate::proofs::Walks::drawn_lemmas))]
fn put_line(
    alloc: Global,
    into: &mut Vec<u8>,
    frame: &Frame,
    page: &Page,
    before: Spot,
    line: &Line,
) -> Result<(), NoMemory>
    ensures { OnOk result (into.new.items ≡ into.old.items ++
        all_drawn frame.now (line_shapes frame.now.rows page.now.all.now page.now.before.now before line.now page.now.after.now)) }
{
    let spot = next_spot(before, line);
    put_beginning(into, frame, before, spot)?;
    put_role(alloc, into, frame, page, before.own, spot, role_of(line))?;
    let place = Place {
        frame,
        m: spot.machine,
        row: spot.row,
    };
    put_row_note(into, &place, page.before, line)
}

/// Writes what is said of a line, unless it stands before the first row.
fn put_row_note(
    into: &mut Vec<u8>,
    place: &Place<'_>,
    before: &[Line],
    line: &Line,
) -> Result<(), NoMemory>
    ensures { OnOk result (into.new.items ≡ into.old.items ++
        unless_over place.now.row (draw_note place.now.frame.now place.now.m place.now.row (note_of before.now line.now))) }
{
    if place.row == 0 {
        Ok(())
    } else {
        put_note(into, place, before, line)
    }
}

/// Draws that a group begins, where this is its first row.
fn put_beginning(
    into: &mut Vec<u8>,
    frame: &Frame,
    before: Spot,
    spot: Spot,
) -> Result<(), NoMemory>
    ensures { OnOk result (into.new.items ≡ into.old.items ++ all_drawn frame.now (group_shapes before spot)) }
{
    if !before.begun && spot.begun {
        put_group(
            into,
            frame,
            spot.row,
            spot.groups.saturating_sub(1),
            spot.step,
        )
    } else {
        Ok(())
    }
}

/// Draws what a line of this role is for the picture, behind which it stands at a place.
fn put_role(
    alloc: Global,
    into: &mut Vec<u8>,
    frame: &Frame,
    page: &Page,
    own: bool,
    spot: Spot,
    role: Role,
) -> Result<(), NoMemory>
    ensures { OnOk result (into.new.items ≡ into.old.items ++
        all_drawn frame.now (own_shapes frame.now.rows page.now.all.now own page.now.before.now spot page.now.after.now role)) }
{
    match role {
        Role::Put(letter) => put_letter(into, frame, letter, spot, page.before, page.after),
        Role::Packet { from, to, k, .. } => {
            let row = spot.row;
            let sending = Sending {
                from,
                to,
                k,
                row,
                own,
            };
            put_sending(into, frame, sending, spot, page.after)
        }
        Role::Note(life) => put_life(alloc, into, frame, page, life, spot),
        Role::Head(_)
        | Role::Taken { .. }
        | Role::Early { .. }
        | Role::Again { .. }
        | Role::Unseen => Ok(()),
    }
}

/// Draws a message that is put.
#[tactic(auto, using(crate::proofs::Layered::end_is_seen))]
fn put_letter(
    into: &mut Vec<u8>,
    frame: &Frame,
    letter: Letter,
    spot: Spot,
    before: &[Line],
    after: &[Line],
) -> Result<(), NoMemory>
    ensures { OnOk result (into.new.items ≡ into.old.items ++ all_drawn frame.now (letter_shapes letter before.now spot after.now)) }
{
    if !letter_shows(frame) {
        return Ok(());
    }
    let style = style_of(spot.step, letter.kind, was_put(before, letter.id));
    let last = end_seen(frame, letter, spot, before, after);
    put_arrow(into, frame, style, letter, spot.row, last)
}

/// The row at which a message enters an inbox, where this layer shows it.
fn end_seen(
    frame: &Frame,
    letter: Letter,
    spot: Spot,
    before: &[Line],
    after: &[Line],
) -> Option<u32>
    ensures { result ≡ end_seen frame.now.layer letter before.now spot after.now }
{
    if end_shows(frame, spot) {
        comes_at(letter.from, letter.to, before, spot, after)
    } else {
        None
    }
}

/// The row at which a message enters an inbox.
#[tactic(auto, unfolding(crate::specs::Ahead::is_wanted), using(crate::proofs::Walks::drawn_lemmas))]
fn comes_at(from: u8, to: u8, before: &[Line], spot: Spot, after: &[Line]) -> Option<u32>
    ensures { result ≡ comes_at from to before.now spot after.now }
{
    if from == to {
        return Some(spot.row);
    }
    let n = number_among(before, from, to);
    match first_ahead(Wanted::Taken { from, to, n }, spot, after) {
        Some(found) => Some(found.row),
        None => None,
    }
}

/// Draws a packet, each time that it is delivered, or that it never is.
#[tactic(auto, unfolding(crate::specs::Ahead::is_wanted), using(crate::proofs::Walks::drawn_lemmas))]
fn put_sending(
    into: &mut Vec<u8>,
    frame: &Frame,
    sending: Sending,
    spot: Spot,
    after: &[Line],
) -> Result<(), NoMemory>
    ensures { OnOk result (into.new.items ≡ into.old.items ++
        all_drawn frame.now (sending_shapes sending.from sending.to sending.k sending.row sending.own spot after.now)) }
{
    if !packet_shows(frame) {
        return Ok(());
    }
    let Sending {
        from,
        to,
        k,
        row,
        ..
    } = sending;
    put_deliveries(into, frame, sending, spot, after)?;
    if first_ahead(Wanted::Delivery { from, to, k }, spot, after).is_some() {
        Ok(())
    } else {
        put_lost(into, frame, from, to, row)
    }
}

/// Draws a packet, each time that it is delivered.
fn put_deliveries(
    into: &mut Vec<u8>,
    frame: &Frame,
    sending: Sending,
    from: Spot,
    lines: &[Line],
) -> Result<(), NoMemory>
    ensures { OnOk result (into.new.items ≡ into.old.items ++
        all_drawn frame.now (deliveries sending.from sending.to sending.k sending.row sending.own false from lines.now)) }
{
    let mut due = false;
    let mut spot = from;
    for line in lines {
        spot = next_spot(spot, line);
        let role = role_of(line);
        put_fate(into, frame, sending, due, spot, role)?;
        due = is_delivery(sending.from, sending.to, sending.k, role);
    }
    Ok(())
}

/// Draws what becomes of a packet, where it is due.
fn put_fate(
    into: &mut Vec<u8>,
    frame: &Frame,
    sending: Sending,
    due: bool,
    spot: Spot,
    role: Role,
) -> Result<(), NoMemory>
    ensures { OnOk result (into.new.items ≡ into.old.items ++ all_drawn frame.now (fate_here due sending.from sending.to sending.row sending.own spot role)) }
{
    let Sending {
        from,
        to,
        row,
        own,
        ..
    } = sending;
    if !due {
        return Ok(());
    }
    match role {
        Role::Taken { .. } => {
            if own {
                Ok(())
            } else {
                put_packet(into, frame, from, to, row, spot.row)
            }
        }
        Role::Early { .. } => { put_marked_packet(into, frame, "#early", from, to, row, spot.row) }
        Role::Again { .. } => { put_marked_packet(into, frame, "#again", from, to, row, spot.row) }
        Role::Head(_) | Role::Put(_) | Role::Packet { .. } | Role::Note(_) | Role::Unseen => Ok(()),
    }
}

/// Draws what a line tells of a process's life on the machine of its group.
fn put_life(
    alloc: Global,
    into: &mut Vec<u8>,
    frame: &Frame,
    page: &Page,
    life: Life,
    spot: Spot,
) -> Result<(), NoMemory>
    ensures { OnOk result (into.new.items ≡ into.old.items ++
        all_drawn frame.now (life_shapes frame.now.rows page.now.all.now page.now.before.now life spot page.now.after.now)) }
{
    let m = spot.machine;
    match life {
        Life::Made(pid) => put_living(alloc, into, frame, pid, m, spot, page.all, page.after),
        Life::From(pid) => put_going_on(alloc, into, frame, page, pid, spot),
        Life::Leaves(pid) => put_moving(into, frame, pid, spot, page.after),
        Life::Waits(pid) => put_waiting(alloc, into, frame, pid, spot, page.all, page.after),
        Life::Same | Life::Ends(_) | Life::Served(_) | Life::Wakes(_) => Ok(()),
    }
}

/// Draws a process's life from where it goes on, and that it waits, where it did when it was frozen.
#[tactic(auto, using(crate::proofs::Walks::drawn_lemmas))]
fn put_going_on(
    alloc: Global,
    into: &mut Vec<u8>,
    frame: &Frame,
    page: &Page,
    pid: Pid,
    spot: Spot,
) -> Result<(), NoMemory>
    ensures { OnOk result (into.new.items ≡ into.old.items ++
        all_drawn frame.now
        ((bar frame.now.rows page.now.all.now pid spot.machine spot page.now.after.now ∷ [])
        ++ wait_if (waits_behind pid false page.now.before.now) frame.now.rows page.now.all.now pid spot page.now.after.now)) }
{
    put_living(
        alloc,
        into,
        frame,
        pid,
        spot.machine,
        spot,
        page.all,
        page.after,
    )?;
    if waits_behind(page.before, pid) {
        put_waiting(alloc, into, frame, pid, spot, page.all, page.after)
    } else {
        Ok(())
    }
}

/// Draws that a process waits, from a place on.
#[tactic(auto, unfolding(crate::specs::Ahead::is_wanted), using(crate::proofs::Walks::drawn_lemmas))]
fn put_waiting(
    alloc: Global,
    into: &mut Vec<u8>,
    frame: &Frame,
    pid: Pid,
    spot: Spot,
    lines: &[Line],
    after: &[Line],
) -> Result<(), NoMemory>
    ensures { OnOk result (into.new.items ≡ into.old.items ++ all_drawn frame.now (wait frame.now.rows lines.now pid spot after.now ∷ [])) }
{
    if !wait_shows(frame, pid) {
        return Ok(());
    }
    let kills = kills_of(alloc, lines, pid)?;
    let kills = kills.as_slice();
    let last = match first_ahead(Wanted::WaitEnd { pid, kills }, spot, after) {
        Some(found) => found.row,
        None => frame.rows,
    };
    put_waits(
        into,
        frame,
        spot.machine,
        spot.row,
        last,
        lane_of(frame, pid),
    )
}

/// Draws a process's life on a machine, from a place on.
#[tactic(auto, using(crate::proofs::Walks::drawn_lemmas))]
pub fn put_living(
    alloc: Global,
    into: &mut Vec<u8>,
    frame: &Frame,
    pid: Pid,
    m: u8,
    spot: Spot,
    lines: &[Line],
    after: &[Line],
) -> Result<(), NoMemory>
    ensures { OnOk result (into.new.items ≡ into.old.items ++ all_drawn frame.now (bar frame.now.rows lines.now pid m spot after.now ∷ [])) }
{
    if !bar_shows(frame, pid) {
        return Ok(());
    }
    let last = end_of(alloc, frame, pid, spot, lines, after)?;
    put_bar(into, frame, pid, m, spot.row, last, lane_of(frame, pid))
}

/// The row at which a process's life on a machine ends, from a place on; the last one, where it goes on.
#[tactic(auto, unfolding(crate::specs::Ahead::is_wanted))]
fn end_of(
    alloc: Global,
    frame: &Frame,
    pid: Pid,
    spot: Spot,
    lines: &[Line],
    after: &[Line],
) -> Result<u32, NoMemory>
    ensures { IfOk result (λ last. last ≡ row_or frame.now.rows (first_ahead (is_end pid (kills_of pid lines.now)) spot after.now)) }
{
    let kills = kills_of(alloc, lines, pid)?;
    let kills = kills.as_slice();
    match first_ahead(Wanted::End { pid, kills }, spot, after) {
        Some(found) => Ok(found.row),
        None => Ok(frame.rows),
    }
}

/// Draws where a process goes on that leaves, or that it is still frozen behind the last row.
#[tactic(auto, unfolding(crate::specs::Ahead::is_wanted), using(crate::proofs::Walks::drawn_lemmas))]
fn put_moving(
    into: &mut Vec<u8>,
    frame: &Frame,
    pid: Pid,
    spot: Spot,
    after: &[Line],
) -> Result<(), NoMemory>
    ensures { OnOk result (into.new.items ≡ into.old.items ++ all_drawn frame.now (moves_shown frame.now.rows pid spot (first_ahead (is_restart pid) spot after.now))) }
{
    if !move_shows(frame, pid) {
        return Ok(());
    }
    let (machine, row) = match first_ahead(Wanted::Restart(pid), spot, after) {
        Some(found) => (found.machine, found.row),
        None => (spot.machine, frame.rows),
    };
    put_moves(
        into,
        frame,
        spot.machine,
        spot.row,
        machine,
        row,
        lane_of(frame, pid),
    )
}
