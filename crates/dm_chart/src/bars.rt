//! Drawing the bars of processes, where they wait and where they move: in each layer what the shape has there.
ghost use Rattle.std.specs.Prelude.{◌≡◌, ◌≤◌, ◌++◌, OnOk};
ghost use Rattle.dm_chart.specs.Drawn.{bar_name, draw_bar, draw_moves, draw_waits, name_again, names_again, unless_over};

use crate::draw::{put_stroke, put_tinted, put_written};
use crate::frame::{
    Frame, Layer, Point, above_next, blocks_before, goes_on, height, lane_at, on_lane,
};
use crate::style::tint;
use dm_link::Pid;
use dm_memory::NoMemory;
use dm_text::word::Word::Process;

/// Draws a process on a machine, from a row to a row, where it has a lane.
pub fn put_bar(
    into: &mut Vec<u8>,
    frame: &Frame,
    pid: Pid,
    m: u8,
    row: u32,
    last: u32,
    lane: Option<usize>,
) -> Result<(), NoMemory>
    ensures { OnOk result (into.new.items ≡ into.old.items ++ unless_over last (draw_bar frame.now pid m row last lane)) }
{
    if last == 0 {
        return Ok(());
    }
    let Some(lane) = lane else {
        return Ok(());
    };
    match frame.layer {
        Layer::Grounds => {
            put_tinted(
                into,
                "b",
                tint(lane),
                on_lane(frame, m, lane, row),
                on_lane(frame, m, lane, last),
            )
        }
        Layer::Ways => Ok(()),
        Layer::Words => {
            let x = lane_at(frame, m, lane);
            put_bar_name(into, x, pid, height(row) - 4)?;
            put_names_again(into, frame, x, pid, row, last)
        }
    }
}

/// Writes a process's name above its bar, which begins at x.
#[tactic(auto, unfolding(crate::specs::Drawn::bar_name))]
fn put_bar_name(into: &mut Vec<u8>, x: u32, pid: Pid, y: u32) -> Result<(), NoMemory>
    requires { 9 ≤ x }
    ensures { OnOk result (into.new.items ≡ into.old.items ++ bar_name x pid y) }
{
    put_written(into, "s", Point { x: x - 9, y }, &[Process(pid)])
}

/// Writes a process's name again, behind each block that its bar goes on behind.
#[tactic(auto, unfolding(crate::specs::Drawn::names_again), using(crate::proofs::Pieces::below_lemmas))]
fn put_names_again(
    into: &mut Vec<u8>,
    frame: &Frame,
    x: u32,
    pid: Pid,
    row: u32,
    last: u32,
) -> Result<(), NoMemory>
    requires { 9 ≤ x }
    ensures { OnOk result (into.new.items ≡ into.old.items ++ names_again frame.now x pid row last) }
{
    for block in 0..blocks_before(frame.rows) {
        put_name_again(into, x, pid, row, last, block)?;
    }
    Ok(())
}

/// Writes a process's name again behind a block, if its bar goes on there.
fn put_name_again(
    into: &mut Vec<u8>,
    x: u32,
    pid: Pid,
    row: u32,
    last: u32,
    block: u32,
) -> Result<(), NoMemory>
    requires x { 9 ≤ x }
    requires block { block ≤ 30 }
    ensures { OnOk result (into.new.items ≡ into.old.items ++ name_again x pid row last block) }
{
    if goes_on(row, last, block) {
        put_bar_name(into, x, pid, above_next(block, 20))
    } else {
        Ok(())
    }
}

/// Draws that a process waits on a machine, from a row to a row, where it has a lane.
pub fn put_waits(
    into: &mut Vec<u8>,
    frame: &Frame,
    m: u8,
    row: u32,
    last: u32,
    lane: Option<usize>,
) -> Result<(), NoMemory>
    ensures { OnOk result (into.new.items ≡ into.old.items ++ unless_over last (draw_waits frame.now m row last lane)) }
{
    if last == 0 {
        return Ok(());
    }
    let Some(lane) = lane else {
        return Ok(());
    };
    match frame.layer {
        Layer::Grounds => {
            put_stroke(
                into,
                "w",
                on_lane(frame, m, lane, row),
                on_lane(frame, m, lane, last),
            )
        }
        Layer::Ways | Layer::Words => Ok(()),
    }
}

/// Draws that a process moves, where it has a lane.
pub fn put_moves(
    into: &mut Vec<u8>,
    frame: &Frame,
    from: u8,
    row: u32,
    to: u8,
    last: u32,
    lane: Option<usize>,
) -> Result<(), NoMemory>
    ensures { OnOk result (into.new.items ≡ into.old.items ++ unless_over last (draw_moves frame.now from row to last lane)) }
{
    if last == 0 {
        return Ok(());
    }
    let Some(lane) = lane else {
        return Ok(());
    };
    match frame.layer {
        Layer::Grounds | Layer::Words => Ok(()),
        Layer::Ways => {
            put_tinted(
                into,
                "v",
                tint(lane),
                on_lane(frame, from, lane, row),
                on_lane(frame, to, lane, last),
            )
        }
    }
}
