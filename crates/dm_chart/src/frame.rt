//! Where things stand in a picture, in units of the picture.
ghost use Rattle.std.specs.Prelude.{◌≡◌, ◌≤◌};
ghost use Rattle.dm_chart.specs.Measures.{above_next, at_least_legend, axis, block_end, blocks_before, breadth, column, few, goes_on, height, lane_at, lane_of, name_at, name_room, number_shown, on_axis, on_lane, rows_within, starts_within, towards, whole_height};

use crate::spot::MOST_ROWS;
use crate::stay::{MOST_LANES, Stay, lane_among, lanes_before};
use dm_link::Pid;
use dm_lists::Items;

/// The breadth of the legend.
const LEGEND: u32 = 620;

/// Where what the rows say stands: left of all machines, so that no arrow goes through it.
pub const WORDS: u32 = 160;

/// No boot file has more processes: 16 machines of at most 64.
const MOST_STARTS: usize = 1024;

/// The rows of a block: above each block but the first the names come again.
const BLOCK: u32 = 40;

/// What is drawn of the shapes: what lies below, what goes from machine to machine, and last the words, so that nothing lies
/// on a word.
#[derive(Clone, Copy)]
pub enum Layer {
    Grounds,
    Ways,
    Words,
}

/// A point of a picture.
#[derive(Clone, Copy)]
pub struct Point {
    pub x: u32,
    pub y: u32,
}

/// What a picture is drawn in.
#[derive(Drop)]
pub struct Frame {
    pub machines: u8,
    /// The processes, of which the first 12 have a lane.
    pub processes: Items<Pid>,
    /// On which machines these ever have a bar, and how many a machine has at most.
    pub stays: Items<Stay>,
    pub lanes: usize,
    /// The number of each group that is shown.
    pub numbers: Items<u64>,
    /// How many rows there are, with one below the last of which nothing is said: all goes into it that goes on.
    pub rows: u32,
    /// How many lines stand before the first group that is shown.
    pub hidden: u64,
    /// The layer that is drawn now.
    pub layer: Layer,
}

/// A row, and the machine of which it says something.
#[derive(Clone, Copy)]
pub struct Place<'a> {
    pub frame: &'a Frame,
    pub m: u8,
    pub row: u32,
}

/// How many lanes there are.
fn few(count: usize) -> u32
    ensures few { result ≡ few count }
    ensures most { result ≤ MOST_LANES }
{
    if count < MOST_LANES { count as u32 } else { 12 }
}

/// The breadth of a machine's column: the axis, and as many lanes as a machine has bars at most.
#[tactic(auto, unfolding(crate::specs::Measures::column))]
pub fn column(frame: &Frame) -> u32
    ensures column { result ≡ column frame.now }
    ensures most { result ≤ 500 }
{
    90 + 22 * few(frame.lanes)
}

/// Where the axis of a machine stands: where its messages leave and enter its inbox.
#[tactic(auto, unfolding(crate::specs::Measures::axis))]
pub fn axis(frame: &Frame, m: u8) -> u32
    ensures axis { result ≡ axis frame.now m }
    ensures least { 440 ≤ result }
    ensures most { result ≤ 200000 }
{
    440 + u32::from(m) * column(frame)
}

/// Where the lane of a process stands on a machine.
#[tactic(auto, unfolding(crate::specs::Measures::lane_at))]
pub fn lane_at(frame: &Frame, m: u8, lane: usize) -> u32
    ensures lane { result ≡ lane_at frame.now m lane }
    ensures least { 440 ≤ result }
    ensures most { result ≤ 210000 }
{
    axis(frame, m) + 20 + 22 * few(lanes_before(frame.stays.as_slice(), m, lane))
}

fn rows_within(row: u32) -> u32
    ensures within { result ≡ rows_within row }
    ensures most { result ≤ MOST_ROWS }
{
    if row < MOST_ROWS { row } else { MOST_ROWS }
}

/// How many whole blocks stand before a row.
#[tactic(auto, unfolding(crate::specs::Measures::blocks_before))]
pub fn blocks_before(row: u32) -> u32
    ensures blocks { result ≡ blocks_before row }
    ensures most { result ≤ 30 }
{
    rows_within(row).saturating_sub(1) / BLOCK
}

/// Where a row stands: above each block but the first there is room for names.
#[tactic(auto, unfolding(crate::specs::Measures::height))]
pub fn height(row: u32) -> u32
    ensures height { result ≡ height row }
    ensures least { 190 ≤ result }
    ensures most { result ≤ 21000 }
{
    190 + 16 * rows_within(row) + 32 * blocks_before(row)
}

/// The last row of a block, the first block at 0.
fn block_end(block: u32) -> u32
    requires { block ≤ 30 }
    ensures end { result ≡ block_end block }
    ensures most { result ≤ 1240 }
{
    BLOCK * (block + 1)
}

/// So far above the first row behind a block.
#[tactic(auto, unfolding(crate::specs::Measures::above_next))]
pub fn above_next(block: u32, up: u32) -> u32
    requires block { block ≤ 30 }
    requires up { up ≤ 100 }
    ensures { result ≡ above_next block up }
{
    height(block_end(block) + 1) - up
}

/// Whether what goes from a row to a row goes on behind a block.
pub fn goes_on(row: u32, last: u32, block: u32) -> bool
    requires { block ≤ 30 }
    ensures { result ≡ goes_on row last block }
{
    let end = block_end(block);
    row <= end && end < last
}

/// A row on the axis of a machine.
pub fn on_axis(frame: &Frame, m: u8, row: u32) -> Point
    ensures { result ≡ on_axis frame.now m row }
{
    Point {
        x: axis(frame, m),
        y: height(row),
    }
}

/// A row on a lane of a machine.
pub fn on_lane(frame: &Frame, m: u8, lane: usize, row: u32) -> Point
    ensures { result ≡ on_lane frame.now m lane row }
{
    Point {
        x: lane_at(frame, m, lane),
        y: height(row),
    }
}

/// So far from the axis of a machine towards another one, and so far down.
pub fn towards(frame: &Frame, from: u8, to: u8, row: u32, far: u32, down: u32) -> Point
    requires far { far ≤ 100 }
    requires down { down ≤ 100 }
    ensures { result ≡ towards frame.now from to row far down }
{
    let x = axis(frame, from);
    Point {
        x: if from < to { x + far } else { x - far },
        y: height(row) + down,
    }
}

/// The breadth of the picture.
#[tactic(auto, unfolding(crate::specs::Measures::breadth))]
pub fn breadth(frame: &Frame) -> u32
    ensures { result ≡ breadth frame.now }
{
    at_least_legend(axis(frame, frame.machines))
}

/// As much as the legend needs.
fn at_least_legend(n: u32) -> u32
    ensures { result ≡ at_least_legend n }
{
    if n < LEGEND { LEGEND } else { n }
}

fn starts_within(count: usize) -> u32
    ensures within { result ≡ starts_within count }
    ensures most { result ≤ MOST_STARTS }
{
    if count < MOST_STARTS {
        count as u32
    } else {
        1024
    }
}

/// Where the name of process i of the boot file stands, the first at 0: four in a row.
#[tactic(auto, unfolding(crate::specs::Measures::name_at))]
pub fn name_at(i: usize) -> Point
    ensures { result ≡ name_at i }
{
    let place = starts_within(i);
    Point {
        x: 10 + 150 * (place % 4),
        y: 36 + 14 * (place / 4),
    }
}

/// How far all goes down for the names of so many processes.
#[tactic(auto, unfolding(crate::specs::Measures::name_room))]
pub fn name_room(count: usize) -> u32
    ensures room { result ≡ name_room count }
    ensures most { result ≤ 4000 }
{
    14 * ((starts_within(count) + 3) / 4)
}

/// The height of the picture, with the names of so many processes.
#[tactic(auto, unfolding(crate::specs::Measures::whole_height))]
pub fn whole_height(frame: &Frame, count: usize) -> u32
    ensures { result ≡ whole_height frame.now count }
{
    height(frame.rows) + 44 + name_room(count)
}

/// The lane of a process, if it has one.
pub fn lane_of(frame: &Frame, pid: Pid) -> Option<usize>
    ensures { result ≡ lane_of frame.now pid }
{
    lane_among(frame.processes.as_slice(), pid)
}

/// The number of a group that is shown, the first at 1.
pub fn number_of(frame: &Frame, group: u32) -> u64
    ensures { result ≡ number_shown frame.now group }
{
    let numbers = frame.numbers.as_slice();
    let place = group as usize;
    if place < numbers.len() {
        numbers[place]
    } else {
        0
    }
}
