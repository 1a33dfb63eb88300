//! The whole picture.
ghost use Rattle.std.specs.Prelude.{◌≡◌, ◌≤◌, ◌-◌, ◌++◌, IfOk, OnOk, codes, length, map, option_to_list};
ghost use Rattle.std.specs.List.{concat, flat_map};
ghost use Rattle.dm_chart.specs.Drawn.{all_drawn};
ghost use Rattle.dm_chart.specs.Left.{IsLeft};
ghost use Rattle.dm_chart.specs.Measures.{name_room};
ghost use Rattle.dm_chart.specs.Picture.{bars_words, beyond_words, extent, foot, foot_line, frame_of, layers, made_in, made_with, moved_down, part_words, picture_body, picture_head, picture_in, picture_of, processes_in, reach_line, sheet, title, title_words, way_down};
ghost use Rattle.dm_chart.specs.Roles.{role_of};
ghost use Rattle.dm_chart.specs.Shapes.{columns, first_bar, shapes};
ghost use Rattle.dm_chart.specs.Spots.{first_spot};
ghost use Rattle.dm_chart.specs.Xml.{opening_tag};

use crate::draw::put_written;
use crate::frame::{Frame, Layer, Point, breadth, height, name_room, whole_height};
use crate::headings::put_column;
use crate::kept::Kept;
use crate::key::{put_marks, put_meanings, put_style_sheet};
use crate::left::left_of;
use crate::lines::{put_lines, put_living};
use crate::role::{Life, Role, role_of};
use crate::spot::{first_spot, more};
use crate::starts::Starts;
use crate::stay::{MOST_LANES, most_on, stays_in};
use crate::xml::{Attribute, put_alone, put_bytes, put_closing, put_opening, put_words};
use dm_line::line::Line;
use dm_link::Pid;
use dm_lists::Items;
use dm_memory::NoMemory;
use dm_text::word::Word::{Byte, Name, Number, Wide};
use std::alloc::Global;

/// How far a picture goes.
#[derive(Clone, Copy)]
pub enum Reach {
    /// To the end of its run.
    Whole,
    /// As far as its run came, before two machines count as many messages as they may.
    BeforeWorn { from: u8, to: u8 },
}

/// The text of the picture of what is kept of a run, a document in the form SVG: for so many machines, and these
/// processes from the start.
#[tactic(auto, unfolding(crate::specs::Picture::picture_of))]
pub fn picture(
    alloc: Global,
    machines: u8,
    starts: &Starts,
    kept: &Kept,
    reach: Reach,
) -> Result<Vec<u8>, NoMemory>
    ensures { IfOk result (λ text. text.items ≡ picture_of machines starts.now.pids starts.now.names.items kept.now reach) }
{
    let mut frame = frame_of(alloc, machines, starts.pids.as_slice(), kept)?;
    let mut text = Vec::new(alloc);
    put_picture(alloc, &mut text, &mut frame, starts, kept, reach)?;
    Ok(text)
}

/// What the picture is drawn in.
fn frame_of(alloc: Global, machines: u8, starts: &[Pid], kept: &Kept) -> Result<Frame, NoMemory>
    ensures { IfOk result (λ f. f ≡ frame_of machines starts.now kept.now) }
{
    let lines = kept.lines.as_slice();
    let processes = processes_in(alloc, starts, lines)?;
    let before = first_spot(kept.hidden);
    let stays = stays_in(alloc, processes.as_slice(), starts, before, lines)?;
    let lanes = most_on(stays.as_slice(), machines);
    let numbers = copied(alloc, kept.numbers.as_slice())?;
    Ok(Frame {
        machines,
        processes,
        stays,
        lanes,
        numbers,
        rows: more(kept.rows),
        hidden: kept.hidden,
        layer: Layer::Grounds,
    })
}

/// These numbers.
fn copied(alloc: Global, numbers: &[u64]) -> Result<Items<u64>, NoMemory>
    ensures { IfOk result (λ ns. ns ≡ numbers.now) }
{
    let mut all = Items::new(alloc);
    for number in numbers {
        all.push(*number)?;
    }
    Ok(all)
}

/// The processes that are there from the start, and those that are made.
fn processes_in(alloc: Global, starts: &[Pid], lines: &[Line]) -> Result<Items<Pid>, NoMemory>
    ensures { IfOk result (λ ps. ps ≡ processes_in starts.now lines.now) }
{
    let mut processes = Items::new(alloc);
    push_starts(&mut processes, starts)?;
    push_made(&mut processes, lines)?;
    Ok(processes)
}

/// Adds the processes that are there from the start.
#[tactic(auto, using(crate::proofs::Pieces::same_lemmas))]
fn push_starts(processes: &mut Items<Pid>, starts: &[Pid]) -> Result<(), NoMemory>
    ensures { OnOk result (processes.new ≡ processes.old ++ starts.now) }
{
    for start in starts {
        processes.push(*start)?;
    }
    Ok(())
}

/// Adds the processes that are made.
#[tactic(auto, using(crate::proofs::Pieces::flat_lemmas))]
fn push_made(processes: &mut Items<Pid>, lines: &[Line]) -> Result<(), NoMemory>
    ensures { OnOk result (processes.new ≡ processes.old ++ flat_map (λ l. made_in (role_of l)) lines.now) }
{
    for line in lines {
        add(processes, made_in(role_of(line)))?;
    }
    Ok(())
}

/// Adds a process, where there is one.
fn add(processes: &mut Items<Pid>, found: Option<Pid>) -> Result<(), NoMemory>
    ensures { OnOk result (processes.new ≡ processes.old ++ option_to_list found) }
{
    let Some(pid) = found else {
        return Ok(());
    };
    processes.push(pid)
}

/// The process that a line of this role makes.
fn made_in(role: Role) -> Option<Pid>
    ensures { option_to_list result ≡ made_in role }
{
    match role {
        Role::Note(life) => made_with(life),
        _ => None,
    }
}

fn made_with(life: Life) -> Option<Pid>
    ensures { option_to_list result ≡ made_with life }
{
    match life {
        Life::Made(pid) => Some(pid),
        _ => None,
    }
}

/// Writes the picture.
fn put_picture(
    alloc: Global,
    into: &mut Vec<u8>,
    frame: &mut Frame,
    starts: &Starts,
    kept: &Kept,
    reach: Reach,
) -> Result<(), NoMemory>
    ensures { OnOk result (into.new.items ≡ into.old.items ++ picture_in frame.old starts.now.pids starts.now.names.items kept.now reach) }
{
    let pids = starts.pids.as_slice();
    put_extent(into, frame, pids.len())?;
    put_head(into, frame, starts, kept)?;
    put_moved_down(alloc, into, frame, pids, kept, reach)?;
    put_closing(into, "svg")
}

/// Writes what goes down to give room to the names.
#[tactic(auto, unfolding(crate::specs::Picture::moved_down, crate::specs::Xml::element_around))]
fn put_moved_down(
    alloc: Global,
    into: &mut Vec<u8>,
    frame: &mut Frame,
    starts: &[Pid],
    kept: &Kept,
    reach: Reach,
) -> Result<(), NoMemory>
    ensures { OnOk result (into.new.items ≡ into.old.items ++ moved_down (name_room (length starts.now)) (picture_body frame.old starts.now kept.now reach)) }
{
    put_way_down(into, name_room(starts.len()))?;
    put_body(alloc, into, frame, starts, kept, reach)?;
    put_closing(into, "g")
}

/// Opens what goes so far down.
fn put_way_down(into: &mut Vec<u8>, room: u32) -> Result<(), NoMemory>
    ensures { OnOk result (into.new.items ≡ into.old.items ++ opening_tag (codes "g") (way_down room)) }
{
    put_words(
        into,
        &[
            Name("<g transform='translate(0 "),
            Number(room),
            Name(")'>"),
        ],
    )
}

/// Writes the legend and what is left out, and draws all shapes.
#[tactic(auto, unfolding(crate::specs::Picture::picture_body))]
fn put_body(
    alloc: Global,
    into: &mut Vec<u8>,
    frame: &mut Frame,
    starts: &[Pid],
    kept: &Kept,
    reach: Reach,
) -> Result<(), NoMemory>
    ensures { OnOk result (into.new.items ≡ into.old.items ++ picture_body frame.old starts.now kept.now reach) }
{
    put_meanings(into)?;
    put_foot(into, frame, kept, reach)?;
    put_layers(alloc, into, frame, starts, kept)
}

/// Draws all shapes, a layer on another.
#[tactic(auto, unfolding(crate::specs::Picture::layers))]
fn put_layers(
    alloc: Global,
    into: &mut Vec<u8>,
    frame: &mut Frame,
    starts: &[Pid],
    kept: &Kept,
) -> Result<(), NoMemory>
    ensures { OnOk result (into.new.items ≡ into.old.items ++ layers frame.old starts.now kept.now) }
{
    let lines = kept.lines.as_slice();
    let found = left_of(alloc, frame, lines)?;
    let left = found.as_slice();
    frame.layer = Layer::Grounds;
    put_shapes(alloc, into, frame, starts, kept, left)?;
    frame.layer = Layer::Ways;
    put_shapes(alloc, into, frame, starts, kept, left)?;
    frame.layer = Layer::Words;
    put_shapes(alloc, into, frame, starts, kept, left)
}

/// Writes what stands above the legend.
#[tactic(auto, unfolding(crate::specs::Picture::picture_head))]
fn put_head(into: &mut Vec<u8>, frame: &Frame, starts: &Starts, kept: &Kept) -> Result<(), NoMemory>
    ensures { OnOk result (into.new.items ≡ into.old.items ++ picture_head frame.now (length starts.now.pids) starts.now.names.items kept.now) }
{
    put_style_sheet(into)?;
    put_marks(into)?;
    put_sheet(into, frame, starts.pids.len())?;
    put_title(into, frame, kept)?;
    put_bytes(into, starts.names.as_slice())
}

/// Opens the picture, with the names of so many processes.
#[tactic(auto, unfolding(crate::specs::Xml::opening_tag))]
fn put_extent(into: &mut Vec<u8>, frame: &Frame, starts: usize) -> Result<(), NoMemory>
    ensures { OnOk result (into.new.items ≡ into.old.items ++ opening_tag (codes "svg") (extent frame.now starts)) }
{
    put_opening(
        into,
        "svg",
        &[
            Attribute("xmlns", Name("http://www.w3.org/2000/svg")),
            Attribute("width", Number(breadth(frame))),
            Attribute("height", Number(whole_height(frame, starts))),
        ],
    )
}

/// Draws a white ground.
#[tactic(auto, unfolding(crate::specs::Picture::sheet))]
fn put_sheet(into: &mut Vec<u8>, frame: &Frame, starts: usize) -> Result<(), NoMemory>
    ensures { OnOk result (into.new.items ≡ into.old.items ++ sheet frame.now starts) }
{
    put_alone(
        into,
        "rect",
        &[
            Attribute("width", Number(breadth(frame))),
            Attribute("height", Number(whole_height(frame, starts))),
            Attribute("fill", Name("#fff")),
        ],
    )
}

/// Writes how much there was, where the picture begins, and how many processes have no bar.
#[tactic(auto, unfolding(crate::specs::Picture::title, crate::specs::Xml::element_around))]
fn put_title(into: &mut Vec<u8>, frame: &Frame, kept: &Kept) -> Result<(), NoMemory>
    ensures { OnOk result (into.new.items ≡ into.old.items ++ title frame.now kept.now) }
{
    put_opening(
        into,
        "text",
        &[
            Attribute("class", Name("t")),
            Attribute("x", Number(10)),
            Attribute("y", Number(20)),
        ],
    )?;
    put_title_words(into, frame, kept)?;
    put_closing(into, "text")
}

fn put_title_words(into: &mut Vec<u8>, frame: &Frame, kept: &Kept) -> Result<(), NoMemory>
    ensures { OnOk result (into.new.items ≡ into.old.items ++ title_words frame.now kept.now) }
{
    put_words(
        into,
        &[
            Name("machines "),
            Byte(frame.machines),
            Name(", groups "),
            Wide(kept.groups),
            Name(", messages "),
            Wide(kept.messages),
        ],
    )?;
    put_part(into, kept.part.first, kept.groups)?;
    put_without_bar(into, without_lane(frame))
}

/// Writes which group is the first to be shown, where that isn't the run's first.
fn put_part(into: &mut Vec<u8>, first: u64, groups: u64) -> Result<(), NoMemory>
    ensures { OnOk result (into.new.items ≡ into.old.items ++ concat (part_words first groups)) }
{
    if first <= 1 {
        return Ok(());
    }
    put_words(
        into,
        &[
            Name("; from group "),
            Wide(first),
            Name(beyond(first, groups)),
        ],
    )
}

/// What is said of a first group that is none of the run's.
fn beyond(first: u64, groups: u64) -> &'static str
    ensures { result.now ≡ beyond_words first groups }
{
    if groups < first {
        ", beyond the last one"
    } else {
        ""
    }
}

/// Writes how many processes have no lane, where there are some.
fn put_without_bar(into: &mut Vec<u8>, count: u64) -> Result<(), NoMemory>
    ensures { OnOk result (into.new.items ≡ into.old.items ++ concat (bars_words count)) }
{
    if count == 0 {
        return Ok(());
    }
    put_words(into, &[Name("; processes without a bar: "), Wide(count)])
}

/// Writes what the picture leaves out, and why it ends.
#[tactic(auto, unfolding(crate::specs::Picture::foot))]
fn put_foot(into: &mut Vec<u8>, frame: &Frame, kept: &Kept, reach: Reach) -> Result<(), NoMemory>
    ensures { OnOk result (into.new.items ≡ into.old.items ++ foot frame.now kept.now reach) }
{
    put_foot_line(
        into,
        frame,
        10,
        20,
        "groups behind these, left out: ",
        kept.left_groups,
    )?;
    put_foot_line(
        into,
        frame,
        290,
        20,
        "messages that they put: ",
        kept.left_messages,
    )?;
    put_reach(into, frame, reach)
}

/// Writes that a run ended at a worn pair.
#[tactic(auto, unfolding(crate::specs::Picture::reach_line))]
fn put_reach(into: &mut Vec<u8>, frame: &Frame, reach: Reach) -> Result<(), NoMemory>
    ensures { OnOk result (into.new.items ≡ into.old.items ++ reach_line frame.now reach) }
{
    match reach {
        Reach::Whole => Ok(()),
        Reach::BeforeWorn { from, to } => {
            let p = Point {
                x: 290,
                y: height(frame.rows) + 34,
            };
            put_written(
                into,
                "q",
                p,
                &[
                    Name("the run ended with status 9, worn: "),
                    Byte(from),
                    Name(" to "),
                    Byte(to),
                ],
            )
        }
    }
}

/// Writes some words and a number at the foot of the picture, where it isn't 0.
#[tactic(auto, unfolding(crate::specs::Picture::foot_line))]
fn put_foot_line(
    into: &mut Vec<u8>,
    frame: &Frame,
    x: u32,
    down: u32,
    words: &'static str,
    n: u64,
) -> Result<(), NoMemory>
    requires { down ≤ 100 }
    ensures { OnOk result (into.new.items ≡ into.old.items ++ foot_line frame.now x down words.now n) }
{
    if n == 0 {
        return Ok(());
    }
    let p = Point {
        x,
        y: height(frame.rows) + down,
    };
    put_written(into, "q", p, &[Name(words), Wide(n)])
}

/// How many processes have no lane.
fn without_lane(frame: &Frame) -> u64
    ensures { result ≡ length frame.now.processes - MOST_LANES }
{
    frame.processes.len().saturating_sub(MOST_LANES) as u64
}

/// Draws all shapes, in one layer.
fn put_shapes(
    alloc: Global,
    into: &mut Vec<u8>,
    frame: &Frame,
    starts: &[Pid],
    kept: &Kept,
    left: &[bool],
) -> Result<(), NoMemory>
    requires { IsLeft frame.now kept.now.lines left.now }
    ensures { OnOk result (into.new.items ≡ into.old.items ++ all_drawn frame.now (shapes frame.now.machines frame.now.rows frame.now.hidden starts.now kept.now.lines)) }
{
    let lines = kept.lines.as_slice();
    put_columns(into, frame)?;
    put_starts(alloc, into, frame, starts, lines)?;
    put_lines(alloc, into, frame, lines, left)
}

/// Draws the machines.
#[tactic(auto, using(crate::proofs::Walks::column_lemmas))]
fn put_columns(into: &mut Vec<u8>, frame: &Frame) -> Result<(), NoMemory>
    ensures { OnOk result (into.new.items ≡ into.old.items ++ all_drawn frame.now (columns frame.now.machines)) }
{
    for m in 0..frame.machines {
        put_column(into, frame, m)?;
    }
    Ok(())
}

/// Draws the processes that are there from the start.
#[tactic(auto, using(crate::proofs::Pieces::mapped_lemmas))]
fn put_starts(
    alloc: Global,
    into: &mut Vec<u8>,
    frame: &Frame,
    starts: &[Pid],
    lines: &[Line],
) -> Result<(), NoMemory>
    ensures { OnOk result (into.new.items ≡ into.old.items ++ all_drawn frame.now (map (first_bar frame.now.rows frame.now.hidden lines.now) starts.now)) }
{
    for start in starts {
        put_living(
            alloc,
            into,
            frame,
            *start,
            start.home,
            first_spot(frame.hidden),
            lines,
            lines,
        )?;
    }
    Ok(())
}
