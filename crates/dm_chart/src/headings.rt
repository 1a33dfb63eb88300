//! Drawing the machines with their names, and where a group begins: in each layer what the shape has there.
ghost use Rattle.std.specs.Prelude.{◌≡◌, ◌≤◌, ◌++◌, OnOk, codes};
ghost use Rattle.dm_chart.specs.Drawn.{directive_words, draw_column, draw_group, group_words, heading, heading_again, headings_again, written};

use crate::draw::{put_stroke, put_written};
use crate::frame::{
    Frame, Layer, Point, above_next, axis, blocks_before, column, height, number_of, on_axis,
};
use dm_memory::NoMemory;
use dm_schedule::Step;
use dm_text::word::Word::{Byte, Name, Process, Wide};

/// Draws a machine.
pub fn put_column(into: &mut Vec<u8>, frame: &Frame, m: u8) -> Result<(), NoMemory>
    ensures { OnOk result (into.new.items ≡ into.old.items ++ draw_column frame.now m) }
{
    match frame.layer {
        Layer::Grounds => {
            let x = axis(frame, m);
            put_stroke(
                into,
                "ax",
                Point { x, y: 166 },
                on_axis(frame, m, frame.rows),
            )
        }
        Layer::Ways => Ok(()),
        Layer::Words => {
            put_heading(into, frame, m, 156)?;
            put_headings_again(into, frame, m)
        }
    }
}

/// Writes a machine's name, so far down.
#[tactic(auto, unfolding(crate::specs::Drawn::heading))]
fn put_heading(into: &mut Vec<u8>, frame: &Frame, m: u8, y: u32) -> Result<(), NoMemory>
    ensures { OnOk result (into.new.items ≡ into.old.items ++ heading frame.now m y) }
{
    let x = axis(frame, m) - 8;
    put_written(into, "m", Point { x, y }, &[Name("machine "), Byte(m)])
}

/// Writes a machine's name again, behind each block.
#[tactic(auto, unfolding(crate::specs::Drawn::headings_again), using(crate::proofs::Pieces::below_lemmas))]
fn put_headings_again(into: &mut Vec<u8>, frame: &Frame, m: u8) -> Result<(), NoMemory>
    ensures { OnOk result (into.new.items ≡ into.old.items ++ headings_again frame.now m) }
{
    for block in 0..blocks_before(frame.rows) {
        put_heading_again(into, frame, m, block)?;
    }
    Ok(())
}

/// Writes a machine's name again, behind a block.
fn put_heading_again(into: &mut Vec<u8>, frame: &Frame, m: u8, block: u32) -> Result<(), NoMemory>
    requires { block ≤ 30 }
    ensures { OnOk result (into.new.items ≡ into.old.items ++ heading_again frame.now m block) }
{
    let x = axis(frame, m);
    let y = above_next(block, 30);
    let p = Point { x: x - 20, y };
    let q = Point {
        x: x + column(frame) - 20,
        y,
    };
    put_stroke(into, "h", p, q)?;
    put_heading(into, frame, m, above_next(block, 32))
}

/// Draws that a group begins.
pub fn put_group(
    into: &mut Vec<u8>,
    frame: &Frame,
    row: u32,
    group: u32,
    step: Step,
) -> Result<(), NoMemory>
    ensures { OnOk result (into.new.items ≡ into.old.items ++ draw_group frame.now row group step) }
{
    match frame.layer {
        Layer::Grounds => {
            let y = height(row) - 14;
            put_stroke(into, "r", Point { x: 10, y }, Point { x: 420, y })
        }
        Layer::Ways => Ok(()),
        Layer::Words => put_group_words(into, frame, row, group, step),
    }
}

/// Writes the number and the directive of a group.
#[tactic(auto, unfolding(crate::specs::Drawn::group_words))]
fn put_group_words(
    into: &mut Vec<u8>,
    frame: &Frame,
    row: u32,
    group: u32,
    step: Step,
) -> Result<(), NoMemory>
    ensures { OnOk result (into.new.items ≡ into.old.items ++ group_words frame.now row group step) }
{
    let y = height(row) - 3;
    let number = Wide(number_of(frame, group));
    put_written(into, "g", Point { x: 10, y }, &[number])?;
    put_directive(into, Point { x: 56, y }, step)
}

/// Writes a directive.
fn put_directive(into: &mut Vec<u8>, p: Point, step: Step) -> Result<(), NoMemory>
    ensures { OnOk result (into.new.items ≡ into.old.items ++ written (codes "g") p (directive_words step)) }
{
    match step {
        Step::Turn(m) => put_written(into, "g", p, &[Name("turn "), Byte(m)]),
        Step::Tick(m) => put_written(into, "g", p, &[Name("tick "), Byte(m)]),
        Step::Deliver { a, b, k } => {
            put_written(
                into,
                "g",
                p,
                &[
                    Name("deliver "),
                    Byte(a),
                    Name(" "),
                    Byte(b),
                    Name(" "),
                    Wide(k),
                ],
            )
        }
        Step::Migrate { pid, to } => {
            put_written(
                into,
                "g",
                p,
                &[Name("migrate "), Process(pid), Name(" "), Byte(to)],
            )
        }
        Step::CallOff { pid, at } => {
            put_written(
                into,
                "g",
                p,
                &[Name("calloff "), Process(pid), Name(" "), Byte(at)],
            )
        }
    }
}
