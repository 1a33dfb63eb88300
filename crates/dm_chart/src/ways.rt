//! Drawing the ways of messages and of packets, with their marks: in each layer what the shape has there.
ghost use Rattle.std.specs.Prelude.{◌≡◌, [], ◌++◌, OnOk};
ghost use Rattle.dm_chart.specs.Drawn.{by_layer, draw_arriving, draw_arrow, draw_beside, draw_hidden_arrow, draw_lost, draw_marked, draw_packet, draw_shown_arrow, draw_way, letter_words, unless_over};
ghost use Rattle.dm_chart.specs.Styles.{label_class};

use crate::draw::{put_beside, put_mark, put_stroke};
use crate::frame::{Frame, Layer, Place, on_axis, towards};
use crate::role::Letter;
use crate::style::{Style, arrow_class, label_class, loop_name};
use dm_memory::NoMemory;
use dm_text::word::Word::{Message, Name, Process};

/// Draws the way of a message: to its own machine, into an inbox of another, or into none so far.
fn put_way(
    into: &mut Vec<u8>,
    frame: &Frame,
    style: Style,
    from: u8,
    to: u8,
    row: u32,
    last: Option<u32>,
) -> Result<(), NoMemory>
    ensures { OnOk result (into.new.items ≡ into.old.items ++ draw_way frame.now style from to row last) }
{
    let begin = on_axis(frame, from, row);
    match last {
        None => {
            let end = towards(frame, from, to, row, 30, 6);
            put_stroke(into, "o", begin, end)?;
            put_mark(into, "#open", end)
        }
        Some(last) => {
            if from == to {
                put_mark(into, loop_name(style), begin)
            } else {
                put_stroke(into, arrow_class(style), begin, on_axis(frame, to, last))
            }
        }
    }
}

/// Draws the way of a message, in the layer of ways.
fn put_arrow_way(
    into: &mut Vec<u8>,
    frame: &Frame,
    style: Style,
    letter: Letter,
    row: u32,
    last: Option<u32>,
) -> Result<(), NoMemory>
    ensures { OnOk result (into.new.items ≡ into.old.items ++ by_layer frame.now.layer [] (draw_way frame.now style letter.from letter.to row last) []) }
{
    match frame.layer {
        Layer::Grounds | Layer::Words => Ok(()),
        Layer::Ways => put_way(into, frame, style, letter.from, letter.to, row, last),
    }
}

/// Draws a message from its put to where it enters an inbox.
pub fn put_arrow(
    into: &mut Vec<u8>,
    frame: &Frame,
    style: Style,
    letter: Letter,
    row: u32,
    last: Option<u32>,
) -> Result<(), NoMemory>
    ensures { OnOk result (into.new.items ≡ into.old.items ++ draw_arrow frame.now style letter row last) }
{
    if row == 0 {
        put_hidden_arrow(into, frame, style, letter, last)
    } else {
        put_shown_arrow(into, frame, style, letter, row, last)
    }
}

/// Draws a message that is put before the first row.
fn put_hidden_arrow(
    into: &mut Vec<u8>,
    frame: &Frame,
    style: Style,
    letter: Letter,
    last: Option<u32>,
) -> Result<(), NoMemory>
    ensures { OnOk result (into.new.items ≡ into.old.items ++ draw_hidden_arrow frame.now style letter last) }
{
    match last {
        Some(last) => put_arriving(into, frame, style, letter, last),
        None => Ok(()),
    }
}

/// Draws it to where it enters an inbox, and tells of it there.
fn put_arriving(
    into: &mut Vec<u8>,
    frame: &Frame,
    style: Style,
    letter: Letter,
    last: u32,
) -> Result<(), NoMemory>
    ensures { OnOk result (into.new.items ≡ into.old.items ++ draw_arriving frame.now style letter last) }
{
    if last == 0 {
        return Ok(());
    }
    put_arrow_way(into, frame, style, letter, 0, Some(last))?;
    let place = Place {
        frame,
        m: letter.to,
        row: last,
    };
    put_letter_words(into, &place, style, letter)
}

/// Draws a message that is put in a row.
fn put_shown_arrow(
    into: &mut Vec<u8>,
    frame: &Frame,
    style: Style,
    letter: Letter,
    row: u32,
    last: Option<u32>,
) -> Result<(), NoMemory>
    ensures { OnOk result (into.new.items ≡ into.old.items ++ draw_shown_arrow frame.now style letter row last) }
{
    put_arrow_way(into, frame, style, letter, row, last)?;
    let place = Place {
        frame,
        m: letter.from,
        row,
    };
    put_letter_words(into, &place, style, letter)
}

/// Writes a message's name, its kind and its receiver.
fn put_letter_words(
    into: &mut Vec<u8>,
    place: &Place<'_>,
    style: Style,
    letter: Letter,
) -> Result<(), NoMemory>
    ensures { OnOk result (into.new.items ≡ into.old.items ++ draw_beside place.now.frame.now place.now.m place.now.row (label_class style) (letter_words letter)) }
{
    put_beside(
        into,
        place,
        label_class(style),
        &[
            Message(letter.id),
            Name(" "),
            Name(letter.kind.word()),
            Name(" to "),
            Process(letter.receiver),
        ],
    )
}

/// Draws a packet that came.
pub fn put_packet(
    into: &mut Vec<u8>,
    frame: &Frame,
    from: u8,
    to: u8,
    row: u32,
    last: u32,
) -> Result<(), NoMemory>
    ensures { OnOk result (into.new.items ≡ into.old.items ++ unless_over last (draw_packet frame.now from to row last)) }
{
    if last == 0 {
        return Ok(());
    }
    match frame.layer {
        Layer::Grounds | Layer::Words => Ok(()),
        Layer::Ways => {
            put_stroke(
                into,
                "p",
                on_axis(frame, from, row),
                on_axis(frame, to, last),
            )
        }
    }
}

/// Draws a packet that came before its turn, or again.
pub fn put_marked_packet(
    into: &mut Vec<u8>,
    frame: &Frame,
    name: &'static str,
    from: u8,
    to: u8,
    row: u32,
    last: u32,
) -> Result<(), NoMemory>
    ensures { OnOk result (into.new.items ≡ into.old.items ++ unless_over last (draw_marked frame.now name.now from to row last)) }
{
    if last == 0 {
        return Ok(());
    }
    match frame.layer {
        Layer::Grounds | Layer::Words => Ok(()),
        Layer::Ways => {
            let end = on_axis(frame, to, last);
            put_stroke(into, "p", on_axis(frame, from, row), end)?;
            put_mark(into, name, end)
        }
    }
}

/// Draws a packet that never came.
pub fn put_lost(
    into: &mut Vec<u8>,
    frame: &Frame,
    from: u8,
    to: u8,
    row: u32,
) -> Result<(), NoMemory>
    ensures { OnOk result (into.new.items ≡ into.old.items ++ unless_over row (draw_lost frame.now from to row)) }
{
    if row == 0 {
        return Ok(());
    }
    match frame.layer {
        Layer::Grounds | Layer::Words => Ok(()),
        Layer::Ways => {
            let end = towards(frame, from, to, row, 44, 12);
            put_stroke(into, "p", on_axis(frame, from, row), end)?;
            put_mark(into, "#lost", end)
        }
    }
}
