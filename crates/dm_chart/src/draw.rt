//! What the shapes of a picture are drawn of: lines, marks, and words.
ghost use Rattle.std.specs.Prelude.{◌≡◌, ◌++◌, OnOk, map};
ghost use Rattle.dm_text.specs.Written.{word_text};
ghost use Rattle.dm_chart.specs.Drawn.{draw_beside, drawn_mark, stroke, tinted, written};

use crate::frame::{Layer, Place, Point, WORDS, height, on_axis};
use crate::xml::{Attribute, put_alone, put_around};
use dm_memory::NoMemory;
use dm_text::word::Word;
use dm_text::word::Word::{Name, Number};

/// Draws a line of a class.
#[tactic(auto, unfolding(crate::specs::Drawn::stroke))]
pub fn put_stroke(
    into: &mut Vec<u8>,
    class: &'static str,
    p: Point,
    q: Point,
) -> Result<(), NoMemory>
    ensures { OnOk result (into.new.items ≡ into.old.items ++ stroke class.now p q) }
{
    put_alone(
        into,
        "line",
        &[
            Attribute("class", Name(class)),
            Attribute("x1", Number(p.x)),
            Attribute("y1", Number(p.y)),
            Attribute("x2", Number(q.x)),
            Attribute("y2", Number(q.y)),
        ],
    )
}

/// Draws a line of a class and a colour.
#[tactic(auto, unfolding(crate::specs::Drawn::tinted))]
pub fn put_tinted(
    into: &mut Vec<u8>,
    class: &'static str,
    colour: &'static str,
    p: Point,
    q: Point,
) -> Result<(), NoMemory>
    ensures { OnOk result (into.new.items ≡ into.old.items ++ tinted class.now colour.now p q) }
{
    put_alone(
        into,
        "line",
        &[
            Attribute("class", Name(class)),
            Attribute("stroke", Name(colour)),
            Attribute("x1", Number(p.x)),
            Attribute("y1", Number(p.y)),
            Attribute("x2", Number(q.x)),
            Attribute("y2", Number(q.y)),
        ],
    )
}

/// Draws a mark that the head of the picture defines.
#[tactic(auto, unfolding(crate::specs::Drawn::drawn_mark))]
pub fn put_mark(into: &mut Vec<u8>, name: &'static str, p: Point) -> Result<(), NoMemory>
    ensures { OnOk result (into.new.items ≡ into.old.items ++ drawn_mark name.now p) }
{
    put_alone(
        into,
        "use",
        &[
            Attribute("href", Name(name)),
            Attribute("x", Number(p.x)),
            Attribute("y", Number(p.y)),
        ],
    )
}

/// Writes words of a class.
#[tactic(auto, unfolding(crate::specs::Drawn::written))]
pub fn put_written(
    into: &mut Vec<u8>,
    class: &'static str,
    p: Point,
    words: &[Word],
) -> Result<(), NoMemory>
    ensures { OnOk result (into.new.items ≡ into.old.items ++ written class.now p (map word_text words.now)) }
{
    put_around(
        into,
        "text",
        &[
            Attribute("class", Name(class)),
            Attribute("x", Number(p.x)),
            Attribute("y", Number(p.y)),
        ],
        words,
    )
}

/// Writes what a row says, and marks the machine of which it is said.
#[tactic(auto, unfolding(crate::specs::Drawn::draw_beside))]
pub fn put_beside(
    into: &mut Vec<u8>,
    place: &Place<'_>,
    class: &'static str,
    words: &[Word],
) -> Result<(), NoMemory>
    ensures { OnOk result (into.new.items ≡ into.old.items ++ draw_beside place.now.frame.now place.now.m place.now.row class.now (map word_text words.now)) }
{
    match place.frame.layer {
        Layer::Grounds | Layer::Ways => Ok(()),
        Layer::Words => {
            put_mark(into, "#note", on_axis(place.frame, place.m, place.row))?;
            let p = Point {
                x: WORDS,
                y: height(place.row) - 3,
            };
            put_written(into, class, p, words)
        }
    }
}
