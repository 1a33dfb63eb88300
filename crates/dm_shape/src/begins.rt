//! Which texts begin a line of a group, word by word.
ghost use Rattle.std.specs.Prelude.{◌≡◌, ◌≤◌, length, option_map, slice_get};
ghost use Rattle.dm_reading.specs.Cuts.{behind, pieces};
ghost use Rattle.dm_shape.specs.Begins.{fitting, fitting_row, fitting_shape, greater, most_fitting, words_that_begin, wrong_word};
ghost use Rattle.dm_shape.specs.Shapes.{row_of};

use crate::shape::{SHAPES, Shape};
use crate::sort::Sort;
use dm_reading::split;

/// The first word of a text with which no line of a group begins any more; none where one begins with all of them.
#[tactic(auto, unfolding(crate::specs::Begins::wrong_word))]
pub fn wrong_word(text: &[u8]) -> Option<&[u8]>
    ensures { option_map (λ w. w.now) result ≡ wrong_word text.now }
{
    word_at(text, words_that_begin(text))
}

/// With how many of a text's first words a line of a group may begin.
#[tactic(auto, unfolding(crate::specs::Begins::words_that_begin))]
fn words_that_begin(text: &[u8]) -> usize
    ensures { result ≡ words_that_begin text.now }
{
    most_fitting(&SHAPES, text)
}

/// The same of these shapes.
fn most_fitting(shapes: &[Shape], text: &[u8]) -> usize
    ensures { result ≡ most_fitting 0 shapes.now text.now }
{
    let mut most = 0;
    for shape in shapes {
        most = greater(most, shape.fitting(text));
    }
    most
}

/// The greater of two numbers.
fn greater(m: usize, n: usize) -> usize
    ensures { result ≡ greater m n }
{
    if m < n { n } else { m }
}

impl Shape {
    /// How many of a text's first words are those of this shape, if a line of a group may have it.
    #[tactic(auto, unfolding(crate::specs::Begins::fitting_shape))]
    fn fitting(self, text: &[u8]) -> usize
        ensures { result ≡ fitting_shape self text.now }
    {
        match self {
            Shape::End(_) => 0,
            Shape::Head(_) | Shape::Kernel(_) | Shape::Group(_) => self.fitting_row(text),
        }
    }

    /// How many are those of its row.
    fn fitting_row(self, text: &[u8]) -> usize
        ensures { result ≡ fitting_row (row_of self) (pieces 32 text.now) }
    {
        let (name, words) = split(text, b' ');
        let row = self.row();
        if name == row.name.as_bytes() {
            1 + fitting(row.sorts, words)
        } else {
            0
        }
    }
}

/// How many of the first words are of these sorts, one by one.
fn fitting(sorts: &[Sort], words: Option<&[u8]>) -> usize
    ensures is { result ≡ fitting sorts.now (behind 32 (option_map (λ t. t.now) words.entry)) }
    ensures few { result ≤ length sorts.now }
{
    let mut rest = words;
    let mut count = 0;
    for sort in sorts {
        let Some(text) = rest else {
            return count;
        };
        let (word, others) = split(text, b' ');
        if !sort.has(word) {
            return count;
        }
        count += 1;
        rest = others;
    }
    count
}

/// The word of a text behind so many others.
fn word_at(text: &[u8], place: usize) -> Option<&[u8]>
    ensures { option_map (λ w. w.now) result ≡ slice_get (pieces 32 text.now) place }
{
    let mut rest = text;
    for passed in 0..place {
        let (_, others) = split(rest, b' ');
        match others {
            Some(behind) => rest = behind,
            None => return None,
        }
    }
    let (word, _) = split(rest, b' ');
    Some(word)
}
