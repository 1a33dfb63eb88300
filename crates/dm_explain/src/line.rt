//! A line of a text, by its number.
ghost use Rattle.std.specs.Prelude.{◌≡◌};
ghost use Rattle.dm_reading.specs.Lines.{lines, source_lines};
ghost use Rattle.dm_explain.specs.LineAt.{line_at};

use dm_reading::{first_line, first_source_line};

/// Line `n` of an image's text, from 1; nothing where there is none.
#[tactic(auto, using(crate::proofs::Loops::line_lemmas))]
pub fn text_line(text: &[u8], n: usize) -> &[u8]
    ensures { result.now ≡ line_at n (source_lines text.now) }
{
    let mut rest = text;
    let mut left = n.saturating_sub(1);
    'lines: while !rest.is_empty() {
        let (line, others) = first_source_line(rest);
        if left == 0 {
            return line;
        }
        rest = others;
        left -= 1;
    }
    &[]
}

/// Line `n` of a schedule, from 1; nothing where there is none.
#[tactic(auto, using(crate::proofs::Loops::line_lemmas))]
pub fn schedule_line(text: &[u8], n: u64) -> &[u8]
    ensures { result.now ≡ line_at n (lines text.now) }
{
    let mut rest = text;
    let mut left = n.saturating_sub(1);
    'lines: while !rest.is_empty() {
        let (line, others) = first_line(rest);
        if left == 0 {
            return line;
        }
        rest = others;
        left -= 1;
    }
    &[]
}
