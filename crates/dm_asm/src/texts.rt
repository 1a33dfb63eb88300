//! The text of `.ascii`.
ghost use Rattle.std.specs.Prelude.{◌≡◌, Some, option_copied};
ghost use Rattle.std.specs.List.{list_all, position};
ghost use Rattle.dm_reading.specs.Words.{source_words};
ghost use Rattle.dm_asm.specs.Texts.{is_printed, is_quote, text_behind, text_closed, text_in, text_operand};

use dm_reading::{Gap, count_words, next_word};

/// Where the first quotation mark stands.
fn quote_in(bytes: &[u8]) -> Option<usize>
    ensures { result ≡ position is_quote bytes.now }
{
    bytes.iter().position(|c| *c == b'"')
}

/// Whether a byte is printed.
pub(crate) fn is_printed(c: u8) -> bool
    ensures { result ≡ is_printed c }
{
    matches!(c, b' '..=b'~')
}

/// Whether all bytes are printed.
fn are_printed(bytes: &[u8]) -> bool
    ensures { result ≡ list_all is_printed bytes.now }
{
    bytes.iter().all(|c| is_printed(*c))
}

/// The text with its closing mark there, if all its bytes are printed and no word stands behind it.
fn text_closed(rest: &[u8], end: usize) -> Option<&[u8]>
    requires { position is_quote rest.now ≡ Some end }
    ensures { option_copied result ≡ text_closed rest.now (Some end) }
{
    let text = &rest[..end];
    if count_words(&rest[end + 1..], Gap::Separators) == 0 && are_printed(text) {
        Some(text)
    } else {
        None
    }
}

/// The text behind its opening mark.
#[tactic(auto, unfolding(crate::specs::Texts::text_behind))]
fn text_behind(rest: &[u8]) -> Option<&[u8]>
    ensures { option_copied result ≡ text_behind rest.now }
{
    match quote_in(rest) {
        None => None,
        Some(end) => text_closed(rest, end),
    }
}

/// The text that begins at the first quotation mark of a line without its comment, and ends it.
#[tactic(auto, unfolding(crate::specs::Texts::text_in))]
fn text_in(line: &[u8]) -> Option<&[u8]>
    ensures { option_copied result ≡ text_in line.now }
{
    match quote_in(line) {
        None => None,
        Some(start) => text_behind(&line[start + 1..]),
    }
}

/// The text that stands as operand in a line, where the first word of the operands begins with its mark.
pub fn text_operand<'l>(line: &'l [u8], operands: &[u8]) -> Option<&'l [u8]>
    ensures { option_copied result ≡ text_operand (text_in line.now) (source_words operands.now) }
{
    match next_word(operands, Gap::Separators) {
        None => None,
        Some((word, _)) if word[0] == b'"' => text_in(line),
        Some(_) => None,
    }
}
