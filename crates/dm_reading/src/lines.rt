//! The lines of a text.
ghost use Rattle.std.specs.Prelude.{◌≡◌, ◌-◌, ◌<◌, ◌≤◌, ◌&&◌, ◌∷◌, if◌then◌else◌, length, nat_lt, slice_index};
ghost use Rattle.std.specs.List.{position};
ghost use Rattle.dm_reading.specs.Lines.{ends_line, is_return, lines, source_lines};

/// Where the first line of a text ends.
fn line_end(text: &[u8]) -> Option<usize>
    ensures { result ≡ position ends_line text.now }
{
    text.iter().position(|c| *c == b'\n')
}

/// The length of a line that ends there, without a carriage return at its end.
fn line_length(text: &[u8], end: usize) -> usize
    requires { end < length text.now }
    ensures length { result ≡ (if nat_lt 0 end && is_return (slice_index text.now (end - 1)) then end - 1 else end) }
    ensures less { result ≤ end }
{
    if end > 0 && text[end - 1] == b'\r' {
        end - 1
    } else {
        end
    }
}

/// The first line of a text that isn't empty, without a carriage return before its line feed, and the text behind its end.
pub fn first_line(text: &[u8]) -> (&[u8], &[u8])
    requires { 0 < length text.now }
    ensures lines { lines text.now ≡ result.0.now ∷ lines result.1.now }
    ensures less { length result.1.now < length text.now }
{
    match line_end(text) {
        Some(end) => (&text[..line_length(text, end)], &text[end + 1..]),
        None => (text, &text[text.len()..]),
    }
}

/// The first line of a text that isn't empty, with all that stands before its line feed, and the text behind its end.
pub fn first_source_line(text: &[u8]) -> (&[u8], &[u8])
    requires { 0 < length text.now }
    ensures lines { source_lines text.now ≡ result.0.now ∷ source_lines result.1.now }
    ensures less { length result.1.now < length text.now }
{
    match line_end(text) {
        Some(end) => (&text[..end], &text[end + 1..]),
        None => (text, &text[text.len()..]),
    }
}
