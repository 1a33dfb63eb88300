//! Where an image's text stands in the boot file.
ghost use Rattle.std.specs.Prelude.{◌≡◌, ◌+◌, ◌-◌, ◌<◌, ◌≤◌, ◌^◌, IfSome, IsTrue, drop, length, slice_index};
ghost use Rattle.dm_explain.specs.TextPlace.{begins_with, line_before, next_line, opens, stands};

/// Whether bytes begin with others.
#[tactic(auto, unfolding(crate::specs::TextPlace::begins_with))]
fn begins_with(bytes: &[u8], start: &[u8]) -> bool
    ensures value { result ≡ begins_with bytes.now start.now }
    ensures within { IsTrue result → length start.now ≤ length bytes.now }
{
    start.len() <= bytes.len() && &bytes[..start.len()] == start
}

/// Whether bytes begin with an opening, a text behind it, and behind that a closing.
#[tactic(auto, unfolding(crate::specs::TextPlace::stands))]
fn stands(opening: &[u8], text: &[u8], closing: &[u8], bytes: &[u8]) -> bool
    ensures { result ≡ stands opening.now text.now closing.now bytes.now }
{
    if !begins_with(bytes, opening) {
        return false;
    }
    let behind = &bytes[opening.len()..];
    if !begins_with(behind, text) {
        return false;
    }
    begins_with(&behind[text.len()..], closing)
}

/// Whether a text of several lines stands there as it is, between three quotation marks of one kind.
#[tactic(auto, unfolding(crate::specs::TextPlace::opens))]
fn opens(text: &[u8], bytes: &[u8]) -> bool
    ensures { result ≡ opens text.now bytes.now }
{
    stands(b"\"\"\"\n", text, b"\"\"\"", bytes) || stands(b"'''\n", text, b"'''", bytes)
}

/// The line behind the first byte of a line.
fn next_line(line: usize, bytes: &[u8]) -> usize
    requires some { 0 < length bytes.now }
    requires small { line < 2 ^ 64 - 1 }
    ensures value { result ≡ next_line line (slice_index bytes.now 0) }
    ensures most { result ≤ line + 1 }
{
    if bytes[0] == b'\n' { line + 1 } else { line }
}

/// What stands behind the first byte.
fn behind_first(bytes: &[u8]) -> &[u8]
    requires { 0 < length bytes.now }
    ensures value { result.now ≡ drop 1 bytes.now }
    ensures less { length result.now + 1 ≡ length bytes.now }
{
    &bytes[1..]
}

/// The line of a file, from 1, behind which a text of several lines begins, where it stands there as it is.
#[tactic(auto, using(crate::proofs::TextPlaces::place_lemmas))]
pub fn line_before(file: &[u8], text: &[u8]) -> Option<usize>
    ensures value { result ≡ line_before text.now 1 file.now }
    ensures small { IfSome result (λ n. n ≤ length file.now) }
{
    let mut rest = file;
    let mut line = 1;
    while !rest.is_empty() {
        if opens(text, rest) {
            return Some(line);
        }
        line = next_line(line, rest);
        rest = behind_first(rest);
    }
    None
}
