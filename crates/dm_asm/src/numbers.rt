//! Numbers, registers and names as they are written.
ghost use Rattle.std.specs.Prelude.{◌≡◌, ◌<◌, ◌^◌, IfSome, min, option_map};
ghost use Rattle.std.specs.List.{list_all};
ghost use Rattle.dm_asm.specs.Numbers.{begins_name, call_named, is_character, is_label_name, is_name_part, literal_value, register_of};

use crate::texts::is_printed;
use dm_reading::{Base, capped_number};

/// Numbers from here on are not told apart.
const HUGE: u64 = 1 << 32;

/// Whether a word is a printed byte between apostrophes.
fn is_character(word: &[u8]) -> bool
    ensures { result ≡ is_character word.now }
{
    word.len() == 3 && word[0] == b'\'' && word[2] == b'\'' && is_printed(word[1])
}

/// The number that a word is, at most [`HUGE`].
#[tactic(auto, unfolding(crate::specs::Numbers::literal_value))]
pub(crate) fn number(word: &[u8]) -> Option<u64>
    ensures { result ≡ option_map (λ n. min n (2 ^ 32)) (literal_value word.now) }
{
    if is_character(word) {
        Some(u64::from(word[1]))
    } else if word.len() > 2 && word[0] == b'0' && word[1] == b'x' {
        capped_number(Base::Sixteen, &word[2..], HUGE)
    } else if word.is_empty() {
        None
    } else {
        capped_number(Base::Ten, word, HUGE)
    }
}

/// The register that a word names, `r0` to `r15`: 0 to 15.
pub fn register(word: &[u8]) -> Option<u8>
    ensures value { result ≡ register_of word.now }
    ensures small { IfSome result (λ r. r < 16) }
{
    match word {
        [b'r', d @ b'0'..=b'9'] => Some(*d - b'0'),
        [b'r', b'1', d @ b'0'..=b'5'] => Some(10 + (*d - b'0')),
        _ => None,
    }
}

/// Whether a byte can stand in a label.
fn can_be_in_name(c: u8) -> bool
    ensures { result ≡ is_name_part c }
{
    matches!(c, b'a'..=b'z' | b'0'..=b'9' | b'_')
}

/// Whether all of a word can stand in a label.
fn has_name_parts(word: &[u8]) -> bool
    ensures { result ≡ list_all is_name_part word.now }
{
    word.iter().all(|c| can_be_in_name(*c))
}

/// Whether a word is a label's name: 1 to 16 of `a-z`, `0-9` and `_`, the first no digit, and no register.
pub fn is_label(word: &[u8]) -> bool
    ensures { result ≡ is_label_name word.now }
{
    if word.is_empty() || word.len() > 16 || word[0].is_ascii_digit() {
        return false;
    }
    has_name_parts(word) && register(word).is_none()
}

/// Whether a word is a label where one may stand.
pub(crate) fn looks_like_label(word: &[u8]) -> bool
    ensures { result ≡ begins_name word.now }
{
    !word.is_empty() && (word[0].is_ascii_alphabetic() || word[0] == b'_')
}

/// The number of the call that a word names: 1 to 8.
#[tactic(auto, unfolding(crate::specs::Numbers::call_named))]
pub(crate) fn call_named(word: &[u8]) -> Option<u8>
    ensures { result ≡ call_named word.now }
{
    if word == b"EXIT".as_slice() {
        Some(1)
    } else if word == b"OUT".as_slice() {
        Some(2)
    } else if word == b"MAKE".as_slice() {
        Some(3)
    } else if word == b"COPY".as_slice() {
        Some(4)
    } else if word == b"DROP".as_slice() {
        Some(5)
    } else if word == b"SEND".as_slice() {
        Some(6)
    } else if word == b"RECEIVE".as_slice() {
        Some(7)
    } else if word == b"MOVE".as_slice() {
        Some(8)
    } else {
        None
    }
}
