//! Numbers and names of processes as they are written.
ghost use Rattle.std.specs.Prelude.{◌≡◌, ◌&&◌, nat_le, option_map};
ghost use Rattle.std.specs.List.{position};
ghost use Rattle.dm_link.specs.Names.{pid_of};
ghost use Rattle.dm_schedule.specs.Numbers.{is_point, number_of_word, process_of};

use dm_reading::exact_number;

/// The most digits of a number.
const MOST_DIGITS: usize = 10;

/// Whether a number can have so many digits.
fn can_have(digits: usize) -> bool
    ensures { result ≡ (nat_le 1 digits && nat_le digits 10) }
{
    1 <= digits && digits <= MOST_DIGITS
}

/// The number that a word is: one to ten digits.
#[tactic(auto, unfolding(crate::specs::Numbers::number_of_word))]
pub fn number(word: &[u8]) -> Option<u64>
    ensures { result ≡ number_of_word word.now }
{
    if can_have(word.len()) {
        exact_number(word)
    } else {
        None
    }
}

/// Where the first point of a word stands.
fn point(word: &[u8]) -> Option<usize>
    ensures { result ≡ position is_point word.now }
{
    word.iter().position(|c| *c == b'.')
}

/// The two numbers of the name of a process that a word is: its machine, and its number there.
#[tactic(auto, unfolding(crate::specs::Numbers::process_of))]
pub fn process_numbers(word: &[u8]) -> Option<(u64, u64)>
    ensures { option_map (λ p. pid_of p.0 p.1) result ≡ process_of word.now }
{
    match point(word) {
        None => None,
        Some(at) => match (number(&word[..at]), number(&word[at + 1..])) {
            (Some(home), Some(num)) => Some((home, num)),
            _ => None,
        },
    }
}
