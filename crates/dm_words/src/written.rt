//! Numbers, processes and texts as the words of `explore` have them.
ghost use Rattle.std.specs.Prelude.{◌≡◌, ◌==◌};
ghost use Rattle.std.specs.List.{position};
ghost use Rattle.dm_schedule.specs.Numbers.{number_of_word};
ghost use Rattle.dm_words.specs.Written.{if_process, is_text, stuck_name, written_move, written_name};

use crate::explore::{WrittenMove, WrittenName};
use dm_reading::exact_number;
use dm_shape::wrong_word;

/// The lowest number of a process.
const FIRST_PROCESS: u64 = 3;

/// The most digits of a number.
const MOST_DIGITS: usize = 10;

/// Whether a line of a group may begin with the words of a text.
pub fn is_text(text: &[u8]) -> bool
    ensures { result ≡ is_text text.now }
{
    wrong_word(text).is_none()
}

/// The number that a word is: one to ten digits, as in a schedule.
#[tactic(auto, unfolding(dm_schedule::specs::Numbers::number_of_word))]
fn written_number(word: &[u8]) -> Option<u64>
    ensures { result ≡ number_of_word word.now }
{
    if 1 <= word.len() && word.len() <= MOST_DIGITS {
        exact_number(word)
    } else {
        None
    }
}

/// Where the first byte of this sort stands.
fn place_of(word: &[u8], sort: u8) -> Option<usize>
    ensures { result ≡ position (λ c. c == sort) word.now }
{
    word.iter().position(|c| *c == sort)
}

/// The process that a word names, as in 0.3.
#[tactic(auto, unfolding(dm_schedule::specs::Numbers::process_of))]
pub fn written_name(word: &[u8]) -> Option<WrittenName>
    ensures { result ≡ written_name word.now }
{
    match place_of(word, b'.') {
        None => None,
        Some(at) => match (written_number(&word[..at]), written_number(&word[at + 1..])) {
            (Some(home), Some(num)) => Some(WrittenName { home, num }),
            _ => None,
        },
    }
}

/// The process that a word names, if it may be one: not a kernel, or a server, which never gets stuck.
pub fn stuck_name(word: &[u8]) -> Option<WrittenName>
    ensures { result ≡ stuck_name word.now }
{
    if_process(written_name(word)?)
}

/// A process, if it isn't a kernel or a server.
fn if_process(name: WrittenName) -> Option<WrittenName>
    ensures { result ≡ if_process name }
{
    if name.num < FIRST_PROCESS {
        None
    } else {
        Some(name)
    }
}

/// The process and the machine that a word names, as in 0.3=1.
#[tactic(auto, unfolding(crate::specs::Written::written_move))]
pub fn written_move(word: &[u8]) -> Option<WrittenMove>
    ensures { result ≡ written_move word.now }
{
    match place_of(word, b'=') {
        None => None,
        Some(at) => match (written_name(&word[..at]), written_number(&word[at + 1..])) {
            (Some(name), Some(machine)) => Some(WrittenMove { name, machine }),
            _ => None,
        },
    }
}
