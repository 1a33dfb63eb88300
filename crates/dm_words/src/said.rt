//! What is said before the line of a status, by the words that were given.
ghost use Rattle.std.specs.Prelude.{◌≡◌, map, string_bytes};
ghost use Rattle.dm_words.specs.Said.{file_pieces, file_told, most_bytes, no_pieces, option_for, said_pieces, too_long_pieces, unread_pieces};
ghost use Rattle.dm_words.specs.Usage.{pieces_of};

use crate::option::OptionName;
use crate::usage::{Fault, Said, command_lines, usage_of};
use crate::walk::value_of;
use dm_ending::status::{Input, Status};

/// What is said before the line of a status.
pub fn said_before<'a>(words: &'a [String], status: &Status) -> Said<'a>
    ensures { pieces_of result ≡ said_pieces (map string_bytes words.now) status.now }
{
    match *status {
        Status::Usage => usage_of(words),
        Status::ReadFault(input) => unread(file_told(input, words)),
        Status::TooLong(input) => too_long(input, file_told(input, words)),
        _ => nothing(),
    }
}

/// The option that names a file.
fn option_for(input: Input) -> OptionName
    ensures { result ≡ option_for input }
{
    match input {
        Input::Boot => OptionName::Boot,
        Input::Schedule => OptionName::Schedule,
        Input::Trace => OptionName::Trace,
        Input::Labels => OptionName::Labels,
    }
}

/// The name of a file, by the words.
fn file_told<'a>(input: Input, words: &'a [String]) -> &'a [u8]
    ensures { result.now ≡ file_told input (map string_bytes words.now) }
{
    value_of(option_for(input), words).unwrap_or(b"")
}

/// The most bytes that a file may have.
fn most_bytes(input: Input) -> &'static [u8]
    ensures { result.now ≡ most_bytes input }
{
    match input {
        Input::Boot => b"1048576",
        Input::Schedule => b"16777216",
        Input::Trace => b"16777216",
        Input::Labels => b"16777216",
    }
}

/// What is said of a file that can't be read.
fn unread<'a>(name: &'a [u8]) -> Said<'a>
    ensures { pieces_of result ≡ file_pieces name.now }
{
    Said {
        told: Fault {
            one: b"can't be read: ",
            two: name,
            three: b"",
            four: b"",
        },
        lines: b"\n",
    }
}

/// What is said of a file that is too long.
fn too_long<'a>(input: Input, name: &'a [u8]) -> Said<'a>
    ensures { pieces_of result ≡ too_long_pieces input name.now }
{
    Said {
        told: Fault {
            one: name,
            two: b" has more than ",
            three: most_bytes(input),
            four: b" bytes",
        },
        lines: b"\n",
    }
}

/// Nothing is said.
pub fn nothing<'a>() -> Said<'a>
    ensures { pieces_of result ≡ no_pieces }
{
    Said {
        told: Fault {
            one: b"",
            two: b"",
            three: b"",
            four: b"",
        },
        lines: b"",
    }
}

/// What is said where a word isn't Unicode.
#[tactic(auto, unfolding(crate::specs::Said::unread_pieces))]
pub fn not_unicode<'a>() -> Said<'a>
    ensures { pieces_of result ≡ unread_pieces }
{
    Said {
        told: Fault {
            one: b"a word isn't UTF-8",
            two: b"",
            three: b"",
            four: b"",
        },
        lines: command_lines(),
    }
}
