//! The words of the command `chart`.
ghost use Rattle.std.specs.Prelude.{◌≡◌, option_and_then, option_map, IfSome};
ghost use Rattle.clap.specs.Walk.{first_of};
ghost use Rattle.clap.specs.Words.{found_of, rows_of};
ghost use Rattle.dm_words.specs.ChartWords.{chart_request as chart_asked, charting, group_in, is_group_or_none, takes_chart};
ghost use Rattle.dm_words.specs.Words.{IsInRange, request_said};

use crate::argument::{CommandForm, CommandOption, value};
use crate::words::Request;
use clap::ArgMatches;
use dm_shape::names::count;

/// The command `chart`.
pub(crate) const COMMAND: CommandForm<'static> = CommandForm {
    name: "chart",
    options: &[
        CommandOption::Needed("boot"),
        CommandOption::Needed("schedule"),
        CommandOption::Free("from"),
        CommandOption::Free("to"),
    ],
};

/// The two files that the matches of `chart` name, and the numbers of the groups from which and to which it is to draw.
pub fn chart_request<'a>(matches: &ArgMatches<'a>) -> Option<Request<'a>>
    ensures asked { option_map request_said result ≡ chart_asked (rows_of (found_of matches.now)) }
    ensures within { IfSome result IsInRange }
{
    charting(
        value(matches, "boot"),
        value(matches, "schedule"),
        takes_chart(matches),
        group(matches, "from"),
        group(matches, "to"),
    )
}

/// What is asked for, where both files are there, and each number that is there is one.
fn charting<'a>(
    boot: Option<&'a str>,
    schedule: Option<&'a str>,
    taken: bool,
    first: Option<u32>,
    last: Option<u32>,
) -> Option<Request<'a>>
    ensures asked { option_map request_said result ≡ charting (option_map (λ s. s.now) boot.entry) (option_map (λ s. s.now) schedule.entry) taken first last }
    ensures within { IfSome result IsInRange }
{
    match (boot, schedule) {
        (Some(boot), Some(schedule)) => {
            if taken {
                Some(Request::Chart {
                    boot,
                    schedule,
                    first,
                    last,
                })
            } else {
                None
            }
        }
        _ => None,
    }
}

/// Whether the values of the two numbers are such.
fn takes_chart(matches: &ArgMatches<'_>) -> bool
    ensures { result ≡ takes_chart (rows_of (found_of matches.now)) }
{
    is_group_or_none(value(matches, "from")) && is_group_or_none(value(matches, "to"))
}

/// Whether a value is the number of a group, or isn't there.
fn is_group_or_none(word: Option<&str>) -> bool
    ensures { result ≡ is_group_or_none (option_map (λ s. s.now) word.entry) }
{
    match word {
        Some(word) => group_in(word.as_bytes()).is_some(),
        None => true,
    }
}

/// The number of an option.
fn group(matches: &ArgMatches<'_>, name: &str) -> Option<u32>
    ensures { result ≡ option_and_then group_in (first_of name.now (rows_of (found_of matches.now))) }
{
    match value(matches, name) {
        Some(word) => group_in(word.as_bytes()),
        None => None,
    }
}

/// The number of a group that a word says.
#[tactic(auto, unfolding(crate::specs::ChartWords::group_in))]
pub(crate) fn group_in(word: &[u8]) -> Option<u32>
    ensures { result ≡ group_in word.now }
{
    let n = count(word)?;
    if 1 <= n { Some(n) } else { None }
}
