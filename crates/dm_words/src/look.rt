//! The words of the command `look`.
ghost use Rattle.std.specs.Prelude.{◌≡◌, option_map, IfSome};
ghost use Rattle.clap.specs.Words.{found_of, rows_of};
ghost use Rattle.dm_words.specs.LookWords.{groups_of, look_request as look_asked, looking};
ghost use Rattle.dm_words.specs.Words.{IsInRange, request_said};

use crate::argument::{CommandForm, CommandOption, is_set, value};
use crate::words::Request;
use clap::ArgMatches;
use dm_shape::names::count;

/// The command `look`.
pub(crate) const COMMAND: CommandForm<'static> = CommandForm {
    name: "look",
    options: &[
        CommandOption::Needed("boot"),
        CommandOption::Needed("schedule"),
        CommandOption::Needed("at"),
        CommandOption::Flag("names"),
    ],
};

/// The two files and the number of groups that the matches of `look` name, and whether names are asked for.
pub fn look_request<'a>(matches: &ArgMatches<'a>) -> Option<Request<'a>>
    ensures asked { option_map request_said result ≡ look_asked (rows_of (found_of matches.now)) }
    ensures within { IfSome result IsInRange }
{
    looking(
        value(matches, "boot"),
        value(matches, "schedule"),
        groups(matches),
        is_set(matches, "names"),
    )
}

/// What is asked for, where both files and the number are there.
fn looking<'a>(
    boot: Option<&'a str>,
    schedule: Option<&'a str>,
    groups: Option<u32>,
    names: bool,
) -> Option<Request<'a>>
    ensures asked { option_map request_said result ≡ looking (option_map (λ s. s.now) boot.entry) (option_map (λ s. s.now) schedule.entry) groups names }
    ensures within { IfSome result IsInRange }
{
    match (boot, schedule, groups) {
        (Some(boot), Some(schedule), Some(groups)) => Some(Request::Look {
            boot,
            schedule,
            groups,
            names,
        }),
        _ => None,
    }
}

/// The number of the option `--at`.
fn groups(matches: &ArgMatches<'_>) -> Option<u32>
    ensures { result ≡ groups_of (rows_of (found_of matches.now)) }
{
    match value(matches, "at") {
        Some(word) => count(word.as_bytes()),
        None => None,
    }
}
