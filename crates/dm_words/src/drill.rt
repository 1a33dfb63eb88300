//! The words of the command `drill`.
ghost use Rattle.std.specs.Prelude.{◌≡◌, ◌≤◌, IfSome, option_map};
ghost use Rattle.clap.specs.Words.{found_of, rows_of};
ghost use Rattle.dm_words.specs.DrillWords.{drill_request as drill_asked, lines_asked, lines_in, machines_asked, machines_in, own_by, run_by, schedule_of, seed_of, shows_by, trace_of};
ghost use Rattle.dm_words.specs.Words.{IsInRange, request_said};

use crate::argument::{CommandForm, CommandOption, is_set, value};
use crate::words::Request;
use clap::ArgMatches;
use dm_draw::drill::{Drill, OwnDrill, Shows};
use dm_link::MACHINES;
use dm_shape::names::{byte, count};

/// The most directives that a drill draws.
pub const MOST_LINES: u32 = 10_000;

/// The command `drill`.
pub(crate) const COMMAND: CommandForm<'static> = CommandForm {
    name: "drill",
    options: &[
        CommandOption::Needed("seed"),
        CommandOption::Needed("lines"),
        CommandOption::Free("machines"),
        CommandOption::Free("boot"),
        CommandOption::Flag("trace"),
        CommandOption::Flag("schedule"),
    ],
};

/// The drill that the matches of `drill` ask for, where its numbers are in their ranges.
pub fn drill_request<'a>(matches: &ArgMatches<'a>) -> Option<Request<'a>>
    ensures asked { option_map request_said result ≡ drill_asked (rows_of (found_of matches.now)) }
    ensures within { IfSome result IsInRange }
{
    match value(matches, "boot") {
        Some(boot) => match value(matches, "machines") {
            Some(_) => None,
            None => own_request(boot, matches),
        },
        None => drawn_request(matches),
    }
}

/// The drill of a system that is drawn; its directives aren't written alone.
fn drawn_request<'a>(matches: &ArgMatches<'a>) -> Option<Request<'a>>
    ensures asked { option_map request_said result ≡ run_by (schedule_of (rows_of (found_of matches.now))) (trace_of (rows_of (found_of matches.now)))
        (seed_of (rows_of (found_of matches.now))) (machines_asked (rows_of (found_of matches.now))) (lines_asked (rows_of (found_of matches.now))) }
    ensures within { IfSome result IsInRange }
{
    if is_set(matches, "schedule") {
        return None;
    }
    match (seed(matches), machines(matches), lines(matches)) {
        (Some(seed), Some(machines), Some(lines)) => Some(Request::Drill(Drill {
            seed,
            machines,
            lines,
            trace: is_set(matches, "trace"),
        })),
        _ => None,
    }
}

/// The drill of the system of this boot file.
fn own_request<'a>(boot: &'a str, matches: &ArgMatches<'a>) -> Option<Request<'a>>
    ensures asked { option_map request_said result ≡ own_by boot.now (shows_by (trace_of (rows_of (found_of matches.now))) (schedule_of (rows_of (found_of matches.now))))
        (seed_of (rows_of (found_of matches.now))) (lines_asked (rows_of (found_of matches.now))) }
    ensures within { IfSome result IsInRange }
{
    let shown = shows(is_set(matches, "trace"), is_set(matches, "schedule"));
    match (shown, seed(matches), lines(matches)) {
        (Some(shows), Some(seed), Some(lines)) => Some(Request::OwnDrill {
            boot,
            drill: OwnDrill { seed, lines, shows },
        }),
        _ => None,
    }
}

/// What is written of a drill, by the two flags, of which one may be there.
fn shows(trace: bool, schedule: bool) -> Option<Shows>
    ensures { result ≡ shows_by trace schedule }
{
    match (trace, schedule) {
        (false, false) => Some(Shows::Summary),
        (true, false) => Some(Shows::Groups),
        (false, true) => Some(Shows::Directives),
        (true, true) => None,
    }
}

/// The number of the option `--seed`.
fn seed(matches: &ArgMatches<'_>) -> Option<u32>
    ensures { result ≡ seed_of (rows_of (found_of matches.now)) }
{
    match value(matches, "seed") {
        Some(word) => count(word.as_bytes()),
        None => None,
    }
}

/// The number of the option `--machines`, if it is in its range.
fn machines(matches: &ArgMatches<'_>) -> Option<u8>
    ensures number { result ≡ machines_asked (rows_of (found_of matches.now)) }
    ensures least { IfSome result (λ n. 2 ≤ n) }
    ensures most { IfSome result (λ n. n ≤ MACHINES) }
{
    match value(matches, "machines") {
        Some(word) => machines_in(word.as_bytes()),
        None => None,
    }
}

/// The number of machines that a word says.
pub(crate) fn machines_in(word: &[u8]) -> Option<u8>
    ensures number { result ≡ machines_in word.now }
    ensures least { IfSome result (λ n. 2 ≤ n) }
    ensures most { IfSome result (λ n. n ≤ MACHINES) }
{
    let n = byte(word)?;
    if 2 <= n && n <= MACHINES {
        Some(n)
    } else {
        None
    }
}

/// The number of the option `--lines`, if it is in its range.
fn lines(matches: &ArgMatches<'_>) -> Option<u32>
    ensures number { result ≡ lines_asked (rows_of (found_of matches.now)) }
    ensures most { IfSome result (λ n. n ≤ MOST_LINES) }
{
    match value(matches, "lines") {
        Some(word) => lines_in(word.as_bytes()),
        None => None,
    }
}

/// The number of directives that a word says.
pub(crate) fn lines_in(word: &[u8]) -> Option<u32>
    ensures number { result ≡ lines_in word.now }
    ensures most { IfSome result (λ n. n ≤ MOST_LINES) }
{
    let n = count(word)?;
    if 1 <= n && n <= MOST_LINES {
        Some(n)
    } else {
        None
    }
}
