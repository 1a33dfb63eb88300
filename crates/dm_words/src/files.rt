//! The words of the commands that name files alone: `run`, `check`, `explain` and `count`.
ghost use Rattle.std.specs.Prelude.{◌≡◌, IfSome, Some, option_map};
ghost use Rattle.clap.specs.Words.{found_of, rows_of};
ghost use Rattle.dm_words.specs.CheckWords.{check_request as check_asked, checking};
ghost use Rattle.dm_words.specs.CountWords.{count_request as count_asked};
ghost use Rattle.dm_words.specs.ExplainWords.{explain_request as explain_asked, explaining};
ghost use Rattle.dm_words.specs.RunWords.{run_request as run_asked};
ghost use Rattle.dm_words.specs.Words.{IsInRange, request_said};

use crate::argument::{CommandForm, CommandOption, value};
use crate::words::Request;
use clap::ArgMatches;

/// The command `run`.
pub(crate) const RUN: CommandForm<'static> = CommandForm {
    name: "run",
    options: &[
        CommandOption::Needed("boot"),
        CommandOption::Needed("schedule"),
    ],
};

/// The command `check`.
pub(crate) const CHECK: CommandForm<'static> = CommandForm {
    name: "check",
    options: &[
        CommandOption::Needed("boot"),
        CommandOption::Free("trace"),
        CommandOption::Free("labels"),
    ],
};

/// The command `explain`.
pub(crate) const EXPLAIN: CommandForm<'static> = CommandForm {
    name: "explain",
    options: &[
        CommandOption::Needed("boot"),
        CommandOption::Free("schedule"),
        CommandOption::Free("trace"),
    ],
};

/// The command `count`.
pub(crate) const COUNT: CommandForm<'static> = CommandForm {
    name: "count",
    options: &[
        CommandOption::Needed("boot"),
        CommandOption::Needed("schedule"),
    ],
};

/// The two files that the matches of `run` name.
pub fn run_request<'a>(matches: &ArgMatches<'a>) -> Option<Request<'a>>
    ensures asked { option_map request_said result ≡ run_asked (rows_of (found_of matches.now)) }
    ensures within { IfSome result IsInRange }
{
    match (value(matches, "boot"), value(matches, "schedule")) {
        (Some(boot), Some(schedule)) => Some(Request::Run { boot, schedule }),
        _ => None,
    }
}

/// The boot file that the matches of `check` name, and the trace or the labels: just one of them.
pub fn check_request<'a>(matches: &ArgMatches<'a>) -> Option<Request<'a>>
    ensures asked { option_map request_said result ≡ check_asked (rows_of (found_of matches.now)) }
    ensures within { IfSome result IsInRange }
{
    match value(matches, "boot") {
        Some(boot) => checking(boot, value(matches, "trace"), value(matches, "labels")),
        None => None,
    }
}

/// What is to be checked with a boot file: a trace or labels, just one of them.
fn checking<'a>(
    boot: &'a str,
    trace: Option<&'a str>,
    labels: Option<&'a str>,
) -> Option<Request<'a>>
    ensures asked { option_map request_said result ≡ checking (Some boot.now) (option_map (λ s. s.now) trace.entry) (option_map (λ s. s.now) labels.entry) }
    ensures within { IfSome result IsInRange }
{
    match (trace, labels) {
        (Some(trace), None) => Some(Request::Check { boot, trace }),
        (None, Some(labels)) => Some(Request::CheckLabels { boot, labels }),
        _ => None,
    }
}

/// The file that the matches of `explain` name, and the schedule or the trace where they name one of them.
pub fn explain_request<'a>(matches: &ArgMatches<'a>) -> Option<Request<'a>>
    ensures { option_map request_said result ≡ explain_asked (rows_of (found_of matches.now)) }
{
    match value(matches, "boot") {
        Some(boot) => explaining(boot, value(matches, "schedule"), value(matches, "trace")),
        None => None,
    }
}

/// What is asked for of a boot file, and of a schedule or a trace where one is named.
fn explaining<'a>(
    boot: &'a str,
    schedule: Option<&'a str>,
    trace: Option<&'a str>,
) -> Option<Request<'a>>
    ensures { option_map request_said result ≡ explaining (Some boot.now) (option_map (λ s. s.now) schedule.entry) (option_map (λ s. s.now) trace.entry) }
{
    match trace {
        None => Some(Request::Explain { boot, schedule }),
        Some(trace) => match schedule {
            None => Some(Request::Judge { boot, trace }),
            Some(_) => None,
        },
    }
}

/// The two files that the matches of `count` name.
pub fn count_request<'a>(matches: &ArgMatches<'a>) -> Option<Request<'a>>
    ensures asked { option_map request_said result ≡ count_asked (rows_of (found_of matches.now)) }
    ensures within { IfSome result IsInRange }
{
    match (value(matches, "boot"), value(matches, "schedule")) {
        (Some(boot), Some(schedule)) => Some(Request::Count { boot, schedule }),
        _ => None,
    }
}
