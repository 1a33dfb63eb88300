//! Command lines, of the crate `clap`. Its parse tells want of memory by a kind of error of its own, and hands no
//! allocation's error on; and anybody can make an error of that kind. So the kind is turned into want of memory here, at
//! the call that it answers.
ghost use Rattle.std.specs.Prelude.{◌≡◌, ◌↔◌, IfOk, map, true};
ghost use Rattle.clap.specs.Words.{AddsArg, AddsSubcommand, HasMatchesOf, app_of, fault_of, is_simple_and_free};
ghost use Rattle.dm_memory.specs.Clap.{FailsBy, MatchesLackMemory};

use crate::NoMemory;
use clap::error::ErrorKind;
use clap::{Arg, ArgMatches, Command};

/// Why there are no matches.
#[derive(Clone, Copy, Debug)]
pub enum MatchesError {
    /// The words are refused.
    Refused,
    /// No memory was left.
    NoMemory(NoMemory),
}

/// Adds an argument.
pub fn with_arg<'a>(command: Command<'a>, arg: Arg<'a>) -> Result<Command<'a>, NoMemory>
    ensures { IfOk result (λ r. AddsArg command.entry arg.entry r) }
{
    match command.arg(arg) {
        Ok(command) => Ok(command),
        Err(_) => Err(NoMemory(())),
    }
}

/// Adds a subcommand.
pub fn with_subcommand<'a>(
    command: Command<'a>,
    subcommand: Command<'a>,
) -> Result<Command<'a>, NoMemory>
    ensures { IfOk result (λ r. AddsSubcommand command.entry subcommand.entry r) }
{
    match command.subcommand(subcommand) {
        Ok(command) => Ok(command),
        Err(_) => Err(NoMemory(())),
    }
}

/// The matches of words, of which the first is the program's name.
pub fn matches_from<'a>(
    command: Command<'a>,
    words: &'a [&'a str],
) -> Result<ArgMatches<'a>, MatchesError>
    ensures matches { IfOk result (HasMatchesOf (app_of command.entry) (map (λ w. w.now) words.now)) }
    ensures fails { is_simple_and_free (app_of command.entry) ≡ true → FailsBy (fault_of (app_of command.entry) (map (λ w. w.now) words.now)) result }
{
    match command.try_get_matches_from(words) {
        Ok(matches) => Ok(matches),
        Err(error) => Err(no_matches(error.kind())),
    }
}

/// Why there are no matches: only one kind of error is want of memory.
fn no_matches(kind: ErrorKind) -> MatchesError
    ensures { MatchesLackMemory result ↔ (kind ≡ ErrorKind.OutOfMemory) }
{
    match kind {
        ErrorKind::OutOfMemory => MatchesError::NoMemory(NoMemory(())),
        _ => MatchesError::Refused,
    }
}
