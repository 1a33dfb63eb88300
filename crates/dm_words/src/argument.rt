//! The options of a command as the parse takes them, and what its matches have of each.
ghost use Rattle.std.specs.Prelude.{◌≡◌, IfOk, map, option_map};
ghost use Rattle.clap.specs.Walk.{first_of};
ghost use Rattle.clap.specs.Words.{all_of, found_of, rows_of};
ghost use Rattle.dm_words.specs.Arguments.{IsOption, option_rule, with_options};
ghost use Rattle.dm_words.specs.DrillWords.{flag_of, flag_option};
ghost use Rattle.dm_words.specs.ExploreWords.{many_option};
ghost use Rattle.dm_words.specs.FileWords.{file_option, free_option};
ghost use Rattle.dm_words.specs.Words.{HasShape};

use clap::{Arg, ArgAction, ArgMatches, Command};
use dm_memory::NoMemory;
use dm_memory::of_clap::with_arg;
use std::alloc::Global;

/// An option of a command, by its name, and how the command takes it.
#[derive(Clone, Copy)]
pub(crate) enum CommandOption<'a> {
    /// `--name VALUE`, which has to be there.
    Needed(&'a str),
    /// `--name VALUE`, which may be there.
    Free(&'a str),
    /// `--name VALUE`, which may be there more than once.
    Many(&'a str),
    /// `--name`, which may be there.
    Flag(&'a str),
}

/// A command of the program: its word and its options.
#[derive(Clone, Copy)]
pub(crate) struct CommandForm<'a> {
    pub name: &'a str,
    pub options: &'a [CommandOption<'a>],
}

/// A command of this name that takes these options.
pub(crate) fn with_options<'a>(
    alloc: Global,
    name: &'a str,
    options: &[CommandOption<'a>],
) -> Result<Command<'a>, NoMemory>
    ensures { IfOk result (HasShape (with_options name.now options.now)) }
{
    let mut command = Command::new(alloc, name);
    for option in options {
        command = with_arg(command, argument(alloc, *option))?;
    }
    Ok(command)
}

/// An option as the parse takes it.
fn argument<'a>(alloc: Global, option: CommandOption<'a>) -> Arg<'a>
    ensures { IsOption (option_rule option.entry) result }
{
    match option {
        CommandOption::Needed(name) => needed(alloc, name),
        CommandOption::Free(name) => free(alloc, name),
        CommandOption::Many(name) => many(alloc, name),
        CommandOption::Flag(name) => flag(alloc, name),
    }
}

/// The option `--name VALUE`, which has to be there.
fn needed<'a>(alloc: Global, name: &'a str) -> Arg<'a>
    ensures { IsOption (file_option name.now) result }
{
    Arg::new(alloc, name).long(name).required(true)
}

/// The option `--name VALUE`, which may be there.
fn free<'a>(alloc: Global, name: &'a str) -> Arg<'a>
    ensures { IsOption (free_option name.now) result }
{
    Arg::new(alloc, name).long(name)
}

/// The option `--name VALUE`, which may be there more than once.
fn many<'a>(alloc: Global, name: &'a str) -> Arg<'a>
    ensures { IsOption (many_option name.now) result }
{
    Arg::new(alloc, name).long(name).action(ArgAction::Append)
}

/// The option `--name`, which may be there.
fn flag<'a>(alloc: Global, name: &'a str) -> Arg<'a>
    ensures { IsOption (flag_option name.now) result }
{
    Arg::new(alloc, name).long(name).action(ArgAction::SetTrue)
}

/// The first value of an option.
pub(crate) fn value<'a>(matches: &ArgMatches<'a>, name: &str) -> Option<&'a str>
    ensures { option_map (λ s. s.now) result ≡ first_of name.now (rows_of (found_of matches.now)) }
{
    matches.get_str(name)
}

/// The values of an option, in all its uses.
pub(crate) fn values<'m, 'a>(matches: &'m ArgMatches<'a>, name: &str) -> Option<&'m [&'a str]>
    ensures { option_map (λ s. map (λ v. v.now) s.now) result ≡ all_of name.now (rows_of (found_of matches.now)) }
{
    matches.get_strs(name)
}

/// Whether an option without a value is there.
pub(crate) fn is_set(matches: &ArgMatches<'_>, name: &str) -> bool
    ensures { result ≡ flag_of name.now (rows_of (found_of matches.now)) }
{
    match value(matches, name) {
        Some(word) => word == "true",
        None => false,
    }
}
