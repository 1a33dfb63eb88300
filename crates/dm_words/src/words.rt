//! The words of the command line, and what they ask for.
ghost use Rattle.std.specs.Prelude.{◌≡◌, map, option_and_then, option_map, None, Some, IfOk, IfErr, IfSome};
ghost use Rattle.clap.specs.Words.{app_of, found_of, rows_of, subcommand_rows_of, with_subcommand as with_shape};
ghost use Rattle.dm_words.specs.Arguments.{form_shape, with_shapes};
ghost use Rattle.dm_words.specs.Refused.{status_of_no};
ghost use Rattle.dm_words.specs.Words.{IsInRange, IsTaken, bare, command_of, demosmp, request_at, request_of, request_said};

use crate::argument::{CommandForm, with_options};
use crate::chart::{self, chart_request};
use crate::drill::{self, drill_request};
use crate::explore::{self, Exploration, explore_request};
use crate::files::{self, check_request, count_request, explain_request, run_request};
use crate::form::Form;
use crate::look::{self, look_request};
use clap::{ArgMatches, Command};
use dm_draw::drill::{Drill, OwnDrill};
use dm_ending::status::Status;
use dm_memory::NoMemory;
use dm_memory::of_clap::{MatchesError, matches_from, with_subcommand};
use std::alloc::Global;

/// Why the words ask for nothing.
#[derive(Clone, Copy, Debug)]
pub enum WordsError {
    /// The words aren't those of a command.
    Usage,
    /// No memory was left.
    NoMemory(NoMemory),
}

impl WordsError {
    /// How the program ends then.
    pub fn status(self) -> Status
        ensures { result ≡ status_of_no self }
    {
        match self {
            WordsError::Usage => Status::Usage,
            WordsError::NoMemory(no) => Status::NoMemory(no),
        }
    }
}

/// What the words ask for, a row a command.
#[derive(Clone, Copy)]
pub enum Request<'a> {
    /// To run the schedule of a file on the system of a boot file.
    Run {
        boot: &'a str,
        schedule: &'a str,
    },
    /// To check that the trace of a file is what the system of a boot file prints.
    Check {
        boot: &'a str,
        trace: &'a str,
    },
    /// To check that the labels of a file are steps of one kernel without machines, from a boot file on.
    CheckLabels {
        boot: &'a str,
        labels: &'a str,
    },
    /// To draw the run of the schedule of a file on the system of a boot file: the groups from a number to a number, where these
    /// are there.
    Chart {
        boot: &'a str,
        schedule: &'a str,
        first: Option<u32>,
        last: Option<u32>,
    },
    /// To say what a boot file says, and a schedule where there is one, or what is wrong with them.
    Explain {
        boot: &'a str,
        schedule: Option<&'a str>,
    },
    /// To check that the trace of a file is what the system of a boot file prints, and to say what was due where it isn't.
    Judge {
        boot: &'a str,
        trace: &'a str,
    },
    /// To run the schedule of a file on the system of a boot file, and count what happens.
    Count {
        boot: &'a str,
        schedule: &'a str,
    },
    /// To say where the run of a schedule stands behind so many groups, and what is in the messages, with the names of the boot file's
    /// processes or without.
    Look {
        boot: &'a str,
        schedule: &'a str,
        groups: u32,
        names: bool,
    },
    /// To look through the schedules of the system of a boot file, for a line or for processes that get stuck.
    Explore {
        boot: &'a str,
        line: Option<&'a str>,
        exploration: Exploration,
    },
    /// To do a drill: its machines are 2 to 16, its directives 1 to 10,000.
    Drill(Drill),
    /// To do a drill of the system of a boot file, or to write its directives, which are 1 to 10,000.
    OwnDrill {
        boot: &'a str,
        drill: OwnDrill,
    },
}

/// What the words ask for, where they are those of a command.
pub fn read_words<'a>(alloc: Global, words: &'a [&'a str]) -> Result<Request<'a>, WordsError>
    ensures asks { IfOk result (λ r. request_of (map (λ w. w.now) words.now) ≡ Some (request_said r)) }
    ensures within { IfOk result IsInRange }
    ensures refused { IfErr result (λ e. e ≡ WordsError.Usage → IsTaken (map (λ w. w.now) words.now) → ⊥) }
    ensures usage { IfErr result (λ e. e ≡ WordsError.Usage → request_of (map (λ w. w.now) words.now) ≡ None) }
{
    match command(alloc) {
        Ok(command) => read_by(command, words),
        Err(no) => Err(WordsError::NoMemory(no)),
    }
}

/// The same by the command line of the program.
fn read_by<'a>(command: Command<'a>, words: &'a [&'a str]) -> Result<Request<'a>, WordsError>
    requires { app_of command ≡ demosmp }
    ensures asks { IfOk result (λ r. request_of (map (λ w. w.now) words.now) ≡ Some (request_said r)) }
    ensures within { IfOk result IsInRange }
    ensures refused { IfErr result (λ e. e ≡ WordsError.Usage → IsTaken (map (λ w. w.now) words.now) → ⊥) }
    ensures usage { IfErr result (λ e. e ≡ WordsError.Usage → request_of (map (λ w. w.now) words.now) ≡ None) }
{
    match matches_from(command, words) {
        Ok(matches) => match request_in(&matches) {
            Some(request) => Ok(request),
            None => Err(WordsError::Usage),
        },
        Err(MatchesError::Refused) => Err(WordsError::Usage),
        Err(MatchesError::NoMemory(no)) => Err(WordsError::NoMemory(no)),
    }
}

/// The commands of the program, in their order.
const COMMANDS: [CommandForm<'static>; 8] = [
    files::RUN,
    files::CHECK,
    chart::COMMAND,
    files::EXPLAIN,
    files::COUNT,
    look::COMMAND,
    explore::COMMAND,
    drill::COMMAND,
];

/// The command line of the program.
fn command<'a>(alloc: Global) -> Result<Command<'a>, NoMemory>
    ensures { IfOk result (λ c. app_of c ≡ demosmp) }
{
    with_commands(alloc, &COMMANDS)
}

/// The command line of the program with these commands.
fn with_commands<'a>(alloc: Global, commands: &[CommandForm<'a>]) -> Result<Command<'a>, NoMemory>
    ensures { IfOk result (λ c. app_of c ≡ with_shapes bare (map form_shape commands.now)) }
{
    let mut line = bare(alloc);
    for command in commands {
        line = with_command(alloc, line, command)?;
    }
    Ok(line)
}

/// A command line with one more command.
fn with_command<'a>(
    alloc: Global,
    line: Command<'a>,
    command: &CommandForm<'a>,
) -> Result<Command<'a>, NoMemory>
    ensures { IfOk result (λ c. app_of c ≡ with_shape (app_of line.entry) (form_shape command.now)) }
{
    let made = with_options(alloc, command.name, command.options)?;
    with_subcommand(line, made)
}

/// The command line of the program, before its commands.
fn bare<'a>(alloc: Global) -> Command<'a>
    ensures { app_of result ≡ bare }
{
    Command::new(alloc, "demosmp")
        .disable_help_subcommand(true)
        .subcommand_required(true)
}

/// What the matches of the subcommand ask for.
fn request_in<'a>(matches: &ArgMatches<'a>) -> Option<Request<'a>>
    ensures asked { option_map request_said result ≡ option_and_then request_at (subcommand_rows_of matches.now) }
    ensures within { IfSome result IsInRange }
{
    match matches.subcommand() {
        Some((name, found)) => request_of_command(name, found),
        None => None,
    }
}

/// What the matches of the command of this name ask for.
fn request_of_command<'a>(name: &str, found: &ArgMatches<'a>) -> Option<Request<'a>>
    ensures asked { option_map request_said result ≡ request_at (name.now, rows_of (found_of found.now)) }
    ensures within { IfSome result IsInRange }
{
    match Form::from_word(name.as_bytes()) {
        Some(form) => request_of_form(form, found),
        None => None,
    }
}

/// The same of a command, a row each.
fn request_of_form<'a>(form: Form, found: &ArgMatches<'a>) -> Option<Request<'a>>
    ensures asked { option_map request_said result ≡ (command_of form).request (rows_of (found_of found.now)) }
    ensures within { IfSome result IsInRange }
{
    match form {
        Form::Run => run_request(found),
        Form::Check => check_request(found),
        Form::Chart => chart_request(found),
        Form::Explain => explain_request(found),
        Form::Count => count_request(found),
        Form::Look => look_request(found),
        Form::Explore => explore_request(found),
        Form::Drill => drill_request(found),
    }
}
