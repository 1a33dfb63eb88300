//! The words of the command `explore`.
ghost use Rattle.std.specs.Prelude.{◌≡◌, ◌≤◌, IfSome, None, Some, length, map, option_map};
ghost use Rattle.clap.specs.Words.{found_of, rows_of};
ghost use Rattle.dm_words.specs.ExploreWords.{ExploreIsWithin, all_read, depth_in, depth_of, exploration_of, explore_request as explore_asked, exploring, few_of, filling, in_places, listed, most_in, most_of, with_names, with_numbers};
ghost use Rattle.dm_words.specs.Words.{IsInRange, request_said};
ghost use Rattle.dm_words.specs.Written.{stuck_name, written_move};

use crate::argument::{CommandForm, CommandOption, is_set, value, values};
use crate::words::Request;
use crate::written::{is_text, stuck_name, written_move};
use clap::ArgMatches;
use dm_shape::names::{byte, count};

/// The most names that an option may say, in all its uses.
pub const MOST_NAMES: usize = 16;

/// The most directives of a schedule that is tried.
pub const MOST_DEPTH: u8 = 64;

/// How many schedules are tried at most, where no number is given.
pub const MOST_SCHEDULES: u32 = 1_000_000;

/// A process as it is written: the numbers of its machine and its own there.
#[derive(Clone, Copy)]
pub struct WrittenName {
    pub home: u64,
    pub num: u64,
}

/// A process and a machine as they are written.
#[derive(Clone, Copy)]
pub struct WrittenMove {
    pub name: WrittenName,
    pub machine: u64,
}

/// What is asked of an exploration beside the line that is looked for. Whether its processes and machines can be in a system is not
/// looked at yet.
#[derive(Clone, Copy)]
pub struct Exploration {
    /// 1 to 64.
    pub depth: u8,
    /// From 1 on.
    pub most: u32,
    /// The processes that may be stuck, from the first place on.
    pub stuck: [Option<WrittenName>; MOST_NAMES],
    /// The moves that may be asked for, from the first place on.
    pub moves: [Option<WrittenMove>; MOST_NAMES],
    /// The moves that may be called off, from the first place on.
    pub call_offs: [Option<WrittenMove>; MOST_NAMES],
    pub ticks: u8,
    pub repeats: u8,
    pub acks: bool,
}

/// The command `explore`.
pub(crate) const COMMAND: CommandForm<'static> = CommandForm {
    name: "explore",
    options: &[
        CommandOption::Needed("boot"),
        CommandOption::Needed("depth"),
        CommandOption::Free("line"),
        CommandOption::Many("stuck"),
        CommandOption::Many("move"),
        CommandOption::Many("calloff"),
        CommandOption::Free("ticks"),
        CommandOption::Free("repeats"),
        CommandOption::Flag("acks"),
        CommandOption::Free("most"),
    ],
};

/// What the matches of `explore` ask for, where its numbers are in their ranges, and a line or processes are looked for.
pub fn explore_request<'a>(matches: &ArgMatches<'a>) -> Option<Request<'a>>
    ensures asked { option_map request_said result ≡ explore_asked (rows_of (found_of matches.now)) }
    ensures within { IfSome result IsInRange }
{
    match value(matches, "boot") {
        Some(boot) => exploring(boot, value(matches, "line"), exploration_of(matches)),
        None => None,
    }
}

/// What is asked for of a boot file, where the numbers and names are there.
fn exploring<'a>(
    boot: &'a str,
    line: Option<&'a str>,
    exploration: Option<Exploration>,
) -> Option<Request<'a>>
    requires within { IfSome exploration ExploreIsWithin }
    ensures asked { option_map request_said result ≡ exploring (Some boot.now) (option_map (λ l. l.now) line.entry) exploration }
    ensures within { IfSome result IsInRange }
{
    let exploration = exploration?;
    match line {
        Some(line) => looking_for(boot, line, exploration),
        None => looking_for_stuck(boot, exploration),
    }
}

/// A line is looked for, and no process.
fn looking_for<'a>(boot: &'a str, line: &'a str, exploration: Exploration) -> Option<Request<'a>>
    requires within { ExploreIsWithin exploration }
    ensures asked { option_map request_said result ≡ exploring (Some boot.now) (Some line.now) (Some exploration) }
    ensures within { IfSome result IsInRange }
{
    if is_text(line.as_bytes()) && exploration.stuck[0].is_none() {
        Some(Request::Explore {
            boot,
            line: Some(line),
            exploration,
        })
    } else {
        None
    }
}

/// Processes are looked for, one of them at least.
fn looking_for_stuck<'a>(boot: &'a str, exploration: Exploration) -> Option<Request<'a>>
    requires within { ExploreIsWithin exploration }
    ensures asked { option_map request_said result ≡ exploring (Some boot.now) None (Some exploration) }
    ensures within { IfSome result IsInRange }
{
    if exploration.stuck[0].is_some() {
        Some(Request::Explore {
            boot,
            line: None,
            exploration,
        })
    } else {
        None
    }
}

/// The numbers and names of an exploration, where they are in their ranges and are written as such.
fn exploration_of(matches: &ArgMatches<'_>) -> Option<Exploration>
    ensures is { result ≡ exploration_of (rows_of (found_of matches.now)) }
    ensures within { IfSome result ExploreIsWithin }
{
    let numbers = with_numbers(
        depth_of(matches),
        most_of(matches),
        few(matches, "ticks"),
        few(matches, "repeats"),
        is_set(matches, "acks"),
    );
    with_names(
        numbers,
        names_of(matches, "stuck"),
        moves_of(matches, "move"),
        moves_of(matches, "calloff"),
    )
}

/// An exploration with these numbers, where they are there, that names nothing yet.
fn with_numbers(
    depth: Option<u8>,
    most: Option<u32>,
    ticks: Option<u8>,
    repeats: Option<u8>,
    acks: bool,
) -> Option<Exploration>
    requires least { IfSome depth (λ n. 1 ≤ n) }
    requires most { IfSome depth (λ n. n ≤ MOST_DEPTH) }
    requires some { IfSome most (λ n. 1 ≤ n) }
    ensures is { result ≡ with_numbers depth most ticks repeats acks }
    ensures within { IfSome result ExploreIsWithin }
{
    match (depth, most, ticks, repeats) {
        (Some(depth), Some(most), Some(ticks), Some(repeats)) => Some(Exploration {
            depth,
            most,
            stuck: [None; MOST_NAMES],
            moves: [None; MOST_NAMES],
            call_offs: [None; MOST_NAMES],
            ticks,
            repeats,
            acks,
        }),
        _ => None,
    }
}

/// An exploration that names these, where all of it is there.
fn with_names(
    numbers: Option<Exploration>,
    stuck: Option<[Option<WrittenName>; MOST_NAMES]>,
    moves: Option<[Option<WrittenMove>; MOST_NAMES]>,
    call_offs: Option<[Option<WrittenMove>; MOST_NAMES]>,
) -> Option<Exploration>
    requires within { IfSome numbers ExploreIsWithin }
    ensures is { result ≡ with_names numbers stuck moves call_offs }
    ensures within { IfSome result ExploreIsWithin }
{
    match (numbers, stuck, moves, call_offs) {
        (Some(numbers), Some(stuck), Some(moves), Some(call_offs)) => Some(Exploration {
            stuck,
            moves,
            call_offs,
            ..numbers
        }),
        _ => None,
    }
}

/// The number of the option `--depth`, if it is in its range.
fn depth_of(matches: &ArgMatches<'_>) -> Option<u8>
    ensures number { result ≡ depth_of (rows_of (found_of matches.now)) }
    ensures least { IfSome result (λ n. 1 ≤ n) }
    ensures most { IfSome result (λ n. n ≤ MOST_DEPTH) }
{
    match value(matches, "depth") {
        Some(word) => depth_in(word.as_bytes()),
        None => None,
    }
}

/// The number of directives that a word says, if it is in its range.
pub(crate) fn depth_in(word: &[u8]) -> Option<u8>
    ensures number { result ≡ depth_in word.now }
    ensures least { IfSome result (λ n. 1 ≤ n) }
    ensures most { IfSome result (λ n. n ≤ MOST_DEPTH) }
{
    let n = byte(word)?;
    if 1 <= n && n <= MOST_DEPTH {
        Some(n)
    } else {
        None
    }
}

/// The number of the option `--most`, if it is in its range; the usual one where it isn't there.
fn most_of(matches: &ArgMatches<'_>) -> Option<u32>
    ensures number { result ≡ most_of (rows_of (found_of matches.now)) }
    ensures least { IfSome result (λ n. 1 ≤ n) }
{
    match value(matches, "most") {
        Some(word) => most_in(word.as_bytes()),
        None => Some(MOST_SCHEDULES),
    }
}

/// The number of schedules that a word says, if it is in its range.
pub(crate) fn most_in(word: &[u8]) -> Option<u32>
    ensures number { result ≡ most_in word.now }
    ensures least { IfSome result (λ n. 1 ≤ n) }
{
    let n = count(word)?;
    if 1 <= n { Some(n) } else { None }
}

/// The number of an option, 0 to 255; 0 where it isn't there.
fn few(matches: &ArgMatches<'_>, name: &str) -> Option<u8>
    ensures { result ≡ few_of name.now (rows_of (found_of matches.now)) }
{
    match value(matches, name) {
        Some(word) => byte(word.as_bytes()),
        None => Some(0),
    }
}

/// The processes that an option names, sixteen at most.
fn names_of(matches: &ArgMatches<'_>, name: &str) -> Option<[Option<WrittenName>; MOST_NAMES]>
    ensures { result ≡ listed stuck_name name.now (rows_of (found_of matches.now)) }
{
    match values(matches, name) {
        Some(words) => names_in(words),
        None => Some([None; MOST_NAMES]),
    }
}

/// The processes that these words name, sixteen at most.
fn names_in(words: &[&str]) -> Option<[Option<WrittenName>; MOST_NAMES]>
    ensures { result ≡ in_places stuck_name (map (λ w. w.now) words.now) }
{
    if words.len() <= MOST_NAMES {
        each_name(words)
    } else {
        None
    }
}

/// Each of the processes that these words name.
fn each_name(words: &[&str]) -> Option<[Option<WrittenName>; MOST_NAMES]>
    requires { length words.now ≤ MOST_NAMES }
    ensures { result ≡ option_map (filling MOST_NAMES) (all_read stuck_name (map (λ w. w.now) words.now)) }
{
    let mut found = [None; MOST_NAMES];
    for place in 0..words.len() {
        found[place] = Some(stuck_name(words[place].as_bytes())?);
    }
    Some(found)
}

/// The processes and machines that an option names, sixteen at most.
fn moves_of(matches: &ArgMatches<'_>, name: &str) -> Option<[Option<WrittenMove>; MOST_NAMES]>
    ensures { result ≡ listed written_move name.now (rows_of (found_of matches.now)) }
{
    match values(matches, name) {
        Some(words) => moves_in(words),
        None => Some([None; MOST_NAMES]),
    }
}

/// The processes and machines that these words name, sixteen at most.
fn moves_in(words: &[&str]) -> Option<[Option<WrittenMove>; MOST_NAMES]>
    ensures { result ≡ in_places written_move (map (λ w. w.now) words.now) }
{
    if words.len() <= MOST_NAMES {
        each_move(words)
    } else {
        None
    }
}

/// Each of the processes and machines that these words name.
fn each_move(words: &[&str]) -> Option<[Option<WrittenMove>; MOST_NAMES]>
    requires { length words.now ≤ MOST_NAMES }
    ensures { result ≡ option_map (filling MOST_NAMES) (all_read written_move (map (λ w. w.now) words.now)) }
{
    let mut found = [None; MOST_NAMES];
    for place in 0..words.len() {
        found[place] = Some(written_move(words[place].as_bytes())?);
    }
    Some(found)
}
