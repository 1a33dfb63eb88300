//! What was wrong with words that ask for nothing, the form of their command, and where help is. It is asked only once the words
//! were refused, and takes no memory.
ghost use Rattle.std.specs.Prelude.{◌≡◌, map, string_bytes};
ghost use Rattle.dm_words.specs.Usage.{absent, absent_told, bad, bad_told, bad_value, behind_name, check_clash, clash, clash_told, command_lines, command_told, drill_clash, due_words, explain_clash, explore_clash, flags_clash, has_zero, is_bad, pieces_of, pieces_told, told, usage_pieces, value_told, wrong_told};

use crate::form::Form;
use crate::option::OptionName;
use crate::walk::{bad_value_of, first_word, walk};
use dm_shape::wrong_word;

/// What is wrong, in four pieces.
#[derive(Clone, Copy)]
pub struct Fault<'a> {
    pub one: &'a [u8],
    pub two: &'a [u8],
    pub three: &'a [u8],
    pub four: &'a [u8],
}

/// That, and the lines behind it.
#[derive(Clone, Copy)]
pub struct Said<'a> {
    pub told: Fault<'a>,
    pub lines: &'a [u8],
}

/// What is wrong in one piece, and in more.
pub(crate) fn told<'a>(one: &'a [u8], two: &'a [u8], three: &'a [u8], four: &'a [u8]) -> Fault<'a>
    ensures { pieces_told result ≡ told one.now two.now three.now four.now }
{
    Fault {
        one,
        two,
        three,
        four,
    }
}

/// Whether a 0 stands in front of a number.
fn has_zero(value: &[u8]) -> bool
    ensures { result ≡ has_zero value.now }
{
    1 < value.len() && value[0] == b'0'
}

/// An option that has to be there, and isn't.
#[tactic(auto, unfolding(crate::specs::Usage::absent))]
fn absent(form: Form, words: &[String]) -> Option<OptionName>
    ensures { result ≡ absent form (map string_bytes words.now) }
{
    form.needed()
        .iter()
        .copied()
        .find(|option| !option.is_named(words))
}

/// Whether a value of an option isn't what it must be.
#[tactic(auto, unfolding(crate::specs::Usage::is_bad))]
fn is_bad(option: OptionName, words: &[String]) -> bool
    ensures { result ≡ is_bad option (map string_bytes words.now) }
{
    bad_value_of(option, words).is_some()
}

/// An option with a value that isn't what it must be.
#[tactic(auto, unfolding(crate::specs::Usage::bad))]
fn bad(form: Form, words: &[String]) -> Option<OptionName>
    ensures { result ≡ bad form (map string_bytes words.now) }
{
    form.options()
        .iter()
        .copied()
        .find(|option| is_bad(*option, words))
}

/// What of some options doesn't go together, nothing where all does.
#[tactic(auto, unfolding(crate::specs::Usage::clash))]
fn clash(form: Form, words: &[String]) -> &'static [u8]
    ensures { result.now ≡ clash form (map string_bytes words.now) }
{
    match form {
        Form::Run => b"",
        Form::Check => check_clash(
            OptionName::Trace.is_named(words),
            OptionName::Labels.is_named(words),
        ),
        Form::Chart => b"",
        Form::Explain => explain_clash(
            OptionName::Schedule.is_named(words),
            OptionName::Trace.is_named(words),
        ),
        Form::Count => b"",
        Form::Look => b"",
        Form::Explore => explore_clash(
            OptionName::Line.is_named(words),
            OptionName::Stuck.is_named(words),
        ),
        Form::Drill => drill_clash(
            OptionName::Machines.is_named(words),
            OptionName::Boot.is_named(words),
            OptionName::WithTrace.is_named(words),
            OptionName::WithSchedule.is_named(words),
        ),
    }
}

fn check_clash(trace: bool, labels: bool) -> &'static [u8]
    ensures { result.now ≡ check_clash trace labels }
{
    match (trace, labels) {
        (true, true) => b"--trace and --labels: just one of them",
        (true, false) => b"",
        (false, true) => b"",
        (false, false) => b"missing: --trace FILE or --labels FILE",
    }
}

fn explain_clash(schedule: bool, trace: bool) -> &'static [u8]
    ensures { result.now ≡ explain_clash schedule trace }
{
    match (schedule, trace) {
        (true, true) => b"--schedule and --trace: one of them at most",
        (true, false) => b"",
        (false, _) => b"",
    }
}

/// Where these go together, words are refused only for a name that no schedule for the boot file can have.
fn explore_clash(line: bool, stuck: bool) -> &'static [u8]
    ensures { result.now ≡ explore_clash line stuck }
{
    match (line, stuck) {
        (true, true) => b"--line and --stuck: just one of them",
        (true, false) => {
            b"--move or --calloff: a process or machine that no schedule for this boot file can name"
        }
        (false, true) => {
            b"--stuck, --move or --calloff: a process or machine that no schedule for this boot file can name"
        }
        (false, false) => b"missing: --line TEXT or --stuck P",
    }
}

fn flags_clash(trace: bool, schedule: bool) -> &'static [u8]
    ensures { result.now ≡ flags_clash trace schedule }
{
    match (trace, schedule) {
        (true, true) => b"--trace and --schedule: one of them at most",
        (true, false) => b"",
        (false, _) => b"",
    }
}

fn drill_clash(machines: bool, boot: bool, trace: bool, schedule: bool) -> &'static [u8]
    ensures { result.now ≡ drill_clash machines boot trace schedule }
{
    match (machines, boot) {
        (true, true) => b"--machines and --boot: just one of them",
        (false, false) => b"missing: --machines M or --boot FILE",
        (false, true) => flags_clash(trace, schedule),
        (true, false) => {
            if schedule {
                b"--schedule: only with --boot"
            } else {
                b""
            }
        }
    }
}

/// What is said of options that don't go together.
fn clash_told<'a>(clash: &'static [u8]) -> Fault<'a>
    ensures { pieces_told result ≡ clash_told clash.now }
{
    if clash.is_empty() {
        told(b"these words ask for nothing", b"", b"", b"")
    } else {
        told(clash, b"", b"", b"")
    }
}

/// What is wrong behind a command's word.
#[tactic(auto, unfolding(crate::specs::Usage::wrong_told))]
fn wrong_behind<'a>(form: Form, words: &'a [String]) -> Fault<'a>
    ensures { pieces_told result ≡ wrong_told form (map string_bytes words.now) }
{
    match walk(form, words) {
        Some(what) => what,
        None => wrong_options(form, words),
    }
}

/// The same where all is right word by word.
fn wrong_options<'a>(form: Form, words: &'a [String]) -> Fault<'a>
    ensures { pieces_told result ≡ absent_told form (map string_bytes words.now) (absent form (map string_bytes words.now)) }
{
    let values = wrong_values(form, words);
    match absent(form, words) {
        Some(option) => Fault {
            one: b"missing: ",
            two: option.word(),
            three: option.value_word(),
            four: b"",
        },
        None => values,
    }
}

/// The same where no option is missing.
fn wrong_values<'a>(form: Form, words: &'a [String]) -> Fault<'a>
    ensures { pieces_told result ≡ bad_told form (map string_bytes words.now) (bad form (map string_bytes words.now)) }
{
    match bad(form, words) {
        Some(option) => bad_value(option, bad_value_of(option, words).unwrap_or(b"")),
        None => clash_told(clash(form, words)),
    }
}

/// What is said of an option's value that isn't what it must be.
fn bad_value<'a>(option: OptionName, value: &'a [u8]) -> Fault<'a>
    ensures { pieces_told result ≡ bad_value option value.now }
{
    let due = due_words(option, value);
    Fault {
        one: option.word(),
        two: b" ",
        three: value_told(option, value),
        four: due,
    }
}

/// What is told of such a value: of a text the first word with which no line of a group begins any more.
fn value_told<'a>(option: OptionName, value: &'a [u8]) -> &'a [u8]
    ensures { result.now ≡ value_told option value.now }
{
    match option {
        OptionName::Line => wrong_word(value).unwrap_or(b""),
        _ => value,
    }
}

/// What a value must be that isn't so.
fn due_words(option: OptionName, value: &[u8]) -> &'static [u8]
    ensures { result.now ≡ due_words option value.now }
{
    if option.is_number() && has_zero(value) {
        b": no 0 may stand in front"
    } else {
        option.range_words()
    }
}

/// What was wrong with words that ask for nothing, the program's name first, the form of their command, and where help is.
#[tactic(auto, unfolding(crate::specs::Usage::usage_pieces), using(crate::proofs::Usages::usage_lemmas))]
pub fn usage_of<'a>(words: &'a [String]) -> Said<'a>
    ensures { pieces_of result ≡ usage_pieces (map string_bytes words.now) }
{
    match first_word(words) {
        Some((_, behind)) => usage_behind(behind),
        None => usage_behind(words),
    }
}

/// The same of the words behind the program's name.
#[tactic(auto, using(crate::proofs::Usages::usage_lemmas))]
fn usage_behind<'a>(words: &'a [String]) -> Said<'a>
    ensures { pieces_of result ≡ behind_name (map string_bytes words.now) }
{
    match first_word(words) {
        Some((command, others)) => usage_in(Form::from_word(command), command, others),
        None => Said {
            told: told(b"no command", b"", b"", b""),
            lines: command_lines(),
        },
    }
}

/// What stands behind what was wrong where there is no command.
pub(crate) fn command_lines() -> &'static [u8]
    ensures { result.now ≡ command_lines }
{
    b"\ncommands: run, check, chart, explain, count, look, explore, drill\nhelp: ./demosmp help, docs/FORMATS.md\n"
}

/// The same of a command's word and the words behind it.
fn usage_in<'a>(form: Option<Form>, command: &'a [u8], others: &'a [String]) -> Said<'a>
    ensures { pieces_of result ≡ command_told form command.now (map string_bytes others.now) }
{
    match form {
        Some(form) => Said {
            told: wrong_behind(form, others),
            lines: form.lines(),
        },
        None => Said {
            told: told(b"no such command: ", command, b"", b""),
            lines: command_lines(),
        },
    }
}
