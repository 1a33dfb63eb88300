//! The options of commands: the word of each, and what its value must be.
ghost use Rattle.std.specs.Prelude.{◌≡◌, map, string_bytes};
ghost use Rattle.std.specs.List.{count_by};
ghost use Rattle.dm_words.specs.Usage.{can_be, is_enough, is_named, is_number, may_repeat, most_times, names, option_word, range_words, takes_value, value_word};

use crate::chart::group_in;
use crate::drill::{lines_in, machines_in};
use crate::explore::{MOST_NAMES, depth_in, most_in};
use crate::walk::front;
use crate::written::{is_text, stuck_name, written_move};
use dm_shape::names::{byte, count};

/// An option of a command.
#[derive(Clone, Copy)]
pub enum OptionName {
    Boot,
    Schedule,
    Trace,
    Labels,
    At,
    Names,
    From,
    To,
    Seed,
    Lines,
    Machines,
    /// `--trace` without a value.
    WithTrace,
    /// `--schedule` without a value.
    WithSchedule,
    Depth,
    Line,
    Stuck,
    Move,
    CallOff,
    Ticks,
    Repeats,
    Acks,
    Most,
}

impl OptionName {
    /// The word of the option.
    pub(crate) fn word(self) -> &'static [u8]
        ensures { result.now ≡ option_word self }
    {
        match self {
            OptionName::Boot => b"--boot",
            OptionName::Schedule => b"--schedule",
            OptionName::Trace => b"--trace",
            OptionName::Labels => b"--labels",
            OptionName::At => b"--at",
            OptionName::Names => b"--names",
            OptionName::From => b"--from",
            OptionName::To => b"--to",
            OptionName::Seed => b"--seed",
            OptionName::Lines => b"--lines",
            OptionName::Machines => b"--machines",
            OptionName::WithTrace => b"--trace",
            OptionName::WithSchedule => b"--schedule",
            OptionName::Depth => b"--depth",
            OptionName::Line => b"--line",
            OptionName::Stuck => b"--stuck",
            OptionName::Move => b"--move",
            OptionName::CallOff => b"--calloff",
            OptionName::Ticks => b"--ticks",
            OptionName::Repeats => b"--repeats",
            OptionName::Acks => b"--acks",
            OptionName::Most => b"--most",
        }
    }

    /// How its value is written where a form shows it, nothing where it has none.
    pub(crate) fn value_word(self) -> &'static [u8]
        ensures { result.now ≡ value_word self }
    {
        match self {
            OptionName::Boot => b" FILE",
            OptionName::Schedule => b" FILE",
            OptionName::Trace => b" FILE",
            OptionName::Labels => b" FILE",
            OptionName::At => b" G",
            OptionName::Names => b"",
            OptionName::From => b" G",
            OptionName::To => b" G",
            OptionName::Seed => b" N",
            OptionName::Lines => b" L",
            OptionName::Machines => b" M",
            OptionName::WithTrace => b"",
            OptionName::WithSchedule => b"",
            OptionName::Depth => b" N",
            OptionName::Line => b" TEXT",
            OptionName::Stuck => b" P",
            OptionName::Move => b" P=M",
            OptionName::CallOff => b" P=M",
            OptionName::Ticks => b" K",
            OptionName::Repeats => b" K",
            OptionName::Acks => b"",
            OptionName::Most => b" S",
        }
    }

    /// Whether it takes a value.
    pub(crate) fn takes_value(self) -> bool
        ensures { result ≡ takes_value self }
    {
        match self {
            OptionName::Boot => true,
            OptionName::Schedule => true,
            OptionName::Trace => true,
            OptionName::Labels => true,
            OptionName::At => true,
            OptionName::Names => false,
            OptionName::From => true,
            OptionName::To => true,
            OptionName::Seed => true,
            OptionName::Lines => true,
            OptionName::Machines => true,
            OptionName::WithTrace => false,
            OptionName::WithSchedule => false,
            OptionName::Depth => true,
            OptionName::Line => true,
            OptionName::Stuck => true,
            OptionName::Move => true,
            OptionName::CallOff => true,
            OptionName::Ticks => true,
            OptionName::Repeats => true,
            OptionName::Acks => false,
            OptionName::Most => true,
        }
    }

    /// What its value must be.
    pub(crate) fn range_words(self) -> &'static [u8]
        ensures { result.now ≡ range_words self }
    {
        match self {
            OptionName::Boot => b"",
            OptionName::Schedule => b"",
            OptionName::Trace => b"",
            OptionName::Labels => b"",
            OptionName::At => b": 0 to 4294967295",
            OptionName::Names => b"",
            OptionName::From => b": 1 to 4294967295",
            OptionName::To => b": 1 to 4294967295",
            OptionName::Seed => b": 0 to 4294967295",
            OptionName::Lines => b": 1 to 10000",
            OptionName::Machines => b": 2 to 16",
            OptionName::WithTrace => b"",
            OptionName::WithSchedule => b"",
            OptionName::Depth => b": 1 to 64",
            OptionName::Line => b": no line of a group has this word there",
            OptionName::Stuck => b": a process as in 0.3",
            OptionName::Move => b": a process and a machine as in 0.3=1",
            OptionName::CallOff => b": a process and a machine as in 0.3=1",
            OptionName::Ticks => b": 0 to 255",
            OptionName::Repeats => b": 0 to 255",
            OptionName::Acks => b"",
            OptionName::Most => b": 1 to 4294967295",
        }
    }

    /// Whether a value is what it must be.
    #[tactic(auto, unfolding(crate::specs::Usage::can_be))]
    pub(crate) fn can_be(self, value: &[u8]) -> bool
        ensures { result ≡ can_be self value.now }
    {
        match self {
            OptionName::Boot => true,
            OptionName::Schedule => true,
            OptionName::Trace => true,
            OptionName::Labels => true,
            OptionName::At => count(value).is_some(),
            OptionName::Names => true,
            OptionName::From => group_in(value).is_some(),
            OptionName::To => group_in(value).is_some(),
            OptionName::Seed => count(value).is_some(),
            OptionName::Lines => lines_in(value).is_some(),
            OptionName::Machines => machines_in(value).is_some(),
            OptionName::WithTrace => true,
            OptionName::WithSchedule => true,
            OptionName::Depth => depth_in(value).is_some(),
            OptionName::Line => is_text(value),
            OptionName::Stuck => stuck_name(value).is_some(),
            OptionName::Move => written_move(value).is_some(),
            OptionName::CallOff => written_move(value).is_some(),
            OptionName::Ticks => byte(value).is_some(),
            OptionName::Repeats => byte(value).is_some(),
            OptionName::Acks => true,
            OptionName::Most => most_in(value).is_some(),
        }
    }

    /// Whether it may come more than once.
    pub(crate) fn may_repeat(self) -> bool
        ensures { result ≡ may_repeat self }
    {
        match self {
            OptionName::Boot => false,
            OptionName::Schedule => false,
            OptionName::Trace => false,
            OptionName::Labels => false,
            OptionName::At => false,
            OptionName::Names => false,
            OptionName::From => false,
            OptionName::To => false,
            OptionName::Seed => false,
            OptionName::Lines => false,
            OptionName::Machines => false,
            OptionName::WithTrace => false,
            OptionName::WithSchedule => false,
            OptionName::Depth => false,
            OptionName::Line => false,
            OptionName::Stuck => true,
            OptionName::Move => true,
            OptionName::CallOff => true,
            OptionName::Ticks => false,
            OptionName::Repeats => false,
            OptionName::Acks => false,
            OptionName::Most => false,
        }
    }

    /// How often it may come.
    fn most_times(self) -> usize
        ensures { result ≡ most_times self }
    {
        if self.may_repeat() { MOST_NAMES } else { 1 }
    }

    /// Whether its value is a number.
    pub(crate) fn is_number(self) -> bool
        ensures { result ≡ is_number self }
    {
        match self {
            OptionName::Boot => false,
            OptionName::Schedule => false,
            OptionName::Trace => false,
            OptionName::Labels => false,
            OptionName::At => true,
            OptionName::Names => false,
            OptionName::From => true,
            OptionName::To => true,
            OptionName::Seed => true,
            OptionName::Lines => true,
            OptionName::Machines => true,
            OptionName::WithTrace => false,
            OptionName::WithSchedule => false,
            OptionName::Depth => true,
            OptionName::Line => false,
            OptionName::Stuck => false,
            OptionName::Move => false,
            OptionName::CallOff => false,
            OptionName::Ticks => true,
            OptionName::Repeats => true,
            OptionName::Acks => false,
            OptionName::Most => true,
        }
    }

    /// Whether a word names this option.
    #[tactic(auto, unfolding(crate::specs::Usage::names))]
    pub(crate) fn is_in(self, word: &[u8]) -> bool
        ensures { result ≡ names self word.now }
    {
        front(word) == self.word()
    }

    /// Whether one of these words names this option.
    pub(crate) fn is_named(self, words: &[String]) -> bool
        ensures { result ≡ is_named self (map string_bytes words.now) }
    {
        words.iter().any(|word| self.is_in(word.as_bytes()))
    }

    /// How many of these words name this option.
    fn times_named(self, words: &[String]) -> usize
        ensures { result ≡ count_by (names self) (map string_bytes words.now) }
    {
        words
            .iter()
            .filter(|word| self.is_in(word.as_bytes()))
            .count()
    }

    /// Whether so many of these words name it as may.
    #[tactic(auto, unfolding(crate::specs::Usage::is_enough))]
    pub(crate) fn is_enough(self, words: &[String]) -> bool
        ensures { result ≡ is_enough self (map string_bytes words.now) }
    {
        self.most_times() <= self.times_named(words)
    }
}
