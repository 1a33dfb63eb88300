//! The commands: the word of each, its options and its form.
ghost use Rattle.std.specs.Prelude.{◌≡◌};
ghost use Rattle.dm_words.specs.Usage.{form_lines, form_named, form_word, needed_of, options_of};

use crate::option::OptionName;

/// A command, by its word.
#[derive(Clone, Copy)]
pub enum Form {
    Run,
    Check,
    Chart,
    Explain,
    Count,
    Look,
    Explore,
    Drill,
}

/// All commands.
const FORMS: [Form; 8] = [
    Form::Run,
    Form::Check,
    Form::Chart,
    Form::Explain,
    Form::Count,
    Form::Look,
    Form::Explore,
    Form::Drill,
];

impl Form {
    /// The word of the command.
    fn word(self) -> &'static [u8]
        ensures { result.now ≡ form_word self }
    {
        match self {
            Form::Run => b"run",
            Form::Check => b"check",
            Form::Chart => b"chart",
            Form::Explain => b"explain",
            Form::Count => b"count",
            Form::Look => b"look",
            Form::Explore => b"explore",
            Form::Drill => b"drill",
        }
    }

    /// The command that a word is.
    #[tactic(auto, unfolding(crate::specs::Usage::form_named))]
    pub(crate) fn from_word(word: &[u8]) -> Option<Form>
        ensures { result ≡ form_named word.now }
    {
        FORMS.iter().copied().find(|form| word == form.word())
    }

    /// Its options.
    pub(crate) fn options(self) -> &'static [OptionName]
        ensures { result.now ≡ options_of self }
    {
        match self {
            Form::Run => &[OptionName::Boot, OptionName::Schedule],
            Form::Check => &[OptionName::Boot, OptionName::Trace, OptionName::Labels],
            Form::Chart => &[
                OptionName::Boot,
                OptionName::Schedule,
                OptionName::From,
                OptionName::To,
            ],
            Form::Explain => &[OptionName::Boot, OptionName::Schedule, OptionName::Trace],
            Form::Count => &[OptionName::Boot, OptionName::Schedule],
            Form::Look => &[
                OptionName::Boot,
                OptionName::Schedule,
                OptionName::At,
                OptionName::Names,
            ],
            Form::Explore => &[
                OptionName::Boot,
                OptionName::Depth,
                OptionName::Line,
                OptionName::Stuck,
                OptionName::Move,
                OptionName::CallOff,
                OptionName::Ticks,
                OptionName::Repeats,
                OptionName::Acks,
                OptionName::Most,
            ],
            Form::Drill => &[
                OptionName::Seed,
                OptionName::Lines,
                OptionName::Machines,
                OptionName::Boot,
                OptionName::WithTrace,
                OptionName::WithSchedule,
            ],
        }
    }

    /// Those that have to be there.
    pub(crate) fn needed(self) -> &'static [OptionName]
        ensures { result.now ≡ needed_of self }
    {
        match self {
            Form::Run => &[OptionName::Boot, OptionName::Schedule],
            Form::Check => &[OptionName::Boot],
            Form::Chart => &[OptionName::Boot, OptionName::Schedule],
            Form::Explain => &[OptionName::Boot],
            Form::Count => &[OptionName::Boot, OptionName::Schedule],
            Form::Look => &[OptionName::Boot, OptionName::Schedule, OptionName::At],
            Form::Explore => &[OptionName::Boot, OptionName::Depth],
            Form::Drill => &[OptionName::Seed, OptionName::Lines],
        }
    }

    /// Its form, and where help is, behind what was wrong.
    pub(crate) fn lines(self) -> &'static [u8]
        ensures { result.now ≡ form_lines self }
    {
        match self {
            Form::Run => {
                b"\nform: demosmp run --boot FILE --schedule FILE\nhelp: ./demosmp help, docs/FORMATS.md\n"
            }
            Form::Check => {
                b"\nform: demosmp check --boot FILE (--trace FILE | --labels FILE)\nhelp: ./demosmp help, docs/FORMATS.md\n"
            }
            Form::Chart => {
                b"\nform: demosmp chart --boot FILE --schedule FILE [--from G] [--to G]\nhelp: ./demosmp help, docs/FORMATS.md\n"
            }
            Form::Explain => {
                b"\nform: demosmp explain --boot FILE [--schedule FILE | --trace FILE]\nhelp: ./demosmp help, docs/FORMATS.md\n"
            }
            Form::Count => {
                b"\nform: demosmp count --boot FILE --schedule FILE\nhelp: ./demosmp help, docs/FORMATS.md\n"
            }
            Form::Look => {
                b"\nform: demosmp look --boot FILE --schedule FILE --at G [--names]\nhelp: ./demosmp help, docs/FORMATS.md\n"
            }
            Form::Explore => {
                b"\nform: demosmp explore --boot FILE --depth N (--line TEXT | --stuck P..) [--move P=M].. [--calloff P=M].. [--ticks K] [--repeats K] [--acks] [--most S]\nhelp: ./demosmp help, docs/FORMATS.md\n"
            }
            Form::Drill => {
                b"\nform: demosmp drill --seed N --lines L (--machines M [--trace] | --boot FILE [--trace | --schedule])\nhelp: ./demosmp help, docs/FORMATS.md\n"
            }
        }
    }
}
