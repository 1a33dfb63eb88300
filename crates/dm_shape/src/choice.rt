//! Words of which there are only some.
ghost use Rattle.std.specs.Prelude.{◌≡◌};
ghost use Rattle.std.specs.List.{list_any};
ghost use Rattle.std.specs.Str.{bytes_eq};
ghost use Rattle.dm_shape.specs.Choices.{one_of, words_of};

/// What a word is that is one of a few.
#[derive(Clone, Copy)]
pub enum Choice {
    At,
    Moves,
    Code,
    Channel,
    Area,
    Ended,
    Ready,
    Waiting,
    Moving,
    /// The step of a migration whose line has a count.
    Six,
    /// The other steps of a migration.
    Stage,
    /// What a packet carries.
    Load,
    /// How a process stands on a machine.
    Standing,
    /// Whether a process is stopped.
    Going,
    /// The kind of a link.
    LinkKind,
    /// The rights of a link's area.
    Rights,
}

impl Choice {
    /// Whether a word is one of these.
    pub fn has(self, word: &[u8]) -> bool
        ensures { result ≡ one_of (words_of self) word.now }
    {
        match self {
            Choice::At => is_one_of(word, &["at"]),
            Choice::Moves => is_one_of(word, &["moves"]),
            Choice::Code => is_one_of(word, &["code"]),
            Choice::Channel => is_one_of(word, &["channel"]),
            Choice::Area => is_one_of(word, &["area"]),
            Choice::Ended => is_one_of(word, &["ended"]),
            Choice::Ready => is_one_of(word, &["ready"]),
            Choice::Waiting => is_one_of(word, &["waiting"]),
            Choice::Moving => is_one_of(word, &["moving"]),
            Choice::Six => is_one_of(word, &["6"]),
            Choice::Stage => is_one_of(word, &["1", "2", "3", "4", "5", "7", "8"]),
            Choice::Load => is_one_of(word, &["data", "ack"]),
            Choice::Standing => is_one_of(word, &["here", "leaving", "arriving"]),
            Choice::Going => is_one_of(word, &["go", "stopped"]),
            Choice::LinkKind => is_one_of(word, &["general", "reply"]),
            Choice::Rights => is_one_of(word, &["-", "r", "w", "rw"]),
        }
    }
}

/// Whether a word is one of these.
pub fn is_one_of(word: &[u8], words: &[&str]) -> bool
    ensures { result ≡ list_any (λ w. bytes_eq word.now w.now) words.now }
{
    words.iter().any(|w| word == w.as_bytes())
}
