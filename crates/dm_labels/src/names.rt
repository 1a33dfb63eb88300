//! The words that labels begin with.
ghost use Rattle.std.specs.Prelude.{◌≡◌};
ghost use Rattle.dm_labels.specs.Names.{name_of, word_of};

/// What a label says.
#[derive(Clone, Copy)]
pub enum Name {
    Ran,
    Call,
    Send,
    Wait,
    Out,
    End,
    Receive,
    Refuse,
    Took,
    Served,
    Gone,
    Dropped,
    Created,
    NoSpace,
    Asked,
    Answered,
}

/// All names.
const NAMES: [Name; 16] = [
    Name::Ran,
    Name::Call,
    Name::Send,
    Name::Wait,
    Name::Out,
    Name::End,
    Name::Receive,
    Name::Refuse,
    Name::Took,
    Name::Served,
    Name::Gone,
    Name::Dropped,
    Name::Created,
    Name::NoSpace,
    Name::Asked,
    Name::Answered,
];

impl Name {
    /// The word of this name.
    fn word(self) -> &'static [u8]
        ensures { result.now ≡ word_of self }
    {
        match self {
            Name::Ran => b"ran",
            Name::Call => b"call",
            Name::Send => b"send",
            Name::Wait => b"wait",
            Name::Out => b"out",
            Name::End => b"end",
            Name::Receive => b"receive",
            Name::Refuse => b"refuse",
            Name::Took => b"took",
            Name::Served => b"served",
            Name::Gone => b"gone",
            Name::Dropped => b"dropped",
            Name::Created => b"created",
            Name::NoSpace => b"nospace",
            Name::Asked => b"asked",
            Name::Answered => b"answered",
        }
    }

    /// The name that a word is.
    #[tactic(auto, unfolding(crate::specs::Names::name_of))]
    pub fn from_word(word: &[u8]) -> Option<Name>
        ensures { result ≡ name_of word.now }
    {
        NAMES.iter().copied().find(|name| word == name.word())
    }
}
