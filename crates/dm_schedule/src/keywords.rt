//! The words that lines begin with.
ghost use Rattle.std.specs.Prelude.{◌≡◌};
ghost use Rattle.dm_schedule.specs.Keywords.{keyword_of, word_of_keyword};

/// What a line is to do.
#[derive(Clone, Copy)]
pub enum Keyword {
    Turn,
    Tick,
    Deliver,
    Migrate,
    CallOff,
    Round,
    Spin,
    Settle,
    Rest,
}

/// All keywords.
const KEYWORDS: [Keyword; 9] = [
    Keyword::Turn,
    Keyword::Tick,
    Keyword::Deliver,
    Keyword::Migrate,
    Keyword::CallOff,
    Keyword::Round,
    Keyword::Spin,
    Keyword::Settle,
    Keyword::Rest,
];

impl Keyword {
    /// The word that this keyword is.
    fn word(self) -> &'static [u8]
        ensures { result.now ≡ word_of_keyword self }
    {
        match self {
            Keyword::Turn => b"turn",
            Keyword::Tick => b"tick",
            Keyword::Deliver => b"deliver",
            Keyword::Migrate => b"migrate",
            Keyword::CallOff => b"calloff",
            Keyword::Round => b"round",
            Keyword::Spin => b"spin",
            Keyword::Settle => b"settle",
            Keyword::Rest => b"rest",
        }
    }

    /// The keyword that a word is.
    #[tactic(auto, unfolding(crate::specs::Keywords::keyword_of))]
    pub fn from_word(word: &[u8]) -> Option<Keyword>
        ensures { result ≡ keyword_of word.now }
    {
        KEYWORDS.iter().copied().find(|k| word == k.word())
    }
}
