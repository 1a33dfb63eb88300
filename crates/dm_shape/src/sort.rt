//! What a word of a line may be.
ghost use Rattle.std.specs.Prelude.{◌≡◌, ◌<◌};
ghost use Rattle.std.specs.List.{list_all, list_any};
ghost use Rattle.std.specs.Str.{bytes_eq};
ghost use Rattle.dm_message.specs.Kinds.{all_kinds, word_of};
ghost use Rattle.dm_shape.specs.Sorts.{is_block, is_hex_digit, is_of, spells};

use crate::choice::Choice;
use crate::names::{byte, count, message, process, wide};
use dm_message::MessageKind;
use dm_reading::printed_number;

/// What a word is.
#[derive(Clone, Copy)]
pub enum Sort {
    Choice(Choice),
    /// A machine: below 2^8.
    Machine,
    /// A number below 2^32.
    Number,
    /// The number of a packet: below 2^64.
    Packet,
    /// How many groups there are: below 2^128.
    Groups,
    Process,
    Message,
    /// The word of a kind of message.
    Kind,
    /// A name of the switchboard: 1 to 16 bytes, two digits of `0-9 a-f` each.
    Name,
    /// What stands in a block: 1 to 256 bytes, the last not 0.
    Block,
}

/// The most bytes of a name.
const MOST_NAME: usize = 16;
/// The most bytes of a block.
const MOST_BLOCK: usize = 256;

/// All kinds of message.
const KINDS: [MessageKind; 26] = [
    MessageKind::User,
    MessageKind::Stop,
    MessageKind::Resume,
    MessageKind::Kill,
    MessageKind::Read,
    MessageKind::Write,
    MessageKind::Block,
    MessageKind::Written,
    MessageKind::Gone,
    MessageKind::Create,
    MessageKind::Created,
    MessageKind::NoRoom,
    MessageKind::Migrate,
    MessageKind::Update,
    MessageKind::Ask,
    MessageKind::Refuse,
    MessageKind::PullState,
    MessageKind::State,
    MessageKind::PullBlock,
    MessageKind::Memory,
    MessageKind::AllTaken,
    MessageKind::Restart,
    MessageKind::Move,
    MessageKind::Moved,
    MessageKind::CallOff,
    MessageKind::Bury,
];

impl Sort {
    /// Whether a word is of this sort.
    #[tactic(auto, unfolding(crate::specs::Sorts::is_of))]
    pub fn has(self, word: &[u8]) -> bool
        ensures { result ≡ is_of self word.now }
    {
        match self {
            Sort::Choice(choice) => choice.has(word),
            Sort::Machine => byte(word).is_some(),
            Sort::Number => count(word).is_some(),
            Sort::Packet => wide(word).is_some(),
            Sort::Groups => printed_number(word, u128::MAX).is_some(),
            Sort::Process => process(word).is_some(),
            Sort::Message => message(word).is_some(),
            Sort::Kind => is_kind(word),
            Sort::Name => spells(word, MOST_NAME),
            Sort::Block => is_block(word),
        }
    }
}

/// Whether a word is that of a kind of message.
fn is_kind(word: &[u8]) -> bool
    ensures { result ≡ list_any (λ k. bytes_eq word.now (word_of k)) all_kinds }
{
    is_one_of_kinds(word, &KINDS)
}

/// Whether a word is that of one of these kinds.
fn is_one_of_kinds(word: &[u8], kinds: &[MessageKind]) -> bool
    ensures { result ≡ list_any (λ k. bytes_eq word.now (word_of k)) kinds.now }
{
    kinds.iter().any(|kind| word == kind.word().as_bytes())
}

/// Whether a byte is a digit of `0-9 a-f`.
fn is_digit(byte: u8) -> bool
    ensures { result ≡ is_hex_digit byte }
{
    byte.is_ascii_digit() || (b'a'..=b'f').contains(&byte)
}

/// Whether each byte of a word is such a digit.
fn are_digits(word: &[u8]) -> bool
    ensures { result ≡ list_all is_hex_digit word.now }
{
    word.iter().all(|byte| is_digit(*byte))
}

/// Whether a word spells bytes, two digits each: at least one, and at most so many.
fn spells(word: &[u8], most: usize) -> bool
    requires { most < 1000 }
    ensures { result ≡ spells most word.now }
{
    are_digits(word) && word.len() % 2 == 0 && 0 < word.len() && word.len() <= 2 * most
}

/// Whether a word spells what stands in a block.
fn is_block(word: &[u8]) -> bool
    ensures { result ≡ is_block word.now }
{
    spells(word, MOST_BLOCK) && !word.ends_with(b"00")
}
