//! The words behind a command's, one after another: the options that they name, the values of these, and what is wrong word by word.
ghost use Rattle.std.specs.Prelude.{◌≡◌, ◌∷◌, ◌<◌, [], IfNone, IfSome, length, map, option_map, string_bytes};
ghost use Rattle.std.specs.List.{position};
ghost use Rattle.dm_words.specs.Written.{is_equals};
ghost use Rattle.dm_words.specs.Usage.{attached, bad_value_of, front, is_bad_value, is_dashed, met, met_by, option_named, pieces_told, step, step_of, too_often, value_here, value_of, walk};

use crate::form::Form;
use crate::option::OptionName;
use crate::usage::{Fault, told};

/// What is wrong at a word, or the option that waits for its value behind it.
#[derive(Clone, Copy)]
pub enum Outcome<'a> {
    Wrong(Fault<'a>),
    On(Option<OptionName>),
}

/// Whether a word is an option, and no value.
fn is_dashed(word: &[u8]) -> bool
    ensures { result ≡ is_dashed word.now }
{
    1 < word.len() && word[0] == b'-'
}

/// Where the first `=` of a word stands.
fn equals_sign(word: &[u8]) -> Option<usize>
    ensures { result ≡ position is_equals word.now }
{
    word.iter().position(|c| *c == b'=')
}

/// What a word has before its first `=`.
pub(crate) fn front(word: &[u8]) -> &[u8]
    ensures { result.now ≡ front word.now }
{
    match equals_sign(word) {
        Some(at) => &word[..at],
        None => word,
    }
}

/// What it has behind it.
fn attached(word: &[u8]) -> Option<&[u8]>
    ensures { option_map (λ v. v.now) result ≡ attached word.now }
{
    match equals_sign(word) {
        Some(at) => Some(&word[at + 1..]),
        None => None,
    }
}

/// The first of some words, and the others.
pub(crate) fn first_word(words: &[String]) -> Option<(&[u8], &[String])>
    ensures none { IfNone result (map string_bytes words.now ≡ []) }
    ensures some { IfSome result (λ f. map string_bytes words.now ≡ f.0.now ∷ map string_bytes f.1.now) }
    ensures less { IfSome result (λ f. length f.1.now < length words.now) }
{
    if words.is_empty() {
        None
    } else {
        Some((words[0].as_bytes(), &words[1..]))
    }
}

/// The value of an option that a word names, with these words behind it.
#[tactic(auto, unfolding(crate::specs::Usage::value_here), using(crate::proofs::Usages::value_lemmas))]
fn value_here<'a>(word: &'a [u8], others: &'a [String]) -> Option<&'a [u8]>
    ensures { option_map (λ v. v.now) result ≡ value_here word.now (map string_bytes others.now) }
{
    match attached(word) {
        Some(value) => Some(value),
        None => match first_word(others) {
            Some((value, _)) => Some(value),
            None => None,
        },
    }
}

/// The value of the first word that names an option.
#[tactic(auto, using(crate::proofs::Usages::value_lemmas))]
pub fn value_of<'a>(option: OptionName, words: &'a [String]) -> Option<&'a [u8]>
    ensures { option_map (λ v. v.now) result ≡ value_of option (map string_bytes words.now) }
{
    let mut rest = words;
    while let Some((word, others)) = first_word(rest) {
        if option.is_in(word) {
            return value_here(word, others);
        }
        rest = others;
    }
    None
}

/// Whether a value, if there is one, isn't what it must be.
fn is_bad_value(option: OptionName, value: Option<&[u8]>) -> bool
    ensures { result ≡ is_bad_value option (option_map (λ v. v.now) value.entry) }
{
    match value {
        Some(value) => !option.can_be(value),
        None => false,
    }
}

/// The first value of an option that isn't what it must be.
#[tactic(auto, using(crate::proofs::Usages::bad_lemmas))]
pub(crate) fn bad_value_of<'a>(option: OptionName, words: &'a [String]) -> Option<&'a [u8]>
    ensures { option_map (λ v. v.now) result ≡ bad_value_of option (map string_bytes words.now) }
{
    let mut rest = words;
    while let Some((word, others)) = first_word(rest) {
        let value = value_here(word, others);
        if option.is_in(word) && is_bad_value(option, value) {
            return value;
        }
        rest = others;
    }
    None
}

/// What is wrong where an option is met in a word, with these words behind it, or whether it waits for its value.
#[tactic(auto, unfolding(crate::specs::Usage::met))]
fn met<'a>(option: OptionName, word: &[u8], others: &[String]) -> Outcome<'a>
    ensures { step_of result ≡ met option word.now (map string_bytes others.now) }
{
    if option.is_enough(others) {
        Outcome::Wrong(too_often(option))
    } else {
        met_once(option, attached(word))
    }
}

/// What is said of an option that comes too often.
fn too_often<'a>(option: OptionName) -> Fault<'a>
    ensures { pieces_told result ≡ too_often option }
{
    if option.may_repeat() {
        told(option.word(), b" more than 16 times", b"", b"")
    } else {
        told(option.word(), b" twice", b"", b"")
    }
}

/// The same where it may come.
fn met_once<'a>(option: OptionName, value: Option<&[u8]>) -> Outcome<'a>
    ensures { step_of result ≡ met_by option (option_map (λ v. v.now) value.entry) }
{
    match value {
        Some(_) => {
            if option.takes_value() {
                Outcome::On(None)
            } else {
                Outcome::Wrong(told(option.word(), b" takes no value", b"", b""))
            }
        }
        None => {
            if option.takes_value() {
                Outcome::On(Some(option))
            } else {
                Outcome::On(None)
            }
        }
    }
}

/// The option of a command that a word names.
#[tactic(auto, unfolding(crate::specs::Usage::option_named))]
fn option_named(form: Form, word: &[u8]) -> Option<OptionName>
    ensures { result ≡ option_named form word.now }
{
    form.options()
        .iter()
        .copied()
        .find(|option| option.is_in(word))
}

/// What is wrong at a word, with these words behind it, where an option may wait for its value; or which one waits behind it.
#[tactic(auto, unfolding(crate::specs::Usage::step))]
fn step<'a>(
    form: Form,
    waits: Option<OptionName>,
    word: &'a [u8],
    others: &'a [String],
) -> Outcome<'a>
    ensures { step_of result ≡ step form waits word.now (map string_bytes others.now) }
{
    match (waits, is_dashed(word)) {
        (None, true) => match option_named(form, word) {
            Some(option) => met(option, word, others),
            None => Outcome::Wrong(told(b"no such option: ", word, b"", b"")),
        },
        (None, false) => Outcome::Wrong(told(b"a word too many: ", word, b"", b"")),
        (Some(option), true) => Outcome::Wrong(told(option.word(), b" without a value", b"", b"")),
        (Some(_), false) => Outcome::On(None),
    }
}

/// What is wrong with the words behind a command's, word by word.
#[tactic(auto, using(crate::proofs::Usages::walk_lemmas))]
pub(crate) fn walk<'a>(form: Form, words: &'a [String]) -> Option<Fault<'a>>
    ensures { option_map pieces_told result ≡ walk form None (map string_bytes words.now) }
{
    let mut waits = None;
    let mut rest = words;
    while let Some((word, others)) = first_word(rest) {
        match step(form, waits, word, others) {
            Outcome::Wrong(what) => return Some(what),
            Outcome::On(next) => waits = next,
        }
        rest = others;
    }
    match waits {
        Some(option) => Some(told(option.word(), b" without a value", b"", b"")),
        None => None,
    }
}
