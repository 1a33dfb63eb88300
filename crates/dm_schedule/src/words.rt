//! So many words, and no more.
ghost use Rattle.std.specs.Prelude.{◌≡◌, ◌==◌, ◌∷◌, [], IfErr, IfOk, false, length};
ghost use Rattle.dm_reading.specs.Words.{words};
ghost use Rattle.dm_schedule.specs.declared.LineFault.TheVariants.{WrongCount};

use crate::LineFault;
use dm_reading::{Gap, next_word};

/// There is no word more.
pub fn no_words(rest: &[u8]) -> Result<(), LineFault>
    ensures ok { IfOk result (λ _. words rest.now ≡ []) }
    ensures count { IfErr result (λ _. (length (words rest.now) == 0) ≡ false) }
    ensures fault { IfErr result (λ e. e ≡ WrongCount) }
{
    match next_word(rest, Gap::Blanks) {
        None => Ok(()),
        Some(_) => Err(LineFault::WrongCount),
    }
}

/// The one word that there is.
pub fn one_word(rest: &[u8]) -> Result<&[u8], LineFault>
    ensures ok { IfOk result (λ a. words rest.now ≡ a.now ∷ []) }
    ensures count { IfErr result (λ _. (length (words rest.now) == 1) ≡ false) }
    ensures fault { IfErr result (λ e. e ≡ WrongCount) }
{
    match next_word(rest, Gap::Blanks) {
        None => Err(LineFault::WrongCount),
        Some((a, rest)) => {
            no_words(rest)?;
            Ok(a)
        }
    }
}

/// The two words that there are.
pub fn two_words(rest: &[u8]) -> Result<(&[u8], &[u8]), LineFault>
    ensures ok { IfOk result (λ found. words rest.now ≡ found.0.now ∷ found.1.now ∷ []) }
    ensures count { IfErr result (λ _. (length (words rest.now) == 2) ≡ false) }
    ensures fault { IfErr result (λ e. e ≡ WrongCount) }
{
    match next_word(rest, Gap::Blanks) {
        None => Err(LineFault::WrongCount),
        Some((a, rest)) => {
            let b = one_word(rest)?;
            Ok((a, b))
        }
    }
}

/// The three words that there are.
pub fn three_words(rest: &[u8]) -> Result<(&[u8], &[u8], &[u8]), LineFault>
    ensures ok { IfOk result (λ found. words rest.now ≡ found.0.now ∷ found.1.now ∷ found.2.now ∷ []) }
    ensures count { IfErr result (λ _. (length (words rest.now) == 3) ≡ false) }
    ensures fault { IfErr result (λ e. e ≡ WrongCount) }
{
    match next_word(rest, Gap::Blanks) {
        None => Err(LineFault::WrongCount),
        Some((a, rest)) => {
            let (b, c) = two_words(rest)?;
            Ok((a, b, c))
        }
    }
}
