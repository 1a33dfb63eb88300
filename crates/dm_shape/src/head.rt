//! The heads of groups.
ghost use Rattle.std.specs.Prelude.{◌≡◌, option_map};
ghost use Rattle.dm_reading.specs.Cuts.{behind};
ghost use Rattle.dm_schedule.specs.declared.Step.TheVariants as step;
ghost use Rattle.dm_text.specs.Reading.{read_pid, read_u64, read_u8};
ghost use Rattle.dm_text.specs.Rows.{of1, of2, of3};
ghost use Rattle.dm_shape.specs.Heads.{head_step};
ghost use Rattle.dm_shape.specs.Words.{alone, pair, triple};

use crate::names::{byte, process, wide};
use dm_reading::split;
use dm_schedule::Step;

/// The directive that a text without line feed names, if it is the head of a group: for any machines, and any packet.
#[tactic(auto, unfolding(crate::specs::Heads::head_step))]
pub fn head(line: &[u8]) -> Option<Step>
    ensures { result ≡ head_step line.now }
{
    let (name, words) = split(line, b' ');
    if name == "turn".as_bytes() {
        turn(words)
    } else if name == "tick".as_bytes() {
        tick(words)
    } else if name == "deliver".as_bytes() {
        deliver(words)
    } else if name == "migrate".as_bytes() {
        migrate(words)
    } else if name == "calloff".as_bytes() {
        call_off(words)
    } else {
        None
    }
}

/// The directive `turn` with its operand.
fn turn(words: Option<&[u8]>) -> Option<Step>
    ensures { result ≡ of1 read_u8 step.Turn (behind 32 (option_map (λ t. t.now) words.entry)) }
{
    let m = byte(only_one(words)?)?;
    Some(Step::Turn(m))
}

/// The directive `tick` with its operand.
fn tick(words: Option<&[u8]>) -> Option<Step>
    ensures { result ≡ of1 read_u8 step.Tick (behind 32 (option_map (λ t. t.now) words.entry)) }
{
    let m = byte(only_one(words)?)?;
    Some(Step::Tick(m))
}

/// The directive `deliver` with its operands.
fn deliver(words: Option<&[u8]>) -> Option<Step>
    ensures { result ≡ of3 read_u8 read_u8 read_u64 step.Deliver (behind 32 (option_map (λ t. t.now) words.entry)) }
{
    let (from, to, place) = only_three(words)?;
    let a = byte(from)?;
    let b = byte(to)?;
    let k = wide(place)?;
    Some(Step::Deliver { a, b, k })
}

/// The directive `migrate` with its operands.
fn migrate(words: Option<&[u8]>) -> Option<Step>
    ensures { result ≡ of2 read_pid read_u8 step.Migrate (behind 32 (option_map (λ t. t.now) words.entry)) }
{
    let (name, place) = only_two(words)?;
    let pid = process(name)?;
    let to = byte(place)?;
    Some(Step::Migrate { pid, to })
}

/// The directive `calloff` with its operands.
fn call_off(words: Option<&[u8]>) -> Option<Step>
    ensures { result ≡ of2 read_pid read_u8 step.CallOff (behind 32 (option_map (λ t. t.now) words.entry)) }
{
    let (name, place) = only_two(words)?;
    let pid = process(name)?;
    let at = byte(place)?;
    Some(Step::CallOff { pid, at })
}

/// The word, where there is just one.
fn only_one(words: Option<&[u8]>) -> Option<&[u8]>
    ensures { option_map (λ t. t.now) result ≡ alone (behind 32 (option_map (λ t. t.now) words.entry)) }
{
    let (word, others) = split(words?, b' ');
    match others {
        None => Some(word),
        Some(_) => None,
    }
}

/// The words, where there are just two.
fn only_two(words: Option<&[u8]>) -> Option<(&[u8], &[u8])>
    ensures { option_map (λ t. (t.0.now, t.1.now)) result ≡ pair (behind 32 (option_map (λ t. t.now) words.entry)) }
{
    let (word, others) = split(words?, b' ');
    let last = only_one(others)?;
    Some((word, last))
}

/// The words, where there are just three.
fn only_three(words: Option<&[u8]>) -> Option<(&[u8], &[u8], &[u8])>
    ensures { option_map (λ t. (t.0.now, t.1.now, t.2.now)) result ≡ triple (behind 32 (option_map (λ t. t.now) words.entry)) }
{
    let (word, others) = split(words?, b' ');
    let (next, last) = only_two(others)?;
    Some((word, next, last))
}
