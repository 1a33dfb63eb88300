//! The directives of lines.
ghost use Rattle.std.specs.Prelude.{◌≡◌, Some};
ghost use Rattle.dm_reading.specs.Words.{words};
ghost use Rattle.dm_schedule.specs.Schedule.{begins_comment, directive_of, line_directive};
ghost use Rattle.dm_schedule.specs.declared.keywords.Keyword.TheVariants.{CallOff, Deliver, Migrate, Rest, Round, Settle, Spin, Tick, Turn};

use crate::keywords::Keyword;
use crate::operands::{machine, packet, process, rounds};
use crate::words::{no_words, one_word, three_words, two_words};
use crate::{Directive, LineFault, Step};
use dm_reading::{Gap, next_word};

/// The directive `turn` with its operand.
#[tactic(auto, unfolding(crate::specs::Schedule::directive_of))]
fn turn(machines: u8, operands: &[u8]) -> Result<Directive, LineFault>
    ensures { result ≡ directive_of machines (Some Turn) (words operands.now) }
{
    let word = one_word(operands)?;
    let m = machine(machines, word)?;
    Ok(Directive::One(Step::Turn(m)))
}

/// The directive `tick` with its operand.
#[tactic(auto, unfolding(crate::specs::Schedule::directive_of))]
fn tick(machines: u8, operands: &[u8]) -> Result<Directive, LineFault>
    ensures { result ≡ directive_of machines (Some Tick) (words operands.now) }
{
    let word = one_word(operands)?;
    let m = machine(machines, word)?;
    Ok(Directive::One(Step::Tick(m)))
}

/// The directive `deliver` with its operands.
#[tactic(auto, unfolding(crate::specs::Schedule::directive_of))]
fn deliver(machines: u8, operands: &[u8]) -> Result<Directive, LineFault>
    ensures { result ≡ directive_of machines (Some Deliver) (words operands.now) }
{
    let (from, to, place) = three_words(operands)?;
    let a = machine(machines, from)?;
    let b = machine(machines, to)?;
    let k = packet(place)?;
    if a == b {
        return Err(LineFault::SameMachine);
    }
    Ok(Directive::One(Step::Deliver { a, b, k }))
}

/// The directive `migrate` with its operands.
#[tactic(auto, unfolding(crate::specs::Schedule::directive_of))]
fn migrate(machines: u8, operands: &[u8]) -> Result<Directive, LineFault>
    ensures { result ≡ directive_of machines (Some Migrate) (words operands.now) }
{
    let (name, place) = two_words(operands)?;
    let pid = process(machines, name)?;
    let to = machine(machines, place)?;
    Ok(Directive::One(Step::Migrate { pid, to }))
}

/// The directive `calloff` with its operands.
#[tactic(auto, unfolding(crate::specs::Schedule::directive_of))]
fn call_off(machines: u8, operands: &[u8]) -> Result<Directive, LineFault>
    ensures { result ≡ directive_of machines (Some CallOff) (words operands.now) }
{
    let (name, place) = two_words(operands)?;
    let pid = process(machines, name)?;
    let at = machine(machines, place)?;
    Ok(Directive::One(Step::CallOff { pid, at }))
}

/// The directive `spin` with its operand.
#[tactic(auto, unfolding(crate::specs::Schedule::directive_of))]
fn spin(machines: u8, operands: &[u8]) -> Result<Directive, LineFault>
    ensures { result ≡ directive_of machines (Some Spin) (words operands.now) }
{
    let word = one_word(operands)?;
    let n = rounds(word)?;
    Ok(Directive::Spin(n))
}

/// The directive `round`, which has no operand.
#[tactic(auto, unfolding(crate::specs::Schedule::directive_of))]
fn round(machines: u8, operands: &[u8]) -> Result<Directive, LineFault>
    ensures { result ≡ directive_of machines (Some Round) (words operands.now) }
{
    no_words(operands)?;
    Ok(Directive::Round)
}

/// The directive `settle`, which has no operand.
#[tactic(auto, unfolding(crate::specs::Schedule::directive_of))]
fn settle(machines: u8, operands: &[u8]) -> Result<Directive, LineFault>
    ensures { result ≡ directive_of machines (Some Settle) (words operands.now) }
{
    no_words(operands)?;
    Ok(Directive::Settle)
}

/// The directive `rest` with its operand.
#[tactic(auto, unfolding(crate::specs::Schedule::directive_of))]
fn rest(machines: u8, operands: &[u8]) -> Result<Directive, LineFault>
    ensures { result ≡ directive_of machines (Some Rest) (words operands.now) }
{
    let word = one_word(operands)?;
    let n = rounds(word)?;
    Ok(Directive::Rest(n))
}

/// The directive of a keyword with its operands.
fn keyword_directive(
    machines: u8,
    keyword: Keyword,
    operands: &[u8],
) -> Result<Directive, LineFault>
    ensures { result ≡ directive_of machines (Some keyword) (words operands.now) }
{
    match keyword {
        Keyword::Turn => turn(machines, operands),
        Keyword::Tick => tick(machines, operands),
        Keyword::Deliver => deliver(machines, operands),
        Keyword::Migrate => migrate(machines, operands),
        Keyword::CallOff => call_off(machines, operands),
        Keyword::Round => round(machines, operands),
        Keyword::Spin => spin(machines, operands),
        Keyword::Settle => settle(machines, operands),
        Keyword::Rest => rest(machines, operands),
    }
}

/// Whether a word begins a comment.
fn begins_comment(word: &[u8]) -> bool
    ensures { result ≡ begins_comment word.now }
{
    matches!(word, [b'#', ..])
}

/// The directive of a line, if it has one.
#[tactic(auto, unfolding(crate::specs::Schedule::directive_of, crate::specs::Schedule::line_directive))]
pub fn line_directive(machines: u8, line: &[u8]) -> Result<Option<Directive>, LineFault>
    ensures { result ≡ line_directive machines (words line.now) }
{
    let Some((word, operands)) = next_word(line, Gap::Blanks) else {
        return Ok(None);
    };
    if begins_comment(word) {
        return Ok(None);
    }
    match Keyword::from_word(word) {
        None => Err(LineFault::UnknownWord),
        Some(keyword) => match keyword_directive(machines, keyword, operands) {
            Ok(directive) => Ok(Some(directive)),
            Err(fault) => Err(fault),
        },
    }
}
