//! Whether it is found where some directives have led.
ghost use Rattle.std.specs.Prelude.{◌≡◌, ◌<◌, IfOk, List, [], length, not};
ghost use Rattle.std.specs.List.{list_all};
ghost use Rattle.dm_world.specs.Meets.{IsWorld, world_state};
ghost use Rattle.dm_explore.specs.Asked.{question_said};
ghost use Rattle.dm_explore.specs.Finds.{begins_with, came, finds_in, is_stuck, some_begins, waits_from};
ghost use Rattle.dm_explore.specs.Noted.{IsPast};
ghost use Rattle.dm_explore.specs.Offered.{sight_of};
ghost use Rattle.dm_explore.specs.Past.{Did, sent};
ghost use Rattle.dm_explore.specs.Sights.{any_below, world_acts};

use crate::bounds::Question;
use crate::past::{Past, was_delivered};
use crate::sights::{acts, some_lingers, waits};
use dm_line::line::Line;
use dm_link::Pid;
use dm_memory::NoMemory;
use dm_text::text::write_line;
use dm_world::World;

/// Whether it is found: the lines of the last group have it, or the place is one where it is so.
pub fn finds(
    question: Question<'_>,
    world: &World,
    past: &Past,
    last: &[Line],
    page: &mut Vec<u8>,
) -> Result<bool, NoMemory>
    requires { IsWorld world.now }
    ensures { IfOk result (λ found. (ds : List Did) → IsPast past.now ds → found ≡ finds_in (length world.now.boot.machines) (sight_of world.now) (question_said question.entry) last.now ds) }
{
    match question {
        Question::Line(words) => some_begins(last, words, page),
        Question::Stuck(pids) => Ok(is_stuck(world, past, pids)),
    }
}

/// Whether one of these lines begins with these words, whole words. The page holds its text meanwhile.
fn some_begins(lines: &[Line], words: &[u8], page: &mut Vec<u8>) -> Result<bool, NoMemory>
    ensures { IfOk result (λ found. found ≡ some_begins words.now lines.now) }
{
    for line in lines {
        page.clear();
        write_line(line, page)?;
        if begins_with(page.as_slice(), words) {
            return Ok(true);
        }
    }
    Ok(false)
}

/// Whether a text begins with these words, and behind them a blank stands, or the end of the line.
fn begins_with(text: &[u8], words: &[u8]) -> bool
    ensures { result ≡ begins_with text.now words.now }
{
    match text.strip_prefix(words) {
        Some(rest) => ends_word(rest),
        None => false,
    }
}

/// Whether a blank stands at the head of what follows, or the end of the line.
fn ends_word(rest: &[u8]) -> bool
    ensures { result ≡ begins_with rest.now [] }
{
    match rest.first() {
        Some(b' ' | b'\n') => true,
        _ => false,
    }
}

/// Whether everything is at rest, and one of these processes waits or moves data, and isn't stopped.
fn is_stuck(world: &World, past: &Past, pids: &[Pid]) -> bool
    requires { IsWorld world.now }
    ensures { (ds : List Did) → IsPast past.now ds → result ≡ is_stuck (length world.now.boot.machines) (sight_of world.now) ds pids.now }
{
    none_acts(world) && none_waits(world) && some_lingers(world, pids) && all_came(past)
}

/// Whether each packet that carries a message was delivered.
fn all_came(past: &Past) -> bool
    ensures { (ds : List Did) → IsPast past.now ds → result ≡ list_all (came ds) (sent ds) }
{
    for put in past.puts() {
        if !put.acks && !was_delivered(past.done(), put.from, put.to, put.k) {
            return false;
        }
    }
    true
}

/// Whether each turn would be idle.
fn none_acts(world: &World) -> bool
    requires { IsWorld world.now }
    ensures { result ≡ not (any_below (length world.now.boot.machines) (world_acts (world_state world.now))) }
{
    for m in 0..world.machines() {
        if acts(world, m) {
            return false;
        }
    }
    true
}

/// Whether no message waits for an acknowledgement.
fn none_waits(world: &World) -> bool
    requires { IsWorld world.now }
    ensures { result ≡ not (any_below (length world.now.boot.machines) (waits_from (length world.now.boot.machines) (sight_of world.now))) }
{
    for m in 0..world.machines() {
        if waits_from(world, m) {
            return false;
        }
    }
    true
}

/// Whether a message from this machine waits for an acknowledgement.
fn waits_from(world: &World, m: u8) -> bool
    requires world { IsWorld world.now }
    requires within { m < length world.now.boot.machines }
    ensures { result ≡ waits_from (length world.now.boot.machines) (sight_of world.now) m }
{
    for to in 0..world.machines() {
        if m != to && waits(world, m, to) {
            return true;
        }
    }
    false
}
