//! The words that the program is given, and the program on them, to its end.
ghost use Rattle.std.specs.Prelude.{◌≡◌, map, IfErr, IfOk, string_bytes};
ghost use Rattle.std.specs.Vec.Iter.{into_iter_steps};
ghost use Rattle.std.specs.Iterator.Runs.{WholeRun};
ghost use Rattle.dm_memory.specs.Args.{ArgsLackMemory};
ghost use Rattle.dm_program.specs.Given.{GivenFirst};
ghost use Rattle.dm_program.specs.Program.{Finishes, GivenMeets};
ghost use Rattle.dm_front.specs.Outside.{around, shelf_around, sink_around};
ghost use Rattle.dm_program.specs.Commands.{promised};
ghost use Rattle.dm_program.specs.Rule.{of_rule};
ghost use Rattle.dm_words.specs.Words.{IsTaken, request_of};

use crate::ending::end;
use crate::program::run_program;
use dm_ending::status::Status;
use dm_memory::of_args::{ArgsError, collect};
use dm_memory::{NoMemory, push};
use dm_outside::{Shelf, Sink};
use dm_words::words::WordsError;
use dm_world::World;
use std::alloc::Global;
use std::env::Args;
use std::process::ExitCode;

/// The words of the command line, each of them, or why there are none: a word that isn't Unicode is none of a command.
pub fn words_of(alloc: Global, args: Result<Args, ArgsError>) -> Result<Vec<String>, WordsError>
    ensures words { IfOk args (λ a. IfOk result (λ words. WholeRun into_iter_steps a (λ run. words.items ≡ run.items))) }
    ensures lacks { IfOk args (λ _. IfErr result (λ no. no ≡ WordsError.Usage → ⊥)) }
    ensures none { IfErr args (λ _. IfOk result (λ _. ⊥)) }
    ensures want { IfErr args (λ e. IfErr result (λ no. no ≡ WordsError.Usage → ArgsLackMemory e → ⊥)) }
    ensures usage { IfErr args (λ e. IfErr result (λ no. e ≡ ArgsError.Unread → no ≡ WordsError.Usage)) }
{
    match args {
        Ok(args) => match collect(alloc, args) {
            Ok(words) => Ok(words),
            Err(no) => Err(WordsError::NoMemory(no)),
        },
        Err(ArgsError::Unread) => Err(WordsError::Usage),
        Err(ArgsError::NoMemory(no)) => Err(WordsError::NoMemory(no)),
    }
}

/// Runs the program on the words that it was given, says on standard error what there is to say and its status's line, and gives its number.
pub fn finish<F: Shelf, K: Sink, E: Sink>(
    alloc: Global,
    given: Result<Vec<String>, WordsError>,
    shelf: &mut F,
    out: &mut K,
    errors: &mut E,
) -> ExitCode
    ensures { Finishes given
        (around (shelf_around F.asked F.told F.faults F.last_failed shelf.old shelf.new)
        (sink_around K.told K.faults K.last_failed out.old out.new))
        (sink_around E.told E.faults E.last_failed errors.old errors.new) result }
{
    let mut world = None;
    let mut said = Vec::new(alloc);
    let status = run_given(alloc, &given, shelf, out, &mut world, &mut said);
    end(&given, &status, said.as_slice(), errors)
}

/// Runs the program on the words that it was given, each of them and no other, in order; on none where there are none,
/// and then nothing is read or written, and no world is left. What is said of a file that is refused is left in `said`.
pub fn run_given<F: Shelf, K: Sink>(
    alloc: Global,
    given: &Result<Vec<String>, WordsError>,
    shelf: &mut F,
    out: &mut K,
    world: &mut Option<World>,
    said: &mut Vec<u8>,
) -> Status
    ensures meets { GivenMeets given.now
        (around (shelf_around F.asked F.told F.faults F.last_failed shelf.old shelf.new)
        (sink_around K.told K.faults K.last_failed out.old out.new)) world.new result }
    ensures said { GivenFirst given.now (F.told shelf.old) result said.new.items }
    ensures refused { IfOk given.now (λ words. result ≡ Status.Usage → IsTaken (map string_bytes words.items) → (promised of_rule (request_of (map string_bytes words.items))).refuses (F.told shelf.old)) }
{
    *world = None;
    *said = Vec::new(alloc);
    match given {
        Ok(words) => match texts(alloc, words.as_slice()) {
            Ok(texts) => run_program(alloc, texts.as_slice(), shelf, out, world, said),
            Err(no) => Status::NoMemory(no),
        },
        Err(no) => no.status(),
    }
}

/// The words as texts, each of them, an empty one too.
fn texts(alloc: Global, words: &[String]) -> Result<Vec<&str>, NoMemory>
    ensures { IfOk result (λ texts. map (λ t. t.now) texts.items ≡ map string_bytes words.now) }
{
    let mut texts = Vec::new(alloc);
    for word in words {
        push(&mut texts, word.as_str())?;
    }
    Ok(texts)
}
