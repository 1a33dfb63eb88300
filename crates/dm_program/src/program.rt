//! The program: what its words ask for is done, as the rule has it.
ghost use Rattle.std.specs.Prelude.{◌≡◌, map};
ghost use Rattle.dm_words.specs.Words.{IsTaken, request_of};
ghost use Rattle.dm_front.specs.Outside.{around, shelf_around, sink_around};
ghost use Rattle.dm_program.specs.Commands.{promised};
ghost use Rattle.dm_program.specs.Program.{ProgramMeets};
ghost use Rattle.dm_program.specs.Rule.{of_rule};

use crate::request::do_request;
use dm_ending::status::Status;
use dm_outside::{Shelf, Sink};
use dm_words::words::read_words;
use dm_world::World;
use std::alloc::Global;

/// Does what the words ask for. The world of a run is left in `world`, which is empty where there was none; and in `said` what is said
/// of a file that is refused, before the line of its status.
pub fn run_program<F: Shelf, K: Sink>(
    alloc: Global,
    words: &[&str],
    shelf: &mut F,
    out: &mut K,
    world: &mut Option<World>,
    said: &mut Vec<u8>,
) -> Status
    ensures meets { ProgramMeets (request_of (map (λ w. w.now) words.now))
        (around (shelf_around F.asked F.told F.faults F.last_failed shelf.old shelf.new)
        (sink_around K.told K.faults K.last_failed out.old out.new)) world.new result }
    ensures said { (promised of_rule (request_of (map (λ w. w.now) words.now))).first (F.told shelf.old) result said.new.items }
    ensures refused { result ≡ Status.Usage → IsTaken (map (λ w. w.now) words.now) → (promised of_rule (request_of (map (λ w. w.now) words.now))).refuses (F.told shelf.old) }
{
    *world = None;
    *said = Vec::new(alloc);
    match read_words(alloc, words) {
        Ok(request) => do_request(alloc, request, shelf, out, world, said),
        Err(no) => no.status(),
    }
}
