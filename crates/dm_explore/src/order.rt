//! Which directives meet, and so which orders of directives are tried.
ghost use Rattle.std.specs.Prelude.{◌≡◌, ◌≤◌, List, length};
ghost use Rattle.std.specs.List.{list_any};
ghost use Rattle.dm_explore.specs.Noted.{HasPast, IsPast, NotedIn};
ghost use Rattle.dm_explore.specs.Order.{could_stand_before, delivers_of, is_put, meet};
ghost use Rattle.dm_explore.specs.Past.{Did, puts_in};

use crate::past::{Done, Past, Put};
use crate::sights::Actor;
use dm_schedule::Step;

/// Whether a directive is left out as the next one: behind the last directive that it meets, or from the start where it meets none,
/// one stands that acts on a machine with a higher number. It could stand before that one.
pub fn could_stand_before(past: &Past, step: Step, actor: Actor) -> bool
    requires { HasPast past.now }
    ensures { (ds : List Did) → IsPast past.now ds → result ≡ could_stand_before ds step actor.machine actor.away }
{
    let mut place = past.done().len();
    while place > 0 {
        place -= 1;
        let earlier = past.done()[place];
        if meet(past.puts(), earlier, step, actor) {
            return false;
        }
        if earlier.machine > actor.machine {
            return true;
        }
    }
    false
}

/// Whether a directive meets a later one: they act on one machine, or the later one delivers a packet that the earlier one put, or one
/// of them is a request to move that finds the manager on its way.
fn meet(puts: &[Put], earlier: Done, step: Step, actor: Actor) -> bool
    requires ordered { earlier.first ≤ earlier.behind }
    requires within { earlier.behind ≤ length puts.now }
    ensures { (d : Did) → NotedIn d earlier puts.now → result ≡ meet d step actor.machine actor.away }
{
    earlier.away
        || actor.away
        || earlier.machine == actor.machine
        || delivers_of(own_puts(puts, earlier), step)
}

/// The packets that a directive put.
fn own_puts(puts: &[Put], earlier: Done) -> &[Put]
    requires ordered { earlier.first ≤ earlier.behind }
    requires within { earlier.behind ≤ length puts.now }
    ensures { (d : Did) → NotedIn d earlier puts.now → result.now ≡ puts_in d.lines }
{
    &puts[earlier.first..earlier.behind]
}

/// Whether a directive delivers one of these packets.
fn delivers_of(puts: &[Put], step: Step) -> bool
    ensures { result ≡ delivers_of puts.now step }
{
    match step {
        Step::Deliver { a, b, k } => is_among(puts, a, b, k),
        _ => false,
    }
}

/// Whether packet `k` from `a` to `b` is one of these.
fn is_among(puts: &[Put], a: u8, b: u8, k: u64) -> bool
    ensures { result ≡ list_any (is_put a b k) puts.now }
{
    for put in puts {
        if is_put(*put, a, b, k) {
            return true;
        }
    }
    false
}

/// Whether a packet is packet `k` from `a` to `b`.
fn is_put(put: Put, a: u8, b: u8, k: u64) -> bool
    ensures { result ≡ is_put a b k put }
{
    a == put.from && b == put.to && k == put.k
}
