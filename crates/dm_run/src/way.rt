//! How far directives have come, and which elementary one comes next.
ghost use Rattle.std.specs.Prelude.{◌≡◌, ◌≤◌, length};
ghost use Rattle.dm_world.specs.Meets.{IsWorld, world_state};
ghost use Rattle.dm_run.specs.Runs.{cursor_of};
ghost use Rattle.dm_run.specs.Way.{Nexts};
ghost use Rattle.dm_run.specs.Went.{first_way};

use dm_line::pass::Pass;
use dm_schedule::{Directive, Step};
use dm_world::{Cursor, Place, World};

/// How many directives were begun, and how far the last of them has come.
#[derive(Clone, Copy)]
pub struct Way {
    pub begun: usize,
    pub cursor: Cursor,
}

impl Way {
    /// No directive was begun.
    pub fn new() -> Way
        ensures { result ≡ first_way }
    {
        Way {
            begun: 0,
            cursor: behind(Pass::Round(0)),
        }
    }
}

/// The elementary directive that comes next of these directives, and the way with it; none where all are done.
pub fn next_step(world: &World, directives: &[Directive], way: &mut Way) -> Option<Step>
    requires world { IsWorld world.now }
    requires within { way.old.begun ≤ length directives.now }
    ensures next { Nexts world.now.boot directives.now (world_state world.now) way.old way.new result }
    ensures within { way.new.begun ≤ length directives.now }
{
    let mut step = Step::Turn(0);
    'begun: loop {
        if world.next(&mut way.cursor, &mut step) {
            return Some(step);
        }
        if way.begun == directives.len() {
            return None;
        }
        way.cursor = cursor_of(&directives[way.begun]);
        way.begun += 1;
    }
}

/// Nothing of a directive is done yet.
fn cursor_of(directive: &Directive) -> Cursor
    ensures { result ≡ cursor_of directive.now }
{
    match *directive {
        Directive::One(step) => Cursor::One(step),
        Directive::Round => behind(Pass::Round(1)),
        Directive::Spin(rounds) => behind(Pass::Round(rounds)),
        Directive::Settle => behind(Pass::Settle),
        Directive::Rest(passes) => behind(Pass::Rest(passes)),
    }
}

/// Only what comes behind a pass is left.
fn behind(pass: Pass) -> Cursor
    ensures { result ≡ Cursor.Passing pass Place.End }
{
    Cursor::Passing {
        pass,
        place: Place::End,
    }
}
