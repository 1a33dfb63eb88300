//! The directives of a drill.
ghost use Rattle.std.specs.Prelude.{◌≡◌, ◌≤◌, ◌<◌, IfOk, length};
ghost use Rattle.std.specs.List.{All};
ghost use Rattle.dm_schedule.specs.declared.Directive.{Directive as TheDirective};
ghost use Rattle.dm_draw.specs.Directives.{IsDrawn, deliver_drawn, directive_drawn, directives_drawn, migrate_drawn, tick_drawn, turn_drawn};

use crate::draw::Generator;
use dm_link::{FIRST_NUMBER, MACHINES, Pid};
use dm_memory::{NoMemory, push};
use dm_schedule::{Directive, Step};
use std::alloc::Global;

/// So many directives for so many machines, 2 to 16, drawn from a seed.
pub fn drill_directives(
    alloc: Global,
    seed: u32,
    machines: u8,
    lines: u32,
) -> Result<Vec<Directive>, NoMemory>
    requires { (2 ≤ machines) × (machines ≤ MACHINES) }
    ensures drawn { IfOk result (λ ds. ds.items ≡ directives_drawn machines seed lines) }
    ensures each { IfOk result (λ ds. All (IsDrawn machines) ds.items) }
    ensures count { IfOk result (λ ds. length ds.items ≡ lines) }
{
    let mut generator = Generator::new(seed);
    let mut directives = Vec::new(alloc);
    for _ in 0..lines {
        push(&mut directives, draw_directive(machines, &mut generator))?;
    }
    Ok(directives)
}

/// A directive for so many machines: of eight, three are turns, one a tick, a move and a delivery each, and two rounds.
#[tactic(auto, unfolding(crate::specs::Directives::directive_drawn))]
fn draw_directive(machines: u8, generator: &mut Generator) -> Directive
    requires { (2 ≤ machines) × (machines ≤ MACHINES) }
    ensures directive { result ≡ (directive_drawn machines generator.old.state).directive }
    ensures state { generator.new.state ≡ (directive_drawn machines generator.old.state).state }
{
    let kind = generator.draw(8);
    if kind < 3 {
        draw_turn(machines, generator)
    } else if kind == 3 {
        draw_tick(machines, generator)
    } else if kind == 4 {
        draw_migrate(machines, generator)
    } else if kind == 5 {
        draw_deliver(machines, generator)
    } else {
        Directive::Round
    }
}

/// A machine's turn.
pub(crate) fn draw_turn(machines: u8, generator: &mut Generator) -> Directive
    requires { 0 < machines }
    ensures directive { result ≡ (turn_drawn machines generator.old.state).directive }
    ensures state { generator.new.state ≡ (turn_drawn machines generator.old.state).state }
{
    Directive::One(Step::Turn(generator.draw(machines)))
}

/// A machine's tick.
pub(crate) fn draw_tick(machines: u8, generator: &mut Generator) -> Directive
    requires { 0 < machines }
    ensures directive { result ≡ (tick_drawn machines generator.old.state).directive }
    ensures state { generator.new.state ≡ (tick_drawn machines generator.old.state).state }
{
    Directive::One(Step::Tick(generator.draw(machines)))
}

/// A move of one of the first two processes of a machine.
fn draw_migrate(machines: u8, generator: &mut Generator) -> Directive
    requires { (2 ≤ machines) × (machines ≤ MACHINES) }
    ensures directive { result ≡ (migrate_drawn machines generator.old.state).directive }
    ensures state { generator.new.state ≡ (migrate_drawn machines generator.old.state).state }
{
    let home = generator.draw(machines);
    let num = FIRST_NUMBER + u32::from(generator.draw(2));
    let to = generator.draw(machines);
    Directive::One(Step::Migrate {
        pid: Pid { home, num },
        to,
    })
}

/// The arrival of a packet, if there is one with its number.
pub(crate) fn draw_deliver(machines: u8, generator: &mut Generator) -> Directive
    requires { (2 ≤ machines) × (machines ≤ MACHINES) }
    ensures directive { result ≡ (deliver_drawn machines generator.old.state).directive }
    ensures state { generator.new.state ≡ (deliver_drawn machines generator.old.state).state }
{
    let a = generator.draw(machines);
    let b = (a + 1 + generator.draw(machines - 1)) % machines;
    let k = u64::from(generator.draw(64));
    Directive::One(Step::Deliver { a, b, k })
}
