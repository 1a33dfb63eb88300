//! The directives of a drill of somebody's own system.
ghost use Rattle.std.specs.Prelude.{◌≡◌, ◌≤◌, ◌<◌, IfOk, length};
ghost use Rattle.std.specs.List.{All};
ghost use Rattle.dm_draw.specs.Directives.{IsDrawn};
ghost use Rattle.dm_draw.specs.Own.{arrival_drawn, behind_process, calloff_drawn, move_drawn, own_directives_drawn, own_drawn, process_drawn};

use crate::directives::{draw_deliver, draw_tick, draw_turn};
use crate::draw::Generator;
use dm_link::{MACHINES, Pid};
use dm_memory::{NoMemory, push};
use dm_onekernel::boot::BootProcess;
use dm_schedule::{Directive, Step};
use std::alloc::Global;

/// So many directives for so many machines, 1 to 16, and these processes, drawn from a seed.
pub fn own_directives(
    alloc: Global,
    seed: u32,
    machines: u8,
    processes: &[BootProcess],
    lines: u32,
) -> Result<Vec<Directive>, NoMemory>
    requires { (1 ≤ machines) × (machines ≤ MACHINES) }
    ensures drawn { IfOk result (λ ds. ds.items ≡ own_directives_drawn machines processes.now seed lines) }
    ensures each { IfOk result (λ ds. All (IsDrawn machines) ds.items) }
    ensures count { IfOk result (λ ds. length ds.items ≡ lines) }
{
    let mut generator = Generator::new(seed);
    let mut directives = Vec::new(alloc);
    for _ in 0..lines {
        push(
            &mut directives,
            draw_own(machines, processes, &mut generator),
        )?;
    }
    Ok(directives)
}

/// A directive for so many machines and these processes: of nine, three are turns, one a tick, a move, a delivery and a calling
/// off each, and two rounds.
#[tactic(auto, unfolding(crate::specs::Own::own_drawn))]
fn draw_own(machines: u8, processes: &[BootProcess], generator: &mut Generator) -> Directive
    requires { (1 ≤ machines) × (machines ≤ MACHINES) }
    ensures directive { result ≡ (own_drawn machines processes.now generator.old.state).directive }
    ensures state { generator.new.state ≡ (own_drawn machines processes.now generator.old.state).state }
{
    let kind = generator.draw(9);
    if kind < 3 {
        draw_turn(machines, generator)
    } else if kind == 3 {
        draw_tick(machines, generator)
    } else if kind == 4 {
        let process = draw_process(processes, generator);
        draw_move(machines, process, generator)
    } else if kind == 5 {
        draw_arrival(machines, generator)
    } else if kind == 8 {
        let process = draw_process(processes, generator);
        draw_calloff(machines, process, generator)
    } else {
        Directive::Round
    }
}

/// One of these processes, if there are any; else nothing is drawn.
fn draw_process(processes: &[BootProcess], generator: &mut Generator) -> Option<Pid>
    ensures process { result ≡ process_drawn processes.now generator.old.state }
    ensures state { generator.new.state ≡ behind_process (process_drawn processes.now generator.old.state) generator.old.state }
{
    if processes.is_empty() {
        return None;
    }
    let place = generator.draw_place(processes.len());
    Some(processes[place].pid)
}

/// A move of a process; where there is none, a machine's turn.
fn draw_move(machines: u8, process: Option<Pid>, generator: &mut Generator) -> Directive
    requires { 0 < machines }
    ensures directive { result ≡ (move_drawn machines process generator.old.state).directive }
    ensures state { generator.new.state ≡ (move_drawn machines process generator.old.state).state }
{
    match process {
        Some(pid) => {
            let to = generator.draw(machines);
            Directive::One(Step::Migrate { pid, to })
        }
        None => draw_turn(machines, generator),
    }
}

/// The calling off of a process's move; where there is none, a machine's turn.
fn draw_calloff(machines: u8, process: Option<Pid>, generator: &mut Generator) -> Directive
    requires { 0 < machines }
    ensures directive { result ≡ (calloff_drawn machines process generator.old.state).directive }
    ensures state { generator.new.state ≡ (calloff_drawn machines process generator.old.state).state }
{
    match process {
        Some(pid) => {
            let at = generator.draw(machines);
            Directive::One(Step::CallOff { pid, at })
        }
        None => draw_turn(machines, generator),
    }
}

/// The arrival of a packet, if there is one with its number; the turn of a machine that is alone.
fn draw_arrival(machines: u8, generator: &mut Generator) -> Directive
    requires { (1 ≤ machines) × (machines ≤ MACHINES) }
    ensures directive { result ≡ (arrival_drawn machines generator.old.state).directive }
    ensures state { generator.new.state ≡ (arrival_drawn machines generator.old.state).state }
{
    if machines == 1 {
        Directive::One(Step::Turn(0))
    } else {
        draw_deliver(machines, generator)
    }
}
