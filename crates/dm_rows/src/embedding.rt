//! What a program of one's own does that steps a system: it chooses each directive itself, and prints each line (docs/EMBEDDING.md).

ghost use Rattle.std.specs.Prelude.{◌≡◌, true};
ghost use Rattle.dm_run.specs.Runs.{IsStep};

use anyhow::Result;
use dm_boot::read_boot;
use dm_line::line::Line;
use dm_run::{begin, step_on};
use dm_schedule::Step;
use dm_text::text::write_lines;
use std::fs;
use std::io::Write;

/// The most directives that are done.
const MOST: u8 = 100;

/// Each packet is delivered as soon as it was put, the last one first; where none is left, the machines 0 and 1 take turns, until all
/// is at rest.
pub fn step_system(rt: &HostRuntime) -> Result<()> {
    let boot = read_boot(rt.alloc(), fs::read(rt, "embedding.toml")?.as_slice())?;
    let mut world = begin(rt.alloc(), boot)?;
    let mut packets = Vec::new(rt.alloc());
    for n in 0..MOST {
        if world.is_at_rest() {
            return Ok(());
        }
        let step = packets.pop().unwrap_or(Step::Turn(n % 2));
        if !is_for(step, world.machines()) {
            return Ok(());
        }
        let Ok(lines) = step_on(&mut world, &step) else {
            return Ok(());
        };
        add_packets(lines.as_slice(), &mut packets)?;
        let mut text = Vec::new(rt.alloc());
        write_lines(lines.as_slice(), &mut text)?;
        rt.stdout().write_all(text.as_slice())?;
    }
    Ok(())
}

/// Whether a directive is one for so many machines.
fn is_for(step: Step, machines: u8) -> bool
    ensures { result ≡ true → IsStep machines step }
{
    match step {
        Step::Turn(m) | Step::Tick(m) => m < machines,
        Step::Deliver { a, b, .. } => a < machines && b < machines && a != b,
        Step::Migrate { to, .. } => to < machines,
        Step::CallOff { at, .. } => at < machines,
    }
}

/// Adds the deliveries of the packets that these lines say were put.
fn add_packets(lines: &[Line], packets: &mut Vec<Step>) -> Result<()> {
    for line in lines {
        if let Line::Packet { from, to, k, .. } = *line {
            packets.push(Step::Deliver { a: from, b: to, k })?;
        }
    }
    Ok(())
}
