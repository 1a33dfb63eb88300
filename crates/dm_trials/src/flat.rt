//! A flat memory, and four instructions over it.

use anyhow::Result;
use dm_processor::{Flat, Regs, step};
use std::io;

/// Zero minus one, and then call 2.
const ZERO_MINUS_ONE: [u8; 16] = [1, 1, 0, 0, 1, 2, 0, 1, 5, 1, 1, 2, 20, 0, 0, 2];

/// Four instructions over a flat memory.
pub fn step_flat(rt: &HostRuntime) -> Result<()> {
    let mut memory = Flat::from_image(rt.alloc(), &ZERO_MINUS_ONE, 1)?;
    Ok(say_steps(rt, &mut memory)?)
}

/// Four instructions, and what came of each.
fn say_steps(rt: &HostRuntime, memory: &mut Flat) -> io::Result<()> {
    let mut regs = Regs::new();
    for _ in 0..4 {
        say_step(rt, &mut regs, memory)?;
    }
    Ok(())
}

/// One instruction over a flat memory, and what came of it.
fn say_step(rt: &HostRuntime, regs: &mut Regs, memory: &mut Flat) -> io::Result<()> {
    let stepped = step(regs, memory);
    let (r1, pc) = (regs.r[1], regs.pc);
    println!(rt; "flat: {stepped:?}, r1 {r1}, pc {pc}")
}
