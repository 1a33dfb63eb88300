//! What tries the program by running it: on each run of a table, over real files; with files and writers of which a call fails; on
//! runs that are large. Then what the program stands on, by itself. The program that is tried is a parameter, so nothing is proved
//! again here where the program changes: crates/dm_rows hands it over, and has the tables in data/.
#![tactic(auto)]

mod bytewise;
mod done;
mod errors;
mod failed;
mod failing;
mod first;
mod flat;
mod memory;
mod once;
mod pair;
mod program;
mod real;
mod row;
mod run;
mod servers;
mod sized;
mod tables;
mod trial;
mod tried;

use anyhow::Result;
pub use errors::say_numbered;
use errors::{say_low_errors, say_starting_errors};
use failing::fail_in_turn;
use first::fail_once;
use flat::step_flat;
use memory::take_memory;
pub use program::Program;
use real::{read_files, write_out};
use servers::pack_servers;
use sized::run_large;
use std::io;
use tables::show_tables;

/// Tries the program: on each run of the tables, with calls that fail, and on large runs.
pub fn try_program<P: Program>(rt: &HostRuntime, program: &P) -> Result<()> {
    show_tables(rt, program)?;
    fail_in_turn(rt, program)?;
    fail_once(rt, program)?;
    run_large(rt, program)
}

/// Tries memory, the real outside and a flat memory, and says what errors of packets, of state bytes and of schedules say.
pub fn try_parts(rt: &HostRuntime) -> Result<()> {
    take_memory(rt)?;
    read_files(rt)?;
    write_out(rt)?;
    step_flat(rt)?;
    Ok(say_low_errors(rt)?)
}

/// Says what errors of a boot file, of room and of a move say, and tries the bytes of the servers.
pub fn try_servers(rt: &HostRuntime) -> io::Result<()> {
    say_starting_errors(rt)?;
    pack_servers(rt)
}
