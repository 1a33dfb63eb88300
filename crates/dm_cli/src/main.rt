//! The program `demosmp`: it does what the words of the command line ask for.
#![tactic(auto)]

use dm_outside::{RealShelf, RealSink};
use dm_program::{args, finish, words_of};
use std::io;
use std::process::ExitCode;

fn main(rt: HostRuntime) -> ExitCode {
    let given = words_of(rt.alloc(), args(&rt));
    let (mut shelf, mut out) = (RealShelf::new(&rt), RealSink::new(io::writer(&rt)));
    finish(
        rt.alloc(),
        given,
        &mut shelf,
        &mut out,
        &mut RealSink::new(rt.stderr()),
    )
}
