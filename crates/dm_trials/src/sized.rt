//! Runs that are large: lists of more than 65,536 directives, groups, packets and messages, and a boot file as long as one may be. No
//! memory lacks for their size alone.

use crate::done::{Done, verdict};
use crate::pair::{Pair, sink_of};
use crate::program::{Program, run_over};
use anyhow::Result;
use dm_outside::MemShelf;
use std::alloc::AllocError;
use std::{fs, io};

/// A command over two files in memory, of which the second is long.
#[derive(Clone, Copy)]
struct Large {
    name: &'static str,
    /// The words behind the program's name, with a space between. Its shelf has two files, `boot` and `other`.
    words: &'static str,
    /// What `boot` is a copy of; it is made as long as this by a remark at its end, where it is shorter.
    boot: &'static str,
    boot_length: usize,
    /// What `other` begins with.
    other: &'static str,
    /// What stands behind that, so many times.
    line: &'static str,
    times: usize,
    /// What it must write begins with this, so many times; behind that stands the text of a file.
    group: &'static str,
    output: &'static str,
}

const LARGE: [Large; 8] = [
    Large {
        name: "run of many groups",
        words: "run --boot boot --schedule other",
        boot: "nobody.boot",
        boot_length: 0,
        other: "nobody.schedule",
        line: "turn 0\n",
        times: 70_000,
        group: "turn 0\nidle 0\n",
        output: "many_turns.out",
    },
    Large {
        name: "check of many groups",
        words: "check --boot boot --trace other",
        boot: "nobody.boot",
        boot_length: 0,
        other: "nobody.schedule",
        line: "turn 0\nidle 0\n",
        times: 70_000,
        group: "",
        output: "good_70000_open.out",
    },
    Large {
        name: "check of many labels",
        words: "check --boot boot --labels other",
        boot: "hi.boot",
        boot_length: 0,
        other: "nobody.schedule",
        line: "ran 0.3 0\n",
        times: 70_000,
        group: "",
        output: "good_70000_labels.out",
    },
    Large {
        name: "count of many groups",
        words: "count --boot boot --schedule other",
        boot: "nobody.boot",
        boot_length: 0,
        other: "nobody.schedule",
        line: "turn 0\n",
        times: 70_000,
        group: "",
        output: "count_many_turns.out",
    },
    Large {
        name: "count of many packets",
        words: "count --boot boot --schedule other",
        boot: "many_packets.boot",
        boot_length: 0,
        other: "many_packets.schedule",
        line: "tick 0\n",
        times: 9_000,
        group: "",
        output: "count_many_packets.out",
    },
    Large {
        name: "count of many messages",
        words: "count --boot boot --schedule other",
        boot: "many_packets.boot",
        boot_length: 0,
        other: "nobody.schedule",
        line: "turn 0\n",
        times: 70_000,
        group: "",
        output: "count_many_messages.out",
    },
    Large {
        name: "explain of many directives",
        words: "explain --boot boot --schedule other",
        boot: "hi.boot",
        boot_length: 0,
        other: "nobody.schedule",
        line: "turn 0\n",
        times: 70_000,
        group: "",
        output: "said_many_turns.out",
    },
    Large {
        name: "run of the longest boot file",
        words: "run --boot boot --schedule other",
        boot: "hi.boot",
        boot_length: LONGEST_BOOT,
        other: "hi.schedule",
        line: "",
        times: 0,
        group: "",
        output: "hi.out",
    },
];

/// What is told wrongly on purpose, and has to be said to be wrong.
const MISTAKEN: [Large; 2] = [
    Large {
        name: "another output of many groups",
        words: "check --boot boot --trace other",
        boot: "nobody.boot",
        boot_length: 0,
        other: "nobody.schedule",
        line: "turn 0\nidle 0\n",
        times: 70_000,
        group: "",
        output: "good_8_ended.out",
    },
    Large {
        name: "another status",
        words: "check --boot boot",
        boot: "nobody.boot",
        boot_length: 0,
        other: "nobody.schedule",
        line: "",
        times: 0,
        group: "",
        output: "/dev/null",
    },
];

/// The most bytes of a boot file.
const LONGEST_BOOT: usize = 1_048_576;

/// More bytes than any of these runs writes.
const ROOM: usize = 2_097_152;

/// Does each large run, and says whether it ended as it must.
pub fn run_large<P: Program>(rt: &HostRuntime, program: &P) -> Result<()> {
    for large in &LARGE {
        say_large(rt, program, large)?;
    }
    for mistaken in &MISTAKEN {
        say_large(rt, program, mistaken)?;
    }
    Ok(())
}

/// Does a large run, and says whether it ended as it must.
fn say_large<P: Program>(rt: &HostRuntime, program: &P, large: &Large) -> Result<()> {
    let right = is_large_right(rt, program, large)?;
    Ok(say_right(rt, large.name, right)?)
}

/// Says whether a large run ended as it must.
fn say_right(rt: &HostRuntime, name: &str, right: bool) -> io::Result<()> {
    let verdict = verdict(right);
    println!(rt; "{name}: {verdict}")
}

/// Whether a large run ends with status 0, says nothing and writes what it must.
fn is_large_right<P: Program>(rt: &HostRuntime, program: &P, large: &Large) -> Result<bool> {
    let expected = expected(rt, large)?;
    let done = large_done(rt, program, large)?;
    Ok(done.end.is(0, "") && done.out.bytes() == expected.as_slice())
}

/// What a large run must write.
fn expected(rt: &HostRuntime, large: &Large) -> Result<Vec<u8>> {
    let mut expected = Vec::new(rt.alloc());
    append(&mut expected, large.group, large.times)?;
    let output = fs::read(rt, large.output)?;
    expected.extend_from_slice(output.as_slice())?;
    Ok(expected)
}

/// Does a large run.
fn large_done<P: Program>(rt: &HostRuntime, program: &P, large: &Large) -> Result<Done> {
    let mut shelf = large_shelf(rt, large)?;
    let out = sink_of(rt.alloc(), ROOM)?;
    Ok(run_over(rt.alloc(), program, large.words, &mut shelf, out)?)
}

/// The shelf of a large run.
fn large_shelf(rt: &HostRuntime, large: &Large) -> Result<MemShelf> {
    let alloc = rt.alloc();
    let files = lengthened(rt, large)?;
    Ok(files.shelf(alloc, Vec::new(alloc))?)
}

/// The files of a large run.
fn lengthened(rt: &HostRuntime, large: &Large) -> Result<Pair> {
    let mut files = Pair::read(rt, large.boot, large.other)?;
    let more = large.boot_length.saturating_sub(files.boot.len());
    append(&mut files.boot, "#", more)?;
    append(&mut files.other, large.line, large.times)?;
    Ok(files)
}

/// Adds a text at the end, so many times.
fn append(bytes: &mut Vec<u8>, text: &str, times: usize) -> Result<(), AllocError> {
    for _ in 0..times {
        bytes.extend_from_slice(text.as_bytes())?;
    }
    Ok(())
}
