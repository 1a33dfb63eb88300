//! The program on each run of a table, over real files, and which run shows which row of the system's tables: both tables, `runs` and
//! `rows`, lie beside the files that they name.

use crate::program::Program;
use crate::row::Row;
use crate::run::{Ending, Run};
use anyhow::{Context, Result};
use std::{fs, io};

/// Does the runs of the one table, and says of the rows of the other whether they are shown.
pub fn show_tables<P: Program>(rt: &HostRuntime, program: &P) -> Result<()> {
    let runs = fs::read_to_string(rt, "runs")?;
    let good = do_runs(rt, program, runs.as_str())?;
    show_rows(rt, good.as_slice())
}

/// Does each run of the table, and says how it ended: those that ended as they must.
fn do_runs<'a, P: Program>(rt: &HostRuntime, program: &P, table: &'a str) -> Result<Vec<Run<'a>>> {
    let mut good = Vec::new(rt.alloc());
    for line in table.lines() {
        if is_entry(line) {
            do_run(rt, program, line, &mut good)?;
        }
    }
    Ok(good)
}

/// Does the run of a line, says how it ended, and adds it to the good ones where it ended as it must.
fn do_run<'a, P: Program>(
    rt: &HostRuntime,
    program: &P,
    line: &'a str,
    good: &mut Vec<Run<'a>>,
) -> Result<()> {
    let run = Run::of_line(line).context("a line of the table of runs")?;
    if is_good(rt, program, &run)? {
        good.push(run)?;
    }
    Ok(())
}

/// Does a run, says how it ended, and whether that is as it must.
fn is_good<P: Program>(rt: &HostRuntime, program: &P, run: &Run<'_>) -> Result<bool> {
    let ending = run.ending(rt, program)?;
    say_run(rt, run.name, ending)?;
    Ok(ending == Ending::AsSaid)
}

/// Says how a run ended.
fn say_run(rt: &HostRuntime, name: &str, ending: Ending) -> io::Result<()> {
    println!(rt; "run {name}: {ending}")
}

/// Says of each row of the table whether its run shows it.
fn show_rows(rt: &HostRuntime, good: &[Run<'_>]) -> Result<()> {
    let rows = fs::read_to_string(rt, "rows")?;
    for line in rows.as_str().lines() {
        if is_entry(line) {
            show_row(rt, line, good)?;
        }
    }
    Ok(())
}

/// Says of the row of a line whether its run shows it.
fn show_row(rt: &HostRuntime, line: &str, good: &[Run<'_>]) -> Result<()> {
    let row = Row::of_line(line).context("a line of the table of rows")?;
    let is_shown = row.is_shown(rt, good)?;
    Ok(say_row(rt, &row, is_shown)?)
}

/// Says of a row whether its run shows it.
fn say_row(rt: &HostRuntime, row: &Row<'_>, is_shown: bool) -> io::Result<()> {
    let (name, run, number) = (row.name, row.run, row.number());
    let verdict = if is_shown { "shown" } else { "NOT shown" };
    println!(rt; "row {name}: {verdict} by {run}, line {number}")
}

/// Whether a line of a table is neither empty nor a remark.
fn is_entry(line: &str) -> bool {
    !line.is_empty() && !line.starts_with('#')
}
