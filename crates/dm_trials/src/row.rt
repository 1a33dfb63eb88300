//! A row of the system's tables, and the run that shows it.

use crate::run::Run;
use std::{fs, io};

/// A row, and where it is shown.
#[derive(Clone, Copy)]
pub struct Row<'a> {
    pub name: &'a str,
    /// The name of a run.
    pub run: &'a str,
    /// A line of its output with its number, counted from 1, before it; with number 0 one of the lines on standard error.
    pub line: &'a str,
    /// Where the row is about a message, the same of its first put.
    pub put: Option<&'a str>,
}

impl<'a> Row<'a> {
    /// The row that a line of the table tells.
    pub fn of_line(line: &'a str) -> Option<Row<'a>> {
        let mut columns = line.split('\t');
        Some(Row {
            name: columns.next()?,
            run: columns.next()?,
            line: columns.next()?,
            put: columns.next(),
        })
    }

    /// The number of its line.
    pub fn number(&self) -> &'a str {
        match self.line.split_once(' ') {
            Some((number, _)) => number,
            None => "",
        }
    }

    /// Whether its run is one of these, and says its lines.
    pub fn is_shown(&self, rt: &HostRuntime, good: &[Run<'_>]) -> io::Result<bool> {
        for run in good {
            if run.name == self.run {
                return self.is_shown_by(rt, run);
            }
        }
        Ok(false)
    }

    /// Whether a run says its lines.
    fn is_shown_by(&self, rt: &HostRuntime, run: &Run<'_>) -> io::Result<bool> {
        let output = fs::read_to_string(rt, run.expected.output)?;
        let text = output.as_str();
        Ok(says(run, text, self.line) && self.put.is_none_or(|put| says(run, text, put)))
    }
}

/// Whether a run of this output says a numbered line.
fn says(run: &Run<'_>, output: &str, line: &str) -> bool {
    match numbered(line) {
        Some((0, text)) => run.expected.lines.split('~').any(|line| line == text),
        Some((number, text)) => output.lines().nth(number - 1) == Some(text),
        None => false,
    }
}

/// A line and the number before it.
fn numbered(line: &str) -> Option<(usize, &str)> {
    let (number, text) = line.split_once(' ')?;
    Some((number.parse().ok()?, text))
}
