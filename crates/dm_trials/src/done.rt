//! What the program came to, and whether that is as it must be.

use dm_outside::MemSink;
use std::process::ExitCode;

/// How the program ended.
#[derive(Drop)]
pub struct End {
    pub status: ExitCode,
    /// What it wrote on standard error.
    pub errors: MemSink,
}

impl End {
    /// Whether this is its status, and this the last line on standard error.
    pub fn is(&self, status: u8, line: &str) -> bool {
        self.status == ExitCode::from(status) && is_last_line(self.errors.bytes(), line)
    }
}

/// What the program came to, with what it wrote on standard output.
#[derive(Drop)]
pub struct Done {
    pub end: End,
    pub out: MemSink,
}

/// How a right and a wrong one are told.
pub fn verdict(right: bool) -> &'static str {
    if right { "as it should be" } else { "WRONG" }
}

/// Whether this is the last line of the bytes, with its line feed, or they are nothing where it is empty.
fn is_last_line(bytes: &[u8], line: &str) -> bool {
    match bytes.split_last() {
        Some((last, text)) => *last == b'\n' && !line.is_empty() && ends_so(text, line.as_bytes()),
        None => line.is_empty(),
    }
}

/// Whether a text is this line, or ends with it and a line feed before it.
fn ends_so(text: &[u8], line: &[u8]) -> bool {
    match text.strip_suffix(line) {
        Some(before) => before.is_empty() || before.ends_with(b"\n"),
        None => false,
    }
}
