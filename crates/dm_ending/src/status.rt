//! How the program ends.
ghost use Rattle.std.specs.Prelude.{◌≡◌, ◌+◌, ◌≤◌, ◌++◌, length, decimal};
ghost use Rattle.dm_ending.specs.Ended.{ended_with};
ghost use Rattle.dm_ending.specs.Status.{code_of, line_of_status, text_of_status};

use crate::stop::Stop;
use arrayvec::ArrayString;
use dm_memory::NoMemory;
use itoa::Buffer;

/// The room for the line of a status, its line feed included.
pub const LONGEST_LINE: usize = 96;

/// The most bytes of what a status says, without its line feed.
pub const LONGEST_TEXT: usize = LONGEST_LINE - 1;

/// One of the files that the program reads.
#[derive(Clone, Copy)]
pub enum Input {
    Boot,
    Schedule,
    Trace,
    Labels,
}

/// How a run of the program ended.
#[derive(Clone, Copy)]
pub enum Status {
    /// What was asked for is done, and all of it is written.
    Done,
    /// The words of the command line aren't those of a command.
    Usage,
    /// The shelf failed at this file.
    ReadFault(Input),
    /// No memory was left.
    NoMemory(NoMemory),
    /// The sink failed.
    WriteFault,
    /// The boot file breaks this rule, at the element of this place.
    BootRefused { number: u8, place: u64 },
    /// The first bad line of the schedule, counted from 1, and what is wrong with it.
    ScheduleRefused { line: u64, why: u8 },
    /// A file is longer than it may be.
    TooLong(Input),
    /// A message was to be routed between two machines that count as many as they may.
    Worn { from: u8, to: u8 },
    /// The first line of the trace that isn't what the system prints, counted from 1, and what is wrong with it.
    TraceRefused { line: u64, why: u8 },
    /// The first line of the labels, counted from 1, that is no label, or whose label is no step.
    LabelsRefused { line: u64 },
    /// Nothing is found within the bounds.
    NotFound,
    /// More was to be tried than may be.
    Undecided,
}

impl Status {
    /// The number that the program ends with.
    pub fn code(&self) -> u8
        ensures { result ≡ code_of self.now }
    {
        match *self {
            Status::Done => 0,
            Status::Usage => 2,
            Status::ReadFault(_) => 3,
            Status::NoMemory(_) => 4,
            Status::WriteFault => 5,
            Status::BootRefused { .. } => 6,
            Status::ScheduleRefused { .. } => 7,
            Status::TooLong(_) => 8,
            Status::Worn { .. } => 9,
            Status::TraceRefused { .. } => 10,
            Status::LabelsRefused { .. } => 10,
            Status::NotFound => 11,
            Status::Undecided => 12,
        }
    }
}

/// The status of a run that came to its end, or stopped.
pub fn status_of(ended: Result<(), Stop>) -> Status
    ensures { result ≡ ended_with ended }
{
    match ended {
        Ok(()) => Status::Done,
        Err(Stop::NoMemory(no)) => Status::NoMemory(no),
        Err(Stop::WriteFault) => Status::WriteFault,
        Err(Stop::Worn { from, to }) => Status::Worn { from, to },
    }
}

/// The line of a status with its line feed, nothing where all is done. It takes no memory.
pub fn status_line(status: &Status) -> ArrayString<LONGEST_LINE>
    ensures { result.bytes ≡ line_of_status status.now }
{
    let mut line = status_text(status);
    if !line.is_empty() {
        line.push_str("\n");
    }
    line
}

/// What a status says in one line, nothing where all is done.
pub fn status_text(status: &Status) -> ArrayString<LONGEST_LINE>
    ensures text { result.bytes ≡ text_of_status status.now }
    ensures short { length result.bytes ≤ LONGEST_TEXT }
{
    match *status {
        Status::Done => words(""),
        Status::Usage => words("usage: demosmp run --boot FILE --schedule FILE"),
        Status::ReadFault(_) => words("read fault"),
        Status::NoMemory(_) => words("no memory"),
        Status::WriteFault => words("write fault"),
        Status::BootRefused { number, place } => boot_refused(number, place),
        Status::ScheduleRefused { line, why } => schedule_refused(line, why),
        Status::TooLong(Input::Boot) => words("too long: boot"),
        Status::TooLong(Input::Schedule) => words("too long: schedule"),
        Status::TooLong(Input::Trace) => words("too long: trace"),
        Status::TooLong(Input::Labels) => words("too long: labels"),
        Status::Worn { from, to } => worn(from, to),
        Status::TraceRefused { line, why } => trace_refused(line, why),
        Status::LabelsRefused { line } => labels_refused(line),
        Status::NotFound => words("not found"),
        Status::Undecided => words("undecided"),
    }
}

/// A text of these words.
pub fn words(s: &str) -> ArrayString<LONGEST_LINE>
    requires { length s.now ≤ LONGEST_TEXT }
    ensures { result.bytes ≡ s.now }
{
    let mut text = ArrayString::new();
    text.push_str(s);
    text
}

/// What a refused boot file is told.
fn boot_refused(number: u8, place: u64) -> ArrayString<LONGEST_LINE>
    ensures short { length result.bytes ≤ LONGEST_TEXT }
    ensures text { result.bytes ≡ text_of_status (Status.BootRefused number place) }
{
    let mut text = words("boot refused: ");
    push_number(&mut text, number as u64);
    text.push_str(" at ");
    push_number(&mut text, place);
    text
}

/// What a refused schedule is told.
fn schedule_refused(line: u64, why: u8) -> ArrayString<LONGEST_LINE>
    ensures short { length result.bytes ≤ LONGEST_TEXT }
    ensures text { result.bytes ≡ text_of_status (Status.ScheduleRefused line why) }
{
    let mut text = words("schedule refused: line ");
    push_number(&mut text, line);
    text.push_str(", why ");
    push_number(&mut text, why as u64);
    text
}

/// What a refused trace is told.
fn trace_refused(line: u64, why: u8) -> ArrayString<LONGEST_LINE>
    ensures short { length result.bytes ≤ LONGEST_TEXT }
    ensures text { result.bytes ≡ text_of_status (Status.TraceRefused line why) }
{
    let mut text = words("trace refused: line ");
    push_number(&mut text, line);
    text.push_str(", why ");
    push_number(&mut text, why as u64);
    text
}

/// What refused labels are told.
fn labels_refused(line: u64) -> ArrayString<LONGEST_LINE>
    ensures short { length result.bytes ≤ LONGEST_TEXT }
    ensures text { result.bytes ≡ text_of_status (Status.LabelsRefused line) }
{
    let mut text = words("labels refused: line ");
    push_number(&mut text, line);
    text
}

/// What is told of two machines that count as many messages as they may.
fn worn(from: u8, to: u8) -> ArrayString<LONGEST_LINE>
    ensures short { length result.bytes ≤ LONGEST_TEXT }
    ensures text { result.bytes ≡ text_of_status (Status.Worn from to) }
{
    let mut text = words("worn: ");
    push_number(&mut text, from as u64);
    text.push_str(" to ");
    push_number(&mut text, to as u64);
    text
}

/// Adds a number in decimal digits.
pub fn push_number(text: &mut ArrayString<LONGEST_LINE>, n: u64)
    requires { length text.old.bytes + 20 ≤ LONGEST_LINE }
    ensures written { text.new.bytes ≡ text.old.bytes ++ decimal n }
    ensures room { length text.new.bytes ≤ length text.old.bytes + 20 }
{
    let mut digits = Buffer::new();
    text.push_str(digits.format(n));
}
