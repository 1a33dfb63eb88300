//! What is said of a boot file and of a schedule, whether they break a rule or not.
ghost use Rattle.std.specs.Prelude.{◌≡◌, ◌++◌, Err, IfOk, None, Ok, OnOk, Some, option_map};
ghost use Rattle.toml.specs.Errors.{IsWithin};
ghost use Rattle.toml.specs.Data.{table};
ghost use Rattle.toml.specs.View.{view};
ghost use Rattle.dm_onekernel.specs.Boot.{IsValid};
ghost use Rattle.dm_boot.specs.Boot.{boot_of, document_of};
ghost use Rattle.dm_explain.specs.Explained.{ExplainsBoot, ExplainsSchedule, IsLineSaid, IsToldValid, line_behind, unread_told};
ghost use Rattle.dm_explain.specs.Schedules.{directives_told, line_told};
ghost use Rattle.dm_explain.specs.SystemParts.{told_with_parts};
ghost use Rattle.dm_explain.specs.Told.{broken_told};

use crate::part::{Part, put, put_parts};
use crate::schedule::{put_directives, put_line};
use crate::system::put_system;
use crate::system_parts::put_system_parts;
use crate::told::put_broken;
use dm_boot::{BootError, BootRule, read_boot};
use dm_memory::of_toml::{DocumentError, table_from_slice};
use dm_memory::{NoMemory, from_slice};
use dm_onekernel::Boot;
use dm_schedule::{Directive, LineFault, ScheduleError, read_schedule};
use std::alloc::Global;
use toml::Value;
use toml::de::Error;

/// What is said of a boot file.
#[derive(Drop)]
pub enum BootTold {
    /// It gives this system.
    System {
        boot: Boot,
        text: Vec<u8>,
    },
    /// It breaks this rule, at the element of this place.
    Refused {
        rule: BootRule,
        place: u64,
        text: Vec<u8>,
    },
}

/// What is said of a schedule.
#[derive(Drop)]
pub enum ScheduleTold {
    /// It gives these directives.
    Directives {
        directives: Vec<Directive>,
        text: Vec<u8>,
    },
    /// Its first bad line, counted from 1, and what is wrong with it.
    Refused {
        line: u64,
        fault: LineFault,
        text: Vec<u8>,
    },
}

/// Why a file isn't a document: the line at which the reader says so, and its reason.
#[derive(Drop)]
struct Unread {
    line: Option<u64>,
    reason: Vec<u8>,
}

/// Says what a boot file says, or which rule it breaks.
#[tactic(auto, using(dm_boot::proofs::Documents::document_lemmas))]
pub fn explain_boot(alloc: Global, bytes: &[u8]) -> Result<BootTold, NoMemory>
    ensures explains { IfOk result (λ told. ExplainsBoot bytes.now told) }
    ensures valid { IfOk result IsToldValid }
{
    match table_from_slice(alloc, bytes) {
        Ok(table) => explain_top(alloc, bytes, &Value::Table(table)),
        Err(DocumentError::Unread) => explain_unread(alloc, bytes),
        Err(DocumentError::NoMemory(no)) => Err(no),
    }
}

/// The same of a file that is a document, with its top table.
fn explain_top(alloc: Global, bytes: &[u8], top: &Value) -> Result<BootTold, NoMemory>
    requires { option_map table (document_of bytes.now) ≡ Some (view top.now) }
    ensures explains { IfOk result (λ told. ExplainsBoot bytes.now told) }
    ensures valid { IfOk result IsToldValid }
{
    match read_boot(alloc, bytes) {
        Ok(boot) => explain_system(alloc, bytes, top, boot),
        Err(BootError::Refused { rule, place }) => explain_broken(alloc, bytes, top, rule, place),
        Err(BootError::NoMemory(no)) => Err(no),
    }
}

/// The same of a file that gives a system.
fn explain_system(
    alloc: Global,
    bytes: &[u8],
    top: &Value,
    boot: Boot,
) -> Result<BootTold, NoMemory>
    requires read { option_map table (document_of bytes.now) ≡ Some (view top.now) }
    requires says { boot_of bytes.now ≡ Ok boot }
    requires valid { IsValid boot }
    ensures explains { IfOk result (λ told. ExplainsBoot bytes.now told) }
    ensures valid { IfOk result IsToldValid }
{
    let text = system_text(alloc, &boot, top)?;
    Ok(BootTold::System { boot, text })
}

/// The same of a file that breaks this rule, at the element of this place.
fn explain_broken(
    alloc: Global,
    bytes: &[u8],
    top: &Value,
    rule: BootRule,
    place: u64,
) -> Result<BootTold, NoMemory>
    requires read { option_map table (document_of bytes.now) ≡ Some (view top.now) }
    requires refused { boot_of bytes.now ≡ Err (rule, place) }
    ensures explains { IfOk result (λ told. ExplainsBoot bytes.now told) }
    ensures valid { IfOk result IsToldValid }
{
    let text = broken_text(alloc, bytes, top, rule, place)?;
    Ok(BootTold::Refused { rule, place, text })
}

/// What a boot file says, and the parts of its system.
fn system_text(alloc: Global, boot: &Boot, top: &Value) -> Result<Vec<u8>, NoMemory>
    ensures { IfOk result (λ text. text.items ≡ told_with_parts boot.now (view top.now)) }
{
    let mut text = Vec::new(alloc);
    put_system(&mut text, boot, top)?;
    put_system_parts(alloc, &mut text, boot)?;
    Ok(text)
}

/// What is said of a rule that the element at a place breaks.
fn broken_text(
    alloc: Global,
    bytes: &[u8],
    top: &Value,
    rule: BootRule,
    place: u64,
) -> Result<Vec<u8>, NoMemory>
    ensures { IfOk result (λ text. text.items ≡ broken_told bytes.now rule place (view top.now)) }
{
    let mut text = Vec::new(alloc);
    put_broken(alloc, &mut text, bytes, top, rule, place)?;
    Ok(text)
}

/// The same of a file that isn't one.
#[tactic(auto, unfolding(dm_boot::specs::Boot::boot_of))]
fn explain_unread(alloc: Global, bytes: &[u8]) -> Result<BootTold, NoMemory>
    requires { document_of bytes.now ≡ None }
    ensures explains { IfOk result (λ told. ExplainsBoot bytes.now told) }
    ensures valid { IfOk result IsToldValid }
{
    let unread = why_unread(alloc, bytes)?;
    let text = unread_text(alloc, &unread)?;
    Ok(BootTold::Refused {
        rule: BootRule::Document,
        place: 0,
        text,
    })
}

/// The line at which the reader says that a file isn't a document, and why; no line where it doesn't, as it reads once more for this
/// and may lack memory.
fn why_unread(alloc: Global, bytes: &[u8]) -> Result<Unread, NoMemory>
    ensures { IfOk result (λ u. IsLineSaid bytes.now u.line) }
{
    match toml::table_from_slice(alloc, bytes) {
        Ok(_) => Ok(Unread {
            line: None,
            reason: Vec::new(alloc),
        }),
        Err(why) => unread_for(alloc, bytes, &why),
    }
}

/// The same, as the reader says.
fn unread_for(alloc: Global, bytes: &[u8], why: &Error) -> Result<Unread, NoMemory>
    requires { IsWithin bytes.now why.now }
    ensures { IfOk result (λ u. IsLineSaid bytes.now u.line) }
{
    let reason = from_slice(alloc, why.message().as_bytes())?;
    Ok(Unread {
        line: line_said(bytes, why),
        reason,
    })
}

/// The line at which the reader says that it stopped.
fn line_said(bytes: &[u8], why: &Error) -> Option<u64>
    requires { IsWithin bytes.now why.now }
    ensures { IsLineSaid bytes.now result }
{
    match why.span() {
        Some(range) => Some(line_behind(&bytes[..range.start])),
        None => None,
    }
}

/// The line of what stands behind these bytes.
fn line_behind(before: &[u8]) -> u64
    ensures { result ≡ line_behind before.now }
{
    let mut count = 1;
    for byte in before {
        if *byte == b'\n' {
            count += 1;
        }
    }
    count
}

/// What is said of a file that isn't a document.
fn unread_text(alloc: Global, unread: &Unread) -> Result<Vec<u8>, NoMemory>
    ensures { IfOk result (λ text. text.items ≡ unread_told unread.now.line unread.now.reason.items) }
{
    let mut text = Vec::new(alloc);
    put_unread(&mut text, unread.line, unread.reason.as_slice())?;
    Ok(text)
}

/// Writes that a file isn't a document, at which line that shows, and why.
fn put_unread(into: &mut Vec<u8>, line: Option<u64>, reason: &[u8]) -> Result<(), NoMemory>
    ensures { OnOk result (into.new.items ≡ into.old.items ++ unread_told line reason.now) }
{
    match line {
        Some(line) => put_parts(
            into,
            &[
                Part::Text("rule 1: no document, as line "),
                Part::Count(line),
                Part::Text(" shows: "),
                Part::Line(reason),
                Part::Text("\n"),
            ],
        ),
        None => put(into, "rule 1: no document\n"),
    }
}

/// Says what a schedule for so many machines says, or which line is refused.
pub fn explain_schedule(alloc: Global, bytes: &[u8], machines: u8) -> Result<ScheduleTold, NoMemory>
    ensures { IfOk result (λ told. ExplainsSchedule bytes.now machines told) }
{
    match read_schedule(alloc, bytes, machines) {
        Ok(directives) => {
            let text = directives_text(alloc, directives.as_slice())?;
            Ok(ScheduleTold::Directives { directives, text })
        }
        Err(ScheduleError::Refused { line, fault }) => {
            let text = line_text(alloc, bytes, machines, line, fault)?;
            Ok(ScheduleTold::Refused { line, fault, text })
        }
        Err(ScheduleError::NoMemory(no)) => Err(no),
    }
}

/// What is said of directives.
fn directives_text(alloc: Global, directives: &[Directive]) -> Result<Vec<u8>, NoMemory>
    ensures { IfOk result (λ text. text.items ≡ directives_told directives.now) }
{
    let mut text = Vec::new(alloc);
    put_directives(&mut text, directives)?;
    Ok(text)
}

/// What is said of a line that is refused.
fn line_text(
    alloc: Global,
    bytes: &[u8],
    machines: u8,
    line: u64,
    fault: LineFault,
) -> Result<Vec<u8>, NoMemory>
    ensures { IfOk result (λ text. text.items ≡ line_told bytes.now machines line fault) }
{
    let mut text = Vec::new(alloc);
    put_line(&mut text, bytes, machines, line, fault)?;
    Ok(text)
}
