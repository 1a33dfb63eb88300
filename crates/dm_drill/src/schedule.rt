//! Directives, written as a schedule has them.
ghost use Rattle.std.specs.Prelude.{◌≡◌, ◌++◌, OnOk, codes};
ghost use Rattle.std.specs.Fmt.{decimal};
ghost use Rattle.dm_drill.specs.Schedules.{SchedulesAreRead, directive_text, schedule_text};

use crate::summary::write_number;
use dm_line::line::Line;
use dm_memory::{NoMemory, extend_from_slice};
use dm_schedule::Directive;
use dm_text::text::write_line;

/// Writes directives, a line each, at the end of a text.
pub fn write_schedule(directives: &[Directive], into: &mut Vec<u8>) -> Result<(), NoMemory>
    ensures { OnOk result (into.new.items ≡ into.old.items ++ schedule_text directives.now) }
{
    for directive in directives {
        write_directive(directive, into)?;
    }
    Ok(())
}

/// Writes a directive.
fn write_directive(directive: &Directive, into: &mut Vec<u8>) -> Result<(), NoMemory>
    ensures { OnOk result (into.new.items ≡ into.old.items ++ directive_text directive.now) }
{
    match *directive {
        Directive::One(step) => write_line(&Line::Head(step), into),
        Directive::Round => write_alone(b"round\n", into),
        Directive::Spin(n) => write_counted(b"spin ", n, into),
        Directive::Settle => write_alone(b"settle\n", into),
        Directive::Rest(n) => write_counted(b"rest ", n, into),
    }
}

/// Writes a directive that is a word alone.
fn write_alone(line: &[u8], into: &mut Vec<u8>) -> Result<(), NoMemory>
    ensures { OnOk result (into.new.items ≡ into.old.items ++ line.now) }
{
    extend_from_slice(into, line)?;
    Ok(())
}

/// Writes a directive that says how often.
fn write_counted(word: &[u8], n: u32, into: &mut Vec<u8>) -> Result<(), NoMemory>
    ensures { OnOk result (into.new.items ≡ into.old.items ++ (word.now ++ decimal n ++ codes "\n")) }
{
    extend_from_slice(into, word)?;
    write_number(u64::from(n), into)?;
    extend_from_slice(into, b"\n")?;
    Ok(())
}

/// A schedule that is written so, of directives that one can have, is read as these directives.
pub fn schedules_are_read()
    ensures { SchedulesAreRead }
{}
