//! Lines of a process that are steps of the kernel without machines.
ghost use Rattle.std.specs.Prelude.{◌≡◌};
ghost use Rattle.dm_text.specs.Reading.{pieces, read_id, read_pid};
ghost use Rattle.dm_check.specs.Classes.{is_id, names_pid, tells_call, tells_made, tells_reception, told_ran};

use dm_link::Pid;
use dm_message::MsgId;
use dm_reading::split;
use dm_shape::choice::is_one_of;
use dm_shape::names::{count, message, process};

/// Whether a word names this process.
fn is_pid(word: &[u8], pid: Pid) -> bool
    ensures { result ≡ names_pid (read_pid word.now) pid }
{
    match process(word) {
        None => false,
        Some(named) => named == pid,
    }
}

/// Whether a word names this message.
fn is_id(word: &[u8], id: MsgId) -> bool
    ensures { result ≡ is_id (read_id word.now) id }
{
    match message(word) {
        None => false,
        Some(named) => named == id,
    }
}

/// Whether a line tells of a call of this process that wasn't a receive that ended, or of its end.
pub(crate) fn tells_call(pid: Pid, line: &[u8]) -> bool
    ensures { result ≡ tells_call pid (pieces 32 line.now) }
{
    let (name, words) = split(line, b' ');
    match words {
        None => false,
        Some(words) => {
            let (first, _) = split(words, b' ');
            is_one_of(name, &["call", "send", "wait", "out", "end"]) && is_pid(first, pid)
        }
    }
}

/// Whether a line tells how a receive of this process ended with this message.
pub(crate) fn tells_reception(pid: Pid, id: MsgId, line: &[u8]) -> bool
    ensures { result ≡ tells_reception pid id (pieces 32 line.now) }
{
    let (name, words) = split(line, b' ');
    let Some(words) = words else {
        return false;
    };
    let (first, words) = split(words, b' ');
    let Some(words) = words else {
        return false;
    };
    let (second, _) = split(words, b' ');
    is_one_of(name, &["receive", "refuse"]) && is_pid(first, pid) && is_id(second, id)
}

/// Whether a line tells that a process was made, as this message asked.
pub(crate) fn tells_made(id: MsgId, line: &[u8]) -> bool
    ensures { result ≡ tells_made id (pieces 32 line.now) }
{
    let (name, words) = split(line, b' ');
    match words {
        None => false,
        Some(words) => {
            let (first, _) = split(words, b' ');
            name == "created".as_bytes() && is_id(first, id)
        }
    }
}

/// How many instructions a line tells that this process ran.
pub(crate) fn told_ran(pid: Pid, line: &[u8]) -> Option<u32>
    ensures { result ≡ told_ran pid (pieces 32 line.now) }
{
    let (name, words) = split(line, b' ');
    let (first, words) = split(words?, b' ');
    let (second, _) = split(words?, b' ');
    if name == "ran".as_bytes() && is_pid(first, pid) {
        count(second)
    } else {
        None
    }
}
