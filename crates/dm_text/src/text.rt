//! Writing lines, a row a line.
ghost use Rattle.std.specs.Prelude.{◌≡◌, ◌+◌, ◌≤◌, ◌∷◌, ◌++◌, [], IfOk, OnErr, OnOk, codes, length, take, vec_len};
ghost use Rattle.std.specs.Fmt.{decimal};
ghost use Rattle.std.specs.List.{All};
ghost use Rattle.dm_line.specs.declared.line.Line.TheVariants as line;
ghost use Rattle.dm_text.specs.Fits.{LineFits};
ghost use Rattle.dm_text.specs.Text.{end_text, spaced, stage_word, text, text_of_ends, text_of_lines};
ghost use Rattle.dm_text.specs.Written.{load_words};

use crate::back::line_fits;
use crate::ends::put_end;
use crate::labels::{put_head, put_label};
use crate::rows::{
    put_alone, put_machine, put_machine_number, put_message, put_message_number, put_pair_number,
    put_process, put_process_number, put_process_room, put_routed, put_sent_on,
};
use crate::within::{
    LINE_ROOM, end_line, make_room, put_bytes, put_spaced_number, put_spaced_pair, put_spaced_pid,
    put_spaced_word,
};
use dm_line::end_line::EndLine;
use dm_line::line::{Line, Load, Stage};
use dm_link::Pid;
use dm_memory::NoMemory;
use std::slice::from_ref;

/// The number of a step of a migration.
fn stage_name(stage: Stage) -> &'static str
    ensures { result.now ≡ stage_word stage }
{
    match stage {
        Stage::Frozen => "1",
        Stage::Asked => "2",
        Stage::Accepted => "3",
        Stage::StateTaken => "4",
        Stage::MemoryTaken => "5",
        Stage::Left => "7",
        Stage::Restarted => "8",
    }
}

/// Puts what a packet carries.
#[inline(always)]
fn put_load(room: &mut [u8], at: usize, load: Load) -> usize
    requires { at + 26 ≤ length room.old }
    ensures text { take result room.new ≡ take at room.old ++ spaced (load_words load) }
    ensures at { result ≤ at + 26 }
{
    match load {
        Load::Data(n) => {
            let named = put_bytes(room, at, b" data");
            put_spaced_number(room, named, u64::from(n))
        }
        Load::Ack(n) => {
            let named = put_bytes(room, at, b" ack");
            put_spaced_number(room, named, u64::from(n))
        }
    }
}

/// Puts the line of a packet.
#[inline(always)]
fn put_packet(room: &mut [u8], at: usize, from: u8, to: u8, k: u64, load: Load) -> usize
    requires { at + LINE_ROOM ≤ length room.old }
    ensures text { take result room.new ≡ take at room.old ++ text (line.Packet from to k load) }
    ensures within { result ≤ length room.old }
{
    let at = put_bytes(room, at, b"packet");
    let at = put_spaced_pair(room, at, from, to);
    let at = put_spaced_number(room, at, k);
    let at = put_load(room, at, load);
    end_line(room, at)
}

/// Puts the line of a step of a migration.
#[inline(always)]
fn put_stage(room: &mut [u8], at: usize, stage: Stage, pid: Pid) -> usize
    requires { at + LINE_ROOM ≤ length room.old }
    ensures text { take result room.new ≡ take at room.old ++ text (line.Migration stage pid) }
    ensures within { result ≤ length room.old }
{
    let at = put_bytes(room, at, b"step");
    let at = put_spaced_word(room, at, stage_name(stage));
    let at = put_spaced_pid(room, at, pid);
    end_line(room, at)
}

/// Puts a line.
#[inline(always)]
fn put_text(room: &mut [u8], at: usize, line: &Line) -> usize
    requires { at + LINE_ROOM ≤ length room.old }
    ensures text { take result room.new ≡ take at room.old ++ text line.now }
    ensures within { result ≤ length room.old }
{
    match *line {
        Line::Head(ref step) => put_head(room, at, step),
        Line::Idle(m) => put_machine(room, at, b"idle", m),
        Line::Label(ref label) => put_label(room, at, label),
        Line::Put {
            from,
            to,
            id,
            kind,
            receiver,
        } => put_routed(room, at, from, to, id, kind, receiver),
        Line::Packet { from, to, k, load } => put_packet(room, at, from, to, k, load),
        Line::Taken { from, to, n } => put_pair_number(room, at, b"taken", from, to, u64::from(n)),
        Line::Old { from, to, n } => put_pair_number(room, at, b"old", from, to, u64::from(n)),
        Line::Early { from, to, n } => put_pair_number(room, at, b"early", from, to, u64::from(n)),
        Line::Acked { from, to, n } => put_pair_number(room, at, b"acked", from, to, u64::from(n)),
        Line::Nothing => put_alone(room, at, b"none"),
        Line::Resent { machine, count } => put_machine_number(room, at, b"resent", machine, count),
        Line::Queued(id) => put_message(room, at, b"queued", id),
        Line::Held(id) => put_message(room, at, b"held", id),
        Line::Forwarded { id, to } => put_message_number(room, at, b"forwarded", id, u32::from(to)),
        Line::Updated { id, count } => put_message_number(room, at, b"updated", id, count),
        Line::Buried { id, count } => put_message_number(room, at, b"buried", id, count),
        Line::Migration { step, pid } => put_stage(room, at, step, pid),
        Line::SentOn { pid, count } => put_sent_on(room, at, pid, count),
        Line::Called { pid, count } => put_process_number(room, at, b"called", pid, count),
        Line::Lacks {
            pid,
            free_slots,
            free_blocks,
        } => put_process_room(room, at, b"lacks", pid, free_slots, free_blocks),
        Line::Stays(pid) => put_process(room, at, b"stays", pid),
        Line::Here(id) => put_message(room, at, b"here", id),
        Line::NoMove(id) => put_message(room, at, b"nomove", id),
        Line::Stale(id) => put_message(room, at, b"stale", id),
        Line::Proto(id) => put_message(room, at, b"proto", id),
        Line::NoChild(pid) => put_process(room, at, b"nochild", pid),
        Line::NoCall(pid) => put_process(room, at, b"nocall", pid),
        Line::Away => put_alone(room, at, b"away"),
    }
}

/// Puts lines behind a place of a page, one after another, and says where they end. The page becomes longer where it has to.
fn put_lines(lines: &[Line], page: &mut Vec<u8>, start: usize) -> Result<usize, NoMemory>
    requires { start ≤ vec_len page.old }
    ensures written { IfOk result (λ end. take end page.new.items ≡ take start page.old.items ++ text_of_lines lines.now) }
    ensures within { IfOk result (λ end. end ≤ vec_len page.new) }
    ensures same { take start page.new.items ≡ take start page.old.items }
    ensures fits { OnOk result (All LineFits lines.now) }
{
    let mut at = start;
    for line in lines {
        line_fits(line);
        make_room(page, at)?;
        at = put_text(page.as_mut_slice(), at, line);
    }
    Ok(at)
}

/// Writes a line, with its line feed, at the end of a text. Want of memory leaves the text as it was.
pub fn write_line(line: &Line, into: &mut Vec<u8>) -> Result<(), NoMemory>
    ensures written { OnOk result (into.new.items ≡ into.old.items ++ text line.now) }
    ensures same { OnErr result (into.new.items ≡ into.old.items) }
{
    write_lines(from_ref(line), into)
}

/// Writes lines, one after another, at the end of a text. Want of memory leaves the text as it was.
pub fn write_lines(lines: &[Line], into: &mut Vec<u8>) -> Result<(), NoMemory>
    ensures written { OnOk result (into.new.items ≡ into.old.items ++ text_of_lines lines.now) }
    ensures same { OnErr result (into.new.items ≡ into.old.items) }
{
    let start = into.len();
    match put_lines(lines, into, start) {
        Ok(end) => {
            into.truncate(end);
            Ok(())
        }
        Err(lack) => {
            into.truncate(start);
            Err(lack)
        }
    }
}

/// Writes lines over a page, one after another from its start, and says where their text ends. What the page held goes, and
/// what stands behind that place has no meaning.
pub fn write_over(lines: &[Line], page: &mut Vec<u8>) -> Result<usize, NoMemory>
    ensures written { IfOk result (λ end. take end page.new.items ≡ text_of_lines lines.now) }
    ensures within { IfOk result (λ end. end ≤ vec_len page.new) }
    ensures fits { OnOk result (All LineFits lines.now) }
{
    put_lines(lines, page, 0)
}

/// Writes a line at the end of a run, with its line feed, at the end of a text. Want of memory leaves the text as it was.
pub fn write_end(end: &EndLine, into: &mut Vec<u8>) -> Result<(), NoMemory>
    ensures written { OnOk result (into.new.items ≡ into.old.items ++ end_text end.now) }
    ensures same { OnErr result (into.new.items ≡ into.old.items) }
{
    let start = into.len();
    let written = put_end(into, end);
    if written.is_err() {
        into.truncate(start);
    }
    written
}

/// Writes the lines at the end of a run, one after another, at the end of a text. Want of memory leaves the text as it was.
pub fn write_ends(ends: &[EndLine], into: &mut Vec<u8>) -> Result<(), NoMemory>
    ensures written { OnOk result (into.new.items ≡ into.old.items ++ text_of_ends ends.now) }
    ensures same { OnErr result (into.new.items ≡ into.old.items) }
{
    let len = into.len();
    for end in ends {
        if let Err(lack) = write_end(end, into) {
            into.truncate(len);
            return Err(lack);
        }
    }
    Ok(())
}
