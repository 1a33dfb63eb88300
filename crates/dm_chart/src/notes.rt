//! The notes, a row a line.
ghost use Rattle.std.specs.Prelude.{◌≡◌, [], ◌∷◌, ◌++◌, OnOk, codes};
ghost use Rattle.std.specs.Fmt.{decimal};
ghost use Rattle.dm_message.specs.Outcomes.{code_of_outcome};
ghost use Rattle.dm_onekernel.specs.Codes.{reply_code};
ghost use Rattle.dm_text.specs.Words.{id_word, pid_word};
ghost use Rattle.dm_chart.specs.Drawn.{draw_beside, draw_note};
ghost use Rattle.dm_chart.specs.Notes.{call_note, follow_note, label_note, note_of, resent_note, stage_words};

use crate::draw::put_beside;
use crate::frame::Place;
use crate::scan::{News, news_of};
use dm_line::line::{Line, Stage};
use dm_link::Pid;
use dm_memory::NoMemory;
use dm_message::{MsgId, Outcome};
use dm_onekernel::{Label, Reply};
use dm_text::word::Word::{Byte, Message, Name, Number, Process};

/// What is done.
const PLAIN: &str = "c0";

/// What comes of it: what is put out, what is made, what ends.
const RESULT: &str = "c1";

/// What is held, goes on or is dropped.
const HELD: &str = "c2";

/// Steps of a migration.
const STEP: &str = "c3";

/// Packets.
const PACKET: &str = "c4";

/// A note of a message.
fn note_message(
    into: &mut Vec<u8>,
    place: &Place<'_>,
    class: &'static str,
    name: &'static str,
    id: MsgId,
) -> Result<(), NoMemory>
    ensures { OnOk result (into.new.items ≡ into.old.items ++ draw_beside place.now.frame.now place.now.m place.now.row class.now (name.now ∷ id_word id ∷ [])) }
{
    put_beside(into, place, class, &[Name(name), Message(id)])
}

/// A note of a process.
fn note_process(
    into: &mut Vec<u8>,
    place: &Place<'_>,
    class: &'static str,
    name: &'static str,
    pid: Pid,
) -> Result<(), NoMemory>
    ensures { OnOk result (into.new.items ≡ into.old.items ++ draw_beside place.now.frame.now place.now.m place.now.row class.now (name.now ∷ pid_word pid ∷ [])) }
{
    put_beside(into, place, class, &[Name(name), Process(pid)])
}

/// A note of a number.
fn note_number(
    into: &mut Vec<u8>,
    place: &Place<'_>,
    class: &'static str,
    name: &'static str,
    n: u32,
) -> Result<(), NoMemory>
    ensures { OnOk result (into.new.items ≡ into.old.items ++ draw_beside place.now.frame.now place.now.m place.now.row class.now (name.now ∷ decimal n ∷ [])) }
{
    put_beside(into, place, class, &[Name(name), Number(n)])
}

/// A note of a packet that a machine has put.
fn note_packet(
    into: &mut Vec<u8>,
    place: &Place<'_>,
    name: &'static str,
    n: u32,
    from: u8,
) -> Result<(), NoMemory>
    ensures { OnOk result (into.new.items ≡ into.old.items ++
        draw_beside place.now.frame.now place.now.m place.now.row (codes "c4") (name.now ∷ decimal n ∷ codes " from machine " ∷ decimal from ∷ [])) }
{
    put_beside(
        into,
        place,
        PACKET,
        &[Name(name), Number(n), Name(" from machine "), Byte(from)],
    )
}

/// A note of what a process does with a message.
fn note_done(
    into: &mut Vec<u8>,
    place: &Place<'_>,
    class: &'static str,
    pid: Pid,
    does: &'static str,
    id: MsgId,
) -> Result<(), NoMemory>
    ensures { OnOk result (into.new.items ≡ into.old.items ++ draw_beside place.now.frame.now place.now.m place.now.row class.now (pid_word pid ∷ does.now ∷ id_word id ∷ [])) }
{
    put_beside(into, place, class, &[Process(pid), Name(does), Message(id)])
}

/// A note of what a process does with a number.
fn note_said(
    into: &mut Vec<u8>,
    place: &Place<'_>,
    class: &'static str,
    pid: Pid,
    does: &'static str,
    n: u32,
) -> Result<(), NoMemory>
    ensures { OnOk result (into.new.items ≡ into.old.items ++ draw_beside place.now.frame.now place.now.m place.now.row class.now (pid_word pid ∷ does.now ∷ decimal n ∷ [])) }
{
    put_beside(into, place, class, &[Process(pid), Name(does), Number(n)])
}

/// Writes the note of a line behind some others, of a machine, where it has one.
pub fn put_note(
    into: &mut Vec<u8>,
    place: &Place<'_>,
    before: &[Line],
    line: &Line,
) -> Result<(), NoMemory>
    ensures { OnOk result (into.new.items ≡ into.old.items ++ draw_note place.now.frame.now place.now.m place.now.row (note_of before.now line.now)) }
{
    match *line {
        Line::Head(_)
        | Line::Idle(_)
        | Line::Put { .. }
        | Line::Packet { .. }
        | Line::Taken { .. }
        | Line::Acked { .. }
        | Line::Nothing
        | Line::Queued(_)
        | Line::Proto(_) => Ok(()),
        Line::Label(label) => put_label_note(into, place, label),
        Line::Old { from, n, .. } => note_packet(into, place, "again: number ", n, from),
        Line::Early { from, n, .. } => note_packet(into, place, "early: number ", n, from),
        Line::Resent { count, .. } => put_resent(into, place, count),
        Line::Held(id) => note_message(into, place, HELD, "held: ", id),
        Line::Forwarded { id, to } => put_forwarded(into, place, id, to),
        Line::Updated { id, count } => put_follow(into, place, id, count, news_of(before, id)),
        Line::Buried { count, .. } => {
            note_number(
                into,
                place,
                HELD,
                "a process is forgotten, others told: ",
                count,
            )
        }
        Line::Migration { step, pid } => { note_process(into, place, STEP, stage_name(step), pid) }
        Line::SentOn { pid, count } => put_sent_on(into, place, pid, count),
        Line::Called { pid, count } => put_called(into, place, pid, count),
        Line::Lacks {
            pid,
            free_slots,
            free_blocks,
        } => put_lacks(into, place, pid, free_slots, free_blocks),
        Line::Stays(pid) => note_process(into, place, STEP, "stays: ", pid),
        Line::Here(id) => note_message(into, place, STEP, "is here already, ", id),
        Line::NoMove(id) => note_message(into, place, STEP, "has ended, ", id),
        Line::Stale(id) => note_message(into, place, PACKET, "too late: ", id),
        Line::NoChild(pid) => note_process(into, place, STEP, "no child: ", pid),
        Line::NoCall(pid) => note_process(into, place, STEP, "nothing to call off: ", pid),
        Line::Away => put_beside(into, place, STEP, &[Name("the manager is away")]),
    }
}

/// The note of a message that goes on.
fn put_forwarded(into: &mut Vec<u8>, place: &Place<'_>, id: MsgId, to: u8) -> Result<(), NoMemory>
    ensures { OnOk result (into.new.items ≡ into.old.items ++
        draw_beside place.now.frame.now place.now.m place.now.row (codes "c2") (codes "forwarded to machine " ∷ decimal to ∷ codes ": " ∷ id_word id ∷ [])) }
{
    put_beside(
        into,
        place,
        HELD,
        &[
            Name("forwarded to machine "),
            Byte(to),
            Name(": "),
            Message(id),
        ],
    )
}

/// The note of links that follow a process.
fn put_follow(
    into: &mut Vec<u8>,
    place: &Place<'_>,
    id: MsgId,
    count: u32,
    news: Option<News>,
) -> Result<(), NoMemory>
    ensures { OnOk result (into.new.items ≡ into.old.items ++ draw_note place.now.frame.now place.now.m place.now.row (follow_note id count news)) }
{
    match news {
        None => {
            put_beside(
                into,
                place,
                PLAIN,
                &[
                    Name("links that follow "),
                    Message(id),
                    Name(": "),
                    Number(count),
                ],
            )
        }
        Some(news) => {
            put_beside(
                into,
                place,
                PLAIN,
                &[
                    Name("links of "),
                    Process(news.whom),
                    Name(" follow "),
                    Process(news.of),
                    Name(" to machine "),
                    Byte(news.at),
                    Name(": "),
                    Number(count),
                ],
            )
        }
    }
}

/// The note of a tick that has something to send again.
fn put_resent(into: &mut Vec<u8>, place: &Place<'_>, count: u32) -> Result<(), NoMemory>
    ensures { OnOk result (into.new.items ≡ into.old.items ++ draw_note place.now.frame.now place.now.m place.now.row (resent_note count)) }
{
    if count == 0 {
        return Ok(());
    }
    note_number(into, place, PACKET, "sends again: ", count)
}

/// The words of a step of a migration.
fn stage_name(step: Stage) -> &'static str
    ensures { result.now ≡ stage_words step }
{
    match step {
        Stage::Frozen => "1 is frozen: ",
        Stage::Asked => "2 asks for room: ",
        Stage::Accepted => "3 has room: ",
        Stage::StateTaken => "4 state has come: ",
        Stage::MemoryTaken => "5 memory has come: ",
        Stage::Left => "7 has left: ",
        Stage::Restarted => "8 goes on: ",
    }
}

/// The note of step 6 of a migration.
fn put_sent_on(into: &mut Vec<u8>, place: &Place<'_>, pid: Pid, count: u32) -> Result<(), NoMemory>
    ensures { OnOk result (into.new.items ≡ into.old.items ++
        draw_beside place.now.frame.now place.now.m place.now.row (codes "c3") (codes "6 sends on " ∷ decimal count ∷ codes ": " ∷ pid_word pid ∷ [])) }
{
    put_beside(
        into,
        place,
        STEP,
        &[Name("6 sends on "), Number(count), Name(": "), Process(pid)],
    )
}

/// The note of a migration that is called off.
fn put_called(into: &mut Vec<u8>, place: &Place<'_>, pid: Pid, count: u32) -> Result<(), NoMemory>
    ensures { OnOk result (into.new.items ≡ into.old.items ++
        draw_beside place.now.frame.now place.now.m place.now.row (codes "c3") (codes "called off, sends back " ∷ decimal count ∷ codes ": " ∷ pid_word pid ∷ [])) }
{
    put_beside(
        into,
        place,
        STEP,
        &[
            Name("called off, sends back "),
            Number(count),
            Name(": "),
            Process(pid),
        ],
    )
}

/// The note of a process that can't come.
fn put_lacks(
    into: &mut Vec<u8>,
    place: &Place<'_>,
    pid: Pid,
    slots: u8,
    blocks: u16,
) -> Result<(), NoMemory>
    ensures { OnOk result (into.new.items ≡ into.old.items ++
        draw_beside place.now.frame.now place.now.m place.now.row (codes "c3")
        (codes "no room for " ∷ pid_word pid ∷ codes ": slots " ∷ decimal slots ∷ codes ", blocks " ∷ decimal blocks ∷ [])) }
{
    put_beside(
        into,
        place,
        STEP,
        &[
            Name("no room for "),
            Process(pid),
            Name(": slots "),
            Byte(slots),
            Name(", blocks "),
            Number(u32::from(blocks)),
        ],
    )
}

/// The note of a step of the kernel without machines.
fn put_label_note(into: &mut Vec<u8>, place: &Place<'_>, label: Label) -> Result<(), NoMemory>
    ensures { OnOk result (into.new.items ≡ into.old.items ++ draw_note place.now.frame.now place.now.m place.now.row (label_note label)) }
{
    match label {
        Label::Ran { .. } | Label::Send { .. } | Label::Took { .. } => Ok(()),
        Label::Wait { pid } => {
            put_beside(
                into,
                place,
                PLAIN,
                &[Process(pid), Name(" waits for a message")],
            )
        }
        Label::Call { pid, number, reply } => { put_call(into, place, pid, number, reply.code()) }
        Label::Out { pid, word } => note_said(into, place, RESULT, pid, " out ", word),
        Label::End { pid, why } => {
            note_said(
                into,
                place,
                RESULT,
                pid,
                " ends, why ",
                u32::from(why.code()),
            )
        }
        Label::Receive { pid, id } => { note_done(into, place, PLAIN, pid, " receives ", id) }
        Label::Refuse { pid, id, reply } => put_refuse(into, place, pid, id, reply),
        Label::Dropped { id } => note_message(into, place, HELD, "dropped ", id),
        Label::Served { id } => note_message(into, place, PLAIN, "served ", id),
        Label::Gone { id } => note_message(into, place, PLAIN, "gone, for ", id),
        Label::Created { pid, .. } => note_process(into, place, RESULT, "makes ", pid),
        Label::NoSpace {
            id,
            free_slots,
            free_blocks,
        } => put_no_space(into, place, id, free_slots, free_blocks),
        Label::Asked { id } => note_message(into, place, STEP, "is asked to move, ", id),
        Label::Answered { id, outcome } => put_answered(into, place, id, outcome),
    }
}

/// The note of a request to move that is answered.
fn put_answered(
    into: &mut Vec<u8>,
    place: &Place<'_>,
    id: MsgId,
    outcome: Outcome,
) -> Result<(), NoMemory>
    ensures { OnOk result (into.new.items ≡ into.old.items ++
        draw_beside place.now.frame.now place.now.m place.now.row (codes "c3") (codes "answers " ∷ id_word id ∷ codes ": " ∷ decimal (code_of_outcome outcome) ∷ [])) }
{
    put_beside(
        into,
        place,
        STEP,
        &[
            Name("answers "),
            Message(id),
            Name(": "),
            Byte(outcome.code()),
        ],
    )
}

/// The note of a call that was refused.
fn put_call(
    into: &mut Vec<u8>,
    place: &Place<'_>,
    pid: Pid,
    number: u8,
    code: u8,
) -> Result<(), NoMemory>
    ensures { OnOk result (into.new.items ≡ into.old.items ++ draw_note place.now.frame.now place.now.m place.now.row (call_note pid number code)) }
{
    if code == 0 {
        return Ok(());
    }
    put_beside(
        into,
        place,
        PLAIN,
        &[
            Process(pid),
            Name(" call "),
            Byte(number),
            Name(" refused: "),
            Byte(code),
        ],
    )
}

/// The note of a refused receive.
fn put_refuse(
    into: &mut Vec<u8>,
    place: &Place<'_>,
    pid: Pid,
    id: MsgId,
    reply: Reply,
) -> Result<(), NoMemory>
    ensures { OnOk result (into.new.items ≡ into.old.items ++
        draw_beside place.now.frame.now place.now.m place.now.row (codes "c0") (pid_word pid ∷ codes " is refused " ∷ id_word id ∷ codes ": " ∷ decimal (reply_code reply) ∷ [])) }
{
    put_beside(
        into,
        place,
        PLAIN,
        &[
            Process(pid),
            Name(" is refused "),
            Message(id),
            Name(": "),
            Byte(reply.code()),
        ],
    )
}

/// The note of a process that could not be made.
fn put_no_space(
    into: &mut Vec<u8>,
    place: &Place<'_>,
    id: MsgId,
    slots: u8,
    blocks: u16,
) -> Result<(), NoMemory>
    ensures { OnOk result (into.new.items ≡ into.old.items ++
        draw_beside place.now.frame.now place.now.m place.now.row (codes "c1") (codes "no room, for " ∷ id_word id ∷ codes ": slots " ∷ decimal slots ∷ codes ", blocks " ∷ decimal blocks ∷ [])) }
{
    put_beside(
        into,
        place,
        RESULT,
        &[
            Name("no room, for "),
            Message(id),
            Name(": slots "),
            Byte(slots),
            Name(", blocks "),
            Number(u32::from(blocks)),
        ],
    )
}
