//! The heads of groups and the steps of the kernel without machines, a row a line. Each has room before it is put.
ghost use Rattle.std.specs.Prelude.{◌≡◌, ◌+◌, ◌≤◌, ◌++◌, length, take};
ghost use Rattle.dm_line.specs.declared.line.Line.TheVariants as line;
ghost use Rattle.dm_text.specs.Text.{text};

use crate::rows::{
    put_answered, put_call, put_created, put_machine, put_message, put_message_room,
    put_pair_number, put_process, put_process_message, put_process_number, put_refuse,
};
use crate::within::LINE_ROOM;
use dm_onekernel::Label;
use dm_schedule::Step;

/// Puts the head of a group.
#[inline(always)]
pub(crate) fn put_head(room: &mut [u8], at: usize, step: &Step) -> usize
    requires { at + LINE_ROOM ≤ length room.old }
    ensures text { take result room.new ≡ take at room.old ++ text (line.Head step.now) }
    ensures within { result ≤ length room.old }
{
    match *step {
        Step::Turn(m) => put_machine(room, at, b"turn", m),
        Step::Tick(m) => put_machine(room, at, b"tick", m),
        Step::Deliver { a, b, k } => put_pair_number(room, at, b"deliver", a, b, k),
        Step::Migrate { pid, to } => put_process_number(room, at, b"migrate", pid, u32::from(to)),
        Step::CallOff { pid, at: on } => put_process_number(
            room,
            at,
            b"calloff",
            pid,
            u32::from(on),
        ),
    }
}

/// Puts a step of the kernel without machines.
#[inline(always)]
pub(crate) fn put_label(room: &mut [u8], at: usize, label: &Label) -> usize
    requires { at + LINE_ROOM ≤ length room.old }
    ensures text { take result room.new ≡ take at room.old ++ text (line.Label label.now) }
    ensures within { result ≤ length room.old }
{
    match *label {
        Label::Ran { pid, count } => put_process_number(room, at, b"ran", pid, count),
        Label::Call { pid, number, reply } => put_call(room, at, pid, number, reply),
        Label::Send { pid, id } => put_process_message(room, at, b"send", pid, id),
        Label::Wait { pid } => put_process(room, at, b"wait", pid),
        Label::Out { pid, word } => put_process_number(room, at, b"out", pid, word),
        Label::End { pid, why } => put_process_number(room, at, b"end", pid, u32::from(why.code())),
        Label::Receive { pid, id } => put_process_message(room, at, b"receive", pid, id),
        Label::Refuse { pid, id, reply } => put_refuse(room, at, pid, id, reply),
        Label::Dropped { id } => put_message(room, at, b"dropped", id),
        Label::Served { id } => put_message(room, at, b"served", id),
        Label::Gone { id } => put_message(room, at, b"gone", id),
        Label::Took { id } => put_message(room, at, b"took", id),
        Label::Created { id, pid } => put_created(room, at, id, pid),
        Label::NoSpace {
            id,
            free_slots,
            free_blocks,
        } => { put_message_room(room, at, b"nospace", id, free_slots, free_blocks) }
        Label::Asked { id } => put_message(room, at, b"asked", id),
        Label::Answered { id, outcome } => put_answered(room, at, id, outcome),
    }
}
