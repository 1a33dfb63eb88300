//! Lines by their shapes: a name, and so many words. Each has room before it is put.
ghost use Rattle.std.specs.Prelude.{◌≡◌, ◌+◌, ◌≤◌, ◌∷◌, ◌++◌, [], codes, length, take};
ghost use Rattle.std.specs.Fmt.{decimal};
ghost use Rattle.dm_message.specs.Kinds.{word_of};
ghost use Rattle.dm_message.specs.Outcomes.{code_of_outcome};
ghost use Rattle.dm_onekernel.specs.Codes.{reply_code};
ghost use Rattle.dm_text.specs.Text.{spelled_line};
ghost use Rattle.dm_text.specs.Words.{id_word, pid_word};

use crate::within::{
    LINE_ROOM, end_line, put_bytes, put_spaced_id, put_spaced_number, put_spaced_pair,
    put_spaced_pid, put_spaced_word,
};
use dm_link::Pid;
use dm_message::{MessageKind, MsgId, Outcome};
use dm_onekernel::Reply;

/// Puts a line of a name alone.
#[inline(always)]
pub(crate) fn put_alone<const N: usize>(room: &mut [u8], at: usize, name: &[u8; N]) -> usize
    requires short { N ≤ 16 }
    requires room { at + LINE_ROOM ≤ length room.old }
    ensures text { take result room.new ≡ take at room.old ++ spelled_line (name.now ∷ []) }
    ensures within { result ≤ length room.old }
{
    let at = put_bytes(room, at, name);
    end_line(room, at)
}

/// Puts a line of a machine.
#[inline(always)]
pub(crate) fn put_machine<const N: usize>(
    room: &mut [u8],
    at: usize,
    name: &[u8; N],
    m: u8,
) -> usize
    requires short { N ≤ 16 }
    requires room { at + LINE_ROOM ≤ length room.old }
    ensures text { take result room.new ≡ take at room.old ++ spelled_line (name.now ∷ decimal m ∷ []) }
    ensures within { result ≤ length room.old }
{
    let at = put_bytes(room, at, name);
    let at = put_spaced_number(room, at, u64::from(m));
    end_line(room, at)
}

/// Puts a line of a process.
#[inline(always)]
pub(crate) fn put_process<const N: usize>(
    room: &mut [u8],
    at: usize,
    name: &[u8; N],
    pid: Pid,
) -> usize
    requires short { N ≤ 16 }
    requires room { at + LINE_ROOM ≤ length room.old }
    ensures text { take result room.new ≡ take at room.old ++ spelled_line (name.now ∷ pid_word pid ∷ []) }
    ensures within { result ≤ length room.old }
{
    let at = put_bytes(room, at, name);
    let at = put_spaced_pid(room, at, pid);
    end_line(room, at)
}

/// Puts a line of a message.
#[inline(always)]
pub(crate) fn put_message<const N: usize>(
    room: &mut [u8],
    at: usize,
    name: &[u8; N],
    id: MsgId,
) -> usize
    requires short { N ≤ 16 }
    requires room { at + LINE_ROOM ≤ length room.old }
    ensures text { take result room.new ≡ take at room.old ++ spelled_line (name.now ∷ id_word id ∷ []) }
    ensures within { result ≤ length room.old }
{
    let at = put_bytes(room, at, name);
    let at = put_spaced_id(room, at, id);
    end_line(room, at)
}

/// Puts a line of a process and a number.
#[inline(always)]
pub(crate) fn put_process_number<const N: usize>(
    room: &mut [u8],
    at: usize,
    name: &[u8; N],
    pid: Pid,
    n: u32,
) -> usize
    requires short { N ≤ 16 }
    requires room { at + LINE_ROOM ≤ length room.old }
    ensures text { take result room.new ≡ take at room.old ++ spelled_line (name.now ∷ pid_word pid ∷ decimal n ∷ []) }
    ensures within { result ≤ length room.old }
{
    let at = put_bytes(room, at, name);
    let at = put_spaced_pid(room, at, pid);
    let at = put_spaced_number(room, at, u64::from(n));
    end_line(room, at)
}

/// Puts a line of a process and a message.
#[inline(always)]
pub(crate) fn put_process_message<const N: usize>(
    room: &mut [u8],
    at: usize,
    name: &[u8; N],
    pid: Pid,
    id: MsgId,
) -> usize
    requires short { N ≤ 16 }
    requires room { at + LINE_ROOM ≤ length room.old }
    ensures text { take result room.new ≡ take at room.old ++ spelled_line (name.now ∷ pid_word pid ∷ id_word id ∷ []) }
    ensures within { result ≤ length room.old }
{
    let at = put_bytes(room, at, name);
    let at = put_spaced_pid(room, at, pid);
    let at = put_spaced_id(room, at, id);
    end_line(room, at)
}

/// Puts a line of a message and a number.
#[inline(always)]
pub(crate) fn put_message_number<const N: usize>(
    room: &mut [u8],
    at: usize,
    name: &[u8; N],
    id: MsgId,
    n: u32,
) -> usize
    requires short { N ≤ 16 }
    requires room { at + LINE_ROOM ≤ length room.old }
    ensures text { take result room.new ≡ take at room.old ++ spelled_line (name.now ∷ id_word id ∷ decimal n ∷ []) }
    ensures within { result ≤ length room.old }
{
    let at = put_bytes(room, at, name);
    let at = put_spaced_id(room, at, id);
    let at = put_spaced_number(room, at, u64::from(n));
    end_line(room, at)
}

/// Puts a line of a machine and a number.
#[inline(always)]
pub(crate) fn put_machine_number<const N: usize>(
    room: &mut [u8],
    at: usize,
    name: &[u8; N],
    m: u8,
    n: u32,
) -> usize
    requires short { N ≤ 16 }
    requires room { at + LINE_ROOM ≤ length room.old }
    ensures text { take result room.new ≡ take at room.old ++ spelled_line (name.now ∷ decimal m ∷ decimal n ∷ []) }
    ensures within { result ≤ length room.old }
{
    let at = put_bytes(room, at, name);
    let at = put_spaced_number(room, at, u64::from(m));
    let at = put_spaced_number(room, at, u64::from(n));
    end_line(room, at)
}

/// Puts a line of two machines and a number.
#[inline(always)]
pub(crate) fn put_pair_number<const N: usize>(
    room: &mut [u8],
    at: usize,
    name: &[u8; N],
    a: u8,
    b: u8,
    n: u64,
) -> usize
    requires short { N ≤ 16 }
    requires room { at + LINE_ROOM ≤ length room.old }
    ensures text { take result room.new ≡ take at room.old ++ spelled_line (name.now ∷ decimal a ∷ decimal b ∷ decimal n ∷ []) }
    ensures within { result ≤ length room.old }
{
    let at = put_bytes(room, at, name);
    let at = put_spaced_pair(room, at, a, b);
    let at = put_spaced_number(room, at, n);
    end_line(room, at)
}

/// Puts a line of a process and what is free.
#[inline(always)]
pub(crate) fn put_process_room<const N: usize>(
    room: &mut [u8],
    at: usize,
    name: &[u8; N],
    pid: Pid,
    slots: u8,
    blocks: u16,
) -> usize
    requires short { N ≤ 16 }
    requires room { at + LINE_ROOM ≤ length room.old }
    ensures text { take result room.new ≡ take at room.old ++ spelled_line (name.now ∷ pid_word pid ∷ decimal slots ∷ decimal blocks ∷ []) }
    ensures within { result ≤ length room.old }
{
    let at = put_bytes(room, at, name);
    let at = put_spaced_pid(room, at, pid);
    let at = put_spaced_number(room, at, u64::from(slots));
    let at = put_spaced_number(room, at, u64::from(blocks));
    end_line(room, at)
}

/// Puts a line of a message and what is free.
#[inline(always)]
pub(crate) fn put_message_room<const N: usize>(
    room: &mut [u8],
    at: usize,
    name: &[u8; N],
    id: MsgId,
    slots: u8,
    blocks: u16,
) -> usize
    requires short { N ≤ 16 }
    requires room { at + LINE_ROOM ≤ length room.old }
    ensures text { take result room.new ≡ take at room.old ++ spelled_line (name.now ∷ id_word id ∷ decimal slots ∷ decimal blocks ∷ []) }
    ensures within { result ≤ length room.old }
{
    let at = put_bytes(room, at, name);
    let at = put_spaced_id(room, at, id);
    let at = put_spaced_number(room, at, u64::from(slots));
    let at = put_spaced_number(room, at, u64::from(blocks));
    end_line(room, at)
}

/// Puts the line of a call.
#[inline(always)]
pub(crate) fn put_call(room: &mut [u8], at: usize, pid: Pid, n: u8, reply: Reply) -> usize
    requires { at + LINE_ROOM ≤ length room.old }
    ensures text { take result room.new ≡ take at room.old ++ spelled_line (codes "call" ∷ pid_word pid ∷ decimal n ∷ decimal (reply_code reply) ∷ []) }
    ensures within { result ≤ length room.old }
{
    let at = put_bytes(room, at, b"call");
    let at = put_spaced_pid(room, at, pid);
    let at = put_spaced_number(room, at, u64::from(n));
    let at = put_spaced_number(room, at, u64::from(reply.code()));
    end_line(room, at)
}

/// Puts the line of a refused receive.
#[inline(always)]
pub(crate) fn put_refuse(room: &mut [u8], at: usize, pid: Pid, id: MsgId, reply: Reply) -> usize
    requires { at + LINE_ROOM ≤ length room.old }
    ensures text { take result room.new ≡ take at room.old ++ spelled_line (codes "refuse" ∷ pid_word pid ∷ id_word id ∷ decimal (reply_code reply) ∷ []) }
    ensures within { result ≤ length room.old }
{
    let at = put_bytes(room, at, b"refuse");
    let at = put_spaced_pid(room, at, pid);
    let at = put_spaced_id(room, at, id);
    let at = put_spaced_number(room, at, u64::from(reply.code()));
    end_line(room, at)
}

/// Puts the line of a process that was made.
#[inline(always)]
pub(crate) fn put_created(room: &mut [u8], at: usize, id: MsgId, pid: Pid) -> usize
    requires { at + LINE_ROOM ≤ length room.old }
    ensures text { take result room.new ≡ take at room.old ++ spelled_line (codes "created" ∷ id_word id ∷ pid_word pid ∷ []) }
    ensures within { result ≤ length room.old }
{
    let at = put_bytes(room, at, b"created");
    let at = put_spaced_id(room, at, id);
    let at = put_spaced_pid(room, at, pid);
    end_line(room, at)
}

/// Puts the line of a request to move that is answered.
#[inline(always)]
pub(crate) fn put_answered(room: &mut [u8], at: usize, id: MsgId, outcome: Outcome) -> usize
    requires { at + LINE_ROOM ≤ length room.old }
    ensures text { take result room.new ≡ take at room.old ++ spelled_line (codes "answered" ∷ id_word id ∷ decimal (code_of_outcome outcome) ∷ []) }
    ensures within { result ≤ length room.old }
{
    let at = put_bytes(room, at, b"answered");
    let at = put_spaced_id(room, at, id);
    let at = put_spaced_number(room, at, u64::from(outcome.code()));
    end_line(room, at)
}

/// Puts the line of a message that is routed.
#[inline(always)]
pub(crate) fn put_routed(
    room: &mut [u8],
    at: usize,
    a: u8,
    b: u8,
    id: MsgId,
    kind: MessageKind,
    pid: Pid,
) -> usize
    requires { at + LINE_ROOM ≤ length room.old }
    ensures text { take result room.new ≡ take at room.old ++ spelled_line
        (codes "put" ∷ decimal a ∷ decimal b ∷ id_word id ∷ word_of kind ∷ pid_word pid ∷ []) }
    ensures within { result ≤ length room.old }
{
    let at = put_bytes(room, at, b"put");
    let at = put_spaced_pair(room, at, a, b);
    let at = put_spaced_id(room, at, id);
    let at = put_spaced_word(room, at, kind.word());
    let at = put_spaced_pid(room, at, pid);
    end_line(room, at)
}

/// Puts the line of step 6 of a migration.
#[inline(always)]
pub(crate) fn put_sent_on(room: &mut [u8], at: usize, pid: Pid, n: u32) -> usize
    requires { at + LINE_ROOM ≤ length room.old }
    ensures text { take result room.new ≡ take at room.old ++ spelled_line (codes "step" ∷ codes "6" ∷ pid_word pid ∷ decimal n ∷ []) }
    ensures within { result ≤ length room.old }
{
    let at = put_bytes(room, at, b"step 6");
    let at = put_spaced_pid(room, at, pid);
    let at = put_spaced_number(room, at, u64::from(n));
    end_line(room, at)
}
