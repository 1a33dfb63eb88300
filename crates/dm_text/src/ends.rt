//! Writing the lines at the end of a run, a row a line.
ghost use Rattle.std.specs.Prelude.{◌≡◌, ◌∷◌, ◌++◌, [], OnErr, OnOk, codes, map};
ghost use Rattle.std.specs.Fmt.{decimal};
ghost use Rattle.dm_line.specs.declared.end_line.EndLine.TheVariants as end;
ghost use Rattle.dm_text.specs.Ends.{direction_word, go_word, kind_word, rights_word, standing_word};
ghost use Rattle.dm_text.specs.Text.{spaced, spelled_line};
ghost use Rattle.dm_text.specs.Words.{hex, pid_word};
ghost use Rattle.dm_text.specs.Written.{Keeps, doing_words, end_words, link_words, word_text};

use crate::word::Word::{Byte, Bytes, Message, Name, Number, Process};
use crate::word::{
    Word, put_begun, put_count, put_last, put_line, put_listed, put_numbers, put_words,
};
use dm_line::end_line::{Doing, EndLine, Standing};
use dm_link::{Area, Kind, Link, Pid};
use dm_memory::{NoMemory, push};
use dm_message::MsgId;
use dm_onekernel::Why;
use dm_process::Direction;

/// The word for how a process stands on a machine.
fn standing_name(standing: Standing) -> &'static str
    ensures { result.now ≡ standing_word standing }
{
    match standing {
        Standing::Here => "here",
        Standing::Leaving => "leaving",
        Standing::Arriving => "arriving",
    }
}

/// The word for which way a data move goes.
fn direction_name(dir: Direction) -> &'static str
    ensures { result.now ≡ direction_word dir }
{
    match dir {
        Direction::FromArea => "0",
        Direction::IntoArea => "1",
    }
}

/// The word for whether a process is stopped.
fn go_name(stopped: bool) -> &'static str
    ensures { result.now ≡ go_word stopped }
{
    if stopped { "stopped" } else { "go" }
}

/// The word for a kind of link.
fn kind_name(kind: Kind) -> &'static str
    ensures { result.now ≡ kind_word kind }
{
    match kind {
        Kind::General => "general",
        Kind::Reply => "reply",
    }
}

/// The word for the rights to read and to write.
fn rights_name(read: bool, write: bool) -> &'static str
    ensures { result.now ≡ rights_word read write }
{
    match (read, write) {
        (false, false) => "-",
        (true, false) => "r",
        (false, true) => "w",
        (true, true) => "rw",
    }
}

/// Writes the words of a link, each behind a space, and ends the line.
fn put_link(into: &mut Vec<u8>, link: &Link) -> Result<(), NoMemory>
    ensures ok { OnOk result (into.new.items ≡ into.old.items ++ spaced (link_words link.now)) }
    ensures err { OnErr result (Keeps into.old.items into.new.items) }
{
    let Area {
        base,
        len,
        read,
        write,
    } = link.area;
    put_words(
        into,
        &[
            Name(kind_name(link.kind)),
            Process(link.addr.pid),
            Name("at"),
            Byte(link.addr.at),
            Name("moves"),
            Number(link.addr.moves),
            Name("code"),
            Number(link.code),
            Name("channel"),
            Byte(link.channel),
            Name("area"),
            Number(base),
            Number(len),
            Name(rights_name(read, write)),
        ],
    )
}

/// Writes a line of a name, further words and a link.
pub fn put_linked(
    into: &mut Vec<u8>,
    name: &str,
    words: &[Word],
    link: &Link,
) -> Result<(), NoMemory>
    ensures ok { OnOk result (into.new.items ≡ into.old.items ++ spelled_line (name.now ∷ (map word_text words.now ++ link_words link.now))) }
    ensures err { OnErr result (Keeps into.old.items into.new.items) }
{
    put_begun(into, name, words)?;
    put_link(into, link)?;
    push(into, b'\n')?;
    Ok(())
}

/// Writes the line of a process's registers.
fn put_registers(into: &mut Vec<u8>, pid: Pid, r: &[u32; 16], pc: u32) -> Result<(), NoMemory>
    ensures ok { OnOk result (into.new.items ≡ into.old.items ++ spelled_line (end_words (end.Registers pid r.now pc))) }
    ensures err { OnErr result (Keeps into.old.items into.new.items) }
{
    put_begun(into, "registers", &[Process(pid)])?;
    put_numbers(into, r)?;
    put_last(into, &[Number(pc)])
}

/// Writes the words for what a process does, each behind a space.
fn put_doing(into: &mut Vec<u8>, doing: Doing) -> Result<(), NoMemory>
    ensures ok { OnOk result (into.new.items ≡ into.old.items ++ spaced (doing_words doing)) }
    ensures err { OnErr result (Keeps into.old.items into.new.items) }
{
    match doing {
        Doing::Ready => put_words(into, &[Name("ready")]),
        Doing::Waiting { mask, base, cap } => {
            put_words(
                into,
                &[Name("waiting"), Number(mask), Number(base), Number(cap)],
            )
        }
        Doing::Moving {
            dir,
            owner,
            base,
            own,
            left,
        } => {
            let dir = Name(direction_name(dir));
            let owner = Process(owner);
            put_words(
                into,
                &[
                    Name("moving"),
                    dir,
                    owner,
                    Number(base),
                    Number(own),
                    Number(left),
                ],
            )
        }
    }
}

/// Writes the line of a process that has not ended.
fn put_process(
    into: &mut Vec<u8>,
    front: [Word; 4],
    doing: Doing,
    back: [Word; 2],
) -> Result<(), NoMemory>
    ensures ok { OnOk result (into.new.items ≡ into.old.items ++ spelled_line
        (codes "process" ∷ (map word_text front.entry ++ (doing_words doing ++ map word_text back.entry)))) }
    ensures err { OnErr result (Keeps into.old.items into.new.items) }
{
    put_begun(into, "process", &front)?;
    put_doing(into, doing)?;
    put_last(into, &back)
}

/// Writes the line of a process that has not ended, of its place and of what it does.
fn put_living(
    into: &mut Vec<u8>,
    pid: Pid,
    at: u8,
    standing: Standing,
    doing: Doing,
    stopped: bool,
    sent: u32,
) -> Result<(), NoMemory>
    ensures ok { OnOk result (into.new.items ≡ into.old.items ++ spelled_line (end_words (end.Process pid at standing doing stopped sent))) }
    ensures err { OnErr result (Keeps into.old.items into.new.items) }
{
    let place = Name(standing_name(standing));
    let go = Name(go_name(stopped));
    put_process(
        into,
        [Process(pid), Name("at"), Byte(at), place],
        doing,
        [go, Number(sent)],
    )
}

/// Writes the line of a process that has ended.
fn put_ended(into: &mut Vec<u8>, pid: Pid, why: Why) -> Result<(), NoMemory>
    ensures ok { OnOk result (into.new.items ≡ into.old.items ++ spelled_line (end_words (end.Ended pid why))) }
    ensures err { OnErr result (Keeps into.old.items into.new.items) }
{
    put_line(
        into,
        "process",
        &[Process(pid), Name("ended"), Byte(why.code())],
    )
}

/// Writes the line of a block.
fn put_memory(into: &mut Vec<u8>, pid: Pid, block: u8, bytes: &[u8]) -> Result<(), NoMemory>
    ensures ok { OnOk result (into.new.items ≡ into.old.items ++ spelled_line (codes "memory" ∷ pid_word pid ∷ decimal block ∷ hex bytes.now ∷ [])) }
    ensures err { OnErr result (Keeps into.old.items into.new.items) }
{
    put_line(into, "memory", &[Process(pid), Byte(block), Bytes(bytes)])
}

/// Writes the line of a link of a process.
fn put_held_link(into: &mut Vec<u8>, pid: Pid, slot: u8, link: &Link) -> Result<(), NoMemory>
    ensures ok { OnOk result (into.new.items ≡ into.old.items ++ spelled_line (end_words (end.Link pid slot link.now))) }
    ensures err { OnErr result (Keeps into.old.items into.new.items) }
{
    put_linked(into, "link", &[Process(pid), Byte(slot)], link)
}

/// Writes the line of a child of the manager.
fn put_child(into: &mut Vec<u8>, number: u32, pid: Pid, at: u8) -> Result<(), NoMemory>
    ensures ok { OnOk result (into.new.items ≡ into.old.items ++ spelled_line (end_words (end.Child number pid at))) }
    ensures err { OnErr result (Keeps into.old.items into.new.items) }
{
    put_line(
        into,
        "child",
        &[Number(number), Process(pid), Name("at"), Byte(at)],
    )
}

/// Writes the line of a server.
fn put_server(into: &mut Vec<u8>, pid: Pid, sent: u32) -> Result<(), NoMemory>
    ensures ok { OnOk result (into.new.items ≡ into.old.items ++ spelled_line (end_words (end.Server pid sent))) }
    ensures err { OnErr result (Keeps into.old.items into.new.items) }
{
    put_line(into, "server", &[Process(pid), Number(sent)])
}

/// Writes the line of where a server stands.
fn put_place(into: &mut Vec<u8>, pid: Pid, at: u8, standing: Standing) -> Result<(), NoMemory>
    ensures ok { OnOk result (into.new.items ≡ into.old.items ++ spelled_line (end_words (end.Place pid at standing))) }
    ensures err { OnErr result (Keeps into.old.items into.new.items) }
{
    let place = Name(standing_name(standing));
    put_line(into, "place", &[Process(pid), Name("at"), Byte(at), place])
}

/// Writes the line of a message that waits for the manager.
fn put_pending(into: &mut Vec<u8>, id: MsgId) -> Result<(), NoMemory>
    ensures ok { OnOk result (into.new.items ≡ into.old.items ++ spelled_line (end_words (end.Pending id))) }
    ensures err { OnErr result (Keeps into.old.items into.new.items) }
{
    put_line(into, "pending", &[Message(id)])
}

/// Writes the line of a queue.
fn put_queue(into: &mut Vec<u8>, pid: Pid, ids: &[MsgId]) -> Result<(), NoMemory>
    ensures ok { OnOk result (into.new.items ≡ into.old.items ++ spelled_line (end_words (end.Queue pid ids.now))) }
    ensures err { OnErr result (Keeps into.old.items into.new.items) }
{
    put_listed(into, "queue", &[Process(pid)], ids)
}

/// Writes the line of the messages that wait for a migration.
fn put_holding(into: &mut Vec<u8>, m: u8, pid: Pid, ids: &[MsgId]) -> Result<(), NoMemory>
    ensures ok { OnOk result (into.new.items ≡ into.old.items ++ spelled_line (end_words (end.Holding m pid ids.now))) }
    ensures err { OnErr result (Keeps into.old.items into.new.items) }
{
    put_listed(into, "holding", &[Byte(m), Process(pid)], ids)
}

/// Writes the line of an inbox.
fn put_inbox(into: &mut Vec<u8>, m: u8, ids: &[MsgId]) -> Result<(), NoMemory>
    ensures ok { OnOk result (into.new.items ≡ into.old.items ++ spelled_line (end_words (end.Inbox m ids.now))) }
    ensures err { OnErr result (Keeps into.old.items into.new.items) }
{
    put_listed(into, "inbox", &[Byte(m)], ids)
}

/// Writes the line of what was routed and not taken.
fn put_stream(into: &mut Vec<u8>, a: u8, b: u8, ids: &[MsgId]) -> Result<(), NoMemory>
    ensures ok { OnOk result (into.new.items ≡ into.old.items ++ spelled_line (end_words (end.Stream a b ids.now))) }
    ensures err { OnErr result (Keeps into.old.items into.new.items) }
{
    put_listed(into, "stream", &[Byte(a), Byte(b)], ids)
}

/// Writes a line at the end of a run.
pub(crate) fn put_end(into: &mut Vec<u8>, end: &EndLine) -> Result<(), NoMemory>
    ensures ok { OnOk result (into.new.items ≡ into.old.items ++ spelled_line (end_words end.now)) }
    ensures err { OnErr result (Keeps into.old.items into.new.items) }
{
    match *end {
        EndLine::Final => put_line(into, "final", &[]),
        EndLine::Ended { pid, why } => put_ended(into, pid, why),
        EndLine::Process {
            pid,
            at,
            standing,
            doing,
            stopped,
            sent,
        } => put_living(into, pid, at, standing, doing, stopped, sent),
        EndLine::Registers { pid, ref r, pc } => put_registers(into, pid, r, pc),
        EndLine::Memory {
            pid,
            block,
            ref bytes,
        } => put_memory(into, pid, block, bytes),
        EndLine::Link {
            pid,
            slot,
            ref link,
        } => put_held_link(into, pid, slot, link),
        EndLine::Server { pid, sent } => put_server(into, pid, sent),
        EndLine::Place { pid, at, standing } => put_place(into, pid, at, standing),
        EndLine::Name { ref name, ref link } => put_linked(into, "name", &[Bytes(name)], link),
        EndLine::Child { number, pid, at } => put_child(into, number, pid, at),
        EndLine::Pending(id) => put_pending(into, id),
        EndLine::Queue { pid, ref ids } => put_queue(into, pid, ids.as_slice()),
        EndLine::Holding {
            machine,
            pid,
            ref ids,
        } => put_holding(into, machine, pid, ids.as_slice()),
        EndLine::Inbox { machine, ref ids } => put_inbox(into, machine, ids.as_slice()),
        EndLine::Stream { from, to, ref ids } => put_stream(into, from, to, ids.as_slice()),
        EndLine::Groups(count) => put_count(into, "end", count),
    }
}
