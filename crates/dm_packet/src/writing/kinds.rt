//! What the messages of each kind carry: one writer for each kind with fields of its own, and the choice among them.
ghost use Rattle.std.specs.Prelude.{◌≡◌, ◌+◌, ◌<◌, ◌≤◌, length};
ghost use Rattle.std.specs.List.{All};
ghost use Rattle.std.specs.Option.{IfSome};
ghost use Rattle.dm_message.specs.Lawful.{IsLawfulWhat};
ghost use Rattle.dm_packet.specs.Whats.{ask, asker as asker_field, create, memory, optional, outcome_field, piece_asked, read, refuse, spell_what, state, user, write};
ghost use Rattle.dm_packet.specs.Widths.{Fits, FitsAsker, FitsLink, FitsPid, FitsWhat};
ghost use Rattle.dm_packet.specs.Writes.{HasRoom, Puts};

use super::Buffer;
use super::fields::{put_addr, put_bool, put_byte, put_bytes, put_pid, put_u16, put_u32};
use super::lists::{put_counted, put_links};
use crate::MOST_PACKET;
use dm_link::{Link, Pid};
use dm_message::{Asker, CHUNK, MOST_BODY, MOST_LINKS, Outcome, What};

fn put_user(out: &mut Buffer, code: u32, channel: u8, body: &[u8], links: &[Link])
    requires room { length out.old.items + 600 ≤ MOST_PACKET }
    requires body { length body.now ≤ MOST_BODY }
    requires links { length links.now ≤ MOST_LINKS }
    ensures put { Puts out.old out.new (user.spell (code, (channel, (body.now, links.now)))) }
    ensures code { Fits 4 code }
    ensures links { All FitsLink links.now }
{
    put_u32(out, code);
    put_byte(out, channel);
    put_counted(out, body);
    put_links(out, links);
}

fn put_read(out: &mut Buffer, base: u32, len: u16)
    requires room { HasRoom out.old (read.spell (base, len)) }
    ensures put { Puts out.old out.new (read.spell (base, len)) }
{
    put_u32(out, base);
    put_u16(out, len);
}

fn put_write(out: &mut Buffer, base: u32, bytes: &[u8])
    requires room { HasRoom out.old (write.spell (base, bytes.now)) }
    requires few { length bytes.now ≤ MOST_BODY }
    ensures put { Puts out.old out.new (write.spell (base, bytes.now)) }
{
    put_u32(out, base);
    put_counted(out, bytes);
}

fn put_create(out: &mut Buffer, image: u16, links: &[Link])
    requires room { length out.old.items + 99 ≤ MOST_PACKET }
    requires few { length links.now ≤ 3 }
    ensures put { Puts out.old out.new (create.spell (image, links.now)) }
    ensures image { Fits 2 image }
    ensures links { All FitsLink links.now }
{
    put_u16(out, image);
    put_links(out, links);
}

fn put_known_asker(out: &mut Buffer, asker: Asker)
    requires room { HasRoom out.old (asker_field.spell asker) }
    ensures put { Puts out.old out.new (asker_field.spell asker) }
    ensures fits { FitsAsker asker }
{
    put_u32(out, asker.n);
    put_addr(out, asker.addr);
}

/// 1 and who asked, or 0.
fn put_asker(out: &mut Buffer, asker: Option<Asker>)
    requires room { HasRoom out.old ((optional asker_field).spell asker) }
    ensures put { Puts out.old out.new ((optional asker_field).spell asker) }
    ensures fits { IfSome asker FitsAsker }
{
    match asker {
        None => put_byte(out, 0),
        Some(asker) => {
            put_byte(out, 1);
            put_known_asker(out, asker);
        }
    }
}

fn put_ask(out: &mut Buffer, pid: Pid, blocks: u16, moves: u32, size: u32, asker: Option<Asker>)
    requires room { HasRoom out.old (ask.spell (pid, (blocks, (moves, (size, asker))))) }
    ensures put { Puts out.old out.new (ask.spell (pid, (blocks, (moves, (size, asker))))) }
    ensures pid { FitsPid pid }
    ensures moves { Fits 4 moves }
    ensures size { Fits 4 size }
    ensures asker { IfSome asker FitsAsker }
{
    put_pid(out, pid);
    put_u16(out, blocks);
    put_u32(out, moves);
    put_u32(out, size);
    put_asker(out, asker);
}

fn put_refuse(out: &mut Buffer, pid: Pid, free_slots: u8, free_blocks: u16)
    requires room { HasRoom out.old (refuse.spell (pid, (free_slots, free_blocks))) }
    ensures put { Puts out.old out.new (refuse.spell (pid, (free_slots, free_blocks))) }
    ensures pid { FitsPid pid }
{
    put_pid(out, pid);
    put_byte(out, free_slots);
    put_u16(out, free_blocks);
}

fn put_pull_state(out: &mut Buffer, pid: Pid, chunk: u32)
    requires room { HasRoom out.old ((piece_asked 4).spell (pid, chunk)) }
    ensures put { Puts out.old out.new ((piece_asked 4).spell (pid, chunk)) }
    ensures pid { FitsPid pid }
    ensures chunk { Fits 4 chunk }
{
    put_pid(out, pid);
    put_u32(out, chunk);
}

fn put_state(out: &mut Buffer, pid: Pid, chunk: u32, last: bool, bytes: &[u8])
    requires room { HasRoom out.old (state.spell (pid, (chunk, (last, bytes.now)))) }
    requires few { length bytes.now ≤ CHUNK }
    ensures put { Puts out.old out.new (state.spell (pid, (chunk, (last, bytes.now)))) }
    ensures pid { FitsPid pid }
    ensures chunk { Fits 4 chunk }
{
    put_pid(out, pid);
    put_u32(out, chunk);
    put_bool(out, last);
    put_counted(out, bytes);
}

fn put_pull_block(out: &mut Buffer, pid: Pid, block: u8)
    requires room { HasRoom out.old ((piece_asked 1).spell (pid, block)) }
    ensures put { Puts out.old out.new ((piece_asked 1).spell (pid, block)) }
    ensures pid { FitsPid pid }
    ensures block { Fits 1 block }
{
    put_pid(out, pid);
    put_byte(out, block);
}

fn put_memory(out: &mut Buffer, pid: Pid, block: u8, bytes: &[u8; 256])
    requires room { length out.old.items + 262 ≤ MOST_PACKET }
    ensures put { Puts out.old out.new (memory.spell (pid, (block, bytes.now))) }
    ensures pid { FitsPid pid }
    ensures block { Fits 1 block }
    ensures bytes { length bytes.now ≡ MOST_BODY }
{
    put_pid(out, pid);
    put_byte(out, block);
    put_bytes(out, bytes);
}

fn put_outcome(out: &mut Buffer, outcome: Outcome)
    requires room { HasRoom out.old (outcome_field.spell outcome) }
    ensures put { Puts out.old out.new (outcome_field.spell outcome) }
{
    let code = match outcome {
        Outcome::Done => 0,
        Outcome::Stayed => 1,
        Outcome::Ended => 3,
    };
    put_byte(out, code);
}

/// What a message carries, at most 600 bytes.
#[tactic(auto, unfolding(crate::specs::Whats::spell_what))]
pub fn put_what(out: &mut Buffer, what: &What)
    requires room { length out.old.items + 600 ≤ MOST_PACKET }
    requires lawful { IsLawfulWhat what.now }
    ensures put { Puts out.old out.new (spell_what what.now) }
    ensures fits { FitsWhat what.now }
{
    match what {
        What::User {
            code,
            channel,
            body,
            links,
        } => put_user(out, *code, *channel, body, links),
        What::Stop | What::Resume | What::Kill | What::Written | What::Gone | What::NoRoom => {}
        What::Read { base, len } => put_read(out, *base, *len),
        What::Write { base, bytes } => put_write(out, *base, bytes),
        What::Block { bytes } => put_counted(out, bytes),
        What::Create { image, links } => put_create(out, *image, links),
        What::Created { pid }
        | What::AllTaken { pid }
        | What::Restart { pid }
        | What::CallOff { pid }
        | What::Bury { pid } => put_pid(out, *pid),
        What::Migrate { machine } | What::Move { machine } => put_byte(out, *machine),
        What::Update { about } => put_addr(out, *about),
        What::Ask {
            pid,
            blocks,
            moves,
            size,
            asker,
        } => put_ask(out, *pid, *blocks, *moves, *size, *asker),
        What::Refuse {
            pid,
            free_slots,
            free_blocks,
        } => put_refuse(out, *pid, *free_slots, *free_blocks),
        What::PullState { pid, chunk } => put_pull_state(out, *pid, *chunk),
        What::State {
            pid,
            chunk,
            last,
            bytes,
        } => put_state(out, *pid, *chunk, *last, bytes),
        What::PullBlock { pid, block } => put_pull_block(out, *pid, *block),
        What::Memory { pid, block, bytes } => put_memory(out, *pid, *block, bytes.get()),
        What::Moved { outcome } => put_outcome(out, *outcome),
    }
}
