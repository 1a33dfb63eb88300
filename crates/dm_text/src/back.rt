//! Reading lines back.
ghost use Rattle.std.specs.Prelude.{◌≡◌, ◌<◌, ◌^◌, ◌++◌, List, Some, false, length, map};
ghost use Rattle.std.specs.List.{All};
ghost use Rattle.dm_line.specs.declared.end_line.EndLine.{EndLine as TheEndLine};
ghost use Rattle.dm_line.specs.declared.end_line.EndLine.TheVariants as end;
ghost use Rattle.dm_line.specs.declared.line.Line.{Line as TheLine};
ghost use Rattle.dm_line.specs.declared.line.Line.TheVariants as line;
ghost use Rattle.dm_text.specs.Ends.{link_row};
ghost use Rattle.dm_text.specs.Fits.{EndFits, HidesNothing, IdFits, IsByte, IsWord, LineFits};
ghost use Rattle.dm_text.specs.LinesOf.{lines_of, trace_of};
ghost use Rattle.dm_text.specs.Text.{text_of_ends, text_of_lines};
ghost use Rattle.dm_text.specs.Words.{AllFit, PidFits, message_word};

use dm_line::end_line::{Doing, EndLine, Standing};
use dm_line::line::{Line, Load};
use dm_link::{Link, Pid};
use dm_message::MsgId;
use dm_onekernel::Label;
use dm_schedule::Step;

/// What is printed says all that the lines say: their text spells them, and no other lines have it; the same with the
/// lines at the end of a run behind them.
pub fn text_can_be_read()
    ensures spelt { (lines : List TheLine) → All LineFits lines → lines_of (text_of_lines lines) ≡ Some lines }
    ensures once { (a b : List TheLine) → All LineFits a → All LineFits b → text_of_lines a ≡ text_of_lines b → a ≡ b }
    ensures traced { (lines : List TheLine) (ends : List TheEndLine) → All LineFits lines → All EndFits ends →
        trace_of (text_of_lines lines ++ text_of_ends ends) ≡ Some (record { lines = lines; ends = ends }) }
    ensures traced_once { (a b : List TheLine) (x y : List TheEndLine) →
        All LineFits a → All EndFits x → All LineFits b → All EndFits y →
        text_of_lines a ++ text_of_ends x ≡ text_of_lines b ++ text_of_ends y → (a ≡ b) × (x ≡ y) }
{}

/// The name of a process, a byte and a number of 32 bits are within their types.
fn process_fits(pid: Pid, byte: u8, word: u32)
    ensures pid { PidFits pid }
    ensures byte { IsByte byte }
    ensures word { IsWord word }
{}

/// So are the name of a message, a byte and a number of 32 bits.
fn message_fits(id: MsgId, byte: u8, word: u32)
    ensures id { IdFits id }
    ensures byte { IsByte byte }
    ensures word { IsWord word }
{}

/// So are two machines and a number of 32 bits.
fn pair_fits(a: u8, b: u8, n: u32)
    ensures { IsByte a × IsByte b × IsWord n }
{}

/// So are the parts of a packet's line.
fn packet_fits(from: u8, to: u8, k: u64, load: Load)
    ensures { LineFits (line.Packet from to k load) }
{}

/// So is the room that is free.
fn room_fits(slots: u8, blocks: u16)
    ensures { IsByte slots × (blocks < 2 ^ 16) }
{}

/// So is the number of groups.
fn count_fits(n: u128)
    ensures { n < 2 ^ 128 }
{}

/// So are the names of several messages.
fn ids_fit(ids: &[MsgId])
    ensures { All IdFits ids.now }
{
    for id in ids {
        message_fits(*id, 0, 0);
    }
}

/// So are their words.
fn messages_fit(ids: &[MsgId])
    ensures { AllFit (map message_word ids.now) }
{
    ids_fit(ids);
}

/// So are several bytes.
fn bytes_fit(bytes: &[u8])
    ensures { All IsByte bytes.now }
{}

/// So are several numbers of 32 bits.
fn words_fit(words: &[u32])
    ensures { All IsWord words.now }
{}

/// Registers are sixteen.
fn are_sixteen(r: &[u32; 16])
    ensures { length r.now ≡ 16 }
{}

/// So are the numbers of the line of a process's registers.
fn registers_fit(pid: Pid, r: &[u32; 16], pc: u32)
    ensures { EndFits (end.Registers pid r.now pc) }
{
    process_fits(pid, 0, pc);
    words_fit(r);
    are_sixteen(r);
}

/// So are the numbers of a link.
fn link_fits(link: Link)
    ensures { link.to_kernel ≡ false → AllFit (link_row link) }
{
    process_fits(link.addr.pid, link.addr.at, link.addr.moves);
    pair_fits(link.channel, 0, link.code);
    pair_fits(0, 0, link.area.base);
    pair_fits(0, 0, link.area.len);
}

/// So are those of the line of a process.
fn process_line_fits(pid: Pid, at: u8, standing: Standing, doing: Doing, stopped: bool, sent: u32)
    ensures { EndFits (end.Process pid at standing doing stopped sent) }
{}

/// So are those of the head of a group.
fn step_fits(step: Step)
    ensures { LineFits (line.Head step) }
{}

/// So are those of a step of the kernel without machines.
fn label_fits(label: Label)
    ensures { LineFits (line.Label label) }
{}

/// So are those of a line at the end, so its text can be read, if it leaves no mark of a link out.
pub fn end_fits(end: &EndLine)
    ensures { HidesNothing end.now → EndFits end.now }
{
    match *end {
        EndLine::Final => {}
        EndLine::Ended { pid, .. } => process_fits(pid, 0, 0),
        EndLine::Process {
            pid,
            at,
            standing,
            doing,
            stopped,
            sent,
        } => process_line_fits(pid, at, standing, doing, stopped, sent),
        EndLine::Registers {
            ref pid,
            ref r,
            ref pc,
        } => registers_fit(*pid, r, *pc),
        EndLine::Memory {
            pid,
            block,
            ref bytes,
        } => {
            process_fits(pid, block, 0);
            bytes_fit(bytes);
        }
        EndLine::Link { pid, slot, link } => {
            process_fits(pid, slot, 0);
            link_fits(link);
        }
        EndLine::Server { pid, sent } => process_fits(pid, 0, sent),
        EndLine::Place { pid, at, .. } => process_fits(pid, at, 0),
        EndLine::Name { ref name, link } => {
            bytes_fit(name);
            link_fits(link);
        }
        EndLine::Child { number, pid, at } => process_fits(pid, at, number),
        EndLine::Pending(id) => message_fits(id, 0, 0),
        EndLine::Queue { pid, ref ids } => {
            process_fits(pid, 0, 0);
            messages_fit(ids.as_slice());
        }
        EndLine::Holding {
            machine,
            pid,
            ref ids,
        } => {
            process_fits(pid, machine, 0);
            messages_fit(ids.as_slice());
        }
        EndLine::Inbox { machine, ref ids } => {
            pair_fits(machine, 0, 0);
            messages_fit(ids.as_slice());
        }
        EndLine::Stream { from, to, ref ids } => {
            pair_fits(from, to, 0);
            messages_fit(ids.as_slice());
        }
        EndLine::Groups(count) => count_fits(count),
    }
}

/// The numbers of a line of a group are within their types, so its text can be read.
pub fn line_fits(line: &Line)
    ensures { LineFits line.now }
{
    match *line {
        Line::Head(step) => step_fits(step),
        Line::Idle(m) => pair_fits(m, 0, 0),
        Line::Label(label) => label_fits(label),
        Line::Put {
            from,
            to,
            id,
            receiver,
            ..
        } => {
            pair_fits(from, to, 0);
            message_fits(id, 0, 0);
            process_fits(receiver, 0, 0);
        }
        Line::Packet { from, to, k, load } => packet_fits(from, to, k, load),
        Line::Taken { from, to, n }
        | Line::Old { from, to, n }
        | Line::Early { from, to, n }
        | Line::Acked { from, to, n } => pair_fits(from, to, n),
        Line::Nothing => {}
        Line::Resent { machine, count } => pair_fits(machine, 0, count),
        Line::Queued(id)
        | Line::Held(id)
        | Line::Here(id)
        | Line::NoMove(id)
        | Line::Stale(id)
        | Line::Proto(id) => message_fits(id, 0, 0),
        Line::Forwarded { id, to } => message_fits(id, to, 0),
        Line::Updated { id, count } => message_fits(id, 0, count),
        Line::Buried { id, count } => message_fits(id, 0, count),
        Line::Migration { pid, .. } | Line::Stays(pid) | Line::NoChild(pid) | Line::NoCall(pid) =>
            process_fits(pid, 0, 0),
        Line::Away => {}
        Line::SentOn { pid, count } => process_fits(pid, 0, count),
        Line::Called { pid, count } => process_fits(pid, 0, count),
        Line::Lacks {
            pid,
            free_slots,
            free_blocks,
        } => {
            process_fits(pid, 0, 0);
            room_fits(free_slots, free_blocks);
        }
    }
}
