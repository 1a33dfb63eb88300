//! How a receive ends.
ghost use Rattle.std.specs.Prelude.{◌≡◌, ◌+◌, ◌≤◌, ◌<◌, None, Some, count_by, false, if◌then◌else◌, length, map, nat_lt, slice_get};
ghost use Rattle.dm_link.specs.Plain.{plain_link};
ghost use Rattle.dm_message.specs.Plain.{plain_message};
ghost use Rattle.std.specs.Option.{is_none};
ghost use Rattle.dm_linktable.specs.Slots.{first_empty, plain_slot};
ghost use Rattle.dm_onekernel.specs.declared.label.Reply.TheVariants as reply;
ghost use Rattle.dm_onekernel.specs.Options.{bind};
ghost use Rattle.dm_onekernel.specs.Plain.{plain_process};
ghost use Rattle.dm_onekernel.specs.Receiving.{completes_with, received_regs};
ghost use Rattle.dm_process.specs.Lawful.{IsLawfulProcess};
ghost use Rattle.dm_syscall.specs.Completing.{IsAwaited, completes, completion, place_into, place_links, plain_completed, refusal};

use crate::Completed;
use dm_link::Link;
use dm_linktable::Table;
use dm_message::{MOST_LINKS, What};
use dm_onekernel::Reply;
use dm_process::{Process, Status};
use dm_processor::{Cells, REGISTERS, Regs};

/// The register that holds the slot of a message's first link.
const FIRST_SLOT: usize = 5;

/// Ends the receive of a process that waits, with the message at a place of its queue, which is on a channel of its
/// mask.
pub fn complete_receive(process: &mut Process, place: usize) -> Completed
    requires lawful { IsLawfulProcess process.old }
    requires awaited { IsAwaited process.old.status (slice_get process.old.queue place) }
    ensures exact { completion process.old place process.old.status (slice_get process.old.queue place) ≡
        Some (record { completed = result; process = process.new }) }
    ensures plain { (m : _) → bind (slice_get process.old.queue place) plain_message ≡ Some m → m.to ≡ process.old.pid → process.old.stopped ≡ false →
        completes_with process.old.pid (plain_process process.old) m ≡ Some (plain_completed result process.new) }
    ensures lawful { IsLawfulProcess process.new }
{
    complete_waiting(process, place)
}

/// Ends the receive of a process that waits.
fn complete_waiting(process: &mut Process, place: usize) -> Completed
    requires lawful { IsLawfulProcess process.old }
    requires awaited { IsAwaited process.old.status (slice_get process.old.queue place) }
    ensures { completion process.old place process.old.status (slice_get process.old.queue place) ≡
        Some (record { completed = result; process = process.new }) }
{
    match process.status {
        Status::Waiting { base, cap, .. } => complete(process, place, base, cap),
        // Only a process that waits awaits a message: `awaited` says so.
        _ => unreachable!(),
    }
}

/// Ends a receive into a buffer of `cap` bytes at `base`.
fn complete(process: &mut Process, place: usize, base: u32, cap: u32) -> Completed
    requires lawful { IsLawfulProcess process.old }
    requires awaited { IsAwaited process.old.status (slice_get process.old.queue place) }
    requires fits { base + cap ≤ length process.old.memory }
    requires within { place < length process.old.queue }
    ensures { (m : _) → slice_get process.old.queue place ≡ Some m → completes process.old place m.id base cap m.what ≡
        Some (record { completed = result; process = process.new }) }
{
    let message = process.queue.at(place);
    let id = message.id;
    match &message.what {
        What::User {
            code,
            channel,
            body,
            links,
        } => {
            let refusal = receive_refusal(&process.table, cap, body.as_slice(), links.as_slice());
            match refusal {
                Some(refusal) => refuse(process, refusal),
                None => {
                    process.memory.copy_in(base, body.as_slice());
                    let (len, count) = (body.len() as u32, links.len() as u32);
                    set_received(&mut process.regs, *code, *channel, len, count);
                    place_links(&mut process.regs, &mut process.table, links.as_slice());
                    process.status = Status::Ready;
                    process.queue.take(place);
                    Completed::Received(id)
                },
            }
        },
        // Only user messages are on a channel: `awaited` says so.
        _ => unreachable!(),
    }
}

/// Why a message isn't received.
#[tactic(auto, using(crate::proofs::Receives::free_plainly))]
fn receive_refusal(table: &Table, cap: u32, body: &[u8], links: &[Link]) -> Option<Reply>
    ensures { result ≡ (if nat_lt cap (length body.now) then Some reply.TooLong else if nat_lt (count_by is_none (map plain_slot table.now))
        (length (map plain_link links.now)) then Some reply.TableFull else None) }
{
    if (cap as usize) < body.len() {
        Some(Reply::TooLong)
    } else if !links.is_empty() && usize::from(table.free()) < links.len() {
        Some(Reply::TableFull)
    } else {
        None
    }
}

/// The process is ready again, with this reply and without the message.
fn refuse(process: &mut Process, reply: Reply) -> Completed
    ensures completed { result ≡ (refusal reply process.old).completed }
    ensures process { process.new ≡ (refusal reply process.old).process }
{
    process.regs.r[0] = u32::from(reply.code());
    process.status = Status::Ready;
    Completed::Refused(reply)
}

/// What the registers say of a message that has come: its code, its channel, and how many bytes and links it has.
fn set_received(regs: &mut Regs, code: u32, channel: u8, len: u32, count: u32)
    ensures { regs.new ≡ received_regs regs.old code channel len count }
{
    regs.r[0] = u32::from(Reply::Done.code());
    regs.r[1] = code;
    regs.r[2] = u32::from(channel);
    regs.r[3] = len;
    regs.r[4] = count;
}

/// Puts links into the lowest empty slots, in order, whose numbers stand in the registers from r5 on then.
fn place_links(regs: &mut Regs, table: &mut Table, links: &[Link])
    requires { length links.now ≤ MOST_LINKS }
    ensures regs { regs.new ≡ (place_links (record { regs = regs.old; table = table.old }) 5 links.now).regs }
    ensures table { table.new ≡ (place_links (record { regs = regs.old; table = table.old }) 5 links.now).table }
{
    for (i, link) in links.iter().enumerate() {
        place_link(regs, table, FIRST_SLOT + i, link);
    }
}

/// Puts a link into the lowest empty slot, whose number stands in a register then.
fn place_link(regs: &mut Regs, table: &mut Table, register: usize, link: &Link)
    requires { register < REGISTERS }
    ensures regs { regs.new ≡ (place_into (record { regs = regs.old; table = table.old }) register link.now (first_empty table.old)).regs }
    ensures table { table.new ≡ (place_into (record { regs = regs.old; table = table.old }) register link.now (first_empty table.old)).table }
{
    if let Ok(slot) = table.put(*link) {
        regs.r[register] = u32::from(slot);
    }
}
