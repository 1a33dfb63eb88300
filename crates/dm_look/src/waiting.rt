//! The messages that wait somewhere.
ghost use Rattle.std.specs.Prelude.{◌≡◌, ◌<◌, ◌-◌, ◌++◌, IfOk, OnOk, drop, length, map};
ghost use Rattle.dm_records.specs.Records.{at};
ghost use Rattle.dm_resident.specs.Residents.{queue_of};
ghost use Rattle.dm_node.specs.Meets as node;
ghost use Rattle.dm_node.specs.Meets.{HasStreams};
ghost use Rattle.dm_world.specs.Ends.{MayEnd};
ghost use Rattle.dm_world.specs.Meets.{IsWorld, world_state};
ghost use Rattle.dm_look.specs.Waiting.{given_by, given_on, kept_at, kept_for, kept_of_home, kept_of_servers, waiting, waiting_at};

use dm_link::{FIRST_NUMBER, MACHINES, MANAGER, Pid, SWITCHBOARD};
use dm_lists::{Parcels, Queue};
use dm_memory::{NoMemory, Parcel, push};
use dm_message::Message;
use dm_node::Node;
use dm_records::Record;
use dm_resident::Resident;
use dm_stream::Sender;
use dm_world::World;
use std::alloc::Global;

/// The messages that wait: in queues, held back for processes and servers, in inboxes, and given to streams and not taken.
pub fn find_waiting(alloc: Global, world: &World) -> Result<Vec<&Message>, NoMemory>
    requires world { IsWorld world.now }
    requires may { MayEnd (length world.now.boot.machines) (world_state world.now) }
    ensures { IfOk result (λ found. map (λ m. m.now) found.items ≡ waiting (length world.now.boot.machines) (world_state world.now)) }
{
    let mut found = Vec::new(alloc);
    for m in 0..world.machines() {
        find_at(world, m, &mut found)?;
    }
    Ok(found)
}

/// What waits at a machine, and what its streams were given.
fn find_at<'a>(world: &'a World, m: u8, found: &mut Vec<&'a Message>) -> Result<(), NoMemory>
    requires world { IsWorld world.now }
    requires may { MayEnd (length world.now.boot.machines) (world_state world.now) }
    requires within { m < length world.now.boot.machines }
    ensures { OnOk result (map (λ x. x.now) found.new.items ≡ map (λ x. x.now) found.old.items ++
        waiting_at (length world.now.boot.machines) (world_state world.now) m) }
{
    find_kept(world, m, found)?;
    find_in_inbox(world.machine(m).kernel().inbox(), found)?;
    find_given(world, m, found)?;
    Ok(())
}

/// What a machine has for the servers, and for processes, by the process's home and number.
fn find_kept<'a>(world: &'a World, m: u8, found: &mut Vec<&'a Message>) -> Result<(), NoMemory>
    requires world { IsWorld world.now }
    requires may { MayEnd (length world.now.boot.machines) (world_state world.now) }
    requires within { m < length world.now.boot.machines }
    ensures { OnOk result (map (λ x. x.now) found.new.items ≡ map (λ x. x.now) found.old.items ++
        kept_at (length world.now.boot.machines) (world_state world.now) m) }
{
    find_of_servers(world, m, found)?;
    for home in 0..world.machines() {
        find_of_home(world, m, home, found)?;
    }
    Ok(())
}

/// What a machine has for the servers.
fn find_of_servers<'a>(
    world: &'a World,
    m: u8,
    found: &mut Vec<&'a Message>,
) -> Result<(), NoMemory>
    requires world { IsWorld world.now }
    requires within { m < length world.now.boot.machines }
    ensures { OnOk result (map (λ x. x.now) found.new.items ≡ map (λ x. x.now) found.old.items ++ kept_of_servers (world_state world.now) m) }
{
    find_for(world.machine(m), SWITCHBOARD, found)?;
    find_for(world.machine(m), MANAGER, found)?;
    Ok(())
}

/// What a machine has for the processes of a home.
fn find_of_home<'a>(
    world: &'a World,
    m: u8,
    home: u8,
    found: &mut Vec<&'a Message>,
) -> Result<(), NoMemory>
    requires world { IsWorld world.now }
    requires may { MayEnd (length world.now.boot.machines) (world_state world.now) }
    requires within { m < length world.now.boot.machines }
    requires home { home < length world.now.boot.machines }
    ensures { OnOk result (map (λ x. x.now) found.new.items ≡ map (λ x. x.now) found.old.items ++
        kept_of_home (world_state world.now) m home) }
{
    for place in 0..world.made(home) {
        let pid = Pid {
            home,
            num: FIRST_NUMBER + place,
        };
        find_for(world.machine(m), pid, found)?;
    }
    Ok(())
}

/// What a machine gave to its streams and was not taken yet.
fn find_given<'a>(world: &'a World, from: u8, found: &mut Vec<&'a Message>) -> Result<(), NoMemory>
    requires world { IsWorld world.now }
    requires within { from < length world.now.boot.machines }
    ensures { OnOk result (map (λ x. x.now) found.new.items ≡ map (λ x. x.now) found.old.items ++
        given_by (length world.now.boot.machines) (world_state world.now) from) }
{
    for to in 0..world.machines() {
        find_on(world, from, to, found)?;
    }
    Ok(())
}

/// What a machine gave to a stream and was not taken yet.
fn find_on<'a>(
    world: &'a World,
    from: u8,
    to: u8,
    found: &mut Vec<&'a Message>,
) -> Result<(), NoMemory>
    requires world { IsWorld world.now }
    requires from { from < length world.now.boot.machines }
    requires to { to < length world.now.boot.machines }
    ensures { OnOk result (map (λ x. x.now) found.new.items ≡ map (λ x. x.now) found.old.items ++
        given_on (world_state world.now) from to) }
{
    if from == to {
        return Ok(());
    }
    find_untaken(world.machine(from), world.machine(to), from, to, found)
}

/// What a machine has for a process or a server.
fn find_for<'a>(node: &'a Node, pid: Pid, found: &mut Vec<&'a Message>) -> Result<(), NoMemory>
    ensures { OnOk result (map (λ x. x.now) found.new.items ≡ map (λ x. x.now) found.old.items ++ kept_for (at node.now.kernel.records pid)) }
{
    match node.kernel().records().get(pid) {
        Some(Record::Here(resident)) => find_with(resident, found),
        Some(Record::Frozen(leaving)) => {
            find_with(leaving.resident(), found)?;
            find_in_held(leaving.held(), found)
        }
        Some(Record::Incoming(arriving)) => find_in_held(arriving.held(), found),
        _ => Ok(()),
    }
}

/// The messages that wait for a process; a server has no queue.
fn find_with<'a>(resident: &'a Resident, found: &mut Vec<&'a Message>) -> Result<(), NoMemory>
    ensures { OnOk result (map (λ x. x.now) found.new.items ≡ map (λ x. x.now) found.old.items ++ queue_of resident.now) }
{
    match resident.process() {
        Some(process) => {
            find_in_queue(process.queue.messages(), found)?;
            Ok(())
        }
        None => Ok(()),
    }
}

/// The messages of a queue, its front first.
fn find_in_queue<'a>(
    queue: &'a Parcels<Message>,
    found: &mut Vec<&'a Message>,
) -> Result<(), NoMemory>
    ensures { OnOk result (map (λ x. x.now) found.new.items ≡ map (λ x. x.now) found.old.items ++ queue.now) }
{
    for place in 0..queue.len() {
        push(found, queue.at(place))?;
    }
    Ok(())
}

/// The messages of an inbox, its front first.
fn find_in_inbox<'a>(
    inbox: &'a Queue<Parcel<Message>>,
    found: &mut Vec<&'a Message>,
) -> Result<(), NoMemory>
    ensures { OnOk result (map (λ x. x.now) found.new.items ≡ map (λ x. x.now) found.old.items ++ inbox.now) }
{
    for place in 0..inbox.len() {
        push(found, inbox.at(place).get())?;
    }
    Ok(())
}

/// Messages that are held back, in order.
fn find_in_held<'a>(messages: &'a [Message], found: &mut Vec<&'a Message>) -> Result<(), NoMemory>
    ensures { OnOk result (map (λ x. x.now) found.new.items ≡ map (λ x. x.now) found.old.items ++ messages.now) }
{
    for message in messages {
        push(found, message)?;
    }
    Ok(())
}

/// What machine `a` gave to its stream to machine `c`, and `c` hasn't taken.
fn find_untaken<'a>(
    sender: &'a Node,
    receiver: &Node,
    a: u8,
    c: u8,
    found: &mut Vec<&'a Message>,
) -> Result<(), NoMemory>
    requires sender { HasStreams sender.now }
    requires receiver { HasStreams receiver.now }
    requires from { a < MACHINES }
    requires to { c < MACHINES }
    ensures { OnOk result (map (λ x. x.now) found.new.items ≡ map (λ x. x.now) found.old.items ++
        drop (((node.node_state receiver.now).receivers a).count - ((node.node_state sender.now).senders c).acked)
        ((node.node_state sender.now).senders c).unacked) }
{
    let stream = sender.sender(c);
    let taken = receiver.count(a).saturating_sub(stream.acknowledged());
    find_from(stream, taken, found)
}

/// The messages of a stream that aren't acknowledged, from a place on.
fn find_from<'a>(
    stream: &'a Sender<Parcel<Message>>,
    first: u32,
    found: &mut Vec<&'a Message>,
) -> Result<(), NoMemory>
    ensures { OnOk result (map (λ x. x.now) found.new.items ≡ map (λ x. x.now) found.old.items ++ drop first stream.now.unacked) }
{
    for place in first..stream.given() - stream.acknowledged() {
        if let Some(message) = stream.unacked(place as usize) {
            push(found, message.get())?;
        }
    }
    Ok(())
}
