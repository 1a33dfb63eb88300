//! The names of the messages that wait at the end of a run.
ghost use Rattle.std.specs.Prelude.{◌≡◌, ◌<◌, ◌-◌, IfOk, drop};
ghost use Rattle.dm_node.specs.Meets as node;
ghost use Rattle.dm_node.specs.Meets.{HasStreams};
ghost use Rattle.dm_world.specs.Ends.{names_of};

use dm_link::MACHINES;
use dm_lists::{Items, Parcels, Queue};
use dm_memory::{NoMemory, Parcel};
use dm_message::{Message, MsgId};
use dm_node::Node;
use dm_stream::Sender;
use std::alloc::Global;

/// The names of the messages of a queue, its front first.
pub fn ids_of(alloc: Global, queue: &Parcels<Message>) -> Result<Items<MsgId>, NoMemory>
    ensures { IfOk result (λ ids. ids ≡ names_of queue.now) }
{
    let mut ids = Items::new(alloc);
    for place in 0..queue.len() {
        ids.push(queue.at(place).id)?;
    }
    Ok(ids)
}

/// The names of the messages of an inbox, its front first.
pub fn ids_of_inbox(alloc: Global, inbox: &Queue<Parcel<Message>>) -> Result<Items<MsgId>, NoMemory>
    ensures { IfOk result (λ ids. ids ≡ names_of inbox.now) }
{
    let mut ids = Items::new(alloc);
    for place in 0..inbox.len() {
        ids.push(inbox.at(place).get().id)?;
    }
    Ok(ids)
}

/// The names of messages that are held, in order.
pub fn ids_of_held(alloc: Global, messages: &[Message]) -> Result<Items<MsgId>, NoMemory>
    ensures { IfOk result (λ ids. ids ≡ names_of messages.now) }
{
    let mut ids = Items::new(alloc);
    for message in messages {
        ids.push(message.id)?;
    }
    Ok(ids)
}

/// The names of the messages that machine `a` gave to its stream to machine `c`, and that `c` hasn't taken.
pub fn untaken_ids(sender: &Node, receiver: &Node, a: u8, c: u8) -> Result<Items<MsgId>, NoMemory>
    requires sender { HasStreams sender.now }
    requires receiver { HasStreams receiver.now }
    requires from { a < MACHINES }
    requires to { c < MACHINES }
    ensures { IfOk result (λ ids. ids ≡
        names_of (drop (((node.node_state receiver.now).receivers a).count - ((node.node_state sender.now).senders c).acked)
        ((node.node_state sender.now).senders c).unacked)) }
{
    let stream = sender.sender(c);
    let taken = receiver.count(a).saturating_sub(stream.acknowledged());
    ids_from(sender.alloc(), stream, taken)
}

/// The names of the messages of a stream that aren't acknowledged, from a place on.
fn ids_from(
    alloc: Global,
    stream: &Sender<Parcel<Message>>,
    first: u32,
) -> Result<Items<MsgId>, NoMemory>
    ensures { IfOk result (λ ids. ids ≡ names_of (drop first stream.now.unacked)) }
{
    let mut ids = Items::new(alloc);
    for place in first..stream.given() - stream.acknowledged() {
        if let Some(message) = stream.unacked(place as usize) {
            ids.push(message.get().id)?;
        }
    }
    Ok(ids)
}
