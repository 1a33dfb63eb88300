//! The calls of processes. Memory is taken for the message alone that one of them sends.
#![tactic(auto)]

mod calls;
mod links;
mod number;
mod receive;
mod send;
mod transfer;

pub use calls::call;
use dm_memory::Parcel;
use dm_message::{Message, MsgId};
use dm_onekernel::{Reply, Why};
pub use receive::complete_receive;

/// What a call came to.
#[derive(Drop)]
pub enum Called {
    /// It is over, with this reply in register 0.
    Replied(Reply),
    /// The message is to be routed.
    Sent(Parcel<Message>),
    /// The process waits for a message.
    Waits,
    /// A data move begins: its first request is to be routed.
    Moving(Parcel<Message>),
    /// The word is put out.
    Out(u32),
    /// The process ends.
    Ended(Why),
}

/// What became of a receive that a message came to.
#[derive(Clone, Copy)]
pub enum Completed {
    /// The process has the message, which has left its queue.
    Received(MsgId),
    /// The process has this reply in register 0, and the message stays.
    Refused(Reply),
}
