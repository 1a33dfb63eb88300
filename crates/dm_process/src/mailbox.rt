//! The messages that wait for a process.
ghost use Rattle.std.specs.Prelude.{◌≡◌, ◌<◌, ◌≤◌, ◌++◌, ◌∷◌, [], IfNone, IfSome, OnErr, OnOk, List, None, Some, is_some, length, remove, slice_get, take};
ghost use Rattle.dm_process.specs.Mail.{first_on, is_on, on_mask, without_first_on, HasPassed};
ghost use Rattle.dm_process.specs.Passed.{WasSearched};

use crate::channels::Places;
use dm_lists::Parcels;
use dm_memory::{NoMemory, Parcel};
use dm_message::{Message, What};
use std::alloc::Global;
use std::marker::Model;

/// The messages that a process has not received yet, in the order in which they came; contracts see a list of them.
///
/// It remembers how far it has been looked through, for the last mask and for each channel, so that a process which waits looks at
/// each message once, and once more for each channel where it waits on several masks in turn.
#[derive(Drop)]
pub struct Mailbox {
    messages: Parcels<Message>,
    /// The mask that was looked for last.
    mask: u32,
    /// So many messages from the front on are known not to be on it.
    passed: usize,
    /// What was known so when other masks were looked for.
    places: Places,
}

impl Model for Mailbox {
    ghost use Rattle.std.specs.Prelude.{List};
    ghost use Rattle.dm_message.specs.declared.Message.{Message};
    ghost use Rattle.dm_process.specs.Passed.{WasSearched};

    ghost Value = { List Message };

    ghost view = { λ b. b.messages };

    ghost invariant = { λ b. WasSearched b.mask b.passed b.places b.messages };
}

impl Mailbox {
    /// No messages; it takes no memory.
    pub fn new(alloc: Global) -> Self
        ensures { result ≡ [] }
    {
        Mailbox {
            messages: Parcels::new(alloc),
            mask: 0,
            passed: 0,
            places: Places::new(),
        }
    }

    /// How many there are.
    pub fn len(&self) -> usize
        ensures { result ≡ length self.now }
    {
        self.messages.len()
    }

    /// The message at a place.
    pub fn at(&self, place: usize) -> &Message
        requires { place < length self.now }
        ensures { slice_get self.now place ≡ Some result.now }
    {
        self.messages.at(place)
    }

    /// Adds a message at the back, or leaves the mailbox as it was.
    pub fn push(&mut self, message: Parcel<Message>) -> Result<(), NoMemory>
        ensures ok { OnOk result (self.new ≡ self.old ++ message ∷ []) }
        ensures err { OnErr result (self.new ≡ self.old) }
    {
        self.messages.push(message)
    }

    /// Takes the message at a place.
    pub fn take(&mut self, place: usize) -> Message
        requires { place < length self.old }
        ensures value { slice_get self.old place ≡ Some result }
        ensures rest { self.new ≡ remove self.old place }
    {
        self.passed = self.passed.min(place);
        self.places.shift(place);
        self.messages.take(place)
    }

    /// The messages, in order.
    pub fn messages(&self) -> &Parcels<Message>
        ensures { result.now ≡ self.now }
    {
        &self.messages
    }

    /// The messages, in order, which it hands over.
    pub fn into_queue(self) -> Parcels<Message>
        ensures { result ≡ self }
    {
        let Mailbox { messages, .. } = self;
        messages
    }

    /// The place of the first message that is on a channel of the mask. As long as no other mask is looked for, a message
    /// that isn't on it is looked at once, by however many calls; where masks change, at most once for each channel.
    pub fn first_match(&mut self, mask: u32) -> Option<usize>
        ensures unchanged { self.new ≡ self.old }
        ensures none { IfNone result (first_on mask self.old ≡ None) }
        ensures within { IfSome result (λ i. i < length self.old) }
        ensures first { IfSome result (λ i. slice_get self.old i ≡ first_on mask self.old) }
        ensures rest { IfSome result (λ i. remove self.old i ≡ without_first_on mask self.old) }
    {
        let from = turn_to(
            &self.messages,
            &mut self.places,
            (self.mask, self.passed),
            mask,
        );
        let place = first_place(&self.messages, mask, from);
        self.mask = mask;
        self.passed = place;
        if place < self.messages.len() {
            Some(place)
        } else {
            None
        }
    }

    /// Whether a message is on a channel of the mask. It looks at none that the last search has passed for this mask.
    pub(crate) fn has_match(&self, mask: u32) -> bool
        ensures { result ≡ is_some (first_on mask self.now) }
    {
        first_place(&self.messages, mask, self.passed_for(mask)) < self.messages.len()
    }

    /// How many messages from the front on are known not to be on a mask.
    fn passed_for(&self, mask: u32) -> usize
        ensures { HasPassed mask result self.now }
    {
        passed_to(&self.messages, &self.places, (self.mask, self.passed), mask)
    }
}

/// How many messages from the front on are known not to be on a mask, from the mask that was looked for last and how far, and from
/// what is known for each channel.
fn passed_to(messages: &Parcels<Message>, places: &Places, last: (u32, usize), mask: u32) -> usize
    requires { WasSearched last.0 last.1 places.now messages.now }
    ensures { HasPassed mask result messages.now }
{
    if last.0 == mask {
        last.1
    } else {
        places.passed_by(mask, messages.len())
    }
}

/// The same, where what is known for the last mask is kept for its channels.
fn turn_to(messages: &Parcels<Message>, places: &mut Places, last: (u32, usize), mask: u32) -> usize
    requires { WasSearched last.0 last.1 places.old messages.now }
    ensures { WasSearched mask result places.new messages.now }
{
    if last.0 == mask {
        return last.1;
    }
    places.keep(last.0, last.1);
    places.passed_by(mask, messages.len())
}

/// The place of the first message that is on a mask, or behind the last, where it is known that none before `from` is.
fn first_place(messages: &Parcels<Message>, mask: u32, from: usize) -> usize
    requires { HasPassed mask from messages.now }
    ensures passed { HasPassed mask result messages.now }
    ensures first { result < length messages.now → slice_get messages.now result ≡ first_on mask messages.now }
    ensures rest { result < length messages.now → remove messages.now result ≡ without_first_on mask messages.now }
    ensures none { result ≡ length messages.now → first_on mask messages.now ≡ None }
{
    for place in from..messages.len() {
        if is_on(messages.at(place), mask) {
            return place;
        }
    }
    messages.len()
}

/// Whether a channel is one of the mask's.
pub fn on_mask(mask: u32, channel: u8) -> bool
    ensures { result ≡ on_mask mask channel }
{
    channel < 32 && (mask >> channel) % 2 == 1
}

/// Whether it is a user message on a channel of the mask.
fn is_on(message: &Message, mask: u32) -> bool
    ensures { result ≡ is_on mask message.now }
{
    match &message.what {
        What::User { channel, .. } => on_mask(mask, *channel),
        _ => false,
    }
}
