//! The sending side of a stream.
ghost use Rattle.std.specs.Prelude.{IfErr, IsSome, OnErr, OnOk, drop, nat_le, option_map, slice_get, ◌≡◌, ◌↔◌, ◌≤◌, ◌-◌};
ghost use Rattle.std.specs.Option.{option_copied};
ghost use Rattle.dm_stream.specs.Returned.{message_in};

use dm_memory::{NoMemory, push_back_or_return};
use std::alloc::Global;
use std::collections::VecDeque;
use std::marker::Model;
use thiserror::Error;

/// At most so many messages of a stream have gone out and aren't acknowledged yet.
pub const WINDOW: u32 = 8;

/// Why a message wasn't given. It is handed back.
#[derive(Debug, Drop, Error)]
pub enum GiveError<M> {
    /// All numbers of the stream are used.
    #[error("all numbers of the stream are used")]
    Worn(M),
    /// No memory was left, as std's error said.
    #[error("out of memory")]
    NoMemory(M, NoMemory),
}

/// Messages on their way to one machine, numbered from 0. Each stays here until it is acknowledged.
#[derive(Drop)]
pub struct Sender<M> {
    numbers: u32,
    acked: u32,
    gone: u32,
    unacked: VecDeque<M>,
}

impl<M> Model for Sender<M> {
    ghost use Rattle.dm_stream.specs.Sending.{IsSending, Sending, sending_code};

    ghost Value = { Sending M };

    ghost coded = { sending_code M.code };

    ghost view = { λ s. record { numbers = s.numbers; acked = s.acked; gone = s.gone; unacked = s.unacked.items } };

    ghost invariant = { λ s. IsSending (record { numbers = s.numbers; acked = s.acked; gone = s.gone; unacked = s.unacked.items }) };
}

impl<M> Sender<M> {
    ghost use Rattle.dm_stream.specs.Sending.{due, fresh_sending, given_count, outstanding, with_acked, with_given, with_sent};

    /// A stream that may be given `numbers` messages in all. It takes no memory.
    pub fn new(alloc: Global, numbers: u32) -> Sender<M>
        ensures { result ≡ fresh_sending numbers }
    {
        Sender {
            numbers,
            acked: 0,
            gone: 0,
            unacked: VecDeque::new(alloc),
        }
    }

    /// How many messages were given.
    pub fn given(&self) -> u32
        ensures { result ≡ given_count self.now }
    {
        self.acked + self.unacked.len() as u32
    }

    /// How many messages have gone out, those acknowledged among them.
    pub fn gone_out(&self) -> u32
        ensures { result ≡ self.now.gone }
    {
        self.gone
    }

    /// How many messages are acknowledged.
    pub fn acknowledged(&self) -> u32
        ensures { result ≡ self.now.acked }
    {
        self.acked
    }

    /// How many messages have gone out and aren't acknowledged, 0 to 8.
    pub fn out(&self) -> u32
        ensures count { result ≡ self.now.gone - self.now.acked }
        ensures few { result ≤ WINDOW }
    {
        self.gone - self.acked
    }

    /// The message at this place, from 0 on, among those that aren't acknowledged.
    pub fn unacked(&self, place: usize) -> Option<&M>
        ensures { option_copied result ≡ slice_get self.now.unacked place }
    {
        self.unacked.get(place)
    }

    /// Gives one more message, which gets the next number.
    pub fn give(&mut self, message: M) -> Result<(), GiveError<M>>
        ensures ok { OnOk result (self.new ≡ with_given self.old message) }
        ensures worn { (result ≡ Err (GiveError.Worn message)) ↔ (given_count self.old ≡ self.old.numbers) }
        ensures returned { IfErr result (λ e. message_in e ≡ message) }
        ensures err { OnErr result (self.new ≡ self.old) }
    {
        if self.given() == self.numbers {
            return Err(GiveError::Worn(message));
        }
        match push_back_or_return(&mut self.unacked, message) {
            Ok(()) => Ok(()),
            Err((message, none)) => Err(GiveError::NoMemory(message, none)),
        }
    }

    /// The next message that may go out, with its number. There is none where none waits, or where 8 are outstanding.
    pub fn due(&self) -> Option<(u32, &M)>
        ensures { option_map (λ p. (p.0, p.1.now)) result ≡ due self.now }
    {
        if is_full(self.gone - self.acked) {
            return None;
        }
        self.numbered(self.gone - self.acked)
    }

    /// The message that is due has gone out.
    pub fn sent_due(&mut self)
        requires { IsSome (due self.old) }
        ensures { self.new ≡ with_sent self.old }
    {
        self.gone += 1;
    }

    /// The message at this place, from 0 on, among those that have gone out and aren't acknowledged, with its number.
    pub fn outstanding(&self, place: usize) -> Option<(u32, &M)>
        ensures { option_map (λ p. (p.0, p.1.now)) result ≡ outstanding self.now place }
    {
        if place < (self.gone - self.acked) as usize {
            self.numbered(place as u32)
        } else {
            None
        }
    }
}

#[tactic(auto, using(std::proofs::lemmas::Option::gets))]
impl<M> Sender<M> {
    ghost use Rattle.dm_stream.specs.Sending.{numbered};
    ghost use Rattle.std.specs.Prelude.{slice_get, ◌+◌};

    /// The message that is the `place`-th after those acknowledged, with its number.
    fn numbered(&self, place: u32) -> Option<(u32, &M)>
        ensures { option_map (λ p. (p.0, p.1.now)) result ≡ numbered (self.now.acked + place) (slice_get self.now.unacked place) }
    {
        match self.unacked.get(place as usize) {
            Some(message) => Some((self.acked + place, message)),
            None => None,
        }
    }
}

/// Whether as many messages are outstanding as may be.
fn is_full(out: u32) -> bool
    ensures { result ≡ nat_le 8 out }
{
    out >= WINDOW
}

/// Lets the first `count` messages go.
fn let_go<M: Drop>(queue: &mut VecDeque<M>, count: u32)
    ensures { queue.new.items ≡ drop count queue.old.items }
{
    for _gone in 0..count {
        let _ = queue.pop_front();
    }
}

impl<M: Drop> Sender<M> {
    ghost use Rattle.dm_stream.specs.Sending.{with_acked};

    /// The receiver has taken the first `count` messages. Those that it hadn't yet are let go.
    pub fn acked(&mut self, count: u32)
        requires { count ≤ self.old.gone }
        ensures { self.new ≡ with_acked self.old count }
    {
        if self.acked < count {
            let_go(&mut self.unacked, count - self.acked);
            self.acked = count;
        }
    }
}
