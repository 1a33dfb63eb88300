//! How far a queue was looked through, channel by channel.
ghost use Rattle.std.specs.Prelude.{◌≡◌, ◌<◌, ◌≤◌, ℕ, slice_index_or, replicate, true};
ghost use Rattle.dm_process.specs.Mail.{on_mask};
ghost use Rattle.dm_process.specs.Passed.{AreNone, IsKept, shifted};

use crate::mailbox::on_mask;
use std::marker::Model;

/// How many channels there are.
const CHANNELS: usize = 32;

/// For each channel, so many messages from the front on are known not to be on it; contracts see the list of these numbers.
#[derive(Drop)]
pub struct Places {
    /// Whether anything is known of a channel: mostly nothing is, and then nothing has to be kept up.
    any: bool,
    passed: [usize; CHANNELS],
}

impl Model for Places {
    ghost use Rattle.std.specs.Prelude.{List, ℕ};
    ghost use Rattle.dm_process.specs.Passed.{AreNone};

    ghost Value = { List ℕ };

    ghost view = { λ p. p.passed };

    ghost invariant = { λ p. AreNone p.any p.passed };
}

impl Places {
    /// Nothing is known.
    pub fn new() -> Self
        ensures { result ≡ replicate 32 0 }
    {
        Places {
            any: false,
            passed: [0; CHANNELS],
        }
    }

    /// So many messages from the front on, of `len`, are known not to be on the mask.
    pub fn passed_by(&self, mask: u32, len: usize) -> usize
        ensures within { result ≤ len }
        ensures passed { (c : ℕ) → c < 32 → on_mask mask c ≡ true → result ≤ slice_index_or self.now c 0 }
    {
        if self.any {
            least(&self.passed, mask, len)
        } else {
            0
        }
    }

    /// So many messages from the front on are known not to be on the channels of the mask.
    pub fn keep(&mut self, mask: u32, passed: usize)
        ensures { (c : ℕ) → c < 32 → IsKept mask passed c (slice_index_or self.old c 0) (slice_index_or self.new c 0) }
    {
        if passed > 0 {
            self.any = true;
            keep(&mut self.passed, mask, passed);
        }
    }

    /// A message at a place is taken.
    pub fn shift(&mut self, place: usize)
        ensures { (c : ℕ) → c < 32 → slice_index_or self.new c 0 ≡ shifted place (slice_index_or self.old c 0) }
    {
        if self.any {
            self.any = shift(&mut self.passed, place);
        }
    }
}

/// The least of the numbers of the mask's channels, or `len`.
fn least(places: &[usize; CHANNELS], mask: u32, len: usize) -> usize
    ensures within { result ≤ len }
    ensures passed { (c : ℕ) → c < 32 → on_mask mask c ≡ true → result ≤ slice_index_or places.now c 0 }
{
    let mut passed = len;
    for channel in 0..CHANNELS {
        if on_mask(mask, channel as u8) {
            passed = passed.min(places[channel]);
        }
    }
    passed
}

/// So many messages from the front on are known not to be on the channels of the mask.
fn keep(places: &mut [usize; CHANNELS], mask: u32, passed: usize)
    ensures { (c : ℕ) → c < 32 → IsKept mask passed c (slice_index_or places.old c 0) (slice_index_or places.new c 0) }
{
    for channel in 0..CHANNELS {
        if on_mask(mask, channel as u8) && places[channel] < passed {
            places[channel] = passed;
        }
    }
}

/// How far is known where a message at a place is taken.
fn shifted(place: usize, passed: usize) -> usize
    ensures { result ≡ shifted place passed }
{
    if place < passed { passed - 1 } else { passed }
}

/// A message at a place is taken; whether anything is known then.
fn shift(places: &mut [usize; CHANNELS], place: usize) -> bool
    ensures shifted { (c : ℕ) → c < 32 → slice_index_or places.new c 0 ≡ shifted place (slice_index_or places.old c 0) }
    ensures none { AreNone result places.new }
{
    let mut any = false;
    for channel in 0..CHANNELS {
        let passed = shifted(place, places[channel]);
        places[channel] = passed;
        any = any || passed > 0;
    }
    any
}
