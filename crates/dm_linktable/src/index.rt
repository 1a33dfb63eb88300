//! Which slots of a table lead to which process.
ghost use Rattle.std.specs.Prelude.{◌≡◌, ℕ, ◌<◌, ◌≤◌, ◌==◌, ◌&&◌, if◌then◌else◌, length, vec_capacity};
ghost use Rattle.std.specs.Int.{bit_at};
ghost use Rattle.dm_link.specs.Names.{pid_eq};
ghost use Rattle.dm_linktable.specs.Index.{IsIndex, IsPlace, mask_of};

use crate::MOST_SLOTS;
use dm_link::Pid;

/// The slots whose links lead to a process: bit s for slot s.
#[derive(Clone, Copy)]
pub struct Entry {
    pub receiver: Pid,
    pub slots: u128,
}

/// The entries of all processes that links lead to, in the order of their names.
pub type Index = Vec<Entry>;

/// Where the process's entry stands, or where it would.
fn place_of(entries: &[Entry], receiver: Pid) -> Result<usize, usize>
    requires { IsIndex entries.now }
    ensures { IsPlace entries.now receiver result }
{
    entries.binary_search_by_key(&receiver, |entry| entry.receiver)
}

/// The slots that lead to a process.
pub fn slots_of(entries: &[Entry], receiver: Pid) -> u128
    requires { IsIndex entries.now }
    ensures { result ≡ mask_of entries.now receiver }
{
    match place_of(entries, receiver) {
        Ok(place) => entries[place].slots,
        Err(_) => 0,
    }
}

/// The slots with one more.
fn with_slot(slots: u128, slot: u8) -> u128
    requires { slot < MOST_SLOTS }
    ensures bits { (s : ℕ) → bit_at result s ≡ (if s == slot then 1 else bit_at slots s) }
    ensures some { 0 < result }
{
    slots | 1 << slot
}

/// The slots without one.
pub fn without_slot(slots: u128, slot: u8) -> u128
    requires { slot < MOST_SLOTS }
    ensures bits { (s : ℕ) → bit_at result s ≡ (if s == slot then 0 else bit_at slots s) }
    ensures fewer { bit_at slots slot ≡ 1 → result < slots }
{
    slots & !(1 << slot)
}

/// The lowest of the slots.
pub fn lowest_slot(slots: u128) -> u8
    requires { 0 < slots }
    ensures within { result < MOST_SLOTS }
    ensures one { bit_at slots result ≡ 1 }
{
    slots.trailing_zeros() as u8
}

/// A slot leads to a process now. Where there is room for one more entry it takes no memory.
pub fn add(entries: &mut Index, receiver: Pid, slot: u8)
    requires index { IsIndex entries.old.items }
    requires room { length entries.old.items < vec_capacity entries.old }
    requires slot { slot < MOST_SLOTS }
    ensures index { IsIndex entries.new.items }
    ensures bits { (q : _) (s : ℕ) → bit_at (mask_of entries.new.items q) s ≡
        (if pid_eq receiver q && (s == slot) then 1 else bit_at (mask_of entries.old.items q) s) }
    ensures capacity { vec_capacity entries.old ≤ vec_capacity entries.new }
{
    match place_of(entries, receiver) {
        Ok(place) => {
            let slots = with_slot(entries[place].slots, slot);
            entries[place] = Entry { receiver, slots };
        },
        Err(place) => {
            let slots = with_slot(0, slot);
            let _ = entries.insert(place, Entry { receiver, slots });
        },
    }
}

/// A slot no longer leads to a process.
pub fn remove(entries: &mut Index, receiver: Pid, slot: u8)
    requires index { IsIndex entries.old.items }
    requires slot { slot < MOST_SLOTS }
    ensures index { IsIndex entries.new.items }
    ensures bits { (q : _) (s : ℕ) → bit_at (mask_of entries.new.items q) s ≡
        (if pid_eq receiver q && (s == slot) then 0 else bit_at (mask_of entries.old.items q) s) }
    ensures capacity { vec_capacity entries.old ≤ vec_capacity entries.new }
{
    match place_of(entries, receiver) {
        Ok(place) => {
            let slots = without_slot(entries[place].slots, slot);
            if slots == 0 {
                entries.remove(place);
            } else {
                entries[place] = Entry { receiver, slots };
            }
        },
        Err(_) => {},
    }
}
