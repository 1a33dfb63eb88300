//! What a table does to its slots.
ghost use Rattle.std.specs.Prelude.{◌≡◌, ℕ, ◌≤◌, ◌<◌, length, map, count_by};
ghost use Rattle.std.specs.Option.{is_none};
ghost use Rattle.std.specs.Int.{bit_at};
ghost use Rattle.dm_linktable.specs.Index.{leads};
ghost use Rattle.dm_linktable.specs.Slots.{first_empty, link_at, plain_slot, retargeted_slot, slot_is_behind};

use crate::MOST_SLOTS;
use crate::index::{lowest_slot, without_slot};
use dm_link::{Link, Pid};

/// The lowest empty slot.
pub fn first_free(slots: &[Option<Link>]) -> Option<usize>
    ensures { result ≡ first_empty slots.now }
{
    slots.iter().position(|slot| slot.is_none())
}

/// How many slots are empty.
pub fn count_free(slots: &[Option<Link>]) -> u8
    requires { length slots.now ≤ MOST_SLOTS }
    ensures { result ≡ count_by is_none slots.now }
{
    slots.iter().filter(|slot| slot.is_none()).count() as u8
}

/// Follows the process in one slot; whether its link changed.
fn retarget_slot(slot: &mut Option<Link>, about: Pid, at: u8, moves: u32) -> bool
    ensures slot { slot.new ≡ retargeted_slot about at moves slot.old }
    ensures changed { result ≡ slot_is_behind about moves slot.old }
{
    match slot {
        Some(link) => link.retarget(about, at, moves),
        None => false,
    }
}

/// Follows the process in the slots that lead to it; how many links changed.
pub fn retarget_slots(
    slots: &mut [Option<Link>],
    leading: u128,
    about: Pid,
    at: u8,
    moves: u32,
) -> u8
    requires cap { length slots.old ≤ MOST_SLOTS }
    requires leading { (s : ℕ) → bit_at leading s ≡ leads about (link_at slots.old s) }
    ensures links { slots.new ≡ map (retargeted_slot about at moves) slots.old }
    ensures changed { result ≡ count_by (slot_is_behind about moves) slots.old }
    ensures plain { map plain_slot slots.new ≡ map plain_slot slots.old }
{
    let mut left = leading;
    let mut changed = 0;
    while left != 0 {
        let slot = lowest_slot(left);
        left = without_slot(left, slot);
        if retarget_slot(&mut slots[slot as usize], about, at, moves) {
            changed += 1;
        }
    }
    changed
}
