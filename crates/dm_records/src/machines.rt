//! Sets of machines.
ghost use Rattle.std.specs.Prelude.{◌≡◌, ℕ, ◌<◌, ◌≤◌, ◌==◌, ◌&&◌, ◌||◌, IfNone, IfSome, false, length, not};
ghost use Rattle.dm_records.specs.Machines.{IsFirstFrom, has, machines_with};

use dm_link::MACHINES;

/// A set of machines, 0 to 15: bit m for machine m.
#[derive(Clone, Copy)]
pub struct Machines {
    bits: u16,
}

impl Machines {
    /// No machine.
    pub fn none() -> Machines
        ensures { (n : ℕ) → has result n ≡ false }
    {
        Machines { bits: 0 }
    }

    /// Whether a machine is one of them.
    pub fn has(self, machine: u8) -> bool
        requires { machine < MACHINES }
        ensures { result ≡ has self machine }
    {
        (self.bits >> machine) % 2 == 1
    }

    /// How many they are.
    pub fn count(self) -> u8
        ensures { result ≡ length (machines_with (has self)) }
    {
        let mut count = 0;
        for machine in 0..MACHINES {
            if self.has(machine) {
                count += 1;
            }
        }
        count
    }

    /// The same machines and one more.
    pub fn with(self, machine: u8) -> Machines
        requires { machine < MACHINES }
        ensures { (n : ℕ) → has result n ≡ (machine == n) || has self n }
    {
        Machines {
            bits: self.bits | 1 << machine,
        }
    }

    /// The same machines without one.
    pub fn without(self, machine: u8) -> Machines
        requires { machine < MACHINES }
        ensures { (n : ℕ) → n < MACHINES → has result n ≡ not (machine == n) && has self n }
    {
        Machines {
            bits: self.bits & !(1 << machine),
        }
    }

    /// The first of them from a machine on.
    pub fn first_from(self, machine: u8) -> Option<u8>
        ensures none { IfNone result ((n : ℕ) → machine ≤ n → has self n ≡ false) }
        ensures some { IfSome result (IsFirstFrom self machine) }
    {
        if machine >= MACHINES {
            return None;
        }
        let ahead = self.bits >> machine;
        if ahead == 0 {
            None
        } else {
            Some(machine + ahead.trailing_zeros() as u8)
        }
    }
}
