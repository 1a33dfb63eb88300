//! What holds of a machine's room over any reserving and releasing.
ghost use Rattle.std.specs.Prelude.{List, ℕ};
ghost use Rattle.dm_room.specs.Held.{Event, IsExact, run, start};

/// What is taken is what was reserved and not released, and each reservation may be released.
pub fn any_reservations()
    ensures { (slots blocks : ℕ) (events : List Event) → IsExact slots blocks (run events (start slots blocks)) }
{}
