//! Limits on the bytes of one call, and the calls that are to fail.
ghost use Rattle.std.specs.Prelude.{◌≡◌, ◌==◌, ◌&&◌, length, nat_lt};
ghost use Rattle.dm_outside.specs.Memory.{is_listed, within_limit};

/// `n`, or the limit where that is less.
pub fn within(limit: Option<usize>, n: usize) -> usize
    ensures { result ≡ within_limit limit n }
{
    match limit {
        None => n,
        Some(most) => most.min(n),
    }
}

/// Whether a call is among those that are to fail.
pub fn is_to_fail(fails: &[u64], call: u64) -> bool
    ensures { result ≡ is_listed fails.now call }
{
    fails.contains(&call)
}

/// Whether a piece that isn't empty has no room.
pub fn has_no_room(free: usize, piece: &[u8]) -> bool
    ensures { result ≡ (free == 0 && nat_lt 0 (length piece.now)) }
{
    free == 0 && !piece.is_empty()
}
