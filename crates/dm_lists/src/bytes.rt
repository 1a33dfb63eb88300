//! Bytes that are read from the left.
ghost use Rattle.std.specs.Prelude.{length, ◌==◌, ◌≡◌};

/// Whether nothing is left to read: a packet ends with its last field.
pub fn is_over(rest: &[u8]) -> bool
    ensures { result ≡ (length rest.now == 0) }
{
    rest.is_empty()
}
