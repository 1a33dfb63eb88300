//! Rings, of the crate `circular_buffer`.
ghost use Rattle.std.specs.Prelude.{◌≡◌, ◌<◌, ◌≤◌, ◌∷◌, [], IfOk};
ghost use Rattle.circular_buffer.specs.Buffer.{buffer};

use crate::NoMemory;
use circular_buffer::HeapCircularBuffer;
use std::alloc::Global;

/// A ring of so many places, 1 to 256, with a value at the first. Where memory lacks the value is let go.
pub fn ring<T: Drop>(
    alloc: Global,
    places: usize,
    first: T,
) -> Result<HeapCircularBuffer<T>, NoMemory>
    requires some { 0 < places }
    requires most { places ≤ 256 }
    ensures { IfOk result (λ ring. ring ≡ buffer (first ∷ []) places) }
{
    match HeapCircularBuffer::with_capacity(alloc, places) {
        Ok(mut ring) => {
            let _ = ring.push_back(first);
            Ok(ring)
        }
        Err(_) => Err(NoMemory(())),
    }
}
