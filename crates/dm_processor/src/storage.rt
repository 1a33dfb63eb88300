//! What a memory is.
ghost use Rattle.std.specs.Prelude.{◌≡◌, ◌+◌, ◌%◌, ◌≤◌, ◌<◌, ◌++◌, ℕ, List, drop, length, slice_index, slice_set, take};

/// A memory of bytes at the addresses 0, 1, 2 and so on. No method takes memory.
pub trait Cells {
    ghost bytes: { Self → List ℕ };

    /// How many bytes there are.
    fn len(&self) -> u32
        ensures { result ≡ length (bytes self.now) };

    /// The byte at an address.
    fn byte(&self, at: u32) -> u8
        requires { at < length (bytes self.now) }
        ensures { result ≡ slice_index (bytes self.now) at };

    /// The four bytes at an address of a word.
    fn four_bytes(&self, at: u32) -> [u8; 4]
        requires within { at + 4 ≤ length (bytes self.now) }
        requires aligned { at % 4 ≡ 0 }
        ensures { result ≡ take 4 (drop at (bytes self.now)) };

    /// Changes the byte at an address.
    fn set_byte(&mut self, at: u32, value: u8)
        requires { at < length (bytes self.old) }
        ensures { bytes self.new ≡ slice_set (bytes self.old) at value };

    /// Copies the bytes from an address on into a slice, and fills it.
    fn copy_out(&self, at: u32, into: &mut [u8])
        requires { at + length into.old ≤ length (bytes self.now) }
        ensures { into.new ≡ take (length into.old) (drop at (bytes self.now)) };

    /// Copies all of a slice to an address.
    fn copy_in(&mut self, at: u32, from: &[u8])
        requires { at + length from.now ≤ length (bytes self.old) }
        ensures { bytes self.new ≡ take at (bytes self.old) ++ from.now ++ drop (at + length from.now) (bytes self.old) };
}
