//! What the assembler makes.
ghost use Rattle.std.specs.Prelude.{◌≡◌, ◌≤◌, length};

use dm_processor::MOST_MEMORY;
use std::marker::Model;

/// The bytes that a memory begins with: at most 65,536.
#[derive(Drop)]
pub struct Image {
    bytes: Vec<u8>,
}

impl Model for Image {
    ghost use Rattle.std.specs.Prelude.{List, ℕ, ◌≤◌, length};

    ghost Value = { List ℕ };

    ghost view = { λ image. image.bytes.items };

    ghost invariant = { λ image. length image.bytes.items ≤ 65536 };
}

impl Image {
    /// An image of these bytes.
    pub(crate) fn new(bytes: Vec<u8>) -> Image
        requires { length bytes.items ≤ MOST_MEMORY }
        ensures { result ≡ bytes.items }
    {
        Image { bytes }
    }

    /// The vector of the bytes.
    pub fn into_bytes(self) -> Vec<u8>
        ensures { result.items ≡ self }
    {
        let Image { bytes } = self;
        bytes
    }

    /// The bytes, at most 65,536.
    pub fn as_bytes(&self) -> &[u8]
        ensures bytes { result.now ≡ self.now }
        ensures most { length result.now ≤ MOST_MEMORY }
    {
        self.bytes.as_slice()
    }
}
