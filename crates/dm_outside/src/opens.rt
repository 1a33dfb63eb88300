//! What the shelf of real files is lent of the system: to open a file for reading, and nothing else.
ghost use Rattle.std.specs.Prelude.{ℕ, List, IfSome};

use std::fs;
use std::fs::Files;
use std::io::Read;

/// What opens files by their names, for reading. Who holds no more of the system makes no file, and changes, renames or removes none.
pub trait Opens {
    /// An open file.
    type File: Read + Drop;

    // This file was opened under this name. What holds of it isn't known of every system: so a file of another name isn't this one.
    ghost named: { Self → List ℕ → Self.File → Type 0 };

    /// Opens the file of this name at its first byte.
    fn open_named(&self, name: &str) -> Option<Self::File>
        ensures { IfSome result (λ f. named self.now name.now f) };
}

impl<R: Files> Opens for &R {
    ghost use Rattle.std.specs.Prelude.{⊤};

    type File = R::File;

    // The system says nothing of what it opens.
    ghost named = { λ _ _ _. ⊤ };

    fn open_named(&self, name: &str) -> Option<R::File> {
        fs::open(*self, name).ok()
    }
}
