//! The boot file: which machines, images and processes a system starts with.
#![tactic(auto)]

ghost use Rattle.std.specs.Prelude.{IfOk};
ghost use Rattle.dm_onekernel.specs.Boot.{IsValid};
ghost use Rattle.dm_boot.specs.Boot.{Answers, boot_of};

mod checks;
pub mod document;
mod images;
pub mod limits;
mod links;
mod machines;
pub mod names;
mod processes;
mod rules;
pub mod shapes;
mod starts;
mod system;
pub mod tables;
mod taken;
pub mod targets;

use dm_memory::of_toml::{DocumentError, table_from_slice};
use dm_onekernel::boot::Boot;
pub use rules::{BootError, BootRule};
use std::alloc::Global;
use system::system_of;
use toml::Value;

/// The most images that a boot file has.
pub const MOST_IMAGES: usize = 256;

/// The most processes that a boot file has: 255 on each of 16 machines.
pub const MOST_PROCESSES: usize = 4080;

/// Reads the system that a boot file describes, or the first rule that it breaks.
#[tactic(auto, using(crate::proofs::Validity::valid_lemmas))]
pub fn read_boot(alloc: Global, bytes: &[u8]) -> Result<Boot, BootError>
    ensures answers { Answers (boot_of bytes.now) result }
    ensures valid { IfOk result (λ b. IsValid b) }
{
    read(alloc, bytes)
}

/// Reads the document, and then its top table.
#[tactic(auto, unfolding(crate::specs::Boot::boot_of), using(crate::proofs::Documents::document_lemmas))]
fn read(alloc: Global, bytes: &[u8]) -> Result<Boot, BootError>
    ensures { Answers (boot_of bytes.now) result }
{
    match table_from_slice(alloc, bytes) {
        Ok(table) => system_of(alloc, &Value::Table(table)),
        Err(DocumentError::Unread) => Err(BootError::Refused {
            rule: BootRule::Document,
            place: 0,
        }),
        Err(DocumentError::NoMemory(none)) => Err(BootError::NoMemory(none)),
    }
}
