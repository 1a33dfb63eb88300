//! Documents, of the crate `toml`. Its reader tells want of memory by a kind of error of its own, and hands no
//! allocation's error on: so the kind is turned into want of memory here, at the call that it answers.
ghost use Rattle.std.specs.Prelude.{◌≡◌, ◌↔◌, IfErr, IfOk, IsUtf8, None, Some};
ghost use Rattle.toml.specs.Errors.{IsBlank, IsMemory};
ghost use Rattle.toml.specs.Parse.{parse_document};
ghost use Rattle.toml.specs.View.{table_view};
ghost use Rattle.dm_memory.specs.Toml.{DocumentLacksMemory};

use crate::NoMemory;
use std::alloc::Global;
use toml::Table;
use toml::de::Error;

/// Why there is no document.
#[derive(Clone, Copy, Debug)]
pub enum DocumentError {
    /// The bytes are none.
    Unread,
    /// No memory was left.
    NoMemory(NoMemory),
}

/// The top table of a document.
pub fn table_from_slice(alloc: Global, bytes: &[u8]) -> Result<Table, DocumentError>
    ensures ok { IfOk result (λ table. IsUtf8 bytes.now × (parse_document bytes.now ≡ Some (table_view table))) }
    ensures unread { IfErr result (λ no. no ≡ DocumentError.Unread → IsUtf8 bytes.now → parse_document bytes.now ≡ None) }
    ensures want { IfErr result (λ no. DocumentLacksMemory no → ¬ (IsBlank bytes.now)) }
{
    match toml::table_from_slice(alloc, bytes) {
        Ok(table) => Ok(table),
        Err(error) => Err(no_document(&error)),
    }
}

/// Why there is no document: only one kind of error is want of memory.
fn no_document(error: &Error) -> DocumentError
    ensures { DocumentLacksMemory result ↔ IsMemory error.now }
{
    if error.is_memory() {
        DocumentError::NoMemory(NoMemory(()))
    } else {
        DocumentError::Unread
    }
}
