//! Reading a whole file.
ghost use Rattle.std.specs.Prelude.{◌≡◌, ◌≤◌, ◌<◌, ◌+◌, length, IfOk, IfErr, vec_len};
ghost use Rattle.dm_front.specs.Files.{IsFile, IsLonger, MeetsReads, SoFar};
ghost use Rattle.dm_front.specs.Outside.{shelf_around};

use dm_memory::{NoMemory, extend_from_slice};
use dm_outside::Shelf;
use std::alloc::Global;

/// Why a file was not read.
#[derive(Clone, Copy, Debug)]
pub enum ReadError {
    /// The shelf failed.
    Fault,
    /// No memory was left.
    NoMemory(NoMemory),
    /// The file has more bytes than it may have.
    TooLong,
}

/// Reads a whole file of at most so many bytes, unless a read fails: one that failed isn't tried again.
pub fn read_file<F: Shelf>(
    alloc: Global,
    shelf: &mut F,
    name: &str,
    most: u32,
) -> Result<Vec<u8>, ReadError>
    ensures shelf { MeetsReads name.now (shelf_around F.asked F.told F.faults F.last_failed shelf.old shelf.new) result }
    ensures whole { IfOk result (λ bytes. IsFile (F.told shelf.old) name.now bytes.items) }
    ensures within { IfOk result (λ bytes. length bytes.items ≤ most) }
    ensures long { IfErr result (λ e. e ≡ ReadError.TooLong → IsLonger (F.told shelf.old) name.now most) }
{
    let mut bytes = Vec::new(alloc);
    let mut room = [0; 4096];
    'pieces: while bytes.len() <= most as usize {
        if read_piece(shelf, name, &mut bytes, &mut room)? == 0 {
            return Ok(bytes);
        }
    }
    Err(ReadError::TooLong)
}

/// Reads the next piece of a file, of which these bytes were read, as much as there is room for, and says how many bytes it
/// has: none at the end.
fn read_piece<F: Shelf>(
    shelf: &mut F,
    name: &str,
    bytes: &mut Vec<u8>,
    room: &mut [u8],
) -> Result<usize, ReadError>
    requires room { 0 < length room.old }
    ensures shelf { MeetsReads name.now (shelf_around F.asked F.told F.faults F.last_failed shelf.old shelf.new) result }
    ensures grows { IfOk result (λ n. vec_len bytes.new ≡ vec_len bytes.old + n) }
    ensures so_far { IfOk result (λ n. SoFar (F.told shelf.old) name.now bytes.old.items → SoFar (F.told shelf.old) name.now bytes.new.items) }
    ensures ended { IfOk result (λ n. n ≡ 0 → SoFar (F.told shelf.old) name.now bytes.old.items → IsFile (F.told shelf.old) name.now bytes.new.items) }
    ensures never_long { IfErr result (λ e. e ≡ ReadError.TooLong → ⊥) }
{
    let from = bytes.len() as u64;
    match shelf.read(name, from, room) {
        Ok(n) => match extend_from_slice(bytes, &room[..n]) {
            Ok(()) => Ok(n),
            Err(no) => Err(ReadError::NoMemory(no)),
        },
        Err(_) => Err(ReadError::Fault),
    }
}
