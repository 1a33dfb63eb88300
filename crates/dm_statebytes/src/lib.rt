//! A process as bytes, without its memory and its queue: what a machine hands on first when a process moves.
#![tactic(auto)]

ghost use Rattle.std.specs.Prelude.{◌≡◌, ◌⊎◌, ◌≤◌, [], IfOk, None, Ok, OnOk, length, replicate};
ghost use Rattle.dm_process.specs.Lawful.{IsLawfulProcess};
ghost use Rattle.dm_statebytes.specs.Lawful.{IsLawfulShell};
ghost use Rattle.dm_statebytes.specs.Rules.{number_of_rule, rule_of};
ghost use Rattle.dm_statebytes.specs.Shell.{shell, shell_of, shell_of_bytes, shell_spelling};
ghost use Rattle.dm_statebytes.specs.Widths.{FitsShell};

mod reading;
pub mod server;
mod status;
mod writing;

use dm_link::Pid;
use dm_linktable::{FEW_SLOTS, MOST_SLOTS, Table};
pub use dm_memory::NoMemory;
use dm_memory::from_slice;
use dm_packet::PacketError;
use dm_packet::writing::Buffer;
use dm_process::{Process, Status};
use dm_processor::Regs;
use reading::state_at;
use std::alloc::Global;
use thiserror::Error;
use writing::{extend_with_links, put_front, put_mask};

/// The fewest bytes that a state has: no link, and a process that is ready.
pub const LEAST_STATE: usize = 102;

/// The most bytes that a state has: 128 links, and a data move under way.
pub const MOST_STATE: usize = 3201;

/// The parts of a process that its state bytes carry.
#[derive(Drop)]
pub struct Shell {
    pub pid: Pid,
    /// How many blocks of 256 bytes its memory has, 1 to 256.
    pub blocks: u16,
    /// A stopped process isn't served.
    pub stopped: bool,
    pub status: Status,
    /// How many messages it has sent.
    pub sent: u32,
    /// How often it has moved.
    pub moves: u32,
    pub regs: Regs,
    pub table: Table,
}

/// Why some bytes are no process: the first rule that they break, from the left.
#[derive(Clone, Copy, Debug, Error)]
pub enum StateBytesError {
    /// A field's bytes are not all there.
    #[error("bytes are missing")]
    Missing,
    /// The version isn't that of the format: 3 of a process, 4 of a server.
    #[error("another version")]
    Version,
    /// A machine is above 15, or the name is another than the server's.
    #[error("no such machine, or not the server's name")]
    Machine,
    /// Neither stopped nor not, no such status or direction, spare flags, or a link to a kernel; of a server no such kind of request, or
    /// neither a link for the answer nor none.
    #[error("a byte that stands for nothing, or flags that no link of a process has")]
    Flags,
    /// A number of blocks, a channel or a range outside its limits, or a link in a slot that the table doesn't have; of a server the length
    /// of a name, or a name that stood before.
    #[error("a number outside its limits")]
    Limit,
    /// Bytes stand after the end.
    #[error("bytes stand after the end")]
    Trailing,
}

impl StateBytesError {
    /// The rule's number, 1 to 6.
    pub fn number(self) -> u8
        ensures { result ≡ number_of_rule self }
    {
        match self {
            StateBytesError::Missing => 1,
            StateBytesError::Version => 2,
            StateBytesError::Machine => 3,
            StateBytesError::Flags => 4,
            StateBytesError::Limit => 5,
            StateBytesError::Trailing => 6,
        }
    }
}

/// The rule that a field breaks.
fn rule_of(bad: PacketError) -> StateBytesError
    ensures { result ≡ rule_of bad }
{
    match bad {
        PacketError::Missing => StateBytesError::Missing,
        PacketError::Version => StateBytesError::Version,
        PacketError::Machine => StateBytesError::Machine,
        PacketError::Flags
        | PacketError::PacketKind
        | PacketError::MessageKind
        | PacketError::Answer => StateBytesError::Flags,
        PacketError::Limit => StateBytesError::Limit,
        PacketError::Trailing => StateBytesError::Trailing,
    }
}

/// The state bytes of a process, 102 to 3,201.
pub fn pack(alloc: Global, process: &Process) -> Result<Vec<u8>, NoMemory>
    requires lawful { IsLawfulProcess process.now }
    ensures ok { IfOk result (λ v. v.items ≡ shell_spelling (shell_of process.now)) }
    ensures size { IfOk result (λ v. (LEAST_STATE ≤ length v.items) × (length v.items ≤ MOST_STATE)) }
    ensures lawful { IsLawfulShell (length process.now.table) (shell_of process.now) }
    // What is packed is unpacked at the table's number of slots.
    ensures again { IfOk result (λ v. (shell (length process.now.table)).read v.items ≡ Ok (shell_of process.now, [])) }
{
    let mut room = Buffer::new();
    put_front(&mut room, process);
    put_mask(&mut room, &process.table);
    let mut bytes = from_slice(alloc, &room)?;
    extend_with_links(&mut bytes, &process.table, &mut room)?;
    Ok(bytes)
}

/// The process that the bytes spell, all of them, with a table of 32 or 128 slots, or the first rule from the left that
/// they break. It takes no memory: the table is one that is handed in, empty.
pub fn unpack(bytes: &[u8], cap: u8, empty: Table) -> Result<Shell, StateBytesError>
    requires cap { (cap ≡ FEW_SLOTS) ⊎ (cap ≡ MOST_SLOTS) }
    requires empty { empty ≡ replicate cap None }
    // Which process, and which rule.
    ensures exact { result ≡ shell_of_bytes bytes.now cap }
    // What is read is lawful, and spelled so and in no other way.
    ensures found { IfOk result (λ s. IsLawfulShell cap s × (bytes.now ≡ shell_spelling s)) }
    // What is spelled so is read, where its numbers fit their fields, as those of a process that stands in memory do.
    ensures only { (s : Shell) → IsLawfulShell cap s → FitsShell s → bytes.now ≡ shell_spelling s → result ≡ Ok s }
    ensures size { OnOk result (length bytes.now ≤ MOST_STATE) }
{
    state_at(bytes, cap, empty)
}
