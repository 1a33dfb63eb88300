//! Numbers of fixed sizes, and names of processes and messages, as they are printed.
ghost use Rattle.std.specs.Prelude.{◌≡◌, Some};
ghost use Rattle.dm_reading.specs.Cuts.{pieces};
ghost use Rattle.dm_link.specs.Names.{pid_of};
ghost use Rattle.dm_text.specs.Reading.{◌<*>◌, message_named, message_numbered, read_id, read_pid, read_u32, read_u64, read_u8};

use dm_link::Pid;
use dm_message::MsgId;
use dm_reading::{printed_number, split};

/// The number below 2^8 that a word spells.
pub fn byte(word: &[u8]) -> Option<u8>
    ensures { result ≡ read_u8 word.now }
{
    let n = printed_number(word, u128::from(u8::MAX))?;
    Some(n as u8)
}

/// The number below 2^32 that a word spells.
pub fn count(word: &[u8]) -> Option<u32>
    ensures { result ≡ read_u32 word.now }
{
    let n = printed_number(word, u128::from(u32::MAX))?;
    Some(n as u32)
}

/// The number below 2^64 that a word spells.
pub fn wide(word: &[u8]) -> Option<u64>
    ensures { result ≡ read_u64 word.now }
{
    let n = printed_number(word, u128::from(u64::MAX))?;
    Some(n as u64)
}

/// The process that a word names, as in 0.3.
#[tactic(auto, unfolding(dm_text::specs::Reading::read_pid))]
pub fn process(word: &[u8]) -> Option<Pid>
    ensures { result ≡ read_pid word.now }
{
    let (home, num) = split(word, b'.');
    match num {
        None => None,
        Some(num) => process_of(home, num),
    }
}

/// The process of this home and number.
fn process_of(home: &[u8], num: &[u8]) -> Option<Pid>
    ensures { result ≡ Some pid_of <*> read_u8 home.now <*> read_u32 num.now }
{
    let home = byte(home)?;
    let num = count(num)?;
    Some(Pid { home, num })
}

/// The message that a word names, as in 0.3#1, or 0.3#1! for the answer to it.
#[tactic(auto, unfolding(dm_text::specs::Reading::read_id))]
pub fn message(word: &[u8]) -> Option<MsgId>
    ensures { result ≡ read_id word.now }
{
    let (from, n) = split(word, b'#');
    match n {
        None => None,
        Some(n) => numbered(from, n),
    }
}

/// The message of this sender, and of this number or the answer to it.
#[tactic(auto, unfolding(dm_reading::specs::Cuts::pieces))]
fn numbered(from: &[u8], n: &[u8]) -> Option<MsgId>
    ensures { result ≡ message_numbered (read_pid from.now) (pieces 33 n.now) }
{
    let (n, mark) = split(n, b'!');
    match mark {
        None => message_of(from, n, false),
        Some(rest) => {
            if rest.is_empty() {
                message_of(from, n, true)
            } else {
                None
            }
        }
    }
}

/// The message of this sender and number, or the answer to it.
fn message_of(from: &[u8], n: &[u8], answer: bool) -> Option<MsgId>
    ensures { result ≡ Some (message_named answer) <*> read_pid from.now <*> read_u32 n.now }
{
    let from = process(from)?;
    let n = count(n)?;
    Some(MsgId { from, n, answer })
}
