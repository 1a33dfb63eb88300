//! Writing within the room that there is: only making room takes memory, so nothing else here can fail.
//! What is written ends at a place of the room; each function is told that place, and says where it ends then.
ghost use Rattle.std.specs.Prelude.{◌≡◌, [], ◌+◌, ◌/◌, ◌%◌, ◌<◌, ◌≤◌, ◌∷◌, ◌++◌, OnOk, codes, length, take, vec_len};
ghost use Rattle.std.specs.Fmt.{decimal};
ghost use Rattle.dm_text.specs.Words.{id_word, pid_word};

use dm_link::Pid;
use dm_memory::{NoMemory, append_zeros};
use dm_message::MsgId;
use itoa::Buffer;

/// The room for a line of a group, in bytes: no line is longer.
pub(crate) const LINE_ROOM: usize = 256;

/// Makes room for a line of a group behind a place of a page.
#[inline]
pub(crate) fn make_room(page: &mut Vec<u8>, at: usize) -> Result<(), NoMemory>
    requires { at ≤ vec_len page.old }
    ensures room { OnOk result (at + LINE_ROOM ≤ vec_len page.new) }
    ensures text { take at page.new.items ≡ take at page.old.items }
    ensures within { at ≤ vec_len page.new }
{
    if page.len() - at >= LINE_ROOM {
        return Ok(());
    }
    grow(page)
}

/// Makes the page longer by the room for a line of a group.
#[inline(never)]
#[cold]
fn grow(page: &mut Vec<u8>) -> Result<(), NoMemory>
    ensures room { OnOk result (vec_len page.new ≡ vec_len page.old + LINE_ROOM) }
    ensures text { take (vec_len page.old) page.new.items ≡ page.old.items }
    ensures longer { vec_len page.old ≤ vec_len page.new }
{
    append_zeros(page, LINE_ROOM as u32)
}

/// Puts a byte.
#[inline(always)]
fn put_byte(room: &mut [u8], at: usize, byte: u8) -> usize
    requires { at < length room.old }
    ensures text { take result room.new ≡ take at room.old ++ byte ∷ [] }
    ensures at { result ≡ at + 1 }
{
    room[at] = byte;
    at + 1
}

/// Puts a few bytes.
#[inline(always)]
pub(crate) fn put_bytes(room: &mut [u8], at: usize, bytes: &[u8]) -> usize
    requires { at + length bytes.now ≤ length room.old }
    ensures text { take result room.new ≡ take at room.old ++ bytes.now }
    ensures at { result ≡ at + length bytes.now }
{
    let mut end = at;
    for byte in bytes {
        end = put_byte(room, end, *byte);
    }
    end
}

/// The two digits of each number below 100.
static PAIRS: [u8; 200] =
    *b"00010203040506070809101112131415161718192021222324252627282930313233343536373839404142434445464748495051525354555657585960616263646566676869707172737475767778798081828384858687888990919293949596979899";

/// Puts the two digits of a number below 100.
#[inline(always)]
fn put_two_digits(room: &mut [u8], at: usize, n: u64) -> usize
    requires digits { n < 100 }
    requires room { at + 2 ≤ length room.old }
    ensures text { take result room.new ≡ take at room.old ++ (48 + n / 10) ∷ (48 + n % 10) ∷ [] }
    ensures at { result ≡ at + 2 }
{
    let first = n as usize * 2;
    let (ten, one) = (PAIRS[first], PAIRS[first + 1]);
    let half = put_byte(room, at, ten);
    put_byte(room, half, one)
}

/// Puts a number of any digits.
#[inline(never)]
#[cold]
fn put_long(room: &mut [u8], at: usize, n: u64) -> usize
    requires { at + 20 ≤ length room.old }
    ensures text { take result room.new ≡ take at room.old ++ decimal n }
    ensures at { result ≤ at + 20 }
{
    let mut buffer = Buffer::new();
    put_bytes(room, at, buffer.format(n).as_bytes())
}

/// Puts a number of more than two digits, which few have.
#[inline(never)]
#[cold]
fn put_many_digits(room: &mut [u8], at: usize, n: u64) -> usize
    requires digits { 100 ≤ n }
    requires room { at + 20 ≤ length room.old }
    ensures text { take result room.new ≡ take at room.old ++ decimal n }
    ensures at { result ≤ at + 20 }
{
    if n >= 1000 {
        return put_long(room, at, n);
    }
    let one = put_byte(room, at, b'0' + (n / 100) as u8);
    put_two_digits(room, one, n % 100)
}

/// Puts a number in decimal; most have one digit or two.
#[inline(always)]
#[tactic(auto, using(std::proofs::lemmas::Fmt::decimal_digit, crate::proofs::Numbers::two_digits))]
pub(crate) fn put_number(room: &mut [u8], at: usize, n: u64) -> usize
    requires { at + 20 ≤ length room.old }
    ensures text { take result room.new ≡ take at room.old ++ decimal n }
    ensures at { result ≤ at + 20 }
{
    if n < 10 {
        put_byte(room, at, b'0' + n as u8)
    } else if n < 100 {
        put_two_digits(room, at, n)
    } else {
        put_many_digits(room, at, n)
    }
}

/// Puts a number behind a space.
#[inline(always)]
pub(crate) fn put_spaced_number(room: &mut [u8], at: usize, n: u64) -> usize
    requires { at + 21 ≤ length room.old }
    ensures text { take result room.new ≡ take at room.old ++ codes " " ++ decimal n }
    ensures at { result ≤ at + 21 }
{
    let begun = put_byte(room, at, b' ');
    put_number(room, begun, n)
}

/// The numbers of two machines, in their order.
#[inline(always)]
fn pair(a: u8, b: u8) -> [u64; 2]
    ensures { result ≡ a ∷ b ∷ [] }
{
    [u64::from(a), u64::from(b)]
}

/// Puts two machines, each behind a space.
#[inline(always)]
pub(crate) fn put_spaced_pair(room: &mut [u8], at: usize, a: u8, b: u8) -> usize
    requires { at + 42 ≤ length room.old }
    ensures text { take result room.new ≡ take at room.old ++ codes " " ++ decimal a ++ codes " " ++ decimal b }
    ensures at { result ≤ at + 42 }
{
    let [first, second] = pair(a, b);
    let one = put_spaced_number(room, at, first);
    put_spaced_number(room, one, second)
}

/// Puts the name of a process behind a space.
#[inline(always)]
pub(crate) fn put_spaced_pid(room: &mut [u8], at: usize, pid: Pid) -> usize
    requires { at + 42 ≤ length room.old }
    ensures text { take result room.new ≡ take at room.old ++ codes " " ++ pid_word pid }
    ensures at { result ≤ at + 42 }
{
    let home = put_spaced_number(room, at, u64::from(pid.home));
    let dot = put_byte(room, home, b'.');
    put_number(room, dot, u64::from(pid.num))
}

/// Puts the name of a message behind a space.
#[inline(always)]
pub(crate) fn put_spaced_id(room: &mut [u8], at: usize, id: MsgId) -> usize
    requires { at + 64 ≤ length room.old }
    ensures text { take result room.new ≡ take at room.old ++ codes " " ++ id_word id }
    ensures at { result ≤ at + 64 }
{
    let from = put_spaced_pid(room, at, id.from);
    let sign = put_byte(room, from, b'#');
    let number = put_number(room, sign, u64::from(id.n));
    if id.answer {
        put_byte(room, number, b'!')
    } else {
        number
    }
}

/// Puts a word of at most 16 bytes behind a space.
#[inline(always)]
pub(crate) fn put_spaced_word(room: &mut [u8], at: usize, word: &str) -> usize
    requires short { length word.now ≤ 16 }
    requires room { at + 17 ≤ length room.old }
    ensures text { take result room.new ≡ take at room.old ++ codes " " ++ word.now }
    ensures at { result ≤ at + 17 }
{
    let begun = put_byte(room, at, b' ');
    put_bytes(room, begun, word.as_bytes())
}

/// Ends a line.
#[inline(always)]
pub(crate) fn end_line(room: &mut [u8], at: usize) -> usize
    requires { at < length room.old }
    ensures text { take result room.new ≡ take at room.old ++ codes "\n" }
    ensures within { result ≤ length room.old }
{
    put_byte(room, at, b'\n')
}
