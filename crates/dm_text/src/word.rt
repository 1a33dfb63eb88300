//! Writing the words of a line at the end of a text.
ghost use Rattle.std.specs.Prelude.{◌≡◌, [], ◌<◌, ◌≤◌, ◌∷◌, ◌++◌, OnErr, OnOk, codes, map};
ghost use Rattle.std.specs.Fmt.{decimal};
ghost use Rattle.dm_text.specs.Text.{spaced, spelled_line};
ghost use Rattle.dm_text.specs.Words.{hex, hex_digit, id_word, message_word, pid_word};
ghost use Rattle.dm_text.specs.Written.{Keeps, spellings, word_text};

use dm_link::Pid;
use dm_memory::{NoMemory, extend_from_slice, push};
use dm_message::MsgId;
use itoa::Buffer;

/// A word of a text.
#[derive(Clone, Copy)]
pub enum Word<'a> {
    Name(&'static str),
    Byte(u8),
    Number(u32),
    Wide(u64),
    Process(Pid),
    Message(MsgId),
    Bytes(&'a [u8]),
}

/// Writes a number of two digits.
fn put_two_digits(into: &mut Vec<u8>, n: u8) -> Result<(), NoMemory>
    requires { (10 ≤ n) × (n < 100) }
    ensures ok { OnOk result (into.new.items ≡ into.old.items ++ decimal n) }
    ensures err { OnErr result (into.new.items ≡ into.old.items) }
{
    extend_from_slice(into, &[b'0' + n / 10, b'0' + n % 10])?;
    Ok(())
}

/// Writes a number in decimal; most have one digit or two.
#[tactic(auto, using(std::proofs::lemmas::Fmt::decimal_digit))]
fn put_number(into: &mut Vec<u8>, n: u64) -> Result<(), NoMemory>
    ensures ok { OnOk result (into.new.items ≡ into.old.items ++ decimal n) }
    ensures err { OnErr result (into.new.items ≡ into.old.items) }
{
    if n < 10 {
        push(into, b'0' + n as u8)?;
        return Ok(());
    }
    if n < 100 {
        return put_two_digits(into, n as u8);
    }
    let mut buffer = Buffer::new();
    extend_from_slice(into, buffer.format(n).as_bytes())?;
    Ok(())
}

/// Writes the name of a process.
fn put_pid(into: &mut Vec<u8>, pid: Pid) -> Result<(), NoMemory>
    ensures ok { OnOk result (into.new.items ≡ into.old.items ++ pid_word pid) }
    ensures err { OnErr result (Keeps into.old.items into.new.items) }
{
    put_number(into, u64::from(pid.home))?;
    push(into, b'.')?;
    put_number(into, u64::from(pid.num))
}

/// Writes the name of a message.
fn put_id(into: &mut Vec<u8>, id: MsgId) -> Result<(), NoMemory>
    ensures ok { OnOk result (into.new.items ≡ into.old.items ++ id_word id) }
    ensures err { OnErr result (Keeps into.old.items into.new.items) }
{
    put_pid(into, id.from)?;
    push(into, b'#')?;
    put_number(into, u64::from(id.n))?;
    if id.answer {
        push(into, b'!')?;
    }
    Ok(())
}

/// The digit of a number below 16.
fn hex_digit(n: u8) -> u8
    requires { n < 16 }
    ensures { result ≡ hex_digit n }
{
    if n < 10 { b'0' + n } else { b'a' - 10 + n }
}

/// Writes bytes, two digits each.
fn put_hex(into: &mut Vec<u8>, bytes: &[u8]) -> Result<(), NoMemory>
    ensures ok { OnOk result (into.new.items ≡ into.old.items ++ hex bytes.now) }
    ensures err { OnErr result (Keeps into.old.items into.new.items) }
{
    for byte in bytes {
        push(into, hex_digit(*byte / 16))?;
        push(into, hex_digit(*byte % 16))?;
    }
    Ok(())
}

/// Writes a word.
pub fn put_bare(into: &mut Vec<u8>, word: &Word) -> Result<(), NoMemory>
    ensures ok { OnOk result (into.new.items ≡ into.old.items ++ word_text word.now) }
    ensures err { OnErr result (Keeps into.old.items into.new.items) }
{
    match *word {
        Word::Name(name) => {
            extend_from_slice(into, name.as_bytes())?;
            Ok(())
        }
        Word::Byte(n) => put_number(into, u64::from(n)),
        Word::Number(n) => put_number(into, u64::from(n)),
        Word::Wide(n) => put_number(into, n),
        Word::Process(pid) => put_pid(into, pid),
        Word::Message(id) => put_id(into, id),
        Word::Bytes(bytes) => put_hex(into, bytes),
    }
}

/// Writes a word behind a space.
fn put_word(into: &mut Vec<u8>, word: &Word) -> Result<(), NoMemory>
    ensures ok { OnOk result (into.new.items ≡ into.old.items ++ codes " " ++ word_text word.now) }
    ensures err { OnErr result (Keeps into.old.items into.new.items) }
{
    push(into, b' ')?;
    put_bare(into, word)
}

/// Writes words, each behind a space.
pub fn put_words(into: &mut Vec<u8>, words: &[Word]) -> Result<(), NoMemory>
    ensures ok { OnOk result (into.new.items ≡ into.old.items ++ spaced (map word_text words.now)) }
    ensures err { OnErr result (Keeps into.old.items into.new.items) }
{
    for word in words {
        put_word(into, word)?;
    }
    Ok(())
}

/// Writes the names of messages, each behind a space.
fn put_ids(into: &mut Vec<u8>, ids: &[MsgId]) -> Result<(), NoMemory>
    ensures ok { OnOk result (into.new.items ≡ into.old.items ++ spaced (map id_word ids.now)) }
    ensures err { OnErr result (Keeps into.old.items into.new.items) }
{
    for id in ids {
        put_word(into, &Word::Message(*id))?;
    }
    Ok(())
}

/// Writes numbers, each behind a space.
pub(crate) fn put_numbers(into: &mut Vec<u8>, numbers: &[u32]) -> Result<(), NoMemory>
    ensures ok { OnOk result (into.new.items ≡ into.old.items ++ spaced (map decimal numbers.now)) }
    ensures err { OnErr result (Keeps into.old.items into.new.items) }
{
    for n in numbers {
        put_word(into, &Word::Number(*n))?;
    }
    Ok(())
}

/// Writes the beginning of a line: a name and further words.
pub(crate) fn put_begun(into: &mut Vec<u8>, name: &str, words: &[Word]) -> Result<(), NoMemory>
    ensures ok { OnOk result (into.new.items ≡ into.old.items ++ name.now ++ spaced (map word_text words.now)) }
    ensures err { OnErr result (Keeps into.old.items into.new.items) }
{
    extend_from_slice(into, name.as_bytes())?;
    put_words(into, words)
}

/// Writes the last words of a line, each behind a space, and ends it.
pub(crate) fn put_last(into: &mut Vec<u8>, words: &[Word]) -> Result<(), NoMemory>
    ensures ok { OnOk result (into.new.items ≡ into.old.items ++ spaced (map word_text words.now) ++ codes "\n") }
    ensures err { OnErr result (Keeps into.old.items into.new.items) }
{
    put_words(into, words)?;
    push(into, b'\n')?;
    Ok(())
}

/// Writes a line of a name and further words.
pub(crate) fn put_line(into: &mut Vec<u8>, name: &str, words: &[Word]) -> Result<(), NoMemory>
    ensures ok { OnOk result (into.new.items ≡ into.old.items ++ spelled_line (name.now ∷ map word_text words.now)) }
    ensures err { OnErr result (Keeps into.old.items into.new.items) }
{
    put_begun(into, name, words)?;
    push(into, b'\n')?;
    Ok(())
}

/// Writes a line of a name, further words, and names of messages.
pub(crate) fn put_listed(
    into: &mut Vec<u8>,
    name: &str,
    words: &[Word],
    ids: &[MsgId],
) -> Result<(), NoMemory>
    ensures ok { OnOk result (into.new.items ≡ into.old.items ++ spelled_line (name.now ∷ (map word_text words.now ++ spellings (map message_word ids.now)))) }
    ensures err { OnErr result (Keeps into.old.items into.new.items) }
{
    put_begun(into, name, words)?;
    put_ids(into, ids)?;
    push(into, b'\n')?;
    Ok(())
}

/// Writes a line of a name and a number.
pub(crate) fn put_count(into: &mut Vec<u8>, name: &str, count: u128) -> Result<(), NoMemory>
    ensures ok { OnOk result (into.new.items ≡ into.old.items ++ spelled_line (name.now ∷ decimal count ∷ [])) }
    ensures err { OnErr result (Keeps into.old.items into.new.items) }
{
    let mut buffer = Buffer::new();
    extend_from_slice(into, name.as_bytes())?;
    push(into, b' ')?;
    extend_from_slice(into, buffer.format(count).as_bytes())?;
    push(into, b'\n')?;
    Ok(())
}
