//! Writing what is in messages: the lines `content` and `carries`.
ghost use Rattle.std.specs.Prelude.{◌≡◌, [], ◌∷◌, ◌++◌, OnOk, codes, map};
ghost use Rattle.dm_message.specs.Kinds.{kind_of, word_of};
ghost use Rattle.dm_look.specs.Letters.{letter_of};
ghost use Rattle.dm_look.specs.LetterText.{body_words, carried_text, text_of_letter};
ghost use Rattle.dm_text.specs.Text.{spaced, spelled_line};
ghost use Rattle.dm_text.specs.Words.{id_word, pid_word};
ghost use Rattle.dm_text.specs.Written.{word_text};

use dm_link::Link;
use dm_memory::{NoMemory, extend_from_slice, push};
use dm_message::{Message, MsgId, What};
use dm_text::ends::put_linked;
use dm_text::word::Word::{self, Byte, Bytes, Message as Named, Name, Number, Process};
use dm_text::word::put_words;

/// Writes what is in a message, if the kernel without machines has it: its line, and a line for each link that it encloses.
pub fn write_letter(message: &Message, into: &mut Vec<u8>) -> Result<(), NoMemory>
    ensures { OnOk result (into.new.items ≡ into.old.items ++ text_of_letter (letter_of message.now)) }
{
    match message.what {
        What::User {
            code,
            channel,
            ref body,
            ref links,
        } => {
            let words = [Name("code"), Number(code), Name("channel"), Byte(channel)];
            put_bodied(into, message, &words, body)?;
            put_carried(into, message.id, links)
        }
        What::Read { base, len } => put_content(
            into,
            message,
            &[
                Name("base"),
                Number(base),
                Name("length"),
                Number(u32::from(len)),
            ],
        ),
        What::Write { base, ref bytes } => {
            put_bodied(into, message, &[Name("base"), Number(base)], bytes)
        }
        What::Block { ref bytes } => put_bodied(into, message, &[], bytes),
        What::Create { image, ref links } => {
            put_content(into, message, &[Name("image"), Number(u32::from(image))])?;
            put_carried(into, message.id, links)
        }
        What::Created { pid } => put_content(into, message, &[Name("process"), Process(pid)]),
        What::Move { machine } => put_content(into, message, &[Name("machine"), Byte(machine)]),
        What::Moved { outcome } => {
            put_content(into, message, &[Name("result"), Byte(outcome.code())])
        }
        What::Stop | What::Resume | What::Kill | What::Written | What::Gone | What::NoRoom =>
            put_content(into, message, &[]),
        _ => Ok(()),
    }
}

/// Writes the line of a message that says so much.
fn put_content(into: &mut Vec<u8>, message: &Message, words: &[Word]) -> Result<(), NoMemory>
    ensures { OnOk result (into.new.items ≡ into.old.items ++ spelled_line
        (codes "content" ∷ id_word message.now.id ∷ word_of (kind_of message.now.what) ∷ pid_word message.now.to.pid ∷ map word_text words.now)) }
{
    put_front(into, message)?;
    put_words(into, words)?;
    push(into, b'\n')?;
    Ok(())
}

/// Writes the line of a message that says so much, and then a body.
fn put_bodied(
    into: &mut Vec<u8>,
    message: &Message,
    words: &[Word],
    body: &[u8],
) -> Result<(), NoMemory>
    ensures { OnOk result (into.new.items ≡ into.old.items ++ spelled_line
        (codes "content" ∷ id_word message.now.id ∷ word_of (kind_of message.now.what) ∷ pid_word message.now.to.pid ∷ (map word_text words.now ++ body_words body.now))) }
{
    put_front(into, message)?;
    put_words(into, words)?;
    put_body(into, body)?;
    push(into, b'\n')?;
    Ok(())
}

/// Writes the words before what a message says: its name, its kind, and who gets it.
fn put_front(into: &mut Vec<u8>, message: &Message) -> Result<(), NoMemory>
    ensures { OnOk result (into.new.items ≡ into.old.items ++ (codes "content" ++ spaced
        (id_word message.now.id ∷ word_of (kind_of message.now.what) ∷ pid_word message.now.to.pid ∷ []))) }
{
    let kind = message.what.kind();
    extend_from_slice(into, b"content")?;
    put_words(
        into,
        &[
            Named(message.id),
            Name(kind.word()),
            Process(message.to.pid),
        ],
    )
}

/// Writes the words of a body, each behind a space.
fn put_body(into: &mut Vec<u8>, body: &[u8]) -> Result<(), NoMemory>
    ensures { OnOk result (into.new.items ≡ into.old.items ++ spaced (body_words body.now)) }
{
    if body.is_empty() {
        return put_words(into, &[Name("length"), Name("0")]);
    }
    let length = body.len() as u64;
    put_words(
        into,
        &[
            Name("length"),
            Word::Wide(length),
            Name("body"),
            Bytes(body),
        ],
    )
}

/// Writes a line for each enclosed link, by its place.
fn put_carried(into: &mut Vec<u8>, id: MsgId, links: &[Link]) -> Result<(), NoMemory>
    ensures { OnOk result (into.new.items ≡ into.old.items ++ carried_text id 0 links.now) }
{
    for (place, link) in links.iter().enumerate() {
        put_linked(
            into,
            "carries",
            &[Named(id), Word::Wide(place as u64)],
            link,
        )?;
    }
    Ok(())
}
