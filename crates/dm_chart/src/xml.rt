//! Writing the elements of a document.
ghost use Rattle.std.specs.Prelude.{◌≡◌, ◌++◌, OnOk, map};
ghost use Rattle.std.specs.List.{concat};
ghost use Rattle.dm_text.specs.Written.{word_text};
ghost use Rattle.dm_chart.specs.Xml.{alone, attribute, attributes, closing, element_around, opening_tag};
ghost use Rattle.dm_chart.specs.Written.{seen};

use dm_memory::{NoMemory, extend_from_slice};
use dm_text::word::{Word, put_bare};

/// An attribute of an element: its name and its value.
#[derive(Clone, Copy)]
pub struct Attribute<'a>(pub &'static str, pub Word<'a>);

/// Writes a text.
pub fn put_text(into: &mut Vec<u8>, text: &'static str) -> Result<(), NoMemory>
    ensures { OnOk result (into.new.items ≡ into.old.items ++ text.now) }
{
    put_bare(into, &Word::Name(text))
}

/// Writes bytes as they are.
pub fn put_bytes(into: &mut Vec<u8>, bytes: &[u8]) -> Result<(), NoMemory>
    ensures { OnOk result (into.new.items ≡ into.old.items ++ bytes.now) }
{
    extend_from_slice(into, bytes)
}

/// Writes words, one behind another.
#[tactic(auto, using(crate::proofs::Pieces::concat_lemmas))]
pub fn put_words(into: &mut Vec<u8>, words: &[Word]) -> Result<(), NoMemory>
    ensures { OnOk result (into.new.items ≡ into.old.items ++ concat (map word_text words.now)) }
{
    for word in words {
        put_bare(into, word)?;
    }
    Ok(())
}

/// Writes an attribute.
fn put_attribute(into: &mut Vec<u8>, one: &Attribute) -> Result<(), NoMemory>
    ensures { OnOk result (into.new.items ≡ into.old.items ++ attribute (seen one.now)) }
{
    put_text(into, " ")?;
    put_text(into, one.0)?;
    put_text(into, "='")?;
    put_bare(into, &one.1)?;
    put_text(into, "'")
}

/// Writes attributes.
#[tactic(auto, using(crate::proofs::Pieces::mapped_lemmas))]
fn put_attributes(into: &mut Vec<u8>, all: &[Attribute]) -> Result<(), NoMemory>
    ensures { OnOk result (into.new.items ≡ into.old.items ++ attributes (map seen all.now)) }
{
    for one in all {
        put_attribute(into, one)?;
    }
    Ok(())
}

/// Writes an element with nothing in it.
#[tactic(auto, unfolding(crate::specs::Xml::alone))]
pub fn put_alone(
    into: &mut Vec<u8>,
    name: &'static str,
    attributes: &[Attribute],
) -> Result<(), NoMemory>
    ensures { OnOk result (into.new.items ≡ into.old.items ++ alone name.now (map seen attributes.now)) }
{
    put_text(into, "<")?;
    put_text(into, name)?;
    put_attributes(into, attributes)?;
    put_text(into, "/>\n")
}

/// Writes an element round words.
#[tactic(auto, unfolding(crate::specs::Xml::element_around))]
pub fn put_around(
    into: &mut Vec<u8>,
    name: &'static str,
    attributes: &[Attribute],
    words: &[Word],
) -> Result<(), NoMemory>
    ensures { OnOk result (into.new.items ≡ into.old.items ++ element_around name.now (map seen attributes.now) (concat (map word_text words.now))) }
{
    put_opening(into, name, attributes)?;
    put_words(into, words)?;
    put_closing(into, name)
}

/// Writes what opens an element.
#[tactic(auto, unfolding(crate::specs::Xml::opening_tag))]
pub fn put_opening(
    into: &mut Vec<u8>,
    name: &'static str,
    attributes: &[Attribute],
) -> Result<(), NoMemory>
    ensures { OnOk result (into.new.items ≡ into.old.items ++ opening_tag name.now (map seen attributes.now)) }
{
    put_text(into, "<")?;
    put_text(into, name)?;
    put_attributes(into, attributes)?;
    put_text(into, ">")
}

/// Writes what closes an element.
pub fn put_closing(into: &mut Vec<u8>, name: &'static str) -> Result<(), NoMemory>
    ensures { OnOk result (into.new.items ≡ into.old.items ++ closing name.now) }
{
    put_text(into, "</")?;
    put_text(into, name)?;
    put_text(into, ">\n")
}
