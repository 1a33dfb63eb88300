//! Where one label of a text stands.
ghost use Rattle.std.specs.Prelude.{◌≡◌, option_map};
ghost use Rattle.dm_asm.specs.Assembled.{places_of};
ghost use Rattle.dm_asm.specs.Places.{has_label, place_from};
ghost use Rattle.dm_reading.specs.Lines.{source_lines};

use crate::labels::{Place, defined_by, line_counted, value_of};
use dm_reading::first_source_line;

/// Whether a line has a label.
#[tactic(auto, unfolding(crate::specs::Places::has_label))]
fn has_label(line: &[u8], name: &[u8]) -> bool
    ensures { result ≡ has_label line.now name.now }
{
    match defined_by(line) {
        Some(label) => name == label,
        None => false,
    }
}

/// The first line of a text with a label, and its value.
#[tactic(auto, using(crate::proofs::Labelled::label_lemmas))]
fn place_of(text: &[u8], name: &[u8]) -> Option<Place>
    ensures { result ≡ place_from 1 0 (source_lines text.now) name.now }
{
    let mut place = Place {
        line: 1,
        address: 0,
    };
    let mut rest = text;
    while !rest.is_empty() {
        let (line, behind) = first_source_line(rest);
        if has_label(line, name) {
            return Some(Place {
                line: place.line,
                address: value_of(place.address, line),
            });
        }
        place = Place {
            line: place.line + 1,
            address: place.address + line_counted(place.address, line) as u128,
        };
        rest = behind;
    }
    None
}

/// The value of a label of a text, if it has the label: its byte address, or what `.equ` gives it. It needs no memory, and reads the text up to it.
#[tactic(auto, unfolding(crate::specs::Assembled::places_of))]
pub fn label_address(text: &str, name: &str) -> Option<u128>
    ensures { result ≡ option_map (λ p. p.address) (places_of text.now name.now) }
{
    match place_of(text.as_bytes(), name.as_bytes()) {
        Some(place) => Some(place.address),
        None => None,
    }
}
