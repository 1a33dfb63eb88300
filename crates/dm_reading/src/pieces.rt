//! The pieces of a text.
ghost use Rattle.std.specs.Prelude.{◌≡◌, ◌==◌, ◌∷◌, option_map};
ghost use Rattle.std.specs.List.{position};
ghost use Rattle.dm_reading.specs.Cuts.{behind, pieces};

/// The piece before the first such byte, and the text behind that byte, if it is there.
pub fn split(text: &[u8], at: u8) -> (&[u8], Option<&[u8]>)
    ensures { pieces at text.now ≡ result.0.now ∷ behind at (option_map (λ t. t.now) result.1) }
{
    match place_of(text, at) {
        Some(i) => (&text[..i], Some(&text[i + 1..])),
        None => (text, None),
    }
}

/// Where the first such byte stands.
fn place_of(text: &[u8], at: u8) -> Option<usize>
    ensures { result ≡ position (λ c. c == at) text.now }
{
    text.iter().position(|c| *c == at)
}
