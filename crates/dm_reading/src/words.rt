//! The words of a line.
ghost use Rattle.std.specs.Prelude.{◌≡◌, ◌<◌, ◌∷◌, [], IfNone, IfSome, Some, length, not};
ghost use Rattle.std.specs.List.{position};
ghost use Rattle.dm_reading.specs.Gaps.{stands_in};
ghost use Rattle.dm_reading.specs.Words.{words_between};

/// What stands between the words of a line.
#[derive(Clone, Copy)]
pub enum Gap {
    /// Spaces and tabs.
    Blanks,
    /// Spaces, tabs, carriage returns and commas.
    Separators,
}

impl Gap {
    /// Whether a byte stands between words.
    fn has(self, c: u8) -> bool
        ensures { result ≡ stands_in self c }
    {
        match self {
            Gap::Blanks => c == b' ' || c == b'\t',
            Gap::Separators => c == b' ' || c == b'\t' || c == b'\r' || c == b',',
        }
    }
}

/// Where the first word begins.
fn word_start(line: &[u8], gap: Gap) -> Option<usize>
    ensures { result ≡ position (λ c. not (stands_in gap c)) line.now }
{
    line.iter().position(|c| !gap.has(*c))
}

/// Where the next gap begins.
fn word_end(line: &[u8], gap: Gap) -> Option<usize>
    ensures { result ≡ position (stands_in gap) line.now }
{
    line.iter().position(|c| gap.has(*c))
}

/// The first word, which begins there, and what stands behind it.
fn split_word(line: &[u8], gap: Gap, start: usize) -> (&[u8], &[u8])
    requires { position (λ c. not (stands_in gap c)) line.now ≡ Some start }
    ensures some { words_between (stands_in gap) line.now ≡ result.0.now ∷ words_between (stands_in gap) result.1.now }
    ensures word { 0 < length result.0.now }
    ensures less { length result.1.now < length line.now }
{
    let rest = &line[start..];
    match word_end(rest, gap) {
        Some(end) => (&rest[..end], &rest[end + 1..]),
        None => (rest, &[]),
    }
}

/// The first word, and what stands behind it.
pub fn next_word(line: &[u8], gap: Gap) -> Option<(&[u8], &[u8])>
    ensures none { IfNone result (words_between (stands_in gap) line.now ≡ []) }
    ensures some { IfSome result (λ found. words_between (stands_in gap) line.now ≡ found.0.now ∷ words_between (stands_in gap) found.1.now) }
    ensures word { IfSome result (λ found. 0 < length found.0.now) }
    ensures less { IfSome result (λ found. length found.1.now < length line.now) }
{
    match word_start(line, gap) {
        Some(start) => Some(split_word(line, gap, start)),
        None => None,
    }
}

/// How many words there are.
pub fn count_words(line: &[u8], gap: Gap) -> usize
    ensures count { result ≡ length (words_between (stands_in gap) line.now) }
{
    let mut rest = line;
    let mut count = 0;
    while let Some((_, behind)) = next_word(rest, gap) {
        rest = behind;
        count += 1;
    }
    count
}
