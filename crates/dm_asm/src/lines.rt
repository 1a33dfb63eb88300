//! Lines up to their comments.
ghost use Rattle.std.specs.Prelude.{◌≡◌};
ghost use Rattle.std.specs.List.{position};
ghost use Rattle.dm_asm.specs.Lines.{is_semicolon, without_comment};

/// Where the comment of a line begins.
fn comment_start(line: &[u8]) -> Option<usize>
    ensures { result ≡ position is_semicolon line.now }
{
    line.iter().position(|c| *c == b';')
}

/// A line up to its comment, which begins at the first semicolon.
pub fn uncommented(line: &[u8]) -> &[u8]
    ensures same { result.now ≡ without_comment line.now }
{
    match comment_start(line) {
        Some(start) => &line[..start],
        None => line,
    }
}
