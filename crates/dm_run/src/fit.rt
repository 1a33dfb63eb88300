//! The numbers of lines are within their types.
ghost use Rattle.std.specs.List.{All};
ghost use Rattle.dm_text.specs.Fits.{EndFits, HidesNothing, LineFits};

use dm_line::end_line::EndLine;
use dm_line::line::Line;
use dm_text::back::{end_fits, line_fits};

/// Those of lines of groups.
pub fn lines_fit(lines: &[Line])
    ensures { All LineFits lines.now }
{
    for line in lines {
        line_fits(line);
    }
}

/// Those of lines at the end, if none leaves the mark of a link out.
pub(crate) fn ends_fit(ends: &[EndLine])
    ensures { All HidesNothing ends.now → All EndFits ends.now }
{
    for end in ends {
        end_fits(end);
    }
}
