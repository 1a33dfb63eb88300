//! Offering the text of lines to a sink.
ghost use Rattle.std.specs.Prelude.{◌≤◌};
ghost use Rattle.std.specs.List.{All};
ghost use Rattle.dm_text.specs.Fits.{EndFits, HidesNothing, LineFits};
ghost use Rattle.dm_text.specs.Text.{text_of_ends, text_of_lines};
ghost use Rattle.dm_run.specs.Coming.{Blames, Offered, StopsThere};

use crate::fit::{ends_fit, lines_fit};
use crate::write::write_all;
use dm_ending::stop::Stop;
use dm_line::end_line::EndLine;
use dm_line::line::Line;
use dm_outside::Sink;
use dm_text::text::{write_ends, write_over};

/// Writes the whole text of these lines. The page holds it meanwhile.
pub fn offer<K: Sink>(lines: &[Line], page: &mut Vec<u8>, out: &mut K) -> Result<(), Stop>
    ensures says { Offered (K.told out.old) (text_of_lines lines.now) (K.told out.new) result }
    ensures fits { All LineFits lines.now }
    ensures blames { Blames (K.faults out.old) (K.faults out.new) result }
    ensures last { StopsThere (K.last_failed out.new) result }
    ensures writes { K.faults out.old ≤ K.faults out.new }
{
    match write_over(lines, page) {
        Ok(end) => offer_bytes(&page.as_slice()[..end], out),
        Err(no) => {
            lines_fit(lines);
            Err(Stop::NoMemory(no))
        }
    }
}

/// Writes the whole text of these lines at the end. The page holds it meanwhile.
pub fn offer_ends<K: Sink>(ends: &[EndLine], page: &mut Vec<u8>, out: &mut K) -> Result<(), Stop>
    ensures says { Offered (K.told out.old) (text_of_ends ends.now) (K.told out.new) result }
    ensures fits { All HidesNothing ends.now → All EndFits ends.now }
    ensures blames { Blames (K.faults out.old) (K.faults out.new) result }
    ensures last { StopsThere (K.last_failed out.new) result }
    ensures writes { K.faults out.old ≤ K.faults out.new }
{
    ends_fit(ends);
    page.clear();
    if let Err(no) = write_ends(ends, page) {
        return Err(Stop::NoMemory(no));
    }
    offer_bytes(page.as_slice(), out)
}

/// Writes these bytes, all of them.
pub fn offer_bytes<K: Sink>(bytes: &[u8], out: &mut K) -> Result<(), Stop>
    ensures says { Offered (K.told out.old) bytes.now (K.told out.new) result }
    ensures blames { Blames (K.faults out.old) (K.faults out.new) result }
    ensures last { StopsThere (K.last_failed out.new) result }
    ensures writes { K.faults out.old ≤ K.faults out.new }
{
    match write_all(out, bytes) {
        Ok(()) => Ok(()),
        Err(_) => Err(Stop::WriteFault),
    }
}
