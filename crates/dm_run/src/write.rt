//! Writing a whole text.
ghost use Rattle.std.specs.Prelude.{◌≡◌, ◌≤◌, ◌<◌, OnOk, OnErr};
ghost use Rattle.dm_outside.specs.Outside.{RoseOrFull, appended};
ghost use Rattle.dm_run.specs.Appended.{IsCutShort};

use dm_outside::{Failed, Sink};

/// Offers bytes to a sink until all are taken, or it fails: a write that failed isn't tried again.
pub fn write_all<K: Sink>(sink: &mut K, bytes: &[u8]) -> Result<(), Failed>
    ensures all { OnOk result (K.told sink.new ≡ appended (K.told sink.old) bytes.now) }
    ensures cut { OnErr result (IsCutShort (K.told sink.old) bytes.now (K.told sink.new)) }
    ensures fault { OnErr result (RoseOrFull (K.faults sink.old) (K.faults sink.new)) }
    ensures last { OnErr result (K.last_failed sink.new) }
    ensures steady { OnOk result (K.faults sink.new ≡ K.faults sink.old) }
    ensures counts { K.faults sink.old ≤ K.faults sink.new }
{
    let mut done = 0;
    'offers: while done < bytes.len() {
        done += sink.write(&bytes[done..])?;
    }
    Ok(())
}
