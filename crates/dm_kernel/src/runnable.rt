//! Whether a process can be served, which changes nothing.
ghost use Rattle.std.specs.Prelude.{◌≡◌, is_some};
ghost use Rattle.dm_records.specs.Records.{at};
ghost use Rattle.dm_kernel.specs.Turn.{first_runnable, known_is_runnable};

use crate::kernel::Kernel;
use crate::residents::process;
use dm_link::Pid;

impl Kernel {
    /// Whether a process is here that can be served: then a turn with an empty inbox isn't idle.
    pub fn can_serve(&self) -> bool
        ensures { result ≡ is_some (first_runnable (at self.now.records) self.now.ring) }
    {
        for place in 0..self.ring.len() {
            if self.is_runnable(*self.ring.at(place)) {
                return true;
            }
        }
        false
    }

    /// Whether a process is here and can be served.
    fn is_runnable(&self, pid: Pid) -> bool
        ensures { result ≡ known_is_runnable (at self.now.records pid) }
    {
        match process(&self.records, pid) {
            Some(process) => process.is_runnable(),
            None => false,
        }
    }
}
