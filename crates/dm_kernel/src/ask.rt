//! How a process or a server is told to move.
ghost use Rattle.dm_kernel.specs.Asking.{asks_move};
ghost use Rattle.dm_kernel.specs.Idle.{KnowsIdle};
ghost use Rattle.dm_kernel.specs.May.{MayAskMove};
ghost use Rattle.dm_kernel.specs.Meets.{Answers, kernel_state};
ghost use Rattle.std.specs.Prelude.{OnOk};

use crate::kernel::Kernel;
use crate::part::Part;
use crate::residents::manager;
use dm_line::line::Line;
use dm_link::Pid;
use dm_memory::{NoMemory, Parcel, list_of};
use dm_procman::MoveError;

impl Kernel {
    /// Has the manager, which is here, tell one of its children, the switchboard or itself to move to a machine. Answers what the
    /// machine says and routes, in order.
    pub fn ask_move(&mut self, pid: Pid, to: u8) -> Result<Vec<Part>, NoMemory>
        requires may { MayAskMove (kernel_state self.old) }
        requires idle { KnowsIdle self.old }
        ensures answers { Answers result self.new (asks_move (kernel_state self.old) pid to) }
        ensures idle { OnOk result (KnowsIdle self.new) }
    {
        let id = self.own_id();
        let manager = manager(&self.records).unwrap();
        match manager.ask_move(self.here, pid, to, id) {
            Ok(message) => {
                self.sent += 1;
                let message = Parcel::new(self.alloc, message)?;
                list_of(self.alloc, [Part::Routes(message)])
            }
            Err(MoveError::Unknown) => self.say(Line::NoChild(pid)),
        }
    }
}
