//! How a migration is called off where the process was to come.
ghost use Rattle.dm_migrate.specs.Rooms.{HasTakenBy};
ghost use Rattle.std.specs.Prelude.{◌≡◌, ◌<◌, ◌++◌, ◌∷◌, [], IfOk, OnOk, length, map};
ghost use Rattle.dm_records.specs.Records.{at, incoming_of};
ghost use Rattle.dm_migrate.specs.Arrival.{Arrival};
ghost use Rattle.dm_kernel.specs.Coming.{calls_arriving_off, calls_off};
ghost use Rattle.dm_kernel.specs.Idle.{KnowsIdle};
ghost use Rattle.dm_kernel.specs.May.{IsSuch, MayCallOff};
ghost use Rattle.dm_kernel.specs.Meets.{Answers, kernel_state};
ghost use Rattle.dm_line.specs.declared.line.Line.TheVariants as line_;

use crate::depart::{route, route_all};
use crate::kernel::Kernel;
use crate::part::Part;
use dm_line::line::Line;
use dm_link::{Addr, Pid};
use dm_memory::NoMemory;
use dm_message::Message;
use dm_migrate::release;
use dm_records::Record;

impl Kernel {
    /// Calls off the migration of what is on its way here, if not all of it has come: what was held for it goes back to
    /// the machine that it was to leave, and that one's kernel is told. Answers what the machine says and routes, in order.
    pub fn call_off(&mut self, pid: Pid) -> Result<Vec<Part>, NoMemory>
        requires { MayCallOff (kernel_state self.old) pid }
        ensures answers { Answers result self.new (calls_off (kernel_state self.old) pid) }
        ensures idle { OnOk result (KnowsIdle self.new) }
    {
        let parts = match self.records.incoming(pid) {
            Some(_) => self.call_arriving_off(pid),
            None => self.say(Line::NoCall(pid)),
        };
        // Of what is known of a process nothing is said to stay.
        self.idle = 0;
        parts
    }

    /// Calls off the migration of a process that is on its way here, if not all of it has come.
    fn call_arriving_off(&mut self, pid: Pid) -> Result<Vec<Part>, NoMemory>
        requires sent { self.old.sent < u32.MAX }
        requires process { IsSuch (λ (a : Arrival). HasTakenBy self.old.room a.blocks × (length a.held < u32.MAX)) (incoming_of (at self.old.records pid)) }
        ensures { Answers result self.new (calls_arriving_off (kernel_state self.old) pid (incoming_of (at self.old.records pid))) }
    {
        let arriving = self.records.take_incoming(pid);
        let (at, moves, blocks) = (arriving.source(), arriving.moves(), arriving.blocks());
        match arriving.call_off() {
            Ok((messages, call_off)) => {
                self.records.put_back(pid, Record::Forward { at, moves });
                release(&mut self.room, blocks);
                let call_off = self.send(Addr::of_kernel(at), call_off);
                self.say_called(pid, messages, call_off)
            }
            Err(arriving) => {
                self.records.put_back(pid, Record::Incoming(arriving));
                self.say(Line::NoCall(pid))
            }
        }
    }

    /// What is said of a process that doesn't come, with the messages that go back, and the one that says so to the machine that it
    /// was to leave.
    fn say_called(
        &self,
        pid: Pid,
        messages: Vec<Message>,
        call_off: Message,
    ) -> Result<Vec<Part>, NoMemory>
        requires { length messages.items < u32.MAX }
        ensures { IfOk result (λ parts. parts.items ≡
            Part.Says (line_.Called pid (length messages.items)) ∷ map Part.Routes messages.items ++ Part.Routes call_off ∷ []) }
    {
        let count = messages.len() as u32;
        let mut parts = self.say(Line::Called { pid, count })?;
        route_all(self.alloc, messages, &mut parts)?;
        route(self.alloc, call_off, &mut parts)?;
        Ok(parts)
    }
}
