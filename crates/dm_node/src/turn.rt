//! A turn and a tick of a machine.
ghost use Rattle.std.specs.Prelude.{◌≡◌, ◌<◌, ◌≤◌, ◌+◌, ◌∷◌, [], List, true, OnOk};
ghost use Rattle.std.specs.List.{All};
ghost use Rattle.dm_onekernel.specs.Boot.{images_are_valid};
ghost use Rattle.dm_packet.specs.Lawful.{IsRoute};
ghost use Rattle.dm_wire.specs.Sent.{Sent};
ghost use Rattle.dm_kernel.specs.Carried.{FreezesWhole};
ghost use Rattle.dm_kernel.specs.Lawful.{IsLawfulPart, IsLawfulState};
ghost use Rattle.dm_stream.specs.Sending.{outstanding};
ghost use Rattle.dm_node.specs.Acts.{acts, again, asks_move, calls_off, count_out, counts_out, first_out, tick, turn};
ghost use Rattle.dm_node.specs.May.{MayAct, MayAskMove, MayCallOff, MayTurn};
ghost use Rattle.dm_node.specs.Meets.{Answers, AnswersSome, Gave, HasStreams, OrNoMemory, node_state};
ghost use Rattle.dm_node.specs.Wired.{Spoke, so_far};

use crate::node::Node;
use crate::speak::{say, send_data};
use crate::stop::Stop;
use dm_kernel::{Part, calls_off_lawfully, moves_are_asked_lawfully, turns_are_lawful};
use dm_line::line::Line;
use dm_link::{MACHINES, Pid};
use dm_memory::NoMemory;
use dm_onekernel::Boot;
use dm_wire::Wire;

impl Node {
    /// Takes a turn. Its packets go on the wires, and its lines come behind those that were said. It stops as worn exactly where it
    /// would route a message to a machine to which it has routed as many as it may.
    pub fn turn(&mut self, boot: &Boot, wires: &mut Wire, lines: &mut Vec<Line>) -> Result<(), Stop>
        requires may { MayTurn boot.now (node_state self.old) }
        requires images { images_are_valid boot.now.images ≡ true }
        requires lawful { IsLawfulState (node_state self.old).kernel }
        requires streams { HasStreams self.old }
        ensures answers { AnswersSome result self.new (so_far wires.old lines.old.items) (so_far wires.new lines.new.items) (turn boot.now (node_state self.old)) }
        // Where the kernel froze a process or a server, that can be carried whole.
        ensures whole { OrNoMemory result (FreezesWhole (node_state self.old).kernel (node_state self.old).kernel.inbox) }
    {
        turns_are_lawful();
        match self.kernel.turn(boot) {
            Ok(Some(parts)) => self.act(parts, wires, lines),
            Ok(None) => self.say_idle(lines),
            Err(e) => Err(Stop::NoMemory(e)),
        }
    }

    /// Says that it is idle.
    fn say_idle(&self, lines: &mut Vec<Line>) -> Result<(), Stop>
        requires streams { HasStreams self.now }
        ensures { (wires : List (List Sent)) → Answers result self.now (so_far wires lines.old.items) (so_far wires lines.new.items)
            (acts (node_state self.now) (Part.Says (Line.Idle self.now.kernel.here) ∷ [])) }
    {
        say(lines, Line::Idle(self.kernel.here()))?;
        Ok(())
    }

    /// Has the manager tell a process or a server to move to a machine, on the machine where the manager is. It speaks as in a turn,
    /// and stops as worn like one.
    pub fn ask_move(
        &mut self,
        pid: Pid,
        to: u8,
        wires: &mut Wire,
        lines: &mut Vec<Line>,
    ) -> Result<(), Stop>
        requires may { MayAskMove (node_state self.old) }
        requires to { to < MACHINES }
        requires lawful { IsLawfulState (node_state self.old).kernel }
        requires streams { HasStreams self.old }
        ensures { AnswersSome result self.new (so_far wires.old lines.old.items) (so_far wires.new lines.new.items) (asks_move (node_state self.old) pid to) }
    {
        moves_are_asked_lawfully();
        match self.kernel.ask_move(pid, to) {
            Ok(parts) => self.act(parts, wires, lines),
            Err(e) => Err(Stop::NoMemory(e)),
        }
    }

    /// Calls off the migration of a process to this machine. It speaks as in a turn, and stops as worn like one.
    pub fn call_off(
        &mut self,
        pid: Pid,
        wires: &mut Wire,
        lines: &mut Vec<Line>,
    ) -> Result<(), Stop>
        requires may { MayCallOff (node_state self.old) pid }
        requires lawful { IsLawfulState (node_state self.old).kernel }
        requires streams { HasStreams self.old }
        ensures { AnswersSome result self.new (so_far wires.old lines.old.items) (so_far wires.new lines.new.items) (calls_off (node_state self.old) pid) }
    {
        calls_off_lawfully();
        match self.kernel.call_off(pid) {
            Ok(parts) => self.act(parts, wires, lines),
            Err(e) => Err(Stop::NoMemory(e)),
        }
    }

    /// Prints and routes the parts of a turn, in order.
    fn act(&mut self, parts: Vec<Part>, wires: &mut Wire, lines: &mut Vec<Line>) -> Result<(), Stop>
        requires may { MayAct (node_state self.old) }
        requires streams { HasStreams self.old }
        requires parts { All IsLawfulPart parts.items }
        ensures { Answers result self.new (so_far wires.old lines.old.items) (so_far wires.new lines.new.items) (acts (node_state self.old) parts.items) }
    {
        for part in parts {
            match part {
                Part::Says(line) => say(lines, line)?,
                Part::Routes(message) => self.route(message, wires, lines)?,
            }
        }
        Ok(())
    }

    /// Sends all packets again that are out and not acknowledged, by machine and by number. It speaks as in a turn.
    pub fn tick(&self, wires: &mut Wire, lines: &mut Vec<Line>) -> Result<(), NoMemory>
        requires may { MayAct (node_state self.now) }
        requires streams { HasStreams self.now }
        ensures { OnOk result (Gave self.now (so_far wires.old lines.old.items) (so_far wires.new lines.new.items) (tick (node_state self.now))) }
    {
        let here = self.kernel.here();
        let count = self.counts_out();
        say(
            lines,
            Line::Resent {
                machine: here,
                count,
            },
        )?;
        for to in 0..self.machines {
            if to != here {
                self.send_again(to, wires, lines)?;
            }
        }
        Ok(())
    }

    /// How many packets are out to other machines and not acknowledged, 0 to 120.
    fn counts_out(&self) -> u32
        requires streams { HasStreams self.now }
        requires machines { self.now.machines ≤ MACHINES }
        ensures { result ≡ counts_out (node_state self.now) self.now.machines }
    {
        let mut count = 0;
        for to in 0..self.machines {
            if to != self.kernel.here() {
                count += self.count_out(to);
            }
        }
        count
    }

    /// Sends all packets again that are out to machine `to`.
    fn send_again(&self, to: u8, wires: &mut Wire, lines: &mut Vec<Line>) -> Result<(), NoMemory>
        requires may { MayAct (node_state self.now) }
        requires streams { HasStreams self.now }
        requires route { IsRoute self.now.kernel.here to }
        ensures { OnOk result (Spoke (so_far wires.old lines.old.items) (so_far wires.new lines.new.items)
            (first_out (node_state self.now) to (count_out ((node_state self.now).senders to)))) }
    {
        let count = self.count_out(to);
        for place in 0..count {
            self.send_outstanding(to, place as usize, wires, lines)?;
        }
        Ok(())
    }

    /// Sends the packet at a place, from 0 on, among those that are out to machine `to` again, if there is one.
    fn send_outstanding(
        &self,
        to: u8,
        place: usize,
        wires: &mut Wire,
        lines: &mut Vec<Line>,
    ) -> Result<(), NoMemory>
        requires may { MayAct (node_state self.now) }
        requires streams { HasStreams self.now }
        requires route { IsRoute self.now.kernel.here to }
        ensures { OnOk result (Spoke (so_far wires.old lines.old.items) (so_far wires.new lines.new.items)
            (again (node_state self.now) to (outstanding ((node_state self.now).senders to) place))) }
    {
        match self.outstanding(to, place) {
            Some((seq, message)) => {
                let here = self.kernel.here();
                send_data(here, to, seq, message, wires, lines)
            }
            None => Ok(()),
        }
    }
}
