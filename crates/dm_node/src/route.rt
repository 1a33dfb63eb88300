//! How a message is routed to the machine that its receiver's address names.
ghost use Rattle.std.specs.Prelude.{◌≡◌, ◌<◌, ◌≤◌, ◌^◌, ◌==◌, IfOk, List, OnOk, is_some};
ghost use Rattle.dm_message.specs.Lawful.{IsLawfulMessage};
ghost use Rattle.dm_packet.specs.Lawful.{IsRoute};
ghost use Rattle.dm_stream.specs.Sending.{due};
ghost use Rattle.dm_wire.specs.Sent.{Sent};
ghost use Rattle.dm_node.specs.Acts.{put_line, routes, routes_away, routes_home, sends_due};
ghost use Rattle.dm_node.specs.May.{MayAct};
ghost use Rattle.dm_node.specs.Meets.{Answers, Gave, HasStreams, node_state};
ghost use Rattle.dm_node.specs.Wired.{so_far};

use crate::node::Node;
use crate::speak::{say, send_data};
use crate::stop::Stop;
use dm_line::line::Line;
use dm_memory::{NoMemory, Parcel};
use dm_message::Message;
use dm_wire::Wire;

impl Node {
    /// Routes a message to the machine that its receiver's address names.
    pub(crate) fn route(
        &mut self,
        message: Parcel<Message>,
        wires: &mut Wire,
        lines: &mut Vec<Line>,
    ) -> Result<(), Stop>
        requires may { MayAct (node_state self.old) }
        requires streams { HasStreams self.old }
        requires lawful { IsLawfulMessage message }
        ensures { Answers result self.new (so_far wires.old lines.old.items) (so_far wires.new lines.new.items) (routes (node_state self.old) message) }
    {
        if message.get().to.at == self.kernel.here() {
            self.route_home(message, lines)
        } else {
            self.route_away(message, wires, lines)
        }
    }

    /// The line of a message that is routed.
    fn put_line(&self, message: &Message) -> Line
        ensures { result ≡ put_line (node_state self.now) message.now }
    {
        Line::Put {
            from: self.kernel.here(),
            to: message.to.at,
            id: message.id,
            kind: message.what.kind(),
            receiver: message.to.pid,
        }
    }

    /// Routes a message to this machine itself: it comes into the inbox.
    fn route_home(&mut self, message: Parcel<Message>, lines: &mut Vec<Line>) -> Result<(), Stop>
        requires streams { HasStreams self.old }
        requires home { self.old.home ≤ self.old.numbers }
        requires numbers { self.old.numbers < 2 ^ 32 }
        ensures { (wires : List (List Sent)) → Answers result self.new (so_far wires lines.old.items) (so_far wires lines.new.items)
            (routes_home (node_state self.old) message (self.old.home == self.old.numbers)) }
    {
        let here = self.kernel.here();
        if self.home == self.numbers {
            return Err(Stop::Worn {
                from: here,
                to: here,
            });
        }
        say(lines, self.put_line(message.get()))?;
        if let Err(e) = self.kernel.enters(message) {
            return Err(Stop::NoMemory(e));
        }
        self.home += 1;
        Ok(())
    }

    /// Routes a message to another machine: it goes out at once where none waits before it, and the window isn't full.
    fn route_away(
        &mut self,
        message: Parcel<Message>,
        wires: &mut Wire,
        lines: &mut Vec<Line>,
    ) -> Result<(), Stop>
        requires may { MayAct (node_state self.old) }
        requires streams { HasStreams self.old }
        requires lawful { IsLawfulMessage message }
        requires route { IsRoute self.old.kernel.here message.to.at }
        ensures { Answers result self.new (so_far wires.old lines.old.items) (so_far wires.new lines.new.items)
            (routes_away (node_state self.old) message.to.at message ((node_state self.old).senders message.to.at)) }
    {
        let said = message.get();
        let to = said.to.at;
        let put = self.put_line(said);
        let at_once = self.none_waits(to);
        self.give(to, message)?;
        say(lines, put)?;
        if at_once {
            self.send_due(to, wires, lines)?;
        }
        Ok(())
    }

    /// Sends the packet that is due to machine `to`, if there is one; whether there was.
    pub(crate) fn send_due(
        &mut self,
        to: u8,
        wires: &mut Wire,
        lines: &mut Vec<Line>,
    ) -> Result<bool, NoMemory>
        requires may { MayAct (node_state self.old) }
        requires streams { HasStreams self.old }
        requires route { IsRoute self.old.kernel.here to }
        ensures gave { OnOk result (Gave self.new (so_far wires.old lines.old.items) (so_far wires.new lines.new.items)
            (sends_due (node_state self.old) to (due ((node_state self.old).senders to)))) }
        ensures was { IfOk result (λ sent. sent ≡ is_some (due ((node_state self.old).senders to))) }
    {
        match self.due(to) {
            Some((seq, message)) => {
                let here = self.kernel.here();
                send_data(here, to, seq, message, wires, lines)?;
                self.sent_due(to);
                Ok(true)
            }
            None => Ok(false),
        }
    }
}
