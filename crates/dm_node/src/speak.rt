//! How a machine says a line, and sends a packet.
ghost use Rattle.std.specs.Prelude.{◌≡◌, ◌++◌, ◌∷◌, [], OnOk};
ghost use Rattle.dm_message.specs.Lawful.{IsLawfulMessage};
ghost use Rattle.dm_packet.specs.declared.Packet.TheVariants as packet;
ghost use Rattle.dm_packet.specs.Lawful.{IsRoute};
ghost use Rattle.dm_node.specs.declared.out.Out.TheVariants.{Sends};
ghost use Rattle.dm_node.specs.Wired.{Spoke, so_far};

use crate::packets::{wire_ack, wire_data};
use dm_line::line::Line;
use dm_memory::{NoMemory, push};
use dm_message::Message;
use dm_wire::Wire;

/// Says a line, behind those that were said.
pub(crate) fn say(lines: &mut Vec<Line>, line: Line) -> Result<(), NoMemory>
    ensures ok { OnOk result (lines.new.items ≡ lines.old.items ++ line ∷ []) }
{
    push(lines, line)
}

/// Puts the packet of a message with its number on its wire, and says its line.
pub(crate) fn send_data(
    from: u8,
    to: u8,
    seq: u32,
    message: &Message,
    wires: &mut Wire,
    lines: &mut Vec<Line>,
) -> Result<(), NoMemory>
    requires route { IsRoute from to }
    requires lawful { IsLawfulMessage message.now }
    ensures { OnOk result (Spoke (so_far wires.old lines.old.items) (so_far wires.new lines.new.items) (Sends (packet.Data from to seq message.now) ∷ [])) }
{
    push(lines, wire_data(from, to, seq, message, wires)?)
}

/// Puts an acknowledgement of so many messages on its wire, and says its line.
pub(crate) fn send_ack(
    from: u8,
    to: u8,
    count: u32,
    wires: &mut Wire,
    lines: &mut Vec<Line>,
) -> Result<(), NoMemory>
    requires route { IsRoute from to }
    ensures { OnOk result (Spoke (so_far wires.old lines.old.items) (so_far wires.new lines.new.items) (Sends (packet.Ack from to count) ∷ [])) }
{
    push(lines, wire_ack(from, to, count, wires)?)
}
