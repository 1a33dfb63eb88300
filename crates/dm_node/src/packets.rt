//! Packets go on the wires, written from where their messages stand.
ghost use Rattle.std.specs.Prelude.{◌≡◌, ℕ, IfOk, Ok, OnOk};
ghost use Rattle.dm_message.specs.Lawful.{IsLawfulMessage};
ghost use Rattle.dm_packet.specs.declared.Packet.TheVariants as packet;
ghost use Rattle.dm_packet.specs.Lawful.{IsRoute};
ghost use Rattle.dm_packet.specs.Packets.{packet_of, spelling};
ghost use Rattle.dm_wire.specs.Wire.{packets_on};
ghost use Rattle.dm_node.specs.Wired.{packet_line, with_packet};

use dm_line::line::{Line, Load, packet_line};
use dm_memory::NoMemory;
use dm_message::Message;
use dm_packet::{Buffer, encode_ack, encode_data};
use dm_wire::Wire;

/// Puts the packet of a message with its number on the wire from its sender to its receiver; its line.
pub fn wire_data(
    from: u8,
    to: u8,
    seq: u32,
    message: &Message,
    wires: &mut Wire,
) -> Result<Line, NoMemory>
    requires route { IsRoute from to }
    requires lawful { IsLawfulMessage message.now }
    ensures line { IfOk result (λ l. l ≡ packet_line (packets_on wires.old) (packet.Data from to seq message.now)) }
    ensures wires { OnOk result ((x y : ℕ) → packets_on wires.new x y ≡ with_packet (packets_on wires.old) (packet.Data from to seq message.now) x y) }
    // What it was written as is read again.
    ensures again { packet_of (spelling (packet.Data from to seq message.now)) ≡ Ok (packet.Data from to seq message.now) }
{
    let mut bytes = Buffer::new();
    encode_data(&mut bytes, from, to, seq, message);
    let k = wires.put(from, to, bytes.as_slice())?;
    Ok(packet_line(from, to, k, Load::Data(seq)))
}

/// Puts an acknowledgement of so many messages on the wire from its sender to its receiver; its line.
pub fn wire_ack(from: u8, to: u8, count: u32, wires: &mut Wire) -> Result<Line, NoMemory>
    requires route { IsRoute from to }
    ensures line { IfOk result (λ l. l ≡ packet_line (packets_on wires.old) (packet.Ack from to count)) }
    ensures wires { OnOk result ((x y : ℕ) → packets_on wires.new x y ≡ with_packet (packets_on wires.old) (packet.Ack from to count) x y) }
    // What it was written as is read again.
    ensures again { packet_of (spelling (packet.Ack from to count)) ≡ Ok (packet.Ack from to count) }
{
    let bytes = encode_ack(from, to, count);
    let k = wires.put(from, to, &bytes)?;
    Ok(packet_line(from, to, k, Load::Ack(count)))
}
