//! Bytes and packets, as laws on the format.
ghost use Rattle.std.specs.Prelude.{ℕ, List, ◌≡◌, ◌≤◌, Ok, length};
ghost use Rattle.dm_packet.specs.Lawful.{IsLawfulPacket};
ghost use Rattle.dm_packet.specs.Packets.{packet_of, spelling};
ghost use Rattle.dm_packet.specs.Widths.{AreBytes, FitsPacket};
ghost use Rattle.dm_packet.specs.declared.Packet.{Packet};

use crate::MOST_PACKET;

/// Each packet has one spelling.
pub fn packets_have_one_spelling()
    // What is read is lawful, its numbers fit their fields, and it is spelled so and in no other way.
    ensures found { (bytes : List ℕ) (p : Packet) → AreBytes bytes → packet_of bytes ≡ Ok p → IsLawfulPacket p × FitsPacket p × (bytes ≡ spelling p) }
    // What is spelled so is read, where its numbers fit their fields, as those of a packet that stands in memory do.
    ensures only { (p : Packet) → IsLawfulPacket p → FitsPacket p → packet_of (spelling p) ≡ Ok p }
    ensures size { (bytes : List ℕ) (p : Packet) → AreBytes bytes → packet_of bytes ≡ Ok p → length bytes ≤ MOST_PACKET }
{}
