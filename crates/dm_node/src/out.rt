//! What an event of a machine gives to the outside, as the clauses of the events have it.
use dm_line::line::Line;
use dm_packet::Packet;

/// What an event of a machine gives to the outside. Clauses alone speak of it: a machine says and sends it at once.
#[derive(Drop)]
pub enum Out {
    /// A printed line.
    Says(Line),
    /// A packet for another machine's wire, which has a line too.
    Sends(Packet),
}
