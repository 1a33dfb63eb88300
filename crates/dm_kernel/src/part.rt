//! What an event of a machine comes to, part by part.
use dm_line::line::Line;
use dm_memory::Parcel;
use dm_message::Message;

/// A part of what an event of a machine comes to.
#[derive(Drop)]
pub enum Part {
    /// A printed line.
    Says(Line),
    /// A message goes to the machine that its receiver's address names.
    Routes(Parcel<Message>),
}
