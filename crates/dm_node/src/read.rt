//! What can be read of a machine.
ghost use Rattle.std.specs.Prelude.{◌≡◌, ◌<◌};
ghost use Rattle.dm_node.specs.Meets.{HasStreams, node_state};

use crate::node::Node;
use dm_kernel::Kernel;
use dm_link::MACHINES;
use dm_memory::Parcel;
use dm_message::Message;
use dm_stream::Sender;
use std::alloc::Global;

impl Node {
    /// What its memory comes from.
    pub fn alloc(&self) -> Global
        ensures { result ≡ self.now.alloc }
    {
        self.alloc
    }

    /// Its kernel.
    pub fn kernel(&self) -> &Kernel
        ensures { result.now ≡ self.now.kernel }
    {
        &self.kernel
    }

    /// Its end of the stream to machine `to`.
    pub fn sender(&self, to: u8) -> &Sender<Parcel<Message>>
        requires streams { HasStreams self.now }
        requires to { to < MACHINES }
        ensures { result.now ≡ (node_state self.now).senders to }
    {
        &self.senders[usize::from(to)]
    }
}
