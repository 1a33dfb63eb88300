//! What is drawn in which layer: what isn't needn't be looked for.
ghost use Rattle.std.specs.Prelude.{◌≡◌};
ghost use Rattle.dm_chart.specs.Layers.{bar_shows, end_shows, letter_shows, move_shows, packet_shows, wait_shows};

use crate::frame::{Frame, Layer, lane_of};
use crate::spot::Spot;
use dm_link::Pid;

/// Whether something of a message is drawn in this layer.
pub fn letter_shows(frame: &Frame) -> bool
    ensures { result ≡ letter_shows frame.now.layer }
{
    match frame.layer {
        Layer::Grounds => false,
        Layer::Ways | Layer::Words => true,
    }
}

/// Whether it is seen in this layer where a message ends.
pub fn end_shows(frame: &Frame, spot: Spot) -> bool
    ensures { result ≡ end_shows frame.now.layer spot.row }
{
    match frame.layer {
        Layer::Grounds | Layer::Ways => true,
        Layer::Words => spot.row == 0,
    }
}

/// Whether something of a packet is drawn in this layer.
pub fn packet_shows(frame: &Frame) -> bool
    ensures { result ≡ packet_shows frame.now.layer }
{
    match frame.layer {
        Layer::Ways => true,
        Layer::Grounds | Layer::Words => false,
    }
}

/// Whether a bar of a process is drawn in this layer, or its name.
pub fn bar_shows(frame: &Frame, pid: Pid) -> bool
    ensures { result ≡ bar_shows frame.now pid }
{
    match frame.layer {
        Layer::Grounds | Layer::Words => lane_of(frame, pid).is_some(),
        Layer::Ways => false,
    }
}

/// Whether it is drawn in this layer that a process waits.
pub fn wait_shows(frame: &Frame, pid: Pid) -> bool
    ensures { result ≡ wait_shows frame.now pid }
{
    match frame.layer {
        Layer::Grounds => lane_of(frame, pid).is_some(),
        Layer::Ways | Layer::Words => false,
    }
}

/// Whether it is drawn in this layer that a process moves.
pub fn move_shows(frame: &Frame, pid: Pid) -> bool
    ensures { result ≡ move_shows frame.now pid }
{
    match frame.layer {
        Layer::Ways => lane_of(frame, pid).is_some(),
        Layer::Grounds | Layer::Words => false,
    }
}
