//! How a recording is read.

use fast_wire::Level;

/// How a recording is read: how strictly, and whether the next packet is read behind one that is refused.
#[derive(Clone, Copy, Debug, PartialEq, Eq)]
pub struct PacketMode {
    pub level: Level,
    pub keep_going: bool,
}
