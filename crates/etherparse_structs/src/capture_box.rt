//! What a capture that is open holds.
use captures::PacketParser;

/// What a capture that is open holds.
#[derive(Drop)]
pub struct CaptureBox {
    /// What finds its packets.
    pub parser: PacketParser,
}
