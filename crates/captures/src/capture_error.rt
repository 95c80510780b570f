//! Why some bytes are no capture whose packets can be reported.
use thiserror::Error;

/// Why some bytes are no capture whose packets can be reported.
#[derive(Clone, Copy, Debug, PartialEq, Eq, Error)]
pub enum CaptureError {
    /// The bytes don't begin with the header of a capture, or end before it is whole.
    #[error("no capture file")]
    NotCapture,
    /// A packet was captured on a link of this type, which isn't read.
    #[error("link type {0} is not read")]
    LinkType(u16),
    /// A section of a pcapng file describes an interface of this link type after its 32nd. There
    /// only that of Ethernet is read, 1.
    #[error("interfaces after the 32nd of a section are read with link type 1 alone, not {0}")]
    InterfaceLimit(u16),
    /// This many bytes of a packet were captured, whose Ethernet frame would have more than
    /// [`FRAME_LIMIT`](crate::FRAME_LIMIT).
    #[error("a packet of {0} bytes is too long for a line")]
    FrameTooLong(u32),
    /// A packet has no Ethernet frame: it is shorter than the header of its link, or names no ether
    /// type, IP version or address family of IP.
    #[error("a packet has no ether type")]
    NoFrame,
    /// The capture ends within a packet, or within another block.
    #[error("the capture ends within a packet")]
    CutOff,
    /// A block of a pcapng file that is read, as a section header, an interface description or a
    /// packet, has this many bytes, which is more than [`BLOCK_LIMIT`](crate::BLOCK_LIMIT).
    #[error("a block of {0} bytes is too long")]
    BlockTooLong(u32),
    /// A section of a pcapng file has this major and minor version. Those that are read are 1.0, and
    /// 1.2, which is the same.
    #[error("version {0}.{1} of pcapng is not read")]
    Version(u16, u16),
    /// A block of a pcapng file isn't well made: its two lengths differ, or have no whole words of
    /// 4 bytes, or have too few for what it says; or it names an interface that was not described.
    #[error("a block is not well made")]
    BadBlock,
}
