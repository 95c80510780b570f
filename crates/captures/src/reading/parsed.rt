//! What a parser finds in the bytes that a caller passes.

use crate::link::header::Header;
use crate::link::kind::Link;

/// What is at the start of the bytes that were passed.
#[derive(Debug, Drop)]
pub struct Parsed {
    /// How many of them the parser is done with. The next call takes those after them.
    pub done: usize,
    /// The next packet, or none where bytes are missing.
    pub packet: Option<ParsedPacket>,
}

/// A packet of a capture, of which at least one byte was captured, and where its bytes are in those
/// that were passed. [`Packet`](crate::Packet) says what the first fields are.
#[derive(Debug, Drop)]
pub struct ParsedPacket {
    /// Its number in the capture, from 1.
    pub number: u64,
    /// The number of its interface, over all sections of a pcapng file.
    pub interface: u32,
    /// When it was captured, in nanoseconds since the year 1970 began.
    pub time: u64,
    /// The kind of link that it was captured on.
    pub link: Link,
    /// How many bytes it had on the wire.
    pub wire_len: u32,
    /// The Ethernet II header that replaces its link's own, where it wasn't captured as a frame.
    pub header: Option<Header>,
    /// The offset of its frame, or of what follows that header.
    pub offset: usize,
    /// How many bytes are there.
    pub len: usize,
}
