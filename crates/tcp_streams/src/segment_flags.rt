//! The flags of a segment that a stream depends on.

/// The flags of a segment that a stream depends on (RFC 9293, section 3.1).
#[derive(Clone, Copy, Debug, Default, PartialEq, Eq)]
pub struct SegmentFlags {
    /// The sequence number is that of SYN, and the payload begins at the next one.
    pub syn: bool,
    /// FIN follows the payload: no byte comes after it.
    pub fin: bool,
    /// The connection is reset. The payload is no part of the stream.
    pub rst: bool,
}
