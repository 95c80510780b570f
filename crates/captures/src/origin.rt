//! Where and when a packet was captured, and of how many bytes.

/// Where and when a packet was captured, and of how many bytes.
#[derive(Clone, Copy)]
pub(crate) struct Origin {
    /// The number of its interface.
    pub channel: u32,
    /// In nanoseconds since the year 1970 began.
    pub time: u64,
    /// How many bytes its frame had on the wire.
    pub wire_len: u32,
}
