//! Faults in the bytes of a TCP header.

use thiserror::Error;

/// What is wrong with the bytes of a TCP header.
#[derive(Clone, Copy, Debug, PartialEq, Eq, Hash, Error)]
pub enum HeaderError {
    /// The data offset, the header's length in words of 4 bytes, is below 5, the least that holds
    /// the fixed fields (RFC 9293, section 3.1).
    #[error("TCP header: the data offset is {data_offset} and below 5")]
    DataOffsetTooSmall { data_offset: u8 },
}
