//! The refusal of payloads of raw extension headers by their length.

use thiserror::Error;

/// Why bytes are no payload of a raw extension header. Each variant holds their number.
#[derive(Clone, Copy, Debug, PartialEq, Eq, Hash, Error)]
pub enum ExtPayloadLenError {
    /// Fewer than 6 bytes.
    #[error("raw extension header: a payload of {0} byte(s) is too small, it has at least 6")]
    TooSmall(usize),
    /// More than 2046 bytes.
    #[error("raw extension header: a payload of {0} bytes is too big, it has at most 2046")]
    TooBig(usize),
    /// The length isn't 6 and a multiple of 8.
    #[error("raw extension header: a payload of {0} bytes, which is not 6 and a multiple of 8")]
    Unaligned(usize),
}
