//! The refusal of integrity check values by their length (RFC 4302, section 2.6).

use thiserror::Error;

/// Why bytes are no integrity check value of an authentication header. Each variant holds their
/// number.
#[derive(Clone, Copy, Debug, PartialEq, Eq, Hash, Error)]
pub enum IcvLenError {
    /// More than 1016 bytes.
    #[error("authentication header: a check value of {0} bytes is too big, it has at most 1016")]
    TooBig(usize),
    /// The length is no multiple of 4.
    #[error("authentication header: a check value of {0} byte(s), which is no multiple of 4")]
    Unaligned(usize),
}
