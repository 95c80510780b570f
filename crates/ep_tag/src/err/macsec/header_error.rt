//! Faults in the bytes of a MACsec header.

use thiserror::Error;

/// What is wrong with the bytes of a MACsec header.
#[derive(Clone, Copy, Debug, PartialEq, Eq, Hash, Error)]
pub enum HeaderError {
    /// The version, the top bit of the first byte, is not 0 (IEEE 802.1AE, section 9.5).
    #[error("MACsec header error: unexpected version 1")]
    UnexpectedVersion,
    /// The payload is unmodified, so an ether type has to precede it, and the short length is
    /// 1, which leaves no room for the ether type.
    #[error("MACsec header error: short length 1 leaves no room for the ether type")]
    InvalidUnmodifiedShortLen,
}
