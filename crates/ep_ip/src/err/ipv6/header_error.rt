//! Faults in the bytes of an IPv6 header.

use thiserror::Error;

/// What is wrong with the bytes of an IPv6 header.
#[derive(Clone, Copy, Debug, PartialEq, Eq, Hash, Error)]
pub enum HeaderError {
    /// The version, the upper half of the first byte, is not 6 (RFC 8200, section 3).
    #[error("IPv6 header error: unexpected version number {version_number}")]
    UnexpectedVersion { version_number: u8 },
}
