//! Errors of writing the authentication header of an IPv4 packet.

use super::ExtsWalkError;
use thiserror::Error;

/// Why the header was not written.
#[derive(Clone, Copy, Debug, PartialEq, Eq, Hash, Error)]
pub enum HeaderWriteError {
    /// No memory was left for the bytes.
    #[error("no memory left for IPv4 extension headers")]
    Memory,
    /// The first number does not lead to the header.
    #[error("{0}")]
    Content(ExtsWalkError),
}
