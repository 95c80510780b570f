//! Faults in the bytes of an IPv4 header.

use thiserror::Error;

/// What is wrong with the content of an IPv4 header.
#[derive(Clone, Copy, Debug, PartialEq, Eq, Hash, Error)]
pub enum HeaderError {
    /// The upper half of the first byte is not 4.
    #[error("IPv4 header: the version number is {version_number} and not 4")]
    UnexpectedVersion { version_number: u8 },
    /// The header's length in words of 4 bytes is below 5, the least that holds the fixed fields.
    #[error("IPv4 header: the header length (ihl) is {ihl} and below 5")]
    HeaderLengthSmallerThanHeader { ihl: u8 },
}
