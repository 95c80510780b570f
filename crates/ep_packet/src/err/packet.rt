//! Errors of packets: why no packet was read, and why a header has no checksum.

mod slice_error;
mod transport_checksum_error;

pub use slice_error::SliceError;
pub use transport_checksum_error::TransportChecksumError;
