//! Why bytes are no packet, why a header has no checksum, and why a packet isn't written.

mod build_write_error;

pub use build_write_error::BuildWriteError;
pub use ep_packet::err::packet::{SliceError, TransportChecksumError};
