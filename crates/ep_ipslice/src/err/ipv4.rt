//! Why bytes are no IPv4 packet.

mod slice_error;

pub use slice_error::SliceError;
