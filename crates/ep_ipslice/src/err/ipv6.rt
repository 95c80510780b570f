//! Why bytes are no IPv6 packet.

mod slice_error;

pub use slice_error::SliceError;
