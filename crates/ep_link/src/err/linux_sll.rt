//! Why bytes are no header of a Linux cooked capture.

mod header_error;
mod header_slice_error;

pub use header_error::HeaderError;
pub use header_slice_error::HeaderSliceError;
