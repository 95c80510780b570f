//! Errors of the extension headers of either version.

mod exts_walk_error;
mod header_error;
mod headers_slice_error;

pub use exts_walk_error::ExtsWalkError;
pub use header_error::HeaderError;
pub use headers_slice_error::HeadersSliceError;
