//! Why bytes are no IP packet of either version.

mod header_error;
mod headers_error;
mod headers_slice_error;
mod lax_header_slice_error;
mod slice_error;

pub use header_error::HeaderError;
pub use headers_error::HeadersError;
pub use headers_slice_error::HeadersSliceError;
pub use lax_header_slice_error::LaxHeaderSliceError;
pub use slice_error::SliceError;
