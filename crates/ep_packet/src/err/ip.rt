//! Why the headers of an IP packet are not written.

mod headers_write_error;

pub use headers_write_error::HeadersWriteError;
