//! Errors of the extension headers of IPv4: an authentication header alone.

mod exts_walk_error;
mod header_write_error;

pub use exts_walk_error::ExtsWalkError;
pub use header_write_error::HeaderWriteError;
