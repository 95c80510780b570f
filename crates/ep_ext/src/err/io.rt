//! Errors of readers.

mod limited_read_error;

pub use limited_read_error::LimitedReadError;
