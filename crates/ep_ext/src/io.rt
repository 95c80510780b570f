//! Readers.

mod limited_reader;

pub use limited_reader::LimitedReader;
