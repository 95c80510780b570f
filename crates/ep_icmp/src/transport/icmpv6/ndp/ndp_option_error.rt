//! Why options of neighbor discovery can't be read or written.

use thiserror::Error;

/// What is wrong with the option at an offset, in bytes from the first option on (RFC 4861, section
/// 4.6).
#[derive(Clone, Copy, Debug, PartialEq, Eq, Error)]
pub enum NdpOptionError {
    /// Fewer bytes are left than the option needs: its type and its length, or as many as its
    /// length gives.
    #[error("neighbor discovery option at offset {offset}: {needed_len} byte(s) are needed, and {actual_len} are left")]
    UnexpectedEnd {
        /// The offset of the option.
        offset: usize,
        /// How many bytes it needs.
        needed_len: usize,
        /// How many bytes are left.
        actual_len: usize,
    },
    /// The option's length is 0.
    #[error("neighbor discovery option at offset {offset}: the length is 0")]
    ZeroLength {
        /// The offset of the option.
        offset: usize,
    },
}

/// Why an option of neighbor discovery was not written.
#[derive(Clone, Copy, Debug, PartialEq, Eq, Error)]
pub enum NdpOptionWriteError {
    /// No memory was left.
    #[error("no memory left for a neighbor discovery option")]
    Memory,
    /// No option of its type has so many bytes.
    #[error("no neighbor discovery option of this type has {0} byte(s)")]
    Length(usize),
}
