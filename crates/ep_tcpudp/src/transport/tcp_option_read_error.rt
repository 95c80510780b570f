//! Why options can't be read.

use thiserror::Error;

/// What is wrong with the option at the start of some bytes.
#[derive(Clone, Copy, Debug, PartialEq, Eq, Hash, Error)]
pub enum TcpOptionReadError {
    /// Fewer bytes are left than the option needs.
    #[error("TCP option of kind {option_id}: {expected_len} byte(s) are needed, and {actual_len} are left")]
    UnexpectedEndOfSlice {
        /// The kind of the option.
        option_id: u8,
        /// How many bytes it needs.
        expected_len: u8,
        /// How many bytes are left.
        actual_len: usize,
    },
    /// The option's length byte isn't one that its kind has.
    #[error("TCP option of kind {option_id}: the length byte is {size}, which this kind doesn't have")]
    UnexpectedSize {
        /// The kind of the option.
        option_id: u8,
        /// Its length byte.
        size: u8,
    },
    /// No option of this kind is known.
    #[error("TCP option of kind {0}: the kind is unknown")]
    UnknownId(u8),
}
