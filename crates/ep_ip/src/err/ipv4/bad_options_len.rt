//! The refusal of options by their length.

use thiserror::Error;

/// The length of the options is no multiple of 4 up to 40.
#[derive(Clone, Copy, Debug, PartialEq, Eq, Hash, Error)]
#[error("IPv4 options of {bad_len} byte(s): the length has to be a multiple of 4, at most 40")]
pub struct BadOptionsLen {
    /// The refused length in bytes.
    pub bad_len: usize,
}
