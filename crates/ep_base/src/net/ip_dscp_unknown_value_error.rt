//! The refusal of a code point without a name.

use thiserror::Error;

/// A differentiated services code point has no name.
#[derive(Clone, Copy, Debug, PartialEq, Eq, Hash, Error)]
#[error("Unknown IP DSCP value {value}")]
pub struct IpDscpUnknownValueError {
    /// The code point.
    pub value: u8,
}
