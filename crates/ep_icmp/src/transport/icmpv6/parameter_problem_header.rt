//! What is wrong with an IPv6 packet, and where.

use super::ParameterProblemCode;

/// What a parameter problem message carries before the packet's first bytes (RFC 4443, section
/// 3.4).
#[derive(Clone, Copy, Debug, PartialEq, Eq)]
pub struct ParameterProblemHeader {
    /// What is wrong.
    pub code: ParameterProblemCode,
    /// The offset of the fault in the packet, in bytes 4 to 7.
    pub pointer: u32,
}
