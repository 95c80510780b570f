//! The refusal of hardware addresses by their lengths (RFC 826).

use thiserror::Error;

/// What is wrong with the hardware addresses of an ARP packet (RFC 826).
#[derive(Clone, Copy, Debug, PartialEq, Eq, Hash, Error)]
pub enum ArpHwAddrError {
    /// Sender's and target's address have these two lengths, which differ.
    #[error("ARP hardware addresses of {0} and {1} bytes differ in length")]
    LenNonMatching(usize, usize),
    /// The addresses have this length, which is above 255 and so fits no byte.
    #[error("ARP hardware addresses of {0} bytes are too long (at most 255 bytes)")]
    LenTooBig(usize),
}
