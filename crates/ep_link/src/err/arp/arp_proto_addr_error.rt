//! The refusal of protocol addresses by their lengths (RFC 826).

use thiserror::Error;

/// What is wrong with the protocol addresses of an ARP packet (RFC 826).
#[derive(Clone, Copy, Debug, PartialEq, Eq, Hash, Error)]
pub enum ArpProtoAddrError {
    /// Sender's and target's address have these two lengths, which differ.
    #[error("ARP protocol addresses of {0} and {1} bytes differ in length")]
    LenNonMatching(usize, usize),
    /// The addresses have this length, which is above 255 and so fits no byte.
    #[error("ARP protocol addresses of {0} bytes are too long (at most 255 bytes)")]
    LenTooBig(usize),
}
