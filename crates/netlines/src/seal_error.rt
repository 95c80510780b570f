//! Why a message is not sealed.
ghost use Rattle.std.specs.Prelude.{◌≡◌};
ghost use Rattle.netlines.specs.declared.seal_error.SealError.TheVariants.{Memory};

use etherparse::err::packet::TransportChecksumError;
use std::alloc::AllocError;
use thiserror::Error;

/// Why a message is not sealed.
#[derive(Clone, Copy, Debug, PartialEq, Eq, Hash, Error)]
pub enum SealError {
    /// The header is that of the other IP version's ICMP.
    #[error("the header is that of the other IP version's ICMP")]
    IcmpOfOtherVersion,
    /// Header and payload are longer than 65535 bytes.
    #[error("header and payload are longer than 65535 bytes")]
    TooLong,
    /// There is no checksum for the message. This is never returned: the two refusals before leave
    /// no such case.
    #[error("{0}")]
    Checksum(TransportChecksumError),
    /// There is no memory left for the message.
    #[error("out of memory")]
    Memory,
}

impl From<AllocError> for SealError {
    ghost from_gives = { λ _ e. e ≡ Memory };

    fn from(_e: AllocError) -> SealError {
        SealError::Memory
    }
}
