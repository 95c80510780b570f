//! The refusal of hardware or protocol addresses of an ARP packet.

ghost use Rattle.std.specs.Prelude.{◌≡◌};
ghost use Rattle.ep_link.specs.declared.err.arp.arp_new_error.ArpNewError.TheVariants as fault;

use super::{ArpHwAddrError, ArpProtoAddrError};
use thiserror::Error;

/// Why addresses make no ARP packet (RFC 826).
#[derive(Clone, Copy, Debug, PartialEq, Eq, Hash, Error)]
pub enum ArpNewError {
    /// The hardware addresses don't pair up.
    #[error("{0}")]
    HwAddr(ArpHwAddrError),
    /// The protocol addresses don't pair up.
    #[error("{0}")]
    ProtoAddr(ArpProtoAddrError),
}

impl From<ArpHwAddrError> for ArpNewError {
    ghost from_gives = { λ error r. r ≡ fault.HwAddr error };

    fn from(error: ArpHwAddrError) -> Self {
        ArpNewError::HwAddr(error)
    }
}

impl From<ArpProtoAddrError> for ArpNewError {
    ghost from_gives = { λ error r. r ≡ fault.ProtoAddr error };

    fn from(error: ArpProtoAddrError) -> Self {
        ArpNewError::ProtoAddr(error)
    }
}
