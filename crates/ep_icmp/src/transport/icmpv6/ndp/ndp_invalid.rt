//! Why a message of neighbor discovery is to be discarded.

use super::NdpOptionError;
use thiserror::Error;

/// Why a receiver discards a message of neighbor discovery (RFC 4861, sections 6.1.1, 6.1.2, 7.1.1,
/// 7.1.2 and 8.1).
#[derive(Clone, Copy, Debug, PartialEq, Eq, Error)]
pub enum NdpInvalid {
    /// The hop limit isn't 255, so that a router may have forwarded it.
    #[error("the hop limit is {0}, not 255")]
    HopLimit(u8),
    /// The checksum is wrong.
    #[error("the checksum is wrong")]
    Checksum,
    /// The code isn't 0.
    #[error("the code is {0}, not 0")]
    Code(u8),
    /// The source of a router advertisement or of a redirect isn't a link-local address.
    #[error("the source isn't a link-local address")]
    SourceNotLinkLocal,
    /// The target of a neighbor solicitation or advertisement is a multicast address.
    #[error("the target is a multicast address")]
    TargetMulticast,
    /// A neighbor solicitation from the unspecified address isn't to a solicited-node multicast
    /// address.
    #[error("the source is unspecified, and the destination isn't a solicited-node multicast address")]
    DestinationNotSolicitedNode,
    /// A neighbor advertisement to a multicast address has the solicited flag.
    #[error("the solicited flag is set, and the destination is a multicast address")]
    SolicitedToMulticast,
    /// A redirect is for packets to a multicast address.
    #[error("the redirected destination is a multicast address")]
    RedirectedMulticast,
    /// The target of a redirect is neither a link-local address nor the redirected destination.
    #[error("the target is neither a link-local address nor the redirected destination")]
    TargetNotRouterNorDestination,
    /// A solicitation from the unspecified address has the option of its link-layer address.
    #[error("the source is unspecified, and its link-layer address is given")]
    SourceLinkLayerAddressWithoutSource,
    /// The options have a fault.
    #[error("{0}")]
    Options(NdpOptionError),
}
