//! Faults in a packet, by the layer that has one.

use ep_base::err::LenError;
use ep_ext::err::{ip_auth, ipv6_exts};
use ep_ip::err::{ipv4, ipv6};
use ep_ipslice::err::ip;
use ep_link::err::linux_sll;
use ep_tag::err::macsec;
use ep_tcpudp::err::tcp;
use thiserror::Error;

/// Why no packet could be read from a slice, whichever layer is at fault.
#[derive(Clone, Copy, Debug, PartialEq, Eq, Hash, Error)]
pub enum SliceError {
    /// Fewer bytes are there than a layer needs.
    #[error("{0}")]
    Len(LenError),
    /// The header of a Linux cooked capture breaks its format.
    #[error("{0}")]
    LinuxSll(linux_sll::HeaderError),
    /// A MACsec header breaks its format.
    #[error("{0}")]
    Macsec(macsec::HeaderError),
    /// An IP header breaks its format, where it may be of either version.
    #[error("{0}")]
    Ip(ip::HeaderError),
    /// An IPv4 header breaks its format.
    #[error("{0}")]
    Ipv4(ipv4::HeaderError),
    /// An IPv6 header breaks its format.
    #[error("{0}")]
    Ipv6(ipv6::HeaderError),
    /// The authentication header after an IPv4 header breaks its format.
    #[error("{0}")]
    Ipv4Exts(ip_auth::HeaderError),
    /// An IPv6 extension header breaks its format, or is out of order.
    #[error("{0}")]
    Ipv6Exts(ipv6_exts::HeaderError),
    /// A TCP header breaks its format.
    #[error("{0}")]
    Tcp(tcp::HeaderError),
}
