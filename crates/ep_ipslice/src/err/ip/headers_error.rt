//! Faults in the bytes of IP headers, extension headers included.

use super::HeaderError;
use ep_ext::err::{ip_auth, ipv6_exts};
use thiserror::Error;

/// Why bytes are no IP base header with extension headers after it.
#[derive(Clone, Copy, Debug, PartialEq, Eq, Hash, Error)]
pub enum HeadersError {
    /// The base header breaks its format.
    #[error("{0}")]
    Ip(HeaderError),
    /// The authentication header after an IPv4 header breaks its format.
    #[error("{0}")]
    Ipv4Ext(ip_auth::HeaderError),
    /// An IPv6 extension header breaks its format, or is out of order.
    #[error("{0}")]
    Ipv6Ext(ipv6_exts::HeaderError),
}
