//! Faults in the bytes of extension headers, of IPv4 or IPv6.

use crate::err::{ip_auth, ipv6_exts};
use thiserror::Error;

/// What is wrong with the content of extension headers, of either version.
#[derive(Clone, Copy, Debug, PartialEq, Eq, Hash, Error)]
pub enum HeaderError {
    /// The bytes after an IPv4 header are no authentication header.
    #[error("{0}")]
    Ipv4Ext(ip_auth::HeaderError),
    /// The bytes after an IPv6 header are no extension headers.
    #[error("{0}")]
    Ipv6Ext(ipv6_exts::HeaderError),
}
