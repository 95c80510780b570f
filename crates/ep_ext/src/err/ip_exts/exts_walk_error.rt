//! Faults in the numbers that name extension headers, of either version.

use crate::err::{ipv4_exts, ipv6_exts};
use thiserror::Error;

/// Why the headers of a value don't follow one another, of either version.
#[derive(Clone, Copy, Debug, PartialEq, Eq, Hash, Error)]
pub enum ExtsWalkError {
    /// The extension headers of IPv4 don't follow one another.
    #[error("{0}")]
    Ipv4Exts(ipv4_exts::ExtsWalkError),
    /// The extension headers of IPv6 don't follow one another.
    #[error("{0}")]
    Ipv6Exts(ipv6_exts::ExtsWalkError),
}
