//! Errors of writing IP headers and their extension headers.

ghost use Rattle.std.specs.Prelude.{◌≡◌};
ghost use Rattle.ep_packet.specs.HeadersWriteError.{is_memory, ipv4_exts_in, ipv6_exts_in};

use ep_ext::err::{ipv4_exts, ipv6_exts};
use thiserror::Error;

/// Why the headers of an IP packet are not written.
#[derive(Clone, Copy, Debug, PartialEq, Eq, Hash, Error)]
pub enum HeadersWriteError {
    /// No memory was left for the bytes.
    #[error("no memory left for IP headers")]
    Memory,
    /// The IPv4 header doesn't lead to the extension header.
    #[error("{0}")]
    Ipv4Exts(ipv4_exts::ExtsWalkError),
    /// The IPv6 header and the extension headers don't lead to all of them.
    #[error("{0}")]
    Ipv6Exts(ipv6_exts::ExtsWalkError),
}

impl HeadersWriteError {
    /// Whether it ran out of memory.
    pub fn memory(&self) -> bool
        ensures { result ≡ is_memory self.now }
    {
        matches!(self, HeadersWriteError::Memory)
    }

    /// The fault of the extension headers over IPv4, where it is one.
    pub fn ipv4_exts(&self) -> Option<ipv4_exts::ExtsWalkError>
        ensures { result ≡ ipv4_exts_in self.now }
    {
        match self {
            HeadersWriteError::Ipv4Exts(error) => Some(*error),
            _ => None,
        }
    }

    /// The fault of the extension headers over IPv6, where it is one.
    pub fn ipv6_exts(&self) -> Option<ipv6_exts::ExtsWalkError>
        ensures { result ≡ ipv6_exts_in self.now }
    {
        match self {
            HeadersWriteError::Ipv6Exts(error) => Some(*error),
            _ => None,
        }
    }
}
