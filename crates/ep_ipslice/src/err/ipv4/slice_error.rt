//! Why a slice begins with no IPv4 packet.

use ep_base::err::LenError;
use ep_ext::err::ip_auth;
use ep_ip::err::ipv4::HeaderError;
use thiserror::Error;

/// Why no IPv4 packet could be read from a slice (RFC 791, section 3.1).
#[derive(Clone, Copy, Debug, PartialEq, Eq, Hash, Error)]
pub enum SliceError {
    /// Fewer bytes are there than the header, its total length or the authentication header needs.
    #[error("{0}")]
    Len(LenError),
    /// The base header breaks its format.
    #[error("{0}")]
    Header(HeaderError),
    /// The authentication header breaks its format (RFC 4302, section 2.2).
    #[error("{0}")]
    Exts(ip_auth::HeaderError),
}
