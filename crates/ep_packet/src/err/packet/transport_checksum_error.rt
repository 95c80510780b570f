//! The refusal of checksums over IPv4: of long payloads, and of ICMPv6.

use ep_base::err::ValueTooBigError;
use thiserror::Error;

/// Why a transport header has no checksum over IPv4.
#[derive(Clone, Copy, Debug, PartialEq, Eq, Hash, Error)]
pub enum TransportChecksumError {
    /// The payload is longer than the length fields can say.
    #[error("{0}")]
    PayloadLen(ValueTooBigError<usize>),
    /// ICMPv6, whose checksum covers IPv6 addresses, over IPv4.
    #[error("an ICMPv6 message over IPv4, which has no checksum")]
    Icmpv6InIpv4,
}
