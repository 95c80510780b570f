//! An ICMP echo request.

use etherparse::{IcmpEchoHeader, Icmpv4Header, Icmpv4Slice, Icmpv4Type};
use std::alloc::{AllocError, Global};

/// An echo request that carries these bytes, with its checksum.
/// It has no contract: what the program prints is compared with what is stored.
pub fn echo_request(alloc: Global, id: u16, seq: u16, data: &[u8]) -> Result<Vec<u8>, AllocError> {
    let echo = IcmpEchoHeader { id, seq };
    let header = Icmpv4Header::with_checksum(Icmpv4Type::EchoRequest(echo), data);
    let mut message = Vec::new(alloc);
    header.write(&mut message)?;
    message.extend_from_slice(data)?;
    Ok(message)
}

/// The identifier and sequence number of an echo reply, or `None` of any other message.
/// It has no contract: what the program prints is compared with what is stored.
pub fn echoed(message: &[u8]) -> Option<(u16, u16)> {
    match Icmpv4Slice::from_slice(message).ok()?.icmp_type() {
        Icmpv4Type::EchoReply(echo) => Some((echo.id, echo.seq)),
        _ => None,
    }
}
