//! Messages made of headers and payloads.
ghost use Rattle.std.specs.Prelude.{◌≡◌, IfOk, IsOk, IsOkUnless, MatchOption};
ghost use Rattle.etherparse.specs.packet.declared.transport.transport_header.TransportHeader.{TransportHeader};
ghost use Rattle.netlines.specs.Sealed.{addresses_of, seal_refusal, sealed_message_bytes, sealed_header};

use crate::{IpFragVersionSpecId, SealError};
use etherparse::err::packet::TransportChecksumError;
use etherparse::{Ipv4Header, Ipv6Header, TransportHeader};
use std::alloc::Global;

/// The greatest length of a message in bytes, header and payload.
const MESSAGE_LIMIT: usize = 65535;

/// The bytes of a message: the header, with the checksum that belongs to the payload and these
/// addresses and, of UDP, with the length; and after it the payload. What the header has in those
/// fields is ignored.
///
/// Where several refusals apply, the first one in the order of [`SealError`] is returned.
pub fn seal_message(
    alloc: Global,
    version_id: &IpFragVersionSpecId,
    header: TransportHeader,
    payload: &[u8],
) -> Result<Vec<u8>, SealError>
    // Refused where a refusal applies, and else only where it is out of memory.
    ensures refusal { MatchOption (seal_refusal version_id.now header payload.now)
        (IsOkUnless result SealError.Memory) (λ e. result ≡ Err e) }
    ensures message { IfOk result (λ message. message.items
        ≡ sealed_message_bytes version_id.now header payload.now) }
{
    let header = sealed_with(version_id, header, payload)?;
    let mut message = Vec::with_capacity(alloc, header.header_len() + payload.len())?;
    header.write(&mut message).unwrap();
    message.extend_from_slice(payload).unwrap();
    Ok(message)
}

// The header with its length and checksum, where no refusal applies.
fn sealed_with(
    version_id: &IpFragVersionSpecId,
    mut header: TransportHeader,
    payload: &[u8],
) -> Result<TransportHeader, SealError>
    ensures refusal { MatchOption (seal_refusal version_id.now header payload.now) (IsOk result)
        (λ e. result ≡ Err e) }
    ensures header { IfOk result (λ sealed. sealed
        ≡ sealed_header (addresses_of version_id.now) header payload.now) }
{
    match (version_id, &header) {
        (IpFragVersionSpecId::Ipv4 { .. }, TransportHeader::Icmpv6(_))
        | (IpFragVersionSpecId::Ipv6 { .. }, TransportHeader::Icmpv4(_)) => {
            return Err(SealError::IcmpOfOtherVersion);
        }
        _ => {}
    }
    let len = header.header_len() + payload.len();
    if len > MESSAGE_LIMIT {
        return Err(SealError::TooLong);
    }
    if let TransportHeader::Udp(udp) = &mut header {
        udp.length = len as u16;
    }
    match version_id {
        IpFragVersionSpecId::Ipv4 {
            source,
            destination,
            ..
        } => {
            let mut ip_header = Ipv4Header::default();
            ip_header.source = *source;
            ip_header.destination = *destination;
            header
                .update_checksum_ipv4(&ip_header, payload)
                .map_err(SealError::Checksum)?;
        }
        IpFragVersionSpecId::Ipv6 {
            source,
            destination,
            ..
        } => {
            let mut ip_header = Ipv6Header::default();
            ip_header.source = *source;
            ip_header.destination = *destination;
            header.update_checksum_ipv6(&ip_header, payload).map_err(|error| SealError::Checksum(
                TransportChecksumError::PayloadLen(error),
            ))?;
        }
    }
    Ok(header)
}
