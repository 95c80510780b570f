//! The datagrams that ICMP errors are about.
ghost use Rattle.std.specs.Prelude.{◌≡◌, ◌≤◌, length};
ghost use Rattle.ep_ipslice.specs.Compared.{lax_value};
ghost use Rattle.packets.specs.OriginalDatagrams.{datagram_after_header, has_ports, is_icmpv4_error, is_icmpv6_error};
ghost use Rattle.packets.specs.OriginalDatagrams.{original_in_icmpv4, original_in_icmpv6, ports_in, ports_of};

use crate::show::endpoints::Ports;
use ep_base::IpNumber;
use ep_icmp::{Icmpv4Header, Icmpv4Slice, Icmpv6Slice, icmpv4, icmpv6};
use ep_ipslice::LaxIpPayloadSlice;
use ep_packet::{LaxNetSlice, LaxSlicedPacket};

/// The headers that are there of the datagram that an error of ICMP over IPv4 is about (RFC 792): it
/// follows the header, and RFC 4884 names it the original datagram. There are none in other messages,
/// and where its IP header isn't whole or breaks its format.
pub fn original_in_icmpv4<'a>(message: &Icmpv4Slice<'a>) -> Option<LaxSlicedPacket<'a>>
    ensures { result ≡ original_in_icmpv4 message.now }
{
    if is_icmpv4_error(message.type_u8()) {
        datagram_after_header(message.slice())
    } else {
        None
    }
}

/// The same of ICMP over IPv6 (RFC 4443).
pub fn original_in_icmpv6<'a>(message: &Icmpv6Slice<'a>) -> Option<LaxSlicedPacket<'a>>
    ensures { result ≡ original_in_icmpv6 message.now }
{
    if is_icmpv6_error(message.type_u8()) {
        datagram_after_header(message.slice())
    } else {
        None
    }
}

fn is_icmpv4_error(type_u8: u8) -> bool
    ensures { result ≡ is_icmpv4_error type_u8 }
{
    type_u8 == icmpv4::TYPE_DEST_UNREACH
        || type_u8 == icmpv4::TYPE_SOURCE_QUENCH
        || type_u8 == icmpv4::TYPE_REDIRECT
        || type_u8 == icmpv4::TYPE_TIME_EXCEEDED
        || type_u8 == icmpv4::TYPE_PARAMETER_PROBLEM
}

fn is_icmpv6_error(type_u8: u8) -> bool
    ensures { result ≡ is_icmpv6_error type_u8 }
{
    type_u8 == icmpv6::TYPE_DST_UNREACH
        || type_u8 == icmpv6::TYPE_PACKET_TOO_BIG
        || type_u8 == icmpv6::TYPE_TIME_EXCEEDED
        || type_u8 == icmpv6::TYPE_PARAMETER_PROBLEM
}

// The headers of errors have the same length over both IP versions.
#[inline(never)]
fn datagram_after_header(message: &[u8]) -> Option<LaxSlicedPacket<'_>>
    requires { 8 ≤ length message.now }
    ensures { result ≡ datagram_after_header message.now }
{
    match LaxSlicedPacket::from_ip(&message[Icmpv4Header::MIN_LEN..]) {
        Ok(layers) => Some(layers),
        Err(_) => None,
    }
}

/// The ports of an original datagram of TCP or UDP, also where the rest of that header isn't there.
pub(crate) fn ports_of(net: &Option<LaxNetSlice<'_>>) -> Option<Ports>
    ensures { result ≡ ports_of net.now }
{
    match net {
        Some(LaxNetSlice::Ipv4(packet)) => ports_in(packet.payload()),
        Some(LaxNetSlice::Ipv6(packet)) => ports_in(packet.payload()),
        _ => None,
    }
}

fn ports_in(payload: &LaxIpPayloadSlice<'_>) -> Option<Ports>
    ensures { result ≡ ports_in (lax_value payload.now).1 }
{
    if !has_ports(payload) {
        return None;
    }
    let bytes = payload.payload;
    Some(Ports {
        source: u16::from_be_bytes([bytes[0], bytes[1]]),
        destination: u16::from_be_bytes([bytes[2], bytes[3]]),
    })
}

fn has_ports(payload: &LaxIpPayloadSlice<'_>) -> bool
    ensures { result ≡ has_ports (lax_value payload.now).1 }
{
    (payload.ip_number == IpNumber::TCP || payload.ip_number == IpNumber::UDP)
        && !payload.fragmented
        && payload.payload.len() >= 4
}
