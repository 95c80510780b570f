//! The checksums, and the length of UDP, in the transport header of a packet that is built.

ghost use Rattle.std.specs.Prelude.{◌≡◌, ◌+◌, ◌≤◌, length, MatchOption, IsOk, OnOk, Err};
ghost use Rattle.ep_ext.specs.declared.net.ipv4_extensions.Ipv4Extensions.{Ipv4Extensions};
ghost use Rattle.ep_ext.specs.declared.net.ipv6_extensions.Ipv6Extensions.{Ipv6Extensions};
ghost use Rattle.ep_packet.specs.Transport.{transport_len};
ghost use Rattle.ep_packet.specs.declared.net.ip_headers.IpHeaders.TheVariants as headers;
ghost use Rattle.etherparse.specs.Built.{seal_refusal, with_message_checksum, with_length};

use crate::err::packet::BuildWriteError;
use ep_ip::{Ipv4Header, Ipv6Header};
use ep_packet::TransportHeader;
use ep_packet::err::packet::TransportChecksumError;
use ep_tcpudp::UdpHeader;

// The transport header over this IP header gets its length and checksum.

#[inline(always)]
pub(super) fn seal_over_ipv4(
    transport: &mut TransportHeader,
    header: &Ipv4Header,
    payload: &[u8],
) -> Result<(), BuildWriteError>
    requires { transport_len transport.old + length payload.now ≤ 65535 }
    ensures refusal { (e : Ipv4Extensions)
        → MatchOption (seal_refusal (headers.Ipv4 header.now e) transport.old) (IsOk result)
        (λ e. result ≡ Err e) }
    ensures ok { (e : Ipv4Extensions) → OnOk result (transport.new ≡ with_message_checksum
        (headers.Ipv4 header.now e) payload.now transport.old) }
    ensures len { OnOk result (transport_len transport.new ≡ transport_len transport.old) }
{
    set_length(transport, payload);
    match transport.update_checksum_ipv4(header, payload) {
        Ok(()) => Ok(()),
        Err(TransportChecksumError::PayloadLen(error)) => Err(BuildWriteError::PayloadLen(error)),
        Err(TransportChecksumError::Icmpv6InIpv4) => Err(BuildWriteError::Icmpv6InIpv4),
    }
}

#[inline(always)]
pub(super) fn seal_over_ipv6(
    transport: &mut TransportHeader,
    header: &Ipv6Header,
    payload: &[u8],
) -> Result<(), BuildWriteError>
    requires { transport_len transport.old + length payload.now ≤ 65535 }
    ensures outcome { IsOk result }
    ensures ok { (e : Ipv6Extensions) → OnOk result (transport.new ≡ with_message_checksum
        (headers.Ipv6 header.now e) payload.now transport.old) }
    ensures len { OnOk result (transport_len transport.new ≡ transport_len transport.old) }
{
    set_length(transport, payload);
    match transport.update_checksum_ipv6(header, payload) {
        Ok(()) => Ok(()),
        Err(error) => Err(BuildWriteError::PayloadLen(error)),
    }
}

#[inline(always)]
fn set_length(transport: &mut TransportHeader, payload: &[u8])
    requires { transport_len transport.old + length payload.now ≤ 65535 }
    ensures { transport.new ≡ with_length transport.old payload.now }
{
    if let TransportHeader::Udp(header) = transport {
        header.length = (UdpHeader::LEN + payload.len()) as u16;
    }
}
