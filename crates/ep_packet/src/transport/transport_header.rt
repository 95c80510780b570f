//! UDP, TCP or ICMP headers as values, and their checksums over either IP version.
ghost use Rattle.std.specs.Prelude.{◌≡◌, ◌+◌, ◌≤◌, ◌++◌, OnOk, OnErr, IfOk, IfErr, IsOk, Ok, Err, vec_len};
ghost use Rattle.std.specs.Prelude.{vec_capacity};
ghost use Rattle.std.specs.Option.{option_copied_mut};
ghost use Rattle.std.specs.Borrow.{sem};
ghost use Rattle.ep_packet.specs.Transport.{udp_in, tcp_in, icmpv4_in, icmpv6_in, transport_len, transport_encoding};
ghost use Rattle.ep_packet.specs.TransportChecksum.{with_checksum_v4, with_checksum_v6};
ghost use Rattle.ep_packet.specs.TransportLends.{lends_udp, lends_tcp, lends_icmpv4, lends_icmpv6};

use crate::err::packet::TransportChecksumError;
use ep_base::err::ValueTooBigError;
use ep_icmp::{Icmpv4Header, Icmpv6Header};
use ep_ip::{Ipv4Header, Ipv6Header};
use ep_tcpudp::{TcpHeader, UdpHeader};
use std::alloc::AllocError;

/// The header of a transport message.
#[derive(Clone, Debug, PartialEq, Eq, Drop)]
pub enum TransportHeader {
    /// A UDP header.
    Udp(UdpHeader),
    /// A TCP header.
    Tcp(TcpHeader),
    /// The header of an ICMP message over IPv4.
    Icmpv4(Icmpv4Header),
    /// The header of an ICMP message over IPv6.
    Icmpv6(Icmpv6Header),
}

impl TransportHeader {
    /// The UDP header, where it is one.
    pub fn udp(self) -> Option<UdpHeader>
        ensures { result ≡ udp_in self }
    {
        match self {
            TransportHeader::Udp(header) => Some(header),
            _ => None,
        }
    }

    /// The UDP header for writing, where it is one.
    pub fn mut_udp(&mut self) -> Option<&mut UdpHeader>
        ensures* writes_back { sem 𝓛 (lends_udp self.entry result) }
        ensures value { option_copied_mut result ≡ udp_in self.old }
    {
        match self {
            TransportHeader::Udp(header) => Some(header),
            _ => None,
        }
    }

    /// The TCP header, where it is one.
    pub fn tcp(self) -> Option<TcpHeader>
        ensures { result ≡ tcp_in self }
    {
        match self {
            TransportHeader::Tcp(header) => Some(header),
            _ => None,
        }
    }

    /// The TCP header for writing, where it is one.
    pub fn mut_tcp(&mut self) -> Option<&mut TcpHeader>
        ensures* writes_back { sem 𝓛 (lends_tcp self.entry result) }
        ensures value { option_copied_mut result ≡ tcp_in self.old }
    {
        match self {
            TransportHeader::Tcp(header) => Some(header),
            _ => None,
        }
    }

    /// The ICMPv4 header, where it is one.
    pub fn icmpv4(self) -> Option<Icmpv4Header>
        ensures { result ≡ icmpv4_in self }
    {
        match self {
            TransportHeader::Icmpv4(header) => Some(header),
            _ => None,
        }
    }

    /// The ICMPv4 header for writing, where it is one.
    pub fn mut_icmpv4(&mut self) -> Option<&mut Icmpv4Header>
        ensures* writes_back { sem 𝓛 (lends_icmpv4 self.entry result) }
        ensures value { option_copied_mut result ≡ icmpv4_in self.old }
    {
        match self {
            TransportHeader::Icmpv4(header) => Some(header),
            _ => None,
        }
    }

    /// The ICMPv6 header, where it is one.
    pub fn icmpv6(self) -> Option<Icmpv6Header>
        ensures { result ≡ icmpv6_in self }
    {
        match self {
            TransportHeader::Icmpv6(header) => Some(header),
            _ => None,
        }
    }

    /// The ICMPv6 header for writing, where it is one.
    pub fn mut_icmpv6(&mut self) -> Option<&mut Icmpv6Header>
        ensures* writes_back { sem 𝓛 (lends_icmpv6 self.entry result) }
        ensures value { option_copied_mut result ≡ icmpv6_in self.old }
    {
        match self {
            TransportHeader::Icmpv6(header) => Some(header),
            _ => None,
        }
    }

    /// The length of the header in bytes: 8 of UDP, 20 to 60 of TCP, 8 or 20 of ICMPv4, 8 of
    /// ICMPv6.
    pub fn header_len(&self) -> usize
        ensures { result ≡ transport_len self.now }
    {
        match self {
            TransportHeader::Udp(_) => UdpHeader::LEN,
            TransportHeader::Tcp(header) => header.header_len(),
            TransportHeader::Icmpv4(header) => header.header_len(),
            TransportHeader::Icmpv6(header) => header.header_len(),
        }
    }

    /// Sets the checksum to the one that belongs to the other fields, this payload and the
    /// addresses of this IPv4 header. UDP's length field isn't changed; it is used in the pseudo
    /// header as it is.
    ///
    /// Refused, with the header unchanged, are a UDP payload above 65527 bytes, a TCP payload above
    /// 65535 bytes less the header, and every ICMPv6 header.
    #[inline(always)]
    pub fn update_checksum_ipv4(
        &mut self,
        ip_header: &Ipv4Header,
        payload: &[u8],
    ) -> Result<(), TransportChecksumError>
        ensures ok { IfOk
            (with_checksum_v4 ip_header.now.source ip_header.now.destination self.old payload.now)
            (λ header. (result ≡ Ok tt) × (self.new ≡ header)) }
        ensures err { IfErr
            (with_checksum_v4 ip_header.now.source ip_header.now.destination self.old payload.now)
            (λ e. (result ≡ Err e) × (self.new ≡ self.old)) }
    {
        match self {
            TransportHeader::Udp(header) => {
                header.checksum = header
                    .calc_checksum_ipv4(ip_header, payload)
                    .map_err(TransportChecksumError::PayloadLen)?;
            }
            TransportHeader::Tcp(header) => {
                header.checksum = header
                    .calc_checksum_ipv4(ip_header, payload)
                    .map_err(TransportChecksumError::PayloadLen)?;
            }
            TransportHeader::Icmpv4(header) => header.update_checksum(payload),
            TransportHeader::Icmpv6(_) => return Err(TransportChecksumError::Icmpv6InIpv4),
        }
        Ok(())
    }

    /// Sets the checksum to the one that belongs to the other fields, this payload and, but for
    /// ICMPv4, the addresses of this IPv6 header. UDP's length field isn't changed; it is used in
    /// the pseudo header as it is.
    ///
    /// Refused, with the header unchanged, is a payload above 4294967295 bytes less the header, of
    /// any protocol but ICMPv4.
    #[inline(always)]
    pub fn update_checksum_ipv6(
        &mut self,
        ip_header: &Ipv6Header,
        payload: &[u8],
    ) -> Result<(), ValueTooBigError<usize>>
        ensures ok { IfOk
            (with_checksum_v6 ip_header.now.source ip_header.now.destination self.old payload.now)
            (λ header. (result ≡ Ok tt) × (self.new ≡ header)) }
        ensures err { IfErr
            (with_checksum_v6 ip_header.now.source ip_header.now.destination self.old payload.now)
            (λ e. (result ≡ Err e) × (self.new ≡ self.old)) }
    {
        match self {
            TransportHeader::Udp(header) => {
                header.checksum = header.calc_checksum_ipv6(ip_header, payload)?;
            }
            TransportHeader::Tcp(header) => {
                header.checksum = header.calc_checksum_ipv6(ip_header, payload)?;
            }
            TransportHeader::Icmpv4(header) => header.update_checksum(payload),
            TransportHeader::Icmpv6(header) => {
                header.update_checksum(ip_header.source, ip_header.destination, payload)?;
            }
        }
        Ok(())
    }

    /// Appends the bytes of the header, with length and checksum as they are.
    ///
    /// Where no memory is left for them, the buffer keeps its bytes.
    #[inline(always)]
    pub fn write(&self, buffer: &mut Vec<u8>) -> Result<(), AllocError>
        ensures ok { OnOk result (buffer.new.items ≡ buffer.old.items
            ++ transport_encoding self.now) }
        ensures len { OnOk result (vec_len buffer.new
            ≡ vec_len buffer.old + transport_len self.now) }
        ensures err { OnErr result (buffer.new.items ≡ buffer.old.items) }
        // It fails only if the capacity was too small. The capacity never shrinks.
        ensures succeeds { vec_len buffer.old + transport_len self.now ≤ vec_capacity buffer.old
            → IsOk result }
        ensures capacity { vec_capacity buffer.old ≤ vec_capacity buffer.new }
    {
        match self {
            TransportHeader::Udp(header) => header.write(buffer),
            TransportHeader::Tcp(header) => header.write(buffer),
            TransportHeader::Icmpv4(header) => header.write(buffer),
            TransportHeader::Icmpv6(header) => header.write(buffer),
        }
    }
}
