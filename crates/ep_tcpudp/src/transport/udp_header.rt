//! The UDP header as a value, and its checksum.

ghost use Rattle.std.specs.Prelude.{◌≡◌, ℕ, ◌+◌, ◌≤◌, List, ◌++◌, length, IfOk, IfErr, IsOkAnd, OnOk, OnErr, IsOk, Err};
ghost use Rattle.std.specs.Prelude.{vec_len, vec_capacity};
ghost use Rattle.ep_base.specs.MessageSum.{SumsWords};
ghost use Rattle.ep_base.specs.Sum.{fold, total};
ghost use Rattle.ep_tcpudp.specs.Limit.{value_up_to};
ghost use Rattle.ep_tcpudp.specs.Udp.{IsUdpHeader, IsRead, Fits, udp_header_of, encoding, unchecked_header};
ghost use Rattle.ep_tcpudp.specs.UdpChecksum.{right_checksum, checksum_v4, checksum_v6, sealed_v4, sealed_v6};
ghost use Rattle.ep_tcpudp.specs.UdpFault.{header_at};

use super::limit::at_most;
use crate::UdpHeaderSlice;
use ep_base::IpNumber;
use ep_base::checksum::{Sum16BitWords, message_sum};
use ep_base::err::{LenError, ValueTooBigError, ValueType};
use ep_ip::checksum::{pseudo_sum_v4, pseudo_sum_v6};
use ep_ip::{Ipv4Header, Ipv6Header};
use std::alloc::AllocError;

/// A UDP header (RFC 768). In its 8 bytes numbers are high byte first.
#[derive(Clone, Debug, PartialEq, Eq, Drop)]
pub struct UdpHeader {
    /// The port that the datagram comes from.
    pub source_port: u16,
    /// The port that it goes to.
    pub destination_port: u16,
    /// The length of header and payload in bytes, or 0, which says nothing of it.
    pub length: u16,
    /// The checksum, or 0 where there is none.
    pub checksum: u16,
}

impl UdpHeader {
    /// The length of a UDP header in bytes.
    pub const LEN: usize = 8;

    /// The same as a `u16`.
    pub const LEN_U16: u16 = 8;

    /// The header of a payload of this length in bytes, with the checksum 0, which over IPv4 says
    /// that there is none.
    ///
    /// A payload above 65527 bytes, for which the length field is too small, is refused.
    pub fn without_ipv4_checksum(
        source_port: u16,
        destination_port: u16,
        payload_length: usize,
    ) -> Result<UdpHeader, ValueTooBigError<usize>>
        ensures { result ≡ value_up_to ValueType.UdpPayloadLengthIpv4 65527 payload_length
            (unchecked_header source_port destination_port payload_length) }
    {
        UdpHeader::unchecked(
            source_port,
            destination_port,
            payload_length,
            ValueType::UdpPayloadLengthIpv4,
        )
    }

    // The header of a payload of this length and kind, with the checksum 0.
    fn unchecked(
        source_port: u16,
        destination_port: u16,
        payload_length: usize,
        kind: ValueType,
    ) -> Result<UdpHeader, ValueTooBigError<usize>>
        ensures { result ≡ value_up_to kind 65527 payload_length
            (unchecked_header source_port destination_port payload_length) }
    {
        at_most(payload_length, u16::MAX as usize - UdpHeader::LEN, kind)?;
        Ok(UdpHeader {
            source_port,
            destination_port,
            length: (UdpHeader::LEN + payload_length) as u16,
            checksum: 0,
        })
    }

    /// The header of this payload over IPv4, with its checksum.
    ///
    /// A payload above 65527 bytes is refused.
    pub fn with_ipv4_checksum(
        source_port: u16,
        destination_port: u16,
        ip_header: &Ipv4Header,
        payload: &[u8],
    ) -> Result<UdpHeader, ValueTooBigError<usize>>
        ensures { result ≡ value_up_to ValueType.UdpPayloadLengthIpv4 65527 (length payload.now)
            (sealed_v4 source_port destination_port ip_header.now.source ip_header.now.destination payload.now) }
    {
        let kind = ValueType::UdpPayloadLengthIpv4;
        let header = UdpHeader::unchecked(source_port, destination_port, payload.len(), kind)?;
        let checksum = header.checksum_over_ipv4(ip_header.source, ip_header.destination, payload);
        Ok(UdpHeader { checksum, ..header })
    }

    /// The header of this payload over IPv6, with its checksum.
    ///
    /// A payload above 65527 bytes is refused.
    pub fn with_ipv6_checksum(
        source_port: u16,
        destination_port: u16,
        ip_header: &Ipv6Header,
        payload: &[u8],
    ) -> Result<UdpHeader, ValueTooBigError<usize>>
        ensures { result ≡ value_up_to ValueType.UdpPayloadLengthIpv6 65527 (length payload.now)
            (sealed_v6 source_port destination_port ip_header.now.source ip_header.now.destination payload.now) }
    {
        let kind = ValueType::UdpPayloadLengthIpv6;
        let header = UdpHeader::unchecked(source_port, destination_port, payload.len(), kind)?;
        let checksum = header.checksum_over_ipv6(ip_header.source, ip_header.destination, payload);
        Ok(UdpHeader { checksum, ..header })
    }

    /// The checksum over IPv4: of the pseudo header between the addresses of this header, with the
    /// UDP header's own length field, of the header with its checksum as 0, and of the payload. It
    /// is never 0: ffff is given instead.
    ///
    /// A payload above 65527 bytes is refused. Whether the length field fits the payload isn't
    /// tested.
    #[inline(always)]
    pub fn calc_checksum_ipv4(
        &self,
        ip_header: &Ipv4Header,
        payload: &[u8],
    ) -> Result<u16, ValueTooBigError<usize>>
        ensures { result ≡ value_up_to ValueType.UdpPayloadLengthIpv4 65527 (length payload.now)
            (checksum_v4 ip_header.now.source ip_header.now.destination self.now payload.now) }
    {
        self.calc_checksum_ipv4_raw(ip_header.source, ip_header.destination, payload)
    }

    /// The same between these addresses.
    #[inline(always)]
    pub fn calc_checksum_ipv4_raw(
        &self,
        source: [u8; 4],
        destination: [u8; 4],
        payload: &[u8],
    ) -> Result<u16, ValueTooBigError<usize>>
        ensures { result ≡ value_up_to ValueType.UdpPayloadLengthIpv4 65527 (length payload.now)
            (checksum_v4 source destination self.now payload.now) }
    {
        at_most(
            payload.len(),
            u16::MAX as usize - UdpHeader::LEN,
            ValueType::UdpPayloadLengthIpv4,
        )?;
        Ok(self.checksum_over_ipv4(source, destination, payload))
    }

    /// The checksum over IPv6, as [`UdpHeader::calc_checksum_ipv4`] over IPv4.
    ///
    /// A payload above 4294967287 bytes is refused.
    #[inline(always)]
    pub fn calc_checksum_ipv6(
        &self,
        ip_header: &Ipv6Header,
        payload: &[u8],
    ) -> Result<u16, ValueTooBigError<usize>>
        ensures { result ≡ value_up_to ValueType.UdpPayloadLengthIpv6 4294967287
            (length payload.now)
            (checksum_v6 ip_header.now.source ip_header.now.destination self.now payload.now) }
    {
        self.calc_checksum_ipv6_raw(ip_header.source, ip_header.destination, payload)
    }

    /// The same between these addresses.
    #[inline(always)]
    pub fn calc_checksum_ipv6_raw(
        &self,
        source: [u8; 16],
        destination: [u8; 16],
        payload: &[u8],
    ) -> Result<u16, ValueTooBigError<usize>>
        ensures { result ≡ value_up_to ValueType.UdpPayloadLengthIpv6 4294967287
            (length payload.now)
            (checksum_v6 source destination self.now payload.now) }
    {
        at_most(
            payload.len(),
            u32::MAX as usize - UdpHeader::LEN,
            ValueType::UdpPayloadLengthIpv6,
        )?;
        Ok(self.checksum_over_ipv6(source, destination, payload))
    }

    #[inline(always)]
    fn checksum_over_ipv4(&self, source: [u8; 4], destination: [u8; 4], payload: &[u8]) -> u16
        ensures { result ≡ checksum_v4 source destination self.now payload.now }
    {
        let pseudo = pseudo_sum_v4(source, destination, IpNumber::UDP, self.length);
        self.checksum_after(pseudo, payload)
    }

    #[inline(always)]
    fn checksum_over_ipv6(&self, source: [u8; 16], destination: [u8; 16], payload: &[u8]) -> u16
        ensures { result ≡ checksum_v6 source destination self.now payload.now }
    {
        let pseudo = pseudo_sum_v6(source, destination, IpNumber::UDP, self.length.into());
        self.checksum_after(pseudo, payload)
    }

    // The checksum after a pseudo header with this sum.
    #[inline(always)]
    fn checksum_after(&self, pseudo: Sum16BitWords, payload: &[u8]) -> u16
        ensures { (prefix : List ℕ) → SumsWords pseudo prefix
            → result ≡ right_checksum prefix self.now payload.now }
    {
        self.sum_after(pseudo, payload)
            .to_ones_complement_with_no_zero()
            .swap_bytes()
    }

    #[inline(always)]
    fn sum_after(&self, pseudo: Sum16BitWords, payload: &[u8]) -> Sum16BitWords
        ensures { (prefix : List ℕ) → SumsWords pseudo prefix
            → result ≡ fold
            (total (prefix ++ encoding (record self.now { checksum = 0 }) ++ payload.now)) }
    {
        message_sum(pseudo, &self.encoded_with(0), payload)
    }

    /// The header at the start of the slice, and the bytes after it. A slice of fewer than 8 bytes
    /// is refused. The length field is ignored.
    pub fn from_slice(slice: &[u8]) -> Result<(UdpHeader, &[u8]), LenError>
        // The slice starts with a header, which has these fields.
        ensures found { IfOk result (λ r. IsRead slice.now r.0 r.1.now) }
        // A prefix that is a header is parsed.
        ensures only { (prefix rest : List ℕ) → IsUdpHeader prefix → slice.now ≡ prefix ++ rest
            → IsOkAnd result (λ r. (r.0 ≡ udp_header_of prefix) × (r.1.now ≡ rest)) }
        // Else bytes are missing.
        ensures err { IfErr result (λ e. header_at slice.now ≡ Err e) }
    {
        let header = UdpHeaderSlice::from_slice(slice)?;
        let rest = &slice[UdpHeader::LEN..];
        Ok((header.to_header(), rest))
    }

    /// The header that these bytes are.
    pub fn from_bytes(bytes: [u8; 8]) -> UdpHeader
        ensures { result ≡ udp_header_of bytes }
    {
        let [s0, s1, d0, d1, l0, l1, c0, c1] = bytes;
        UdpHeader {
            source_port: u16::from_be_bytes([s0, s1]),
            destination_port: u16::from_be_bytes([d0, d1]),
            length: u16::from_be_bytes([l0, l1]),
            checksum: u16::from_be_bytes([c0, c1]),
        }
    }

    /// The length of a UDP header in bytes.
    #[inline(always)]
    pub fn header_len(&self) -> usize
        ensures { result ≡ 8 }
    {
        UdpHeader::LEN
    }

    /// The bytes of the header, with length and checksum as they are.
    #[inline(always)]
    pub fn to_bytes(&self) -> [u8; 8]
        ensures bytes { result ≡ encoding self.now }
        // They are a header, with these fields.
        ensures header { IsUdpHeader result }
        ensures fields { udp_header_of result ≡ self.now }
    {
        self.encoded_with(self.checksum)
    }

    // The bytes of the header with this checksum.
    #[inline(always)]
    fn encoded_with(&self, checksum: u16) -> [u8; 8]
        ensures bytes { result ≡ encoding (record self.now { checksum = checksum }) }
        ensures fits { Fits (record self.now { checksum = checksum }) }
    {
        let source_port = self.source_port.to_be_bytes();
        let destination_port = self.destination_port.to_be_bytes();
        let length = self.length.to_be_bytes();
        let checksum = checksum.to_be_bytes();
        [
            source_port[0],
            source_port[1],
            destination_port[0],
            destination_port[1],
            length[0],
            length[1],
            checksum[0],
            checksum[1],
        ]
    }

    /// Appends the bytes of the header, with length and checksum as they are.
    ///
    /// Where no memory is left for them, the buffer keeps its bytes.
    #[inline(always)]
    pub fn write(&self, buffer: &mut Vec<u8>) -> Result<(), AllocError>
        ensures ok { OnOk result (buffer.new.items ≡ buffer.old.items ++ encoding self.now) }
        ensures len { OnOk result (vec_len buffer.new ≡ vec_len buffer.old + 8) }
        ensures err { OnErr result (buffer.new.items ≡ buffer.old.items) }
        // It fails only where capacity was missing, and capacity never shrinks.
        ensures succeeds { vec_len buffer.old + 8 ≤ vec_capacity buffer.old → IsOk result }
        ensures capacity { vec_capacity buffer.old ≤ vec_capacity buffer.new }
    {
        buffer.extend_from_slice(&self.to_bytes())
    }
}

impl Default for UdpHeader {
    ghost is_default = { λ header. header ≡ record {
      source_port = 0;
      destination_port = 0;
      length = 0;
      checksum = 0;
    } };

    /// 0 in every field.
    fn default() -> Self {
        UdpHeader {
            source_port: 0,
            destination_port: 0,
            length: 0,
            checksum: 0,
        }
    }
}
