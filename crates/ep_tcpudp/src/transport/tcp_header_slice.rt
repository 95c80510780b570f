//! The TCP header as a view of its bytes.

ghost use Rattle.std.specs.Prelude.{◌≡◌, ◌≤◌, ℕ, ◌-◌, List, ◌++◌, length};
ghost use Rattle.ep_base.specs.MessageSum.{SumsWords};
ghost use Rattle.ep_base.specs.Sum.{fold, total};
ghost use Rattle.ep_ip.specs.Ipv4.{source_of as ipv4_source, destination_of as ipv4_destination};
ghost use Rattle.ep_ip.specs.Ipv6.{source_of as ipv6_source, destination_of as ipv6_destination};
ghost use Rattle.ep_tcpudp.specs.Limit.{value_up_to};
ghost use Rattle.ep_tcpudp.specs.Tcp.{IsTcpHeader};
ghost use Rattle.ep_tcpudp.specs.TcpChecksum.{segment_checksum, segment_checksum_v4, segment_checksum_v6};
ghost use Rattle.ep_tcpudp.specs.TcpChecksum.{with_checksum};
ghost use Rattle.ep_tcpudp.specs.TcpFault.{header_at};

use super::limit::at_most;
use super::tcp_view::TcpView;
use super::view_kind::ViewKind;
use crate::TcpHeader;
use crate::err::tcp::{HeaderError, HeaderSliceError};
use ep_base::IpNumber;
use ep_base::checksum::Sum16BitWords;
use ep_base::err::{Layer, LenError, ValueTooBigError, ValueType};
use ep_ip::checksum::{pseudo_sum_v4, pseudo_sum_v6};
use ep_ip::{Ipv4HeaderSlice, Ipv6HeaderSlice};

/// The bytes of a TCP header, options included (RFC 9293, section 3.1), borrowed. A contract sees
/// the value as those bytes.
pub type TcpHeaderSlice<'a> = TcpView<'a, TcpHeader>;

impl ViewKind for TcpHeader {
    const VIEW: &'static str = "TcpHeaderSlice";

    ghost holds = { IsTcpHeader };
}

impl<'a> TcpHeaderSlice<'a> {
    /// The header at the start of the slice. It ignores what follows.
    ///
    /// Tested in this order: 20 bytes are there (`Len`), the data offset is at least 5
    /// (`DataOffsetTooSmall`), and as many words of 4 bytes are there as it says (`Len`).
    pub fn from_slice(slice: &'a [u8]) -> Result<TcpHeaderSlice<'a>, HeaderSliceError>
        // The prefix that is a header, or the first fault: law `tcp::headers_are_found`.
        ensures exact { result ≡ header_at slice.now }
    {
        if slice.len() < TcpHeader::MIN_LEN {
            return Err(LenError::too_few_bytes(
                Layer::TcpHeader,
                TcpHeader::MIN_LEN,
                slice.len(),
            ).into());
        }
        let data_offset = slice[12] >> 4;
        if data_offset < TcpHeader::MIN_DATA_OFFSET {
            return Err(HeaderError::DataOffsetTooSmall { data_offset }.into());
        }
        let header_len = 4 * usize::from(data_offset);
        if slice.len() < header_len {
            return Err(LenError::too_few_bytes(Layer::TcpHeader, header_len, slice.len()).into());
        }
        Ok(TcpView::of(&slice[..header_len]))
    }

    /// The bytes of the header, options included.
    pub fn slice(&self) -> &'a [u8]
        ensures bytes { result.now ≡ self.now }
        ensures header { IsTcpHeader self.now }
    {
        self.slice
    }

    fn header_len(&self) -> usize
        ensures value { result ≡ length self.now }
        ensures small { result ≤ 60 }
    {
        let _small = self.data_offset();
        self.slice.len()
    }

    /// The checksum over IPv4: of the pseudo header between the addresses of this header, of the
    /// TCP header's bytes with the checksum as 0, reserved bits as they are, and of the payload.
    ///
    /// A payload above 65535 bytes less the header is refused.
    pub fn calc_checksum_ipv4(
        &self,
        ip_header: &Ipv4HeaderSlice<'_>,
        payload: &[u8],
    ) -> Result<u16, ValueTooBigError<usize>>
        ensures { result ≡ value_up_to ValueType.TcpPayloadLengthIpv4
            (65535 - length self.now) (length payload.now)
            (segment_checksum_v4 (ipv4_source ip_header.now) (ipv4_destination ip_header.now) (self.now ++ payload.now)) }
    {
        self.calc_checksum_ipv4_raw(ip_header.source(), ip_header.destination(), payload)
    }

    /// The same between these addresses.
    pub fn calc_checksum_ipv4_raw(
        &self,
        source: [u8; 4],
        destination: [u8; 4],
        payload: &[u8],
    ) -> Result<u16, ValueTooBigError<usize>>
        ensures { result ≡ value_up_to ValueType.TcpPayloadLengthIpv4
            (65535 - length self.now) (length payload.now)
            (segment_checksum_v4 source destination (self.now ++ payload.now)) }
    {
        let max_payload_len = u16::MAX as usize - self.header_len();
        at_most(
            payload.len(),
            max_payload_len,
            ValueType::TcpPayloadLengthIpv4,
        )?;
        let len = (self.header_len() + payload.len()) as u16;
        let pseudo = pseudo_sum_v4(source, destination, IpNumber::TCP, len);
        Ok(self.checksum_after(pseudo, payload))
    }

    /// The checksum over IPv6, as [`TcpHeaderSlice::calc_checksum_ipv4`] over IPv4.
    ///
    /// A payload above 4294967295 bytes less the header is refused.
    pub fn calc_checksum_ipv6(
        &self,
        ip_header: &Ipv6HeaderSlice<'_>,
        payload: &[u8],
    ) -> Result<u16, ValueTooBigError<usize>>
        ensures { result ≡ value_up_to ValueType.TcpPayloadLengthIpv6
            (4294967295 - length self.now) (length payload.now)
            (segment_checksum_v6 (ipv6_source ip_header.now) (ipv6_destination ip_header.now) (self.now ++ payload.now)) }
    {
        self.calc_checksum_ipv6_raw(ip_header.source(), ip_header.destination(), payload)
    }

    /// The same between these addresses.
    pub fn calc_checksum_ipv6_raw(
        &self,
        source: [u8; 16],
        destination: [u8; 16],
        payload: &[u8],
    ) -> Result<u16, ValueTooBigError<usize>>
        ensures { result ≡ value_up_to ValueType.TcpPayloadLengthIpv6
            (4294967295 - length self.now) (length payload.now)
            (segment_checksum_v6 source destination (self.now ++ payload.now)) }
    {
        let max_payload_len = u32::MAX as usize - self.header_len();
        at_most(
            payload.len(),
            max_payload_len,
            ValueType::TcpPayloadLengthIpv6,
        )?;
        let len = (self.header_len() + payload.len()) as u32;
        let pseudo = pseudo_sum_v6(source, destination, IpNumber::TCP, len);
        Ok(self.checksum_after(pseudo, payload))
    }

    // The checksum after a pseudo header with this sum.
    fn checksum_after(&self, pseudo: Sum16BitWords, payload: &[u8]) -> u16
        ensures { (prefix : List ℕ) → SumsWords pseudo prefix
            → result ≡ segment_checksum prefix (self.now ++ payload.now) }
    {
        self.sum_with(pseudo, payload)
            .ones_complement()
            .swap_bytes()
    }

    fn sum_with(&self, pseudo: Sum16BitWords, payload: &[u8]) -> Sum16BitWords
        ensures { (prefix : List ℕ) → SumsWords pseudo prefix
            → result ≡ fold (total (prefix ++ with_checksum (self.now ++ payload.now) 0)) }
    {
        let _header = &self.slice;
        self.sum_after(pseudo).add_slice(payload)
    }
}
