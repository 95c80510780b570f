//! A TCP segment as a view of its bytes.

ghost use Rattle.std.specs.Prelude.{◌≡◌, ◌≤◌, ℕ, ◌*◌, List, ◌++◌, length};
ghost use Rattle.ep_base.specs.MessageSum.{SumsWords};
ghost use Rattle.ep_tcpudp.specs.Limit.{value_up_to};
ghost use Rattle.ep_tcpudp.specs.Tcp.{ReadableTcp, IsTcpHeader, header_bytes, payload_of, data_offset_of};
ghost use Rattle.ep_tcpudp.specs.TcpChecksum.{segment_checksum, segment_checksum_v4, segment_checksum_v6};
ghost use Rattle.ep_tcpudp.specs.TcpFault.{segment_at};

use super::limit::at_most;
use super::tcp_view::TcpView;
use super::view_kind::ViewKind;
use crate::TcpHeaderSlice;
use crate::err::tcp::HeaderSliceError;
use ep_base::IpNumber;
use ep_base::checksum::Sum16BitWords;
use ep_base::err::{ValueTooBigError, ValueType};
use ep_ip::checksum::{pseudo_sum_v4, pseudo_sum_v6};

/// The bytes of a TCP segment, header and payload (RFC 9293, section 3.1), borrowed. A contract
/// sees the value as those bytes.
///
/// The checksum isn't tested.
pub type TcpSlice<'a> = TcpView<'a, Segment>;

/// A TCP segment, header and payload.
#[derive(Clone, Drop)]
pub struct Segment;

impl ViewKind for Segment {
    const VIEW: &'static str = "TcpSlice";

    ghost holds = { ReadableTcp };
}

impl<'a> TcpSlice<'a> {
    /// The slice as a segment: a header, and the payload to the slice's end.
    ///
    /// Tested in this order: 20 bytes are there (`Len`), the data offset is at least 5
    /// (`DataOffsetTooSmall`), and as many words of 4 bytes are there as it says (`Len`).
    pub fn from_slice(slice: &'a [u8]) -> Result<TcpSlice<'a>, HeaderSliceError>
        // All of the slice, or the first fault: law `tcp::segments_are_found`.
        ensures exact { result ≡ segment_at slice.now }
    {
        TcpHeaderSlice::from_slice(slice)?;
        Ok(TcpView::of(slice))
    }

    /// The bytes of the segment, header and payload.
    pub fn slice(&self) -> &'a [u8]
        ensures bytes { result.now ≡ self.now }
        ensures segment { ReadableTcp self.now }
    {
        self.slice
    }

    /// The bytes of the header, options included.
    pub fn header_slice(&self) -> &'a [u8]
        ensures bytes { result.now ≡ header_bytes self.now }
        ensures header { IsTcpHeader result.now }
    {
        &self.slice[..self.header_len()]
    }

    /// The payload: what follows the header.
    pub fn payload(&self) -> &'a [u8]
        ensures { result.now ≡ payload_of self.now }
    {
        &self.slice[self.header_len()..]
    }

    /// The header's length in bytes, from 20 to 60.
    pub fn header_len(&self) -> usize
        ensures value { result ≡ 4 * data_offset_of self.now }
        ensures least { 20 ≤ result }
        ensures small { result ≤ 60 }
        ensures fits { result ≤ length self.now }
    {
        let _segment = &self.slice;
        4 * usize::from(self.data_offset())
    }

    /// The checksum over IPv4: of the pseudo header between these addresses and of the segment with
    /// its checksum as 0, reserved bits as they are.
    ///
    /// A segment above 65535 bytes is refused.
    pub fn calc_checksum_ipv4(
        &self,
        source: [u8; 4],
        destination: [u8; 4],
    ) -> Result<u16, ValueTooBigError<usize>>
        ensures { result ≡ value_up_to ValueType.TcpPayloadLengthIpv4 65535 (length self.now)
            (segment_checksum_v4 source destination self.now) }
    {
        let len = self.slice.len();
        at_most(len, u16::MAX as usize, ValueType::TcpPayloadLengthIpv4)?;
        let pseudo = pseudo_sum_v4(source, destination, IpNumber::TCP, len as u16);
        Ok(self.checksum_after(pseudo))
    }

    /// The checksum over IPv6, as [`TcpSlice::calc_checksum_ipv4`] over IPv4.
    ///
    /// A segment above 4294967295 bytes is refused.
    pub fn calc_checksum_ipv6(
        &self,
        source: [u8; 16],
        destination: [u8; 16],
    ) -> Result<u16, ValueTooBigError<usize>>
        ensures { result ≡ value_up_to ValueType.TcpPayloadLengthIpv6 4294967295 (length self.now)
            (segment_checksum_v6 source destination self.now) }
    {
        let len = self.slice.len();
        at_most(len, u32::MAX as usize, ValueType::TcpPayloadLengthIpv6)?;
        let pseudo = pseudo_sum_v6(source, destination, IpNumber::TCP, len as u32);
        Ok(self.checksum_after(pseudo))
    }

    // The checksum after a pseudo header with this sum.
    fn checksum_after(&self, pseudo: Sum16BitWords) -> u16
        ensures { (prefix : List ℕ) → SumsWords pseudo prefix
            → result ≡ segment_checksum prefix self.now }
    {
        self.sum_after(pseudo).ones_complement().swap_bytes()
    }
}
