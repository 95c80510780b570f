//! A UDP datagram as a view of its bytes.

ghost use Rattle.std.specs.Prelude.{◌≡◌, ◌==◌, if◌then◌else◌, length, take, drop, IfOk};
ghost use Rattle.ep_tcpudp.specs.Udp.{IsLaxUdp, IsUdp, length_of};
ghost use Rattle.ep_tcpudp.specs.UdpFault.{lax_udp_at, udp_at};

use super::udp_view::UdpView;
use super::view_kind::ViewKind;
use crate::{UdpHeader, UdpHeaderSlice};
use ep_base::LenSource;
use ep_base::err::{Layer, LenError};

/// The bytes of a UDP datagram, header and payload (RFC 768), borrowed. A contract sees the value
/// as those bytes. Its length field is 0, or says how many they are; after
/// [`UdpSlice::from_slice_lax`] it can also be above that, or below the 8 bytes of a header.
///
/// The checksum isn't tested.
pub type UdpSlice<'a> = UdpView<'a, Datagram>;

/// A UDP datagram, header and payload.
#[derive(Clone, Drop)]
pub struct Datagram;

impl ViewKind for Datagram {
    const VIEW: &'static str = "UdpSlice";

    ghost holds = { IsLaxUdp };
}

impl<'a> UdpSlice<'a> {
    /// The datagram at the start of the slice: as many bytes as its length field says, and all of
    /// them where that is 0, as in jumbograms (RFC 2675, section 4).
    ///
    /// Refused are, in this order, fewer than 8 bytes (layer `UdpHeader`), a length field above the
    /// bytes there (layer `UdpPayload`), and one of 1 to 7 (layer `UdpHeader`, with the length
    /// field as the source of the length).
    pub fn from_slice(slice: &'a [u8]) -> Result<UdpSlice<'a>, LenError>
        // The datagram, or the first fault: law `udp::datagrams_are_found`.
        ensures exact { result ≡ udp_at slice.now }
        ensures datagram { IfOk result (λ datagram. IsUdp datagram) }
    {
        let length = usize::from(UdpHeaderSlice::from_slice(slice)?.length());
        if slice.len() < length {
            return Err(LenError::too_few_bytes(Layer::UdpPayload, length, slice.len()));
        }
        if UdpHeader::LEN <= length {
            return Ok(UdpView::of(&slice[..length]));
        }
        if length == 0 {
            return Ok(UdpView::of(slice));
        }
        Err(LenError {
            len_source: LenSource::UdpHeaderLen,
            ..LenError::too_few_bytes(Layer::UdpHeader, UdpHeader::LEN, length)
        })
    }

    /// What there is of the datagram at the start of the slice: as many bytes as its length field
    /// says, and all of them where that is 0, 1 to 7, or above the bytes there.
    ///
    /// Refused are fewer than 8 bytes alone (layer `UdpHeader`).
    pub fn from_slice_lax(slice: &'a [u8]) -> Result<UdpSlice<'a>, LenError>
        // What there is, or that bytes of the header are missing: law `udp::datagrams_are_found`.
        ensures exact { result ≡ lax_udp_at slice.now }
    {
        match Self::from_slice(slice) {
            Err(_) if UdpHeader::LEN <= slice.len() => Ok(UdpView::of(slice)),
            found => found,
        }
    }

    /// The bytes of the datagram, header and payload.
    pub fn slice(&self) -> &'a [u8]
        ensures bytes { result.now ≡ self.now }
        ensures datagram { IsLaxUdp self.now }
    {
        self.slice
    }

    /// The bytes of the header.
    pub fn header_slice(&self) -> &'a [u8]
        ensures { result.now ≡ take 8 self.now }
    {
        &self.slice[..UdpHeader::LEN]
    }

    /// The payload: what follows the header.
    pub fn payload(&self) -> &'a [u8]
        ensures { result.now ≡ drop 8 self.now }
    {
        &self.slice[UdpHeader::LEN..]
    }

    /// What the payload's length comes from: the length field, where it is how many bytes there are,
    /// else the slice that the datagram was read from.
    pub fn payload_len_source(&self) -> LenSource
        ensures value { result ≡ (if length_of self.now == length self.now then LenSource.UdpHeaderLen
            else LenSource.Slice) }
        // Of a whole datagram it is the slice where the length field is 0.
        ensures whole { IsUdp self.now → result ≡ (if length_of self.now == 0 then LenSource.Slice
            else LenSource.UdpHeaderLen) }
    {
        if usize::from(self.length()) == self.slice.len() {
            LenSource::UdpHeaderLen
        } else {
            LenSource::Slice
        }
    }

    /// The length of a UDP header in bytes.
    pub fn header_len(&self) -> usize
        ensures { result ≡ 8 }
    {
        UdpHeader::LEN
    }
}
