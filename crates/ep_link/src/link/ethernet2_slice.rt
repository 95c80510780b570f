//! Ethernet II frames, borrowed, and the test of their frame check sequence.
ghost use Rattle.std.specs.Prelude.{◌≡◌, ◌≤◌, length, take, drop, nat_eq, IfErr, option_map};
ghost use Rattle.std.specs.Cmp.Lexicographic.{pointwise};
ghost use Rattle.std.specs.Cmp.Rules.{comparing};
ghost use Rattle.std.specs.Ordering.{on};
ghost use Rattle.std.proofs.Common.{rules};
ghost use Rattle.ep_link.specs.Ethernet.{ethernet_len, destination_of, source_of, next_type_of, ethernet_header_of};
ghost use Rattle.ep_link.specs.Ethernet.{payload_of};
ghost use Rattle.ep_link.specs.Frame.{EthernetFrame, before_fcs, compared_as, fcs_is_right, fcs_of, frame_at};
ghost use Rattle.ep_link.specs.Frame.{frame_with_fcs_at, least_len};

use super::crc32::crc32;
use super::{Ethernet2Header, ethernet2_bytes};
use ep_base::err::{Layer, LenError};
use ep_base::{EtherType, LenSource};
use ep_tag::EtherPayloadSlice;
use std::marker::Model;

/// The length of a frame check sequence in bytes.
const FCS_LEN: usize = 4;

/// An Ethernet II frame (RFC 894), borrowed: the header, the payload, and the frame check sequence
/// (IEEE 802.3, section 3.2.9) where the frame was given with one. A contract sees the value as all
/// its bytes, and whether the last four are the sequence.
#[derive(Clone, Debug, Drop)]
pub struct Ethernet2Slice<'a> {
    slice: &'a [u8],
    has_fcs: bool,
}

impl<'a> Model for Ethernet2Slice<'a> {
    ghost Value = { EthernetFrame };

    ghost view = { λ frame. record { bytes = frame.slice.now; has_fcs = frame.has_fcs } };

    ghost invariant = { λ frame. least_len frame.has_fcs ≤ length frame.slice.now };
}

impl<'a> Ethernet2Slice<'a> {
    /// A frame without frame check sequence: all bytes after the header are payload. A slice of
    /// fewer than 14 bytes is refused.
    pub fn from_slice_without_fcs(slice: &'a [u8]) -> Result<Ethernet2Slice<'a>, LenError>
        ensures exact { result ≡ frame_at slice.now }
        ensures offset { IfErr result (λ e. e.layer_start_offset ≡ 0) }
    {
        if slice.len() < Ethernet2Header::LEN {
            return Err(LenError::too_few_bytes(
                Layer::Ethernet2Header,
                Ethernet2Header::LEN,
                slice.len(),
            ));
        }
        Ok(Ethernet2Slice {
            slice,
            has_fcs: false,
        })
    }

    /// A frame with its frame check sequence, which is its last four bytes: the bytes between header
    /// and sequence are payload. A slice of fewer than 18 bytes is refused. Whether the sequence is
    /// that of the frame is not tested: [`Ethernet2Slice::fcs_is_right`] tests it.
    pub fn from_slice_with_crc32_fcs(slice: &'a [u8]) -> Result<Ethernet2Slice<'a>, LenError>
        ensures exact { result ≡ frame_with_fcs_at slice.now }
        ensures offset { IfErr result (λ e. e.layer_start_offset ≡ 0) }
    {
        if slice.len() < Ethernet2Header::LEN + FCS_LEN {
            return Err(LenError::too_few_bytes(
                Layer::Ethernet2Header,
                Ethernet2Header::LEN + FCS_LEN,
                slice.len(),
            ));
        }
        Ok(Ethernet2Slice {
            slice,
            has_fcs: true,
        })
    }

    /// The header and all bytes after it, with the frame check sequence where there is one.
    pub fn slice(&self) -> &'a [u8]
        ensures bytes { result.now ≡ self.now.bytes }
        ensures least { least_len self.now.has_fcs ≤ length self.now.bytes }
    {
        self.slice
    }

    // Header and payload.
    fn before_fcs(&self) -> &'a [u8]
        ensures bytes { result.now ≡ before_fcs self.now }
        ensures least { ethernet_len ≤ length result.now }
    {
        if self.has_fcs {
            &self.slice[..self.slice.len() - FCS_LEN]
        } else {
            self.slice
        }
    }

    /// The destination address.
    pub fn destination(&self) -> [u8; 6]
        ensures { result ≡ destination_of self.now.bytes }
    {
        ethernet2_bytes::destination_of(self.slice)
    }

    /// The source address.
    pub fn source(&self) -> [u8; 6]
        ensures { result ≡ source_of self.now.bytes }
    {
        ethernet2_bytes::source_of(self.slice)
    }

    /// The ether type of what follows the header.
    pub fn ether_type(&self) -> EtherType
        ensures { result ≡ next_type_of self.now.bytes }
    {
        ethernet2_bytes::ether_type_of(self.slice)
    }

    /// The frame check sequence, the last four bytes of a frame that was given with one.
    pub fn fcs(&self) -> Option<[u8; 4]>
        ensures { result ≡ fcs_of self.now }
    {
        if self.has_fcs {
            Some(self.slice[self.slice.len() - FCS_LEN..].try_into().unwrap())
        } else {
            None
        }
    }

    /// Whether the frame check sequence is that of the bytes before it: their CRC-32, least
    /// significant byte first (IEEE 802.3, section 3.2.9). Nothing is said of a frame without one.
    pub fn fcs_is_right(&self) -> Option<bool>
        ensures { result ≡ option_map (fcs_is_right (before_fcs self.now)) (fcs_of self.now) }
    {
        match self.fcs() {
            Some(fcs) => Some(crc32(self.before_fcs()).to_le_bytes() == fcs),
            None => None,
        }
    }

    /// The fields of the header.
    pub fn to_header(&self) -> Ethernet2Header
        ensures { result ≡ ethernet_header_of self.now.bytes }
    {
        ethernet2_bytes::header_of(self.slice)
    }

    /// The header's 14 bytes.
    pub fn header_slice(&self) -> &'a [u8]
        ensures { result.now ≡ take ethernet_len self.now.bytes }
    {
        &self.slice[..Ethernet2Header::LEN]
    }

    /// The length of an Ethernet II header in bytes.
    pub fn header_len(&self) -> usize
        ensures { result ≡ 14 }
    {
        Ethernet2Header::LEN
    }

    /// What follows the header, under its ether type, without the frame check sequence.
    pub fn payload(&self) -> EtherPayloadSlice<'a>
        ensures payload { result ≡ payload_of (before_fcs self.now) }
        ensures least { ethernet_len ≤ length (before_fcs self.now) }
    {
        let frame = self.before_fcs();
        EtherPayloadSlice {
            ether_type: ethernet2_bytes::ether_type_of(frame),
            len_source: LenSource::Slice,
            payload: &frame[Ethernet2Header::LEN..],
        }
    }

    /// The bytes after the header, without the frame check sequence.
    pub fn payload_slice(&self) -> &'a [u8]
        ensures { result.now ≡ drop ethernet_len (before_fcs self.now) }
    {
        &self.before_fcs()[Ethernet2Header::LEN..]
    }
}

impl<'a> PartialEq for Ethernet2Slice<'a> {
    ghost eq = { on compared_as (pointwise nat_eq) };

    ghost laws = { Prim.search (comparing, rules) };

    fn eq(&self, other: &Self) -> bool {
        self.has_fcs == other.has_fcs && self.slice == other.slice
    }
}

impl<'a> Eq for Ethernet2Slice<'a> {
    ghost laws = { Prim.search (comparing, rules) };
}
