//! MACsec headers with their payloads, borrowed.
ghost use Rattle.std.specs.Prelude.{◌≡◌, ◌&&◌, length, nat_eq, IfErr, option_map};
ghost use Rattle.std.specs.Cmp.Lexicographic.{pointwise};
ghost use Rattle.std.specs.Cmp.Rules.{comparing};
ghost use Rattle.std.specs.Ordering.{on};
ghost use Rattle.std.proofs.Common.{rules};
ghost use Rattle.ep_base.specs.SliceError.{content_offset};
ghost use Rattle.ep_tag.specs.Macsec.{macsec_header_of};
ghost use Rattle.ep_tag.specs.MacsecOrder.{compared_as};
ghost use Rattle.ep_tag.specs.MacsecPayload.{Macsec, macsec_at, named_payload};
ghost use Rattle.ep_tag.specs.MacsecView.{payload_parsed};

use super::{
    EtherPayloadSlice, LaxMacsecSlice, MacsecHeader, MacsecHeaderSlice, MacsecPayloadSlice,
};
use crate::err::macsec::HeaderSliceError;
use ep_base::EtherType;
use ep_base::err::{Layer, LenError};
use std::marker::Model;

/// A MACsec header (IEEE 802.1AE, clause 9) and its payload, borrowed.
#[derive(Clone, Debug, Drop)]
pub struct MacsecSlice<'a> {
    /// The header.
    pub header: MacsecHeaderSlice<'a>,
    /// What follows it, as many bytes as a short length above 0 leaves, else all.
    pub payload: MacsecPayloadSlice<'a>,
}

impl<'a> Model for MacsecSlice<'a> {
    ghost Value = { Macsec };

    ghost view = { λ slice. record { header = slice.header; payload = payload_parsed slice.payload } };
}

impl<'a> MacsecSlice<'a> {
    /// Header and payload at the start of the slice. Refused are, in this order, a slice of fewer
    /// than 6 bytes, version 1, a short length of 1 where it has to count an ether type, a slice
    /// shorter than the header, and one shorter than header and payload, where the short length
    /// states the payload's length.
    pub fn from_slice(slice: &'a [u8]) -> Result<MacsecSlice<'a>, HeaderSliceError>
        // What is taken is at the start of the slice, and what is there is taken
        // (`laws::macsec::payloads_are_found`).
        ensures exact { result ≡ macsec_at slice.now }
        ensures offset { IfErr result (λ e. content_offset e ≡ 0) }
    {
        let LaxMacsecSlice { header, payload } = LaxMacsecSlice::from_slice(slice)?;
        match payload.complete() {
            Some(payload) => Ok(MacsecSlice { header, payload }),
            None => Err(HeaderSliceError::Len(LenError::too_few_bytes(
                Layer::MacsecPacket,
                header.header_len() + header.payload_len(),
                slice.len(),
            ))),
        }
    }

    /// The length of the header in bytes.
    pub fn header_len(&self) -> usize
        ensures { result ≡ length self.now.header }
    {
        self.header.header_len()
    }

    /// The fields of the header.
    pub fn to_header(&self) -> MacsecHeader
        ensures { result ≡ macsec_header_of self.now.header }
    {
        self.header.to_header()
    }

    /// The ether type of the payload, where it is unmodified.
    pub fn next_ether_type(&self) -> Option<EtherType>
        ensures { result ≡ option_map (λ p. p.ether_type) (named_payload self.now.payload) }
    {
        match &self.payload {
            MacsecPayloadSlice::Unmodified(payload) => Some(payload.ether_type),
            MacsecPayloadSlice::Modified(_) => None,
        }
    }

    /// The payload and its ether type, where it is unmodified.
    pub fn ether_payload(&self) -> Option<EtherPayloadSlice<'a>>
        ensures { result ≡ named_payload self.now.payload }
    {
        match &self.payload {
            MacsecPayloadSlice::Unmodified(payload) => Some(payload.again()),
            MacsecPayloadSlice::Modified(_) => None,
        }
    }
}

impl<'a> PartialEq for MacsecSlice<'a> {
    ghost eq = { λ a b. on (λ m. m.header) (pointwise nat_eq) a b
        && on (λ m. compared_as m.payload) (pointwise nat_eq) a b };

    ghost laws = { Prim.search (comparing, rules) depth 9 };

    fn eq(&self, other: &Self) -> bool {
        self.header == other.header && self.payload == other.payload
    }
}

impl<'a> Eq for MacsecSlice<'a> {
    ghost laws = { Prim.search (comparing, rules) depth 9 };
}
