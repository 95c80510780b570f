//! MACsec headers with their payloads, as far as these are there.
ghost use Rattle.std.specs.Prelude.{◌≡◌, ◌&&◌, length, nat_eq, IfErr, option_map};
ghost use Rattle.std.specs.Cmp.Lexicographic.{pointwise};
ghost use Rattle.std.specs.Cmp.Rules.{comparing};
ghost use Rattle.std.specs.Ordering.{on};
ghost use Rattle.std.proofs.Common.{rules};
ghost use Rattle.ep_base.specs.SliceError.{content_offset};
ghost use Rattle.ep_tag.specs.Macsec.{macsec_header_of};
ghost use Rattle.ep_tag.specs.MacsecLax.{LaxMacsec, lax_macsec_at, lax_named_payload};
ghost use Rattle.ep_tag.specs.MacsecOrder.{lax_compared_as};
ghost use Rattle.ep_tag.specs.MacsecView.{lax_payload_parsed};

use super::{LaxEtherPayloadSlice, LaxMacsecPayloadSlice, MacsecHeader, MacsecHeaderSlice};
use crate::err::macsec::HeaderSliceError;
use ep_base::{EtherType, LenSource};
use std::marker::Model;

/// A MACsec header (IEEE 802.1AE, clause 9) and what there is of its payload, borrowed.
#[derive(Clone, Debug, Drop)]
pub struct LaxMacsecSlice<'a> {
    /// The header.
    pub header: MacsecHeaderSlice<'a>,
    /// What follows it, as many bytes as a short length above 0 leaves, and all where they are fewer
    /// or the short length is 0.
    pub payload: LaxMacsecPayloadSlice<'a>,
}

impl<'a> Model for LaxMacsecSlice<'a> {
    ghost Value = { LaxMacsec };

    ghost view = { λ slice. record {
      header = slice.header;
      payload = lax_payload_parsed slice.payload;
    } };
}

impl<'a> LaxMacsecSlice<'a> {
    /// The header at the start of the slice, and what there is of its payload. Refused are, in this
    /// order, a slice of fewer than 6 bytes, version 1, a short length of 1 where it has to count an
    /// ether type, and a slice shorter than the header.
    ///
    /// A short length above the bytes there is no fault: the payload is all that follows the header,
    /// incomplete, and the slice bounds it.
    #[inline(always)]
    pub fn from_slice(slice: &'a [u8]) -> Result<LaxMacsecSlice<'a>, HeaderSliceError>
        ensures exact { result ≡ lax_macsec_at slice.now }
        ensures offset { IfErr result (λ e. content_offset e ≡ 0) }
    {
        let header = MacsecHeaderSlice::from_slice(slice)?;
        let (_, rest) = slice.split_at(header.slice().len());
        let payload_len = header.payload_len();
        let payload = if rest.len() < payload_len {
            LaxMacsecPayloadSlice::under(&header, true, LenSource::Slice, rest)
        } else if header.short_len().value() == 0 {
            LaxMacsecPayloadSlice::under(&header, false, LenSource::Slice, rest)
        } else {
            let (bytes, _) = rest.split_at(payload_len);
            LaxMacsecPayloadSlice::under(&header, false, LenSource::MacsecShortLength, bytes)
        };
        Ok(LaxMacsecSlice { header, payload })
    }

    /// The length of the header in bytes.
    pub fn header_len(&self) -> usize
        ensures { result ≡ length self.now.header }
    {
        self.header.header_len()
    }

    /// The fields of the header.
    pub fn to_header(&self) -> MacsecHeader
        ensures { result ≡ macsec_header_of self.now.header }
    {
        self.header.to_header()
    }

    /// The ether type of the payload, where it is unmodified.
    pub fn next_ether_type(&self) -> Option<EtherType>
        ensures { result ≡ option_map (λ p. p.ether_type) (lax_named_payload self.now.payload) }
    {
        match &self.payload {
            LaxMacsecPayloadSlice::Unmodified(payload) => Some(payload.ether_type),
            LaxMacsecPayloadSlice::Modified { .. } => None,
        }
    }

    /// What there is of the payload, and its ether type, where it is unmodified.
    pub fn ether_payload(&self) -> Option<LaxEtherPayloadSlice<'a>>
        ensures { result ≡ lax_named_payload self.now.payload }
    {
        match &self.payload {
            LaxMacsecPayloadSlice::Unmodified(payload) => Some(payload.again()),
            LaxMacsecPayloadSlice::Modified { .. } => None,
        }
    }
}

impl<'a> PartialEq for LaxMacsecSlice<'a> {
    ghost eq = { λ a b. on (λ m. m.header) (pointwise nat_eq) a b
        && on (λ m. lax_compared_as m.payload) (pointwise nat_eq) a b };

    ghost laws = { Prim.search (comparing, rules) depth 9 };

    fn eq(&self, other: &Self) -> bool {
        self.header == other.header && self.payload == other.payload
    }
}

impl<'a> Eq for LaxMacsecSlice<'a> {
    ghost laws = { Prim.search (comparing, rules) depth 9 };
}
