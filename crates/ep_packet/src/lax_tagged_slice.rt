//! The tags before a payload, as far as they are there.
ghost use Rattle.std.specs.Prelude.{◌≡◌, false, length};
ghost use Rattle.ep_packet.specs.LaxTags.{LaxTagged, lax_tag_at, lax_tags_in};
ghost use Rattle.ep_packet.specs.LaxFits.{TagsFit};
ghost use Rattle.ep_base.specs.declared.len_source.LenSource.TheVariants.{Slice};
ghost use Rattle.ep_packet.specs.LaxView.{bound_after, bound_by};
ghost use Rattle.ep_packet.specs.Tags.{most_tags};
ghost use Rattle.ep_tag.specs.LinkExt.{lax_payload_after, lax_tag_len};

use crate::err::packet::SliceError;
use crate::found_tags::{FoundTags, TaggedPayload};
use crate::slice_fault;
use arrayvec::ArrayVec;
use ep_base::err::Layer;
use ep_base::{EtherType, LenSource};
use ep_tag::{
    LaxEtherPayloadSlice, LaxLinkExtSlice, LaxMacsecPayloadSlice, LaxMacsecSlice, SingleVlanSlice,
};
use std::marker::Model;

/// The tags before a payload, the length of all in bytes, what the last ether type names, and the
/// fault of a tag, counted from the payload's start, with its layer, after which nothing is named.
#[derive(Drop)]
pub(crate) struct LaxTaggedSlice<'a> {
    pub tags: ArrayVec<LaxLinkExtSlice<'a>, 3>,
    pub len: usize,
    pub last: Option<LaxEtherPayloadSlice<'a>>,
    pub stop: Option<(SliceError, Layer)>,
}

impl<'a> Model for LaxTaggedSlice<'a> {
    ghost Value = { LaxTagged };

    ghost view = { λ t. record { tags = t.tags.items; len = t.len; last = t.last; stop = t.stop } };
}

impl<'a> LaxTaggedSlice<'a> {
    /// The tags at the start of `payload`, three at most.
    pub(crate) fn from_ether_payload(payload: LaxEtherPayloadSlice<'a>) -> LaxTaggedSlice<'a>
        ensures tags { result ≡ lax_tags_in most_tags payload.entry }
        ensures fits { TagsFit (length payload.entry.payload) result }
    {
        let found = FoundTags::from_payload(payload);
        LaxTaggedSlice {
            tags: found.tags,
            len: found.len,
            last: found.last,
            stop: slice_fault::stop_moved(found.stop, found.len),
        }
    }
}

impl<'a> TaggedPayload for LaxEtherPayloadSlice<'a> {
    type Tag = LaxLinkExtSlice<'a>;

    type Fault = (SliceError, Layer);

    ghost tag_at = { lax_tag_at };

    ghost tag_len = { lax_tag_len };

    ghost payload_after = { lax_payload_after };

    fn tag(&self) -> Result<Option<LaxLinkExtSlice<'a>>, (SliceError, Layer)> {
        match self.ether_type {
            EtherType::VLAN_TAGGED_FRAME
            | EtherType::PROVIDER_BRIDGING
            | EtherType::VLAN_DOUBLE_TAGGED_FRAME => match SingleVlanSlice::from_slice(
                self.payload,
            ) {
                Ok(vlan) => Ok(Some(LaxLinkExtSlice::Vlan(vlan))),
                Err(error) => Err((SliceError::Len(error), Layer::VlanHeader)),
            },
            EtherType::MACSEC => match LaxMacsecSlice::from_slice(self.payload) {
                Ok(macsec) => Ok(Some(LaxLinkExtSlice::Macsec(macsec))),
                Err(error) => Err((slice_fault::of_macsec(error), Layer::MacsecHeader)),
            },
            _ => Ok(None),
        }
    }

    #[inline(always)]
    fn tag_len(tag: &LaxLinkExtSlice<'a>) -> usize {
        tag.header_len()
    }

    #[inline(always)]
    fn payload_after(tag: &LaxLinkExtSlice<'a>) -> Option<LaxEtherPayloadSlice<'a>> {
        tag.ether_payload()
    }
}

/// Whether bytes are missing of what follows the tags, and what bounds it: the last MACsec header with
/// a short length above 0 says both.
pub(crate) fn bound_after(tags: &ArrayVec<LaxLinkExtSlice<'_>, 3>) -> (bool, LenSource)
    ensures { result ≡ bound_after (false, Slice) tags.now.items }
{
    let mut bound = (false, LenSource::Slice);
    for tag in tags.as_slice() {
        bound = bound_by(bound, tag);
    }
    bound
}

fn bound_by(bound: (bool, LenSource), tag: &LaxLinkExtSlice<'_>) -> (bool, LenSource)
    ensures { result ≡ bound_by bound tag.now }
{
    let LaxLinkExtSlice::Macsec(macsec) = tag else {
        return bound;
    };
    if macsec.header.short_len().value() == 0 {
        return bound;
    }
    let incomplete = match &macsec.payload {
        LaxMacsecPayloadSlice::Unmodified(payload) => payload.incomplete,
        LaxMacsecPayloadSlice::Modified { incomplete, .. } => *incomplete,
    };
    if incomplete {
        (true, LenSource::Slice)
    } else {
        (false, LenSource::MacsecShortLength)
    }
}
