//! The tags before a payload.
ghost use Rattle.std.specs.Prelude.{◌≡◌, ◌≤◌, length, IfErr, IfOk};
ghost use Rattle.ep_packet.specs.PacketView.{has_short_len, source_after};
ghost use Rattle.ep_packet.specs.Parts.{TagsIn};
ghost use Rattle.ep_packet.specs.SliceFault.{fault_offset};
ghost use Rattle.ep_packet.specs.Sliced.{ether_payload};
ghost use Rattle.ep_packet.specs.Tags.{Tagged, most_tags, tag_at, tags_in};
ghost use Rattle.ep_tag.specs.LinkExt.{payload_after, tag_len};

use crate::err::packet::SliceError;
use crate::found_tags::{FoundTags, TaggedPayload};
use crate::slice_fault;
use arrayvec::ArrayVec;
use ep_base::{EtherType, LenSource};
use ep_tag::{EtherPayloadSlice, LinkExtSlice, MacsecSlice, SingleVlanSlice};
use std::marker::Model;

/// The tags before a payload, the length of all in bytes, and what the last ether type names.
#[derive(Drop)]
pub(crate) struct TaggedSlice<'a> {
    pub tags: ArrayVec<LinkExtSlice<'a>, 3>,
    pub len: usize,
    pub last: Option<EtherPayloadSlice<'a>>,
}

impl<'a> Model for TaggedSlice<'a> {
    ghost Value = { Tagged };

    ghost view = { λ t. record { tags = t.tags.items; len = t.len; last = t.last } };
}

impl<'a> TaggedSlice<'a> {
    /// The tags at the start of `payload`, three at most.
    pub(crate) fn from_ether_payload(
        payload: EtherPayloadSlice<'a>,
    ) -> Result<TaggedSlice<'a>, SliceError>
        ensures tags { result ≡ tags_in most_tags payload.entry }
        ensures parts { IfOk result (λ t. TagsIn payload.entry.payload 0 t) }
        ensures offset { IfErr result (λ e. fault_offset e ≤ length payload.entry.payload) }
    {
        let found = FoundTags::from_payload(payload);
        match found.stop {
            Some(fault) => Err(slice_fault::moved(fault, found.len)),
            None => Ok(TaggedSlice {
                tags: found.tags,
                len: found.len,
                last: found.last,
            }),
        }
    }
}

/// What the ether type names: all bytes of the slice, which alone bounds them.
pub(crate) fn ether_payload(ether_type: EtherType, slice: &[u8]) -> EtherPayloadSlice<'_>
    ensures { result ≡ ether_payload ether_type slice.now }
{
    EtherPayloadSlice {
        ether_type,
        len_source: LenSource::Slice,
        payload: slice,
    }
}

impl<'a> TaggedPayload for EtherPayloadSlice<'a> {
    type Tag = LinkExtSlice<'a>;

    type Fault = SliceError;

    ghost tag_at = { tag_at };

    ghost tag_len = { tag_len };

    ghost payload_after = { payload_after };

    fn tag(&self) -> Result<Option<LinkExtSlice<'a>>, SliceError> {
        match self.ether_type {
            EtherType::VLAN_TAGGED_FRAME
            | EtherType::PROVIDER_BRIDGING
            | EtherType::VLAN_DOUBLE_TAGGED_FRAME => match SingleVlanSlice::from_slice(
                self.payload,
            ) {
                Ok(vlan) => Ok(Some(LinkExtSlice::Vlan(vlan))),
                Err(error) => Err(SliceError::Len(error)),
            },
            EtherType::MACSEC => match MacsecSlice::from_slice(self.payload) {
                Ok(macsec) => Ok(Some(LinkExtSlice::Macsec(macsec))),
                Err(error) => Err(slice_fault::of_macsec(error)),
            },
            _ => Ok(None),
        }
    }

    #[inline(always)]
    fn tag_len(tag: &LinkExtSlice<'a>) -> usize {
        tag.header_len()
    }

    #[inline(always)]
    fn payload_after(tag: &LinkExtSlice<'a>) -> Option<EtherPayloadSlice<'a>> {
        tag.ether_payload()
    }
}

/// What bounds the bytes after the tags: a MACsec header's short length, if one has it.
pub(crate) fn source_after(tags: &ArrayVec<LinkExtSlice<'_>, 3>) -> LenSource
    ensures { result ≡ source_after tags.now.items }
{
    for tag in tags.as_slice() {
        if has_short_len(tag) {
            return LenSource::MacsecShortLength;
        }
    }
    LenSource::Slice
}

// Whether it is a MACsec header with a short length above 0.
fn has_short_len(tag: &LinkExtSlice<'_>) -> bool
    ensures { result ≡ has_short_len tag.now }
{
    match tag {
        LinkExtSlice::Vlan(_) => false,
        LinkExtSlice::Macsec(macsec) => macsec.header.short_len().value() != 0,
    }
}
