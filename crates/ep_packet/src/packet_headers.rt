//! The headers of all layers of a packet as values.
ghost use Rattle.std.specs.Prelude.{◌≡◌, ◌≤◌, ◌<◌, ◌+◌, ◌^◌, ℕ, length, map, IfErr, IfSome, Ok};
ghost use Rattle.std.specs.Option.{option_map};
ghost use Rattle.ep_packet.specs.PacketHeaders.{Headers, ether_type_headers, ethernet_headers, headers_after, ids_in};
ghost use Rattle.ep_packet.specs.PacketHeaders.{ip_packet_headers, layers_after, modified_after, result_parsed};
ghost use Rattle.ep_packet.specs.PacketHeaders.{vlan_headers, vlan_header_of};
ghost use Rattle.ep_packet.specs.Payload.{payload_parsed};
ghost use Rattle.ep_packet.specs.SameHeaders.{AreHeadersOf};
ghost use Rattle.ep_packet.specs.Sliced.{sliced_ether_type, sliced_ethernet, sliced_ip};
ghost use Rattle.ep_packet.specs.SliceFault.{later, fault_offset};
ghost use Rattle.ep_packet.specs.declared.sliced_packet.SlicedPacket.{SlicedPacket};
ghost use Rattle.ep_tag.specs.LinkExt.{fields_of};

use crate::err::packet::SliceError;
use crate::layer_headers::LayerHeaders;
use crate::tagged_slice::{TaggedSlice, ether_payload, source_after};
use crate::{NetHeaders, PayloadSlice, TransportHeader, slice_fault};
use arrayvec::ArrayVec;
use ep_base::EtherType;
use ep_ipslice::laws;
use ep_link::{Ethernet2Header, Ethernet2Slice, LinkHeader};
use ep_tag::{
    DoubleVlanHeader, EtherPayloadSlice, LinkExtHeader, LinkExtSlice, MacsecPayloadSlice,
    SingleVlanHeader, VlanHeader, VlanId,
};

/// The headers of a packet, as values, and the payload after the last of them, borrowed.
#[derive(Clone, Debug, PartialEq, Eq, Drop)]
pub struct PacketHeaders<'a> {
    /// The link header.
    pub link: Option<LinkHeader>,
    /// The VLAN tags and MACsec headers after it, in their order.
    pub link_exts: ArrayVec<LinkExtHeader, 3>,
    /// The headers of the network layer, with extension headers.
    pub net: Option<NetHeaders>,
    /// The header of the transport layer.
    pub transport: Option<TransportHeader>,
    /// The payload after the last header that was read.
    pub payload: PayloadSlice<'a>,
}

impl<'a> PacketHeaders<'a> {
    /// The greatest number of tags after a link header.
    pub const LINK_EXTS_CAP: usize = 3;

    /// The headers of an Ethernet II frame (RFC 894; IEEE 802.3, clause 3).
    ///
    /// They are those of the layers that `SlicedPacket::from_ethernet` slices, with two
    /// differences: the length field of UDP is ignored, so that all bytes of the IP payload after
    /// the UDP header are payload; and the headers end before an extension header of IPv6 that an
    /// `Ipv6Extensions` doesn't take, so that the IP payload starts with that header.
    ///
    /// The error is that of the first layer that isn't whole or breaks its format. Its offset
    /// counts in bytes from the start of the frame. If a header in an IP payload has too few bytes,
    /// the error names the source of that payload's length.
    pub fn from_ethernet_slice(slice: &'a [u8]) -> Result<PacketHeaders<'a>, SliceError>
        // The error is that of the first fault: `laws::refusals_are_first_faults`.
        ensures exact { result_parsed result ≡ ethernet_headers slice.now }
        // The result agrees with the slices: it is the headers that belong to the sliced packet.
        ensures agrees { (packet : SlicedPacket) (headers : Headers)
            → sliced_ethernet slice.now ≡ Ok packet
            → AreHeadersOf packet headers → result_parsed result ≡ Ok headers }
    {
        laws::rows_are_found();
        laws::rows_in_slots_are_views();
        Self::in_frame(slice)
    }

    fn in_frame(slice: &'a [u8]) -> Result<PacketHeaders<'a>, SliceError>
        ensures { result_parsed result ≡ ethernet_headers slice.now }
    {
        let frame = match Ethernet2Slice::from_slice_without_fcs(slice) {
            Ok(frame) => frame,
            Err(error) => return Err(SliceError::Len(error)),
        };
        let link = LinkHeader::Ethernet2(frame.to_header());
        Self::after_link(Some(link), frame.payload(), Ethernet2Header::LEN)
    }

    /// The headers of the bytes after an ether type, without a link header. The errors are as
    /// those of [`PacketHeaders::from_ethernet_slice`].
    pub fn from_ether_type(
        ether_type: EtherType,
        slice: &'a [u8],
    ) -> Result<PacketHeaders<'a>, SliceError>
        ensures exact { result_parsed result ≡ ether_type_headers ether_type slice.now }
        // The result agrees with the slices, as above.
        ensures agrees { (packet : SlicedPacket) (headers : Headers)
            → sliced_ether_type ether_type slice.now ≡ Ok packet
            → AreHeadersOf packet headers → result_parsed result ≡ Ok headers }
    {
        laws::rows_are_found();
        laws::rows_in_slots_are_views();
        Self::after_link(None, ether_payload(ether_type, slice), 0)
    }

    /// The headers of an IP packet of the version in the upper half of its first byte, without a
    /// link header. The errors are as those of [`PacketHeaders::from_ethernet_slice`].
    pub fn from_ip_slice(slice: &'a [u8]) -> Result<PacketHeaders<'a>, SliceError>
        ensures exact { result_parsed result ≡ ip_packet_headers slice.now }
        // The result agrees with the slices, as above.
        ensures agrees { (packet : SlicedPacket) (headers : Headers)
            → sliced_ip slice.now ≡ Ok packet
            → AreHeadersOf packet headers → result_parsed result ≡ Ok headers }
    {
        laws::rows_are_found();
        laws::rows_in_slots_are_views();
        Self::in_ip_packet(slice)
    }

    fn in_ip_packet(slice: &'a [u8]) -> Result<PacketHeaders<'a>, SliceError>
        ensures { result_parsed result ≡ ip_packet_headers slice.now }
    {
        match LayerHeaders::from_ip(slice) {
            Ok(layers) => Ok(PacketHeaders {
                link: None,
                link_exts: ArrayVec::new(),
                net: layers.net,
                transport: layers.transport,
                payload: layers.payload,
            }),
            Err(error) => Err(error),
        }
    }

    // The headers of what an ether type names, after `link_len` bytes of a link header.
    fn after_link(
        link: Option<LinkHeader>,
        payload: EtherPayloadSlice<'a>,
        link_len: usize,
    ) -> Result<PacketHeaders<'a>, SliceError>
        requires { link_len + length payload.payload < 2 ^ 64 }
        ensures { result_parsed result ≡ later link_len (headers_after link payload.entry) }
    {
        let tagged = match TaggedSlice::from_ether_payload(payload) {
            Ok(tagged) => tagged,
            Err(error) => return Err(slice_fault::moved(error, link_len)),
        };
        let len = tagged.len;
        let last = tagged.last;
        let tags = tagged.tags;
        let layers = match layers_after(&tags, last) {
            Ok(layers) => layers,
            Err(error) => return Err(slice_fault::moved(error, link_len + len)),
        };
        Ok(PacketHeaders {
            link,
            link_exts: headers_of(&tags),
            net: layers.net,
            transport: layers.transport,
            payload: layers.payload,
        })
    }

    /// The first two VLAN tags, or the only one; MACsec headers may be between them.
    pub fn vlan(&self) -> Option<VlanHeader>
        ensures { result ≡ vlan_header_of (vlan_headers self.now.link_exts.items) }
    {
        vlan_in(&self.link_exts)
    }

    /// The identifiers of all VLAN tags, the outer one first.
    pub fn vlan_ids(&self) -> ArrayVec<VlanId, 3>
        ensures { result.items ≡ ids_in self.now.link_exts.items }
    {
        vlan_ids_in(&self.link_exts)
    }
}

/// The first two VLAN tags of these, or the only one.
pub(crate) fn vlan_in(tags: &ArrayVec<LinkExtHeader, 3>) -> Option<VlanHeader>
    ensures { result ≡ vlan_header_of (vlan_headers tags.now.items) }
{
    let mut outer: Option<&SingleVlanHeader> = None;
    for tag in tags.as_slice() {
        if let LinkExtHeader::Vlan(tag) = tag {
            match outer {
                Some(outer) => {
                    return Some(VlanHeader::Double(DoubleVlanHeader {
                        outer: same_tag(outer),
                        inner: same_tag(tag),
                    }));
                }
                None => outer = Some(tag),
            }
        }
    }
    match outer {
        Some(tag) => Some(VlanHeader::Single(same_tag(tag))),
        None => None,
    }
}

/// The identifiers of the VLAN tags of these, the outer one first.
pub(crate) fn vlan_ids_in(tags: &ArrayVec<LinkExtHeader, 3>) -> ArrayVec<VlanId, 3>
    ensures { result.items ≡ ids_in tags.now.items }
{
    let mut ids = ArrayVec::new();
    for tag in tags.as_slice() {
        if let LinkExtHeader::Vlan(tag) = tag {
            ids.push(tag.vlan_id);
        }
    }
    ids
}

// The layers in what the last ether type after the tags names, or the modified payload of a MACsec
// header.
fn layers_after<'a>(
    tags: &ArrayVec<LinkExtSlice<'a>, 3>,
    last: Option<EtherPayloadSlice<'a>>,
) -> Result<LayerHeaders<'a>, SliceError>
    ensures layers { result ≡ layers_after tags.now.items last.entry }
    ensures offset { IfErr result
        (λ e. IfSome last.entry (λ q. (n : ℕ) → length q.payload + n < 2 ^ 64
        → fault_offset e + n < 2 ^ 64)) }
{
    match last {
        Some(payload) => LayerHeaders::from_ether_payload(EtherPayloadSlice {
            len_source: source_after(tags),
            ..payload
        }),
        None => Ok(LayerHeaders {
            net: None,
            transport: None,
            payload: modified_after(tags.as_slice().last()),
        }),
    }
}

// The modified payload of a MACsec header.
fn modified_after<'a>(tag: Option<&LinkExtSlice<'a>>) -> PayloadSlice<'a>
    ensures { payload_parsed result ≡ modified_after (option_map (λ t. t.now) tag.entry) }
{
    match tag {
        Some(LinkExtSlice::Macsec(macsec)) => match &macsec.payload {
            MacsecPayloadSlice::Modified(bytes) => PayloadSlice::MacsecMod(bytes),
            MacsecPayloadSlice::Unmodified(_) => PayloadSlice::Empty,
        },
        _ => PayloadSlice::Empty,
    }
}

// The fields of the tags.
fn headers_of(tags: &ArrayVec<LinkExtSlice<'_>, 3>) -> ArrayVec<LinkExtHeader, 3>
    ensures { result.items ≡ map fields_of tags.now.items }
{
    let mut headers = ArrayVec::new();
    for tag in tags.as_slice() {
        headers.push(tag.to_header());
    }
    headers
}

// A copy of the tag. A call of `clone` could fail, this can't.
fn same_tag(tag: &SingleVlanHeader) -> SingleVlanHeader
    ensures { result ≡ tag.now }
{
    SingleVlanHeader {
        pcp: tag.pcp,
        drop_eligible_indicator: tag.drop_eligible_indicator,
        vlan_id: tag.vlan_id,
        ether_type: tag.ether_type,
    }
}
