//! The headers of all layers of a packet as values, as far as they are there.
ghost use Rattle.std.specs.Prelude.{◌≡◌, ◌<◌, ◌+◌, ◌^◌, length, map};
ghost use Rattle.std.specs.Option.{option_map};
ghost use Rattle.ep_packet.specs.LaxPacketHeaders.{lax_after_tags, lax_ether_type_headers, lax_ethernet_headers};
ghost use Rattle.ep_packet.specs.LaxPacketHeaders.{lax_headers_after, lax_headers_parsed, lax_ip_packet_headers};
ghost use Rattle.ep_packet.specs.LaxPacketHeaders.{lax_last_of, lax_linux_sll_headers, lax_modified_after};
ghost use Rattle.ep_packet.specs.LaxPacketHeaders.{lax_named_after, lax_result_parsed};
ghost use Rattle.ep_packet.specs.LaxPayload.{lax_payload_parsed};
ghost use Rattle.ep_packet.specs.PacketHeaders.{ids_in, vlan_headers, vlan_header_of};
ghost use Rattle.ep_tag.specs.LinkExt.{lax_fields_of};

use crate::err::packet::SliceError;
use crate::lax_layer_headers::LaxLayerHeaders;
use crate::lax_tagged_slice::{LaxTaggedSlice, bound_after};
use crate::packet_headers::{vlan_ids_in, vlan_in};
use crate::tagged_slice::ether_payload;
use crate::{LaxPayloadSlice, NetHeaders, TransportHeader, slice_fault};
use arrayvec::ArrayVec;
use ep_base::EtherType;
use ep_base::err::{Layer, LenError};
use ep_ipslice::err::ip;
use ep_link::err::linux_sll;
use ep_link::{Ethernet2Header, Ethernet2Slice, LinkHeader, LinuxSllHeader, LinuxSllSlice};
use ep_tag::{
    EtherPayloadSlice, LaxEtherPayloadSlice, LaxLinkExtSlice, LaxMacsecPayloadSlice, LinkExtHeader,
    VlanHeader, VlanId,
};

/// The headers of a packet as far as they are there, as values, and the payload after the last of
/// them, borrowed.
///
/// They are those of the layers that [`LaxSlicedPacket`](crate::LaxSlicedPacket) reads, but the headers
/// end before an extension header of IPv6 that an `Ipv6Extensions` doesn't take, so that the IP payload
/// starts with that header.
#[derive(Clone, Debug, PartialEq, Eq, Drop)]
pub struct LaxPacketHeaders<'a> {
    /// The link header.
    pub link: Option<LinkHeader>,
    /// The VLAN tags and MACsec headers after it, in their order.
    pub link_exts: ArrayVec<LinkExtHeader, 3>,
    /// The headers of the network layer, with extension headers.
    pub net: Option<NetHeaders>,
    /// The header of the transport layer. There is none in a fragment.
    pub transport: Option<TransportHeader>,
    /// The payload after the last header that was read.
    pub payload: LaxPayloadSlice<'a>,
    /// The fault that stopped the reading, and the layer that was being read. An offset in it counts
    /// in bytes from the start of the slice. There is none, too, where nothing more is read: before a
    /// fourth tag, in a modified MACsec payload, a fragment, or a protocol that isn't known.
    pub stop_err: Option<(SliceError, Layer)>,
}

impl<'a> LaxPacketHeaders<'a> {
    /// The greatest number of tags after a link header.
    pub const LINK_EXTS_CAP: usize = 3;

    /// The headers of an Ethernet II frame (RFC 894; IEEE 802.3, clause 3). Refused is a slice shorter
    /// than the link header, and nothing else.
    pub fn from_ethernet(slice: &'a [u8]) -> Result<LaxPacketHeaders<'a>, LenError>
        ensures exact { lax_result_parsed result ≡ lax_ethernet_headers slice.now }
    {
        match Ethernet2Slice::from_slice_without_fcs(slice) {
            Ok(frame) => {
                let link = LinkHeader::Ethernet2(frame.to_header());
                Ok(Self::after_link(Some(link), frame.payload(), Ethernet2Header::LEN))
            }
            Err(error) => Err(error),
        }
    }

    /// The headers of a packet of a Linux cooked capture (libpcap's page on LINKTYPE_LINUX_SLL). If its
    /// protocol is an ether type, its payload is read as that of [`LaxPacketHeaders::from_ethernet`].
    /// Refused is what [`LinuxSllSlice::from_slice`] refuses.
    pub fn from_linux_sll(
        slice: &'a [u8],
    ) -> Result<LaxPacketHeaders<'a>, linux_sll::HeaderSliceError>
        ensures exact { lax_result_parsed result ≡ lax_linux_sll_headers slice.now }
    {
        let packet = match LinuxSllSlice::from_slice(slice) {
            Ok(packet) => packet,
            Err(error) => return Err(error),
        };
        let link = Some(LinkHeader::LinuxSll(packet.to_header()));
        match EtherPayloadSlice::try_from(packet.payload()) {
            Ok(payload) => Ok(Self::after_link(link, payload, LinuxSllHeader::LEN)),
            Err(()) => Ok(LaxPacketHeaders {
                link,
                link_exts: ArrayVec::new(),
                net: None,
                transport: None,
                payload: LaxPayloadSlice::LinuxSll(packet.payload()),
                stop_err: None,
            }),
        }
    }

    /// The headers of the bytes after an ether type, without a link header.
    pub fn from_ether_type(ether_type: EtherType, slice: &'a [u8]) -> LaxPacketHeaders<'a>
        ensures exact { lax_headers_parsed result ≡ lax_ether_type_headers ether_type slice.now }
    {
        Self::after_link(None, ether_payload(ether_type, slice), 0)
    }

    /// The headers of an IP packet of the version in the upper half of its first byte, without a link
    /// header. Refused is what [`IpHeaders::from_slice_lax`](crate::IpHeaders::from_slice_lax) refuses.
    pub fn from_ip(slice: &'a [u8]) -> Result<LaxPacketHeaders<'a>, ip::LaxHeaderSliceError>
        ensures exact { lax_result_parsed result ≡ lax_ip_packet_headers slice.now }
    {
        match LaxLayerHeaders::from_ip(slice) {
            Ok(layers) => Ok(LaxPacketHeaders {
                link: None,
                link_exts: ArrayVec::new(),
                net: layers.net,
                transport: layers.transport,
                payload: layers.payload.unwrap_or(LaxPayloadSlice::Empty),
                stop_err: layers.stop,
            }),
            Err(error) => Err(error),
        }
    }

    /// The first two VLAN tags, or the only one; MACsec headers may be between them.
    pub fn vlan(&self) -> Option<VlanHeader>
        ensures { result ≡ vlan_header_of (vlan_headers self.now.link_exts.items) }
    {
        vlan_in(&self.link_exts)
    }

    /// The identifiers of all VLAN tags, the outer one first.
    pub fn vlan_ids(&self) -> ArrayVec<VlanId, 3>
        ensures { result.items ≡ ids_in self.now.link_exts.items }
    {
        vlan_ids_in(&self.link_exts)
    }

    // The headers of what an ether type names, after `link_len` bytes of a link header.
    fn after_link(
        link: Option<LinkHeader>,
        payload: EtherPayloadSlice<'a>,
        link_len: usize,
    ) -> LaxPacketHeaders<'a>
        requires { link_len + length payload.payload < 2 ^ 64 }
        ensures { lax_headers_parsed result ≡ lax_headers_after link_len link payload.entry }
    {
        let bytes = payload.payload;
        let ether_type = payload.ether_type;
        let len_source = payload.len_source;
        let tagged = LaxTaggedSlice::from_ether_payload(LaxEtherPayloadSlice::from(payload));
        let layers = LaxLayerHeaders::from_ether_payload(&tagged.last);
        let stop_err = match slice_fault::stop_moved(tagged.stop, link_len) {
            Some(stop) => Some(stop),
            None => slice_fault::stop_moved(layers.stop, link_len + tagged.len),
        };
        let after = LaxEtherPayloadSlice {
            incomplete: false,
            ether_type,
            len_source,
            payload: bytes,
        };
        LaxPacketHeaders {
            link,
            link_exts: headers_of(&tagged.tags),
            net: layers.net,
            transport: layers.transport,
            payload: layers.payload.unwrap_or(after_tags(&tagged.tags, after)),
            stop_err,
        }
    }
}

// The payload after the tags, which follow the ether type of `payload`: what the last ether type names,
// or else the modified payload of a MACsec header.
fn after_tags<'a>(
    tags: &ArrayVec<LaxLinkExtSlice<'a>, 3>,
    payload: LaxEtherPayloadSlice<'a>,
) -> LaxPayloadSlice<'a>
    ensures { lax_payload_parsed result ≡ lax_after_tags tags.now.items
        (lax_named_after payload.entry (lax_last_of tags.now.items)) }
{
    let last = tags.as_slice().last();
    let named = match last {
        Some(tag) => tag.ether_payload(),
        None => Some(payload),
    };
    match named {
        Some(payload) => {
            let (incomplete, len_source) = bound_after(tags);
            LaxPayloadSlice::Ether(LaxEtherPayloadSlice {
                incomplete,
                len_source,
                ..payload
            })
        }
        None => modified_after(last),
    }
}

// The modified payload of a MACsec header.
fn modified_after<'a>(tag: Option<&LaxLinkExtSlice<'a>>) -> LaxPayloadSlice<'a>
    ensures { lax_payload_parsed result ≡ lax_modified_after (option_map (λ t. t.now) tag.entry) }
{
    match tag {
        Some(LaxLinkExtSlice::Macsec(macsec)) => match &macsec.payload {
            LaxMacsecPayloadSlice::Modified {
                incomplete,
                payload,
            } => LaxPayloadSlice::MacsecModified {
                payload,
                incomplete: *incomplete,
            },
            LaxMacsecPayloadSlice::Unmodified(_) => LaxPayloadSlice::Empty,
        },
        _ => LaxPayloadSlice::Empty,
    }
}

// The fields of the tags.
fn headers_of(tags: &ArrayVec<LaxLinkExtSlice<'_>, 3>) -> ArrayVec<LinkExtHeader, 3>
    ensures { result.items ≡ map lax_fields_of tags.now.items }
{
    let mut headers = ArrayVec::new();
    for tag in tags.as_slice() {
        headers.push(tag.to_header());
    }
    headers
}
