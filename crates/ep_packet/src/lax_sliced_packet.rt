//! Packets that may have been cut off, sliced into layers.
ghost use Rattle.std.specs.Prelude.{◌≡◌, ◌<◌, ◌+◌, ◌^◌, length};
ghost use Rattle.std.specs.Option.{option_map};
ghost use Rattle.ep_ipslice.specs.Compared.{lax_value};
ghost use Rattle.ep_packet.specs.LaxNetSlice.{lax_ip_payload_of};
ghost use Rattle.ep_packet.specs.LaxSliced.{lax_packet_after, lax_sliced_ether_type, lax_sliced_ethernet};
ghost use Rattle.ep_packet.specs.LaxSliced.{lax_sliced_ip, lax_sliced_linux_sll};
ghost use Rattle.ep_packet.specs.LaxView.{is_lax_fragment, lax_ether_payload_in, lax_last_payload};
ghost use Rattle.ep_packet.specs.LaxView.{lax_payload_ether_type_in, lax_vlan_ids_of, lax_vlan_tags};
ghost use Rattle.ep_packet.specs.PacketView.{vlan_slice_of};

use crate::err::packet::SliceError;
use crate::lax_layer_slices::LaxLayerSlices;
use crate::lax_tagged_slice::{LaxTaggedSlice, bound_after};
use crate::sliced_packet::same_tag;
use crate::tagged_slice::ether_payload;
use crate::{LaxNetSlice, TransportSlice, slice_fault};
use arrayvec::ArrayVec;
use ep_base::EtherType;
use ep_base::err::{Layer, LenError};
use ep_ipslice::err::ip;
use ep_ipslice::{LaxIpPayloadSlice, LaxIpSlice};
use ep_link::err::linux_sll;
use ep_link::{Ethernet2Header, Ethernet2Slice, LinkSlice, LinuxSllHeader, LinuxSllSlice};
use ep_tag::{
    DoubleVlanSlice, EtherPayloadSlice, LaxEtherPayloadSlice, LaxLinkExtSlice, SingleVlanSlice,
    VlanId, VlanSlice,
};

/// The layers of a packet as far as they are there, as in a capture that holds only the first bytes of
/// each packet, each borrowed from the packet's bytes.
///
/// Where IPv4's total length, IPv6's payload length or MACsec's short length promises more than is there,
/// the payload is all that is there, `incomplete` is true, and the slice is the source of its length.
/// A UDP length above what is there, or below 8, takes all that is there, and so does a total length
/// below IPv4's header and an IPv6 payload length of 0. A header that isn't whole by its own length is
/// a fault, and reading stops at the first one.
#[derive(Clone, Debug, PartialEq, Eq, Drop)]
pub struct LaxSlicedPacket<'a> {
    /// The link header with all bytes after it, or without one an ether type and its payload.
    pub link: Option<LinkSlice<'a>>,
    /// The VLAN tags and MACsec headers after it, in their order.
    pub link_exts: ArrayVec<LaxLinkExtSlice<'a>, 3>,
    /// The packet of the network layer, with its extension headers.
    pub net: Option<LaxNetSlice<'a>>,
    /// The message of the transport layer: what is there of it, where its header is whole. There is
    /// none in a fragment.
    pub transport: Option<TransportSlice<'a>>,
    /// The fault that stopped the reading, and the layer that was being read. An offset in it counts
    /// in bytes from the start of the slice. There is none, too, where nothing more is read: before a
    /// fourth tag, in a modified MACsec payload, a fragment, or a protocol that isn't known.
    pub stop_err: Option<(SliceError, Layer)>,
}

impl<'a> LaxSlicedPacket<'a> {
    /// The greatest number of tags after a link header.
    pub const LINK_EXTS_CAP: usize = 3;

    /// The layers of an Ethernet II frame (RFC 894; IEEE 802.3, clause 3), in the same order as
    /// [`SlicedPacket::from_ethernet`](crate::SlicedPacket::from_ethernet) reads them. Refused is a
    /// slice shorter than the link header, and nothing else.
    pub fn from_ethernet(slice: &'a [u8]) -> Result<LaxSlicedPacket<'a>, LenError>
        ensures exact { result ≡ lax_sliced_ethernet slice.now }
    {
        let frame = Ethernet2Slice::from_slice_without_fcs(slice)?;
        let payload = frame.payload();
        Ok(Self::after_link(LinkSlice::Ethernet2(frame), payload, Ethernet2Header::LEN))
    }

    /// The layers of a packet of a Linux cooked capture (libpcap's page on LINKTYPE_LINUX_SLL). If
    /// its protocol is an ether type, its payload is read as that of
    /// [`LaxSlicedPacket::from_ethernet`]. Refused is what [`LinuxSllSlice::from_slice`] refuses.
    pub fn from_linux_sll(
        slice: &'a [u8],
    ) -> Result<LaxSlicedPacket<'a>, linux_sll::HeaderSliceError>
        ensures exact { result ≡ lax_sliced_linux_sll slice.now }
    {
        let packet = LinuxSllSlice::from_slice(slice)?;
        match EtherPayloadSlice::try_from(packet.payload()) {
            Ok(payload) => Ok(Self::after_link(
                LinkSlice::LinuxSll(packet),
                payload,
                LinuxSllHeader::LEN,
            )),
            Err(()) => Ok(LaxSlicedPacket {
                link: Some(LinkSlice::LinuxSll(packet)),
                link_exts: ArrayVec::new(),
                net: None,
                transport: None,
                stop_err: None,
            }),
        }
    }

    /// The layers of the bytes after an ether type. `link` of the result has both.
    pub fn from_ether_type(ether_type: EtherType, slice: &'a [u8]) -> LaxSlicedPacket<'a>
        ensures exact { result ≡ lax_sliced_ether_type ether_type slice.now }
    {
        let payload = ether_payload(ether_type, slice);
        let link = ether_payload(ether_type, slice);
        Self::after_link(LinkSlice::EtherPayload(link), payload, 0)
    }

    /// The layers of an IP packet of the version in the upper half of its first byte. `link` of the
    /// result is `None`. Refused is what [`LaxIpSlice::from_slice`] refuses.
    pub fn from_ip(slice: &'a [u8]) -> Result<LaxSlicedPacket<'a>, ip::LaxHeaderSliceError>
        ensures exact { result ≡ lax_sliced_ip slice.now }
    {
        let (packet, stop) = LaxIpSlice::from_slice(slice)?;
        let layers = LaxLayerSlices::from_ip(packet, stop);
        Ok(LaxSlicedPacket {
            link: None,
            link_exts: ArrayVec::new(),
            net: layers.net,
            transport: layers.transport,
            stop_err: layers.stop,
        })
    }

    /// The payload of an IP packet, if there is one, with whether bytes of it are missing.
    pub fn ip_payload(&self) -> Option<&LaxIpPayloadSlice<'a>>
        ensures { option_map (λ payload. lax_value payload.now) result
            ≡ lax_ip_payload_of self.now.net }
    {
        match &self.net {
            Some(packet) => packet.ip_payload_ref(),
            None => None,
        }
    }

    /// What the last ether type names, also if it was read. The last MACsec header with a short length
    /// above 0 says whether bytes of it are missing, and bounds it; without one none are missing.
    pub fn ether_payload(&self) -> Option<LaxEtherPayloadSlice<'a>>
        ensures { result ≡ lax_ether_payload_in self.now }
    {
        match self.last_payload() {
            Some(payload) => {
                let (incomplete, len_source) = bound_after(&self.link_exts);
                Some(LaxEtherPayloadSlice {
                    incomplete,
                    len_source,
                    ..payload
                })
            }
            None => None,
        }
    }

    // What the last ether type names, as its own header bounds it.
    fn last_payload(&self) -> Option<LaxEtherPayloadSlice<'a>>
        ensures { result ≡ lax_last_payload self.now }
    {
        match self.link_exts.as_slice().last() {
            Some(tag) => tag.ether_payload(),
            None => match &self.link {
                Some(link) => match link.ether_payload() {
                    Some(payload) => Some(LaxEtherPayloadSlice::from(payload)),
                    None => None,
                },
                None => None,
            },
        }
    }

    /// The ether type of a payload that wasn't parsed: the last one, if there is no packet of the
    /// network layer, also where that packet or the tag that the ether type names has a fault. `None`
    /// for a modified MACsec payload, and if the packet has no ether type.
    pub fn payload_ether_type(&self) -> Option<EtherType>
        ensures { result ≡ lax_payload_ether_type_in self.now }
    {
        if self.net.is_some() {
            return None;
        }
        match self.last_payload() {
            Some(payload) => Some(payload.ether_type),
            None => None,
        }
    }

    /// Whether the payload of an IP packet is a fragment, where there is one.
    pub fn is_ip_payload_fragmented(&self) -> bool
        ensures { result ≡ is_lax_fragment (lax_ip_payload_of self.now.net) }
    {
        match self.ip_payload() {
            Some(payload) => payload.fragmented,
            None => false,
        }
    }

    /// The first two VLAN tags, or the only one; MACsec headers may be between them.
    pub fn vlan(&self) -> Option<VlanSlice<'a>>
        ensures { result ≡ vlan_slice_of (lax_vlan_tags self.now.link_exts.items) }
    {
        let mut outer: Option<SingleVlanSlice<'a>> = None;
        for tag in self.link_exts.as_slice() {
            if let LaxLinkExtSlice::Vlan(tag) = tag {
                let inner = same_tag(tag);
                match outer {
                    Some(outer) => {
                        return Some(VlanSlice::DoubleVlan(DoubleVlanSlice { outer, inner }));
                    }
                    None => outer = Some(inner),
                }
            }
        }
        match outer {
            Some(tag) => Some(VlanSlice::SingleVlan(tag)),
            None => None,
        }
    }

    /// The identifiers of all VLAN tags, the outer one first.
    pub fn vlan_ids(&self) -> ArrayVec<VlanId, 3>
        ensures { result.items ≡ lax_vlan_ids_of self.now.link_exts.items }
    {
        let mut ids = ArrayVec::new();
        for tag in self.link_exts.as_slice() {
            if let LaxLinkExtSlice::Vlan(tag) = tag {
                ids.push(tag.vlan_identifier());
            }
        }
        ids
    }

    // The layers of what an ether type names, after `link_len` bytes of a link header.
    fn after_link(
        link: LinkSlice<'a>,
        payload: EtherPayloadSlice<'a>,
        link_len: usize,
    ) -> LaxSlicedPacket<'a>
        requires { link_len + length payload.payload < 2 ^ 64 }
        ensures exact { result ≡ lax_packet_after link_len link.entry payload.entry }
    {
        let tagged = LaxTaggedSlice::from_ether_payload(LaxEtherPayloadSlice::from(payload));
        let layers = LaxLayerSlices::from_ether_payload(&tagged.last);
        let stop_err = match slice_fault::stop_moved(tagged.stop, link_len) {
            Some(stop) => Some(stop),
            None => slice_fault::stop_moved(layers.stop, link_len + tagged.len),
        };
        LaxSlicedPacket {
            link: Some(link),
            link_exts: tagged.tags,
            net: layers.net,
            transport: layers.transport,
            stop_err,
        }
    }
}
