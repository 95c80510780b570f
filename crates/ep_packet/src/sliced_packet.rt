//! Packets, sliced into layers.
ghost use Rattle.std.specs.Prelude.{◌≡◌, ◌<◌, ◌+◌, ◌^◌, IfOk, length};
ghost use Rattle.std.specs.Option.{option_map};
ghost use Rattle.ep_link.specs.Ethernet.{ethernet_len};
ghost use Rattle.ep_link.specs.Sll.{sll_len};
ghost use Rattle.ep_packet.specs.Class.{class_of, sliced_class};
ghost use Rattle.ep_packet.specs.PacketView.{ether_payload_in, ip_payload_of, is_fragment, last_payload};
ghost use Rattle.ep_packet.specs.PacketView.{payload_ether_type_in, vlan_slice_of, vlan_tags};
ghost use Rattle.ep_packet.specs.Parts.{ArePartsOf};
ghost use Rattle.ep_packet.specs.SliceFault.{later};
ghost use Rattle.ep_packet.specs.Sliced.{packet_after, sliced_ether_type, sliced_ethernet, sliced_ip};
ghost use Rattle.ep_packet.specs.Sliced.{sliced_linux_sll};
ghost use Rattle.ep_packet.specs.Tags.{vlan_ids_of};

use crate::err::packet::SliceError;
use crate::layer_slices::LayerSlices;
use crate::tagged_slice::{TaggedSlice, ether_payload, source_after};
use crate::{NetSlice, TransportSlice, slice_fault};
use arrayvec::ArrayVec;
use ep_base::EtherType;
use ep_ipslice::IpPayloadSlice;
use ep_link::{Ethernet2Header, Ethernet2Slice, LinkSlice, LinuxSllHeader, LinuxSllSlice};
use ep_tag::{
    DoubleVlanSlice, EtherPayloadSlice, LinkExtSlice, SingleVlanSlice, VlanId, VlanSlice,
};

/// The layers of a packet, each borrowed from the packet's bytes.
#[derive(Clone, Debug, PartialEq, Eq, Drop)]
pub struct SlicedPacket<'a> {
    /// The link header with all bytes after it, or without one an ether type and its payload.
    pub link: Option<LinkSlice<'a>>,
    /// The VLAN tags and MACsec headers after it, in their order.
    pub link_exts: ArrayVec<LinkExtSlice<'a>, 3>,
    /// The packet of the network layer, with its extension headers.
    pub net: Option<NetSlice<'a>>,
    /// The message of the transport layer.
    pub transport: Option<TransportSlice<'a>>,
}

impl<'a> SlicedPacket<'a> {
    /// The greatest number of tags after a link header.
    pub const LINK_EXTS_CAP: usize = 3;

    /// The layers of an Ethernet II frame (RFC 894; IEEE 802.3, clause 3).
    ///
    /// Up to three tags follow the link header. A fourth one is payload that isn't read, and so is
    /// a modified MACsec payload. IPv4, IPv6 and ARP packets are sliced, and so is an ICMP, TCP or
    /// UDP message in an IP packet that is no fragment.
    ///
    /// The error is that of the first layer that isn't whole or breaks its format. Its offset
    /// counts in bytes from the start of the frame. If a header or a message in an IP payload has
    /// too few bytes, the error names the source of that payload's length.
    pub fn from_ethernet(slice: &'a [u8]) -> Result<SlicedPacket<'a>, SliceError>
        // Each part of the packet is at its offset in the frame.
        ensures parts { IfOk result (λ packet. ArePartsOf slice.now ethernet_len packet) }
        // The packet has the class of the frame.
        ensures class { sliced_class result ≡ class_of slice.now }
        // What is found, and what is refused: `laws::packets_are_their_layers`,
        // `laws::refusals_are_first_faults`.
        ensures exact { result ≡ sliced_ethernet slice.now }
    {
        let frame = match Ethernet2Slice::from_slice_without_fcs(slice) {
            Ok(frame) => frame,
            Err(error) => return Err(SliceError::Len(error)),
        };
        let payload = frame.payload();
        Self::after_link(LinkSlice::Ethernet2(frame), payload, Ethernet2Header::LEN)
    }

    /// The layers of a packet of a Linux cooked capture (libpcap's page on LINKTYPE_LINUX_SLL). If
    /// its protocol is an ether type, its payload is sliced as that of
    /// [`SlicedPacket::from_ethernet`]. The errors are of the same kind.
    pub fn from_linux_sll(slice: &'a [u8]) -> Result<SlicedPacket<'a>, SliceError>
        // Each part of the packet is at its offset in the slice.
        ensures parts { IfOk result (λ packet. ArePartsOf slice.now sll_len packet) }
        ensures exact { result ≡ sliced_linux_sll slice.now }
    {
        let packet = match LinuxSllSlice::from_slice(slice) {
            Ok(packet) => packet,
            Err(error) => return Err(slice_fault::of_linux_sll(error)),
        };
        match EtherPayloadSlice::try_from(packet.payload()) {
            Ok(payload) => {
                Self::after_link(LinkSlice::LinuxSll(packet), payload, LinuxSllHeader::LEN)
            }
            Err(()) => Ok(SlicedPacket {
                link: Some(LinkSlice::LinuxSll(packet)),
                link_exts: ArrayVec::new(),
                net: None,
                transport: None,
            }),
        }
    }

    /// The layers of the bytes after an ether type. `link` of the result has both. The errors are
    /// as those of [`SlicedPacket::from_ethernet`].
    pub fn from_ether_type(
        ether_type: EtherType,
        slice: &'a [u8],
    ) -> Result<SlicedPacket<'a>, SliceError>
        // Each part of the packet is at its offset in the slice.
        ensures parts { IfOk result (λ packet. ArePartsOf slice.now 0 packet) }
        ensures exact { result ≡ sliced_ether_type ether_type slice.now }
    {
        let payload = ether_payload(ether_type, slice);
        let link = ether_payload(ether_type, slice);
        Self::after_link(LinkSlice::EtherPayload(link), payload, 0)
    }

    /// The layers of an IP packet of the version in the upper half of its first byte. `link` of the
    /// result is `None`. The errors are as those of [`SlicedPacket::from_ethernet`].
    pub fn from_ip(slice: &'a [u8]) -> Result<SlicedPacket<'a>, SliceError>
        // Each part of the packet is at its offset in the slice.
        ensures parts { IfOk result (λ packet. ArePartsOf slice.now 0 packet) }
        // What is found: `laws::ip_packets_are_their_layers`.
        ensures exact { result ≡ sliced_ip slice.now }
    {
        match LayerSlices::from_ip(slice) {
            Ok(layers) => Ok(SlicedPacket {
                link: None,
                link_exts: ArrayVec::new(),
                net: layers.net,
                transport: layers.transport,
            }),
            Err(error) => Err(error),
        }
    }

    /// The ether type of a payload that wasn't parsed: the last one, if there is no packet of the
    /// network layer. `None` for a modified MACsec payload, and if the packet has no ether type.
    pub fn payload_ether_type(&self) -> Option<EtherType>
        ensures { result ≡ payload_ether_type_in self.now }
    {
        if self.net.is_some() {
            return None;
        }
        match self.last_payload() {
            Some(payload) => Some(payload.ether_type),
            None => None,
        }
    }

    /// What the last ether type names, also if it was parsed. It is bounded by a MACsec header's
    /// short length if one of the tags has one.
    pub fn ether_payload(&self) -> Option<EtherPayloadSlice<'a>>
        ensures { result ≡ ether_payload_in self.now }
    {
        match self.last_payload() {
            Some(payload) => Some(EtherPayloadSlice {
                len_source: source_after(&self.link_exts),
                ..payload
            }),
            None => None,
        }
    }

    // What the last ether type names.
    fn last_payload(&self) -> Option<EtherPayloadSlice<'a>>
        ensures { result ≡ last_payload self.now.link self.now.link_exts.items }
    {
        match self.link_exts.as_slice().last() {
            Some(tag) => tag.ether_payload(),
            None => match &self.link {
                Some(link) => link.ether_payload(),
                None => None,
            },
        }
    }

    /// The payload of an IP packet, if there is one.
    pub fn ip_payload(&self) -> Option<&IpPayloadSlice<'a>>
        ensures { option_map (λ payload. payload.now) result ≡ ip_payload_of self.now.net }
    {
        match &self.net {
            Some(packet) => packet.ip_payload_ref(),
            None => None,
        }
    }

    /// Whether the payload of an IP packet is a fragment.
    pub fn is_ip_payload_fragmented(&self) -> bool
        ensures { result ≡ is_fragment (ip_payload_of self.now.net) }
    {
        match self.ip_payload() {
            Some(payload) => payload.fragmented,
            None => false,
        }
    }

    /// The first two VLAN tags, or the only one; MACsec headers may be between them.
    pub fn vlan(&self) -> Option<VlanSlice<'a>>
        ensures { result ≡ vlan_slice_of (vlan_tags self.now.link_exts.items) }
    {
        let mut outer: Option<SingleVlanSlice<'a>> = None;
        for tag in self.link_exts.as_slice() {
            if let LinkExtSlice::Vlan(tag) = tag {
                match outer {
                    Some(outer) => {
                        return Some(VlanSlice::DoubleVlan(DoubleVlanSlice {
                            outer,
                            inner: same_tag(tag),
                        }));
                    }
                    None => outer = Some(same_tag(tag)),
                }
            }
        }
        match outer {
            Some(tag) => Some(VlanSlice::SingleVlan(tag)),
            None => None,
        }
    }

    /// The identifiers of all VLAN tags, the outer one first.
    pub fn vlan_ids(&self) -> ArrayVec<VlanId, 3>
        ensures { result.items ≡ vlan_ids_of self.now.link_exts.items }
    {
        let mut ids = ArrayVec::new();
        for tag in self.link_exts.as_slice() {
            if let LinkExtSlice::Vlan(tag) = tag {
                ids.push(tag.vlan_identifier());
            }
        }
        ids
    }

    // The layers of what an ether type names, after `link_len` bytes of a link header.
    fn after_link(
        link: LinkSlice<'a>,
        payload: EtherPayloadSlice<'a>,
        link_len: usize,
    ) -> Result<SlicedPacket<'a>, SliceError>
        requires { link_len + length payload.payload < 2 ^ 64 }
        ensures exact { result ≡ later link_len (packet_after link.entry payload.entry) }
        ensures parts { IfOk result (λ packet. ArePartsOf payload.entry.payload 0 packet) }
    {
        let tagged = match TaggedSlice::from_ether_payload(payload) {
            Ok(tagged) => tagged,
            Err(error) => return Err(slice_fault::moved(error, link_len)),
        };
        // Each result is built where it is returned: to join the branches would move all fields.
        if let Some(last) = &tagged.last {
            let offset = link_len + tagged.len;
            match last.ether_type {
                EtherType::IPV4 => match LayerSlices::from_ipv4(last.payload) {
                    Ok(layers) => {
                        return Ok(SlicedPacket {
                            link: Some(link),
                            link_exts: tagged.tags,
                            net: layers.net,
                            transport: layers.transport,
                        });
                    }
                    Err(error) => return Err(slice_fault::moved(error, offset)),
                },
                EtherType::IPV6 => match LayerSlices::from_ipv6(last.payload) {
                    Ok(layers) => {
                        return Ok(SlicedPacket {
                            link: Some(link),
                            link_exts: tagged.tags,
                            net: layers.net,
                            transport: layers.transport,
                        });
                    }
                    Err(error) => return Err(slice_fault::moved(error, offset)),
                },
                EtherType::ARP => match LayerSlices::from_arp(last.payload) {
                    Ok(layers) => {
                        return Ok(SlicedPacket {
                            link: Some(link),
                            link_exts: tagged.tags,
                            net: layers.net,
                            transport: layers.transport,
                        });
                    }
                    Err(error) => return Err(slice_fault::moved(error, offset)),
                },
                _ => {}
            }
        }
        Ok(SlicedPacket {
            link: Some(link),
            link_exts: tagged.tags,
            net: None,
            transport: None,
        })
    }
}

/// A copy of the tag. A call of `clone` of a value with a model could fail, this can't.
pub(crate) fn same_tag<'a>(tag: &SingleVlanSlice<'a>) -> SingleVlanSlice<'a>
    ensures { result ≡ tag.now }
{
    SingleVlanSlice::from_slice(tag.slice()).unwrap()
}
