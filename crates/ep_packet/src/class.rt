//! The class of a frame: a whole message, a fragment, something else, or refused.
ghost use Rattle.std.specs.Prelude.{◌≡◌};
ghost use Rattle.ep_ipslice.specs.Packet.{fragment_fields};
ghost use Rattle.ep_packet.specs.Class.{IdentificationFits, ClassFits, as_class, class_of, fragmented_class};
ghost use Rattle.ep_packet.specs.Class.{net_class, packet_parsed, whole_class};
ghost use Rattle.ep_packet.specs.Tags.{vlan_ids_of};
ghost use Rattle.ep_packet.specs.declared.net.net_slice.NetSlice.TheVariants as net;

use crate::laws::traits;
use crate::message::message_of;
use crate::{Addresses, Message, NetSlice, SlicedFragment, SlicedPacket};
use arrayvec::ArrayVec;
use ep_base::{IpFragOffset, IpNumber};
use ep_ipslice::laws::{extensions_of_a_packet, ipv4_fragment_fields, ipv6_fragment_fields};
use ep_ipslice::{IpPayloadSlice, Ipv4Slice, Ipv6Slice};
use ep_tag::VlanId;

/// The class of a frame, or of a sliced packet.
#[derive(Clone, Debug, PartialEq, Eq, Drop)]
pub enum Class<'a> {
    /// A message in a datagram that isn't fragmented. It can be read.
    Whole(WholeMessage<'a>),
    /// A fragment of an IP datagram.
    Cut(IpFragment<'a>),
    /// Anything else, such as an ARP packet or an unknown ether type.
    Other,
    /// A frame that [`SlicedPacket::from_ethernet`] refuses.
    Refused,
}

/// The message in a datagram that isn't fragmented, and its addresses.
#[derive(Clone, Debug, PartialEq, Eq, Drop)]
pub struct WholeMessage<'a> {
    /// The source and the destination of the datagram.
    pub addresses: Addresses,
    /// The IP number of its protocol.
    pub ip_number: IpNumber,
    /// All bytes of the message, also those after the length that a UDP header states.
    pub bytes: &'a [u8],
    /// The message as its protocol reads it.
    pub message: Message<'a>,
}

/// A fragment, with what identifies its datagram: fragments belong to one datagram exactly if they
/// have the same VLAN tags, addresses, identification and IP number (RFC 791, section 3.2). Over
/// IPv6 the number counts here, too: RFC 8200, section 4.5, leaves it out and takes that of the
/// first fragment.
#[derive(Clone, Debug, PartialEq, Eq, Drop)]
pub struct IpFragment<'a> {
    /// The identifiers of the VLAN tags, the outer one first.
    pub vlan_ids: ArrayVec<VlanId, 3>,
    /// The source and the destination of the datagram.
    pub addresses: Addresses,
    /// The identification, of 16 bits over IPv4.
    pub identification: u32,
    /// The IP number of the datagram's payload.
    pub ip_number: IpNumber,
    /// The offset and the bytes of the fragment.
    pub fragment: SlicedFragment<'a>,
}

impl<'a> Class<'a> {
    /// The class of an Ethernet II frame: refused where [`SlicedPacket::from_ethernet`] refuses it.
    pub fn from_ethernet(frame: &'a [u8]) -> Class<'a>
        ensures class { as_class result ≡ class_of frame.now }
        ensures fits { ClassFits result }
    {
        match SlicedPacket::from_ethernet(frame) {
            Ok(packet) => packet.class(),
            Err(_) => Class::Refused,
        }
    }
}

impl<'a> SlicedPacket<'a> {
    /// The class of the packet: of an IP packet a whole message or a fragment, of any other packet
    /// [`Class::Other`]. It is a fragment if the IPv4 header says so, or the first fragment header
    /// over IPv6. If only a later fragment header says so, it is [`Class::Other`].
    #[inline(always)]
    pub fn class(&self) -> Class<'a>
        ensures class { as_class result ≡ packet_parsed self.now }
        // The identification of a fragment over IPv4 has 16 bits.
        ensures fits { ClassFits result }
    {
        // It and the functions that it calls are always inlined, so that no class is moved.
        match &self.net {
            Some(NetSlice::Ipv4(packet)) => self.ipv4_class(packet),
            Some(NetSlice::Ipv6(packet)) => self.ipv6_class(packet),
            _ => Class::Other,
        }
    }

    #[inline(always)]
    fn ipv4_class(&self, packet: &Ipv4Slice<'a>) -> Class<'a>
        ensures class { as_class result ≡ net_class (vlan_ids_of self.now.link_exts.items)
            (Some (net.Ipv4 packet.now)) self.now.transport }
        ensures fits { ClassFits result }
    {
        let addresses = Addresses::V4 {
            source: packet.header().source(),
            destination: packet.header().destination(),
        };
        if !packet.is_payload_fragmented() {
            return self.whole(addresses, packet.payload());
        }
        let (identification, offset, more_fragments) = ipv4_fragment_fields(packet);
        self.fragment(
            addresses,
            packet.payload(),
            (identification.into(), offset, more_fragments),
        )
    }

    #[inline(always)]
    fn ipv6_class(&self, packet: &Ipv6Slice<'a>) -> Class<'a>
        ensures class { as_class result ≡ net_class (vlan_ids_of self.now.link_exts.items)
            (Some (net.Ipv6 packet.now)) self.now.transport }
        ensures fits { ClassFits result }
    {
        let addresses = Addresses::V6 {
            source: packet.header().source(),
            destination: packet.header().destination(),
        };
        if !packet.is_payload_fragmented() {
            return self.whole(addresses, packet.payload());
        }
        extensions_of_a_packet();
        let _extensions = packet.extensions();
        match ipv6_fragment_fields(packet) {
            Some(fields) => self.fragment(addresses, packet.payload(), fields),
            None => Class::Other,
        }
    }

    // The class of a payload that isn't fragmented.
    #[inline(always)]
    fn whole(&self, addresses: Addresses, payload: &IpPayloadSlice<'a>) -> Class<'a>
        ensures class { as_class result ≡ whole_class addresses payload.now self.now.transport }
        ensures fits { ClassFits result }
    {
        traits::types_are_plain_data();
        let transport = match &self.transport {
            Some(transport) => Some(transport.clone().unwrap()),
            None => None,
        };
        Class::Whole(WholeMessage {
            addresses,
            ip_number: payload.ip_number,
            bytes: payload.payload,
            message: message_of(transport, payload.payload),
        })
    }

    // The class of a payload with these fields: identification, offset, and whether more fragments
    // follow. It is a fragment, unless the offset is 0 and no more follow.
    #[inline(always)]
    fn fragment(
        &self,
        addresses: Addresses,
        payload: &IpPayloadSlice<'a>,
        fields: (u32, IpFragOffset, bool),
    ) -> Class<'a>
        requires { IdentificationFits addresses fields.0 }
        ensures class { as_class result ≡ fragmented_class (vlan_ids_of self.now.link_exts.items)
            addresses payload.now (Some (fragment_fields fields)) }
        ensures fits { ClassFits result }
    {
        let (identification, offset, more_fragments) = fields;
        if !more_fragments && offset.value() == 0 {
            return Class::Other;
        }
        Class::Cut(IpFragment {
            vlan_ids: self.vlan_ids(),
            addresses,
            identification,
            ip_number: payload.ip_number,
            fragment: SlicedFragment {
                offset,
                more_fragments,
                bytes: payload.payload,
            },
        })
    }
}
