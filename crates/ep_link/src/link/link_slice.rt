//! The link layer of a packet, borrowed.
ghost use Rattle.std.specs.Prelude.{◌≡◌};
ghost use Rattle.ep_link.specs.Link.{fields_of, payload_after, sll_payload_after};

use super::{
    Ethernet2Slice, LinkHeader, LinuxSllPayloadSlice, LinuxSllProtocolType, LinuxSllSlice,
};
use ep_tag::EtherPayloadSlice;

/// A link header with what follows it, or a payload that was given without a link header, borrowed.
#[derive(Clone, Debug, PartialEq, Eq, Drop)]
pub enum LinkSlice<'a> {
    /// An Ethernet II frame.
    Ethernet2(Ethernet2Slice<'a>),
    /// A packet of a Linux cooked capture.
    LinuxSll(LinuxSllSlice<'a>),
    /// No link header: the bytes after an ether type.
    EtherPayload(EtherPayloadSlice<'a>),
    /// No link header: the bytes after the header of a Linux cooked capture.
    LinuxSllPayload(LinuxSllPayloadSlice<'a>),
}

impl<'a> LinkSlice<'a> {
    /// The fields of the link header, where there is one.
    pub fn to_header(&self) -> Option<LinkHeader>
        ensures { result ≡ fields_of self.now }
    {
        match self {
            LinkSlice::Ethernet2(frame) => Some(LinkHeader::Ethernet2(frame.to_header())),
            LinkSlice::LinuxSll(packet) => Some(LinkHeader::LinuxSll(packet.to_header())),
            LinkSlice::EtherPayload(_) => None,
            LinkSlice::LinuxSllPayload(_) => None,
        }
    }

    /// What follows an ether type: of an Ethernet II frame always, of a packet of a Linux
    /// cooked capture where its protocol is an ether type.
    pub fn ether_payload(&self) -> Option<EtherPayloadSlice<'a>>
        ensures { result ≡ payload_after self.now }
    {
        match self {
            LinkSlice::Ethernet2(frame) => Some(frame.payload()),
            LinkSlice::LinuxSll(packet) => packet.payload().ether_payload(),
            LinkSlice::EtherPayload(payload) => Some(EtherPayloadSlice {
                ether_type: payload.ether_type,
                len_source: payload.len_source,
                payload: payload.payload,
            }),
            LinkSlice::LinuxSllPayload(payload) => payload.ether_payload(),
        }
    }

    /// What follows the link header, or was given without one, as the payload of a Linux cooked
    /// capture: where an ether type names it, that is its protocol.
    pub fn sll_payload(&self) -> LinuxSllPayloadSlice<'a>
        ensures { result ≡ sll_payload_after self.now }
    {
        match self {
            LinkSlice::Ethernet2(frame) => LinuxSllPayloadSlice::from(frame.payload()),
            LinkSlice::LinuxSll(packet) => packet.payload(),
            LinkSlice::EtherPayload(payload) => LinuxSllPayloadSlice {
                protocol_type: LinuxSllProtocolType::EtherType(payload.ether_type),
                payload: payload.payload,
            },
            LinkSlice::LinuxSllPayload(payload) => LinuxSllPayloadSlice {
                protocol_type: payload.protocol_type,
                payload: payload.payload,
            },
        }
    }
}
