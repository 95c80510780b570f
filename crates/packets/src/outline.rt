//! What filters, summaries and conversations need of a packet.
ghost use Rattle.std.specs.Prelude.{◌≡◌};
ghost use Rattle.std.specs.List.{list_any};
ghost use Rattle.ep_packet.specs.Readable.{message_at};
ghost use Rattle.packets.specs.Conversations.{is_left_out, is_without_ip};
ghost use Rattle.packets.specs.Headers.{has_header, net_addresses, net_number};
ghost use Rattle.packets.specs.LaxLayers.{lax_layers_of};
ghost use Rattle.packets.specs.Lengths.{is_cut};
ghost use Rattle.packets.specs.Outlines.{headers_of, is_ethernet, is_lax_macsec, is_lax_vlan, lax_headers_of};
ghost use Rattle.packets.specs.Outlines.{is_macsec, is_vlan, lax_net_of, message_refusal, net_of};
ghost use Rattle.packets.specs.Outlines.{outline_of, fragment_state_of, fragment_refusal, refusal_of};

use crate::{Dissection, Fragment, Protocol, Reason};
use captures::Link;
use checksum_verdicts::Verdict;
use ep_base::IpNumber;
use ep_packet::{Addresses, LaxNetSlice, LaxSlicedPacket, NetSlice, SlicedPacket, read_message};
use ep_tag::{LaxLinkExtSlice, LinkExtSlice};
use etherparse::defrag::IpDefragPayloadVec;

/// What a summary needs of a packet.
#[derive(Clone, Copy, Debug, PartialEq, Eq)]
pub struct Outline {
    /// The number of the packet.
    pub number: u64,
    /// When it was captured, in nanoseconds since 1970.
    pub time: u64,
    /// The bytes of its frame.
    pub len: usize,
    /// How many of its bytes were captured, those of its link's own header among them.
    pub captured_len: usize,
    /// How many bytes it had on the wire.
    pub wire_len: u32,
    /// Its headers; where it is refused those that are there.
    pub headers: Headers,
    /// Why it, or the message that it completes, is refused.
    pub refusal: Option<Reason>,
    /// What became of it, if it is a fragment.
    pub fragment: Option<FragmentState>,
    /// The verdict on its checksum, if a message was read.
    pub verdict: Option<Verdict>,
}

/// Which headers a packet has.
#[derive(Clone, Copy, Debug, PartialEq, Eq)]
pub struct Headers {
    /// Whether it was captured as an Ethernet frame.
    pub ethernet: bool,
    /// Whether it has a VLAN tag.
    pub vlan: bool,
    /// Whether it has a MACsec header.
    pub macsec: bool,
    /// The header of the network layer.
    pub net: Option<Net>,
}

/// A header of the network layer.
#[derive(Clone, Copy, Debug, PartialEq, Eq)]
pub enum Net {
    /// An ARP packet.
    Arp,
    /// An IP packet: its addresses, and the protocol that it carries.
    Ip(Addresses, IpNumber),
}

/// What became of a fragment.
#[derive(Clone, Copy, Debug, PartialEq, Eq)]
pub enum FragmentState {
    /// Its datagram waits for others.
    Waits,
    /// It completes its datagram.
    Completes,
    /// It is refused.
    Refused,
}

impl Outline {
    /// The outline of a packet.
    pub fn of(dissection: &Dissection<'_>) -> Outline
        ensures { result ≡ outline_of dissection.now }
    {
        Outline {
            number: dissection.number,
            time: dissection.time,
            len: dissection.len,
            captured_len: dissection.captured_len,
            wire_len: dissection.wire_len,
            headers: Headers::of(dissection),
            refusal: refusal_of(dissection),
            fragment: fragment_state_of(&dissection.fragment),
            verdict: dissection.verdict,
        }
    }

    /// Whether fewer of its bytes were captured than were on the wire.
    pub(crate) fn is_cut(&self) -> bool
        ensures { result ≡ is_cut self.now.captured_len self.now.wire_len }
    {
        self.captured_len < self.wire_len as usize
    }

    /// Whether it is refused and wasn't cut.
    pub(crate) fn is_left_out(&self) -> bool
        ensures { result ≡ is_left_out self.now }
    {
        self.refusal.is_some() && !self.is_cut()
    }

    /// Whether it isn't such a packet, and has no IP header.
    pub(crate) fn is_without_ip(&self) -> bool
        ensures { result ≡ is_without_ip self.now }
    {
        !self.is_left_out() && self.headers.addresses().is_none()
    }
}

/// Why a packet is refused: by its headers, as a fragment, or since the message that it completes
/// can't be read.
pub(crate) fn refusal_of(dissection: &Dissection<'_>) -> Option<Reason>
    ensures { result ≡ refusal_of dissection.now.layers dissection.now.fragment }
{
    match &dissection.layers {
        Err(error) => Some(Reason::of(*error)),
        Ok(_) => fragment_refusal(&dissection.fragment),
    }
}

fn fragment_refusal(fragment: &Option<Fragment>) -> Option<Reason>
    ensures { result ≡ fragment_refusal fragment.now }
{
    match fragment {
        Some(Fragment::Completes { message, .. }) => message_refusal(message),
        Some(Fragment::Refused { error, .. }) => Some(Reason::of_fragment(*error)),
        _ => None,
    }
}

fn message_refusal(message: &IpDefragPayloadVec) -> Option<Reason>
    ensures { result ≡ message_refusal
        (message_at message.now.ip_number.0 message.now.payload.items) }
{
    match read_message(message.ip_number, message.payload.as_slice()) {
        Ok(_) => None,
        Err(error) => Some(Reason::of(error)),
    }
}

fn fragment_state_of(fragment: &Option<Fragment>) -> Option<FragmentState>
    ensures { result ≡ fragment_state_of fragment.now }
{
    match fragment {
        Some(Fragment::Waits { .. }) => Some(FragmentState::Waits),
        Some(Fragment::Completes { .. }) => Some(FragmentState::Completes),
        Some(Fragment::Refused { .. }) => Some(FragmentState::Refused),
        None => None,
    }
}

impl Headers {
    /// The headers of a packet; of one that is refused those that are there.
    pub fn of(dissection: &Dissection<'_>) -> Headers
        ensures { result ≡ headers_of dissection.now.link dissection.now.layers
            (lax_layers_of dissection.now.header dissection.now.bytes) }
    {
        match &dissection.layers {
            Ok(packet) => Headers {
                ethernet: is_ethernet(dissection.link),
                vlan: has_vlan(packet),
                macsec: has_macsec(packet),
                net: net_of(packet),
            },
            Err(_) => Headers::lax(dissection.link, &dissection.lax_layers()),
        }
    }

    // Those that are there of a packet that is refused.
    fn lax(link: Link, layers: &Option<LaxSlicedPacket<'_>>) -> Headers
        ensures { result ≡ lax_headers_of link layers.now }
    {
        let ethernet = is_ethernet(link);
        match layers {
            Some(packet) => Headers {
                ethernet,
                vlan: has_lax_vlan(packet),
                macsec: has_lax_macsec(packet),
                net: lax_net_of(&packet.net),
            },
            None => Headers {
                ethernet,
                vlan: false,
                macsec: false,
                net: None,
            },
        }
    }

    /// The addresses of an IP packet.
    pub fn addresses(&self) -> Option<Addresses>
        ensures { result ≡ net_addresses self.now.net }
    {
        match self.net {
            Some(Net::Ip(addresses, _)) => Some(addresses),
            _ => None,
        }
    }

    /// The protocol that an IP packet carries.
    pub fn carried(&self) -> Option<IpNumber>
        ensures { result ≡ net_number self.now.net }
    {
        match self.net {
            Some(Net::Ip(_, number)) => Some(number),
            _ => None,
        }
    }

    /// Whether there is a header of this protocol.
    pub fn has(&self, protocol: Protocol) -> bool
        ensures { result ≡ has_header self.now protocol }
    {
        match protocol {
            Protocol::Ethernet => self.ethernet,
            Protocol::Vlan => self.vlan,
            Protocol::Macsec => self.macsec,
            Protocol::Arp => matches!(self.net, Some(Net::Arp)),
            Protocol::Ipv4 => matches!(self.net, Some(Net::Ip(Addresses::V4 { .. }, _))),
            Protocol::Ipv6 => matches!(self.net, Some(Net::Ip(Addresses::V6 { .. }, _))),
            Protocol::OverIp(number) => match self.net {
                Some(Net::Ip(_, carried)) => carried == number,
                _ => false,
            },
        }
    }
}

fn is_ethernet(link: Link) -> bool
    ensures { result ≡ is_ethernet link }
{
    matches!(link, Link::Ethernet)
}

fn has_vlan(packet: &SlicedPacket<'_>) -> bool
    ensures { result ≡ list_any is_vlan packet.now.link_exts.items }
{
    packet
        .link_exts
        .as_slice()
        .iter()
        .any(|tag| matches!(tag, LinkExtSlice::Vlan(_)))
}

fn has_macsec(packet: &SlicedPacket<'_>) -> bool
    ensures { result ≡ list_any is_macsec packet.now.link_exts.items }
{
    packet
        .link_exts
        .as_slice()
        .iter()
        .any(|tag| matches!(tag, LinkExtSlice::Macsec(_)))
}

fn net_of(packet: &SlicedPacket<'_>) -> Option<Net>
    ensures { result ≡ net_of packet.now.net }
{
    match &packet.net {
        Some(NetSlice::Ipv4(packet)) => {
            let addresses = Addresses::V4 {
                source: packet.header().source(),
                destination: packet.header().destination(),
            };
            Some(Net::Ip(addresses, packet.payload_ip_number()))
        }
        Some(NetSlice::Ipv6(packet)) => {
            let addresses = Addresses::V6 {
                source: packet.header().source(),
                destination: packet.header().destination(),
            };
            Some(Net::Ip(addresses, packet.payload_ip_number()))
        }
        Some(NetSlice::Arp(_)) => Some(Net::Arp),
        None => None,
    }
}

fn has_lax_vlan(packet: &LaxSlicedPacket<'_>) -> bool
    ensures { result ≡ list_any is_lax_vlan packet.now.link_exts.items }
{
    packet
        .link_exts
        .as_slice()
        .iter()
        .any(|tag| matches!(tag, LaxLinkExtSlice::Vlan(_)))
}

fn has_lax_macsec(packet: &LaxSlicedPacket<'_>) -> bool
    ensures { result ≡ list_any is_lax_macsec packet.now.link_exts.items }
{
    packet
        .link_exts
        .as_slice()
        .iter()
        .any(|tag| matches!(tag, LaxLinkExtSlice::Macsec(_)))
}

/// What is there of the network layer.
pub(crate) fn lax_net_of(net: &Option<LaxNetSlice<'_>>) -> Option<Net>
    ensures { result ≡ lax_net_of net.now }
{
    match net {
        Some(LaxNetSlice::Ipv4(packet)) => {
            let header = packet.header();
            let addresses = Addresses::V4 {
                source: header.source(),
                destination: header.destination(),
            };
            Some(Net::Ip(addresses, packet.payload_ip_number()))
        }
        Some(LaxNetSlice::Ipv6(packet)) => {
            let header = packet.header();
            let addresses = Addresses::V6 {
                source: header.source(),
                destination: header.destination(),
            };
            Some(Net::Ip(addresses, packet.payload_ip_number()))
        }
        Some(LaxNetSlice::Arp(_)) => Some(Net::Arp),
        None => None,
    }
}
