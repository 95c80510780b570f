//! A link header and the tags after it, as fields and numbers.
ghost use Rattle.std.specs.Prelude.{◌≡◌, ◌+◌, ◌≤◌};
ghost use Rattle.std.specs.List.{slice_get};
ghost use Rattle.etherparse_structs.specs.Link.{ethernet_struct, len_of, link_struct, macsec_struct, no_link, no_tag};
ghost use Rattle.etherparse_structs.specs.Link.{sll_struct, tag_struct, tags_end, tags_struct, vlan_struct, whole_tag_in};

use crate::EpPart;
use etherparse::{
    Ethernet2Slice, LaxLinkExtSlice, LinkExtSlice, LinkSlice, LinuxSllSlice, MacsecHeaderSlice,
    SingleVlanSlice,
};

/// A link header. The fields of other kinds are 0.
#[repr(C)]
#[derive(Drop)]
pub struct EpLink {
    /// 0 none, 1 Ethernet II, 2 a Linux cooked capture.
    pub kind: u32,
    /// The ether type; in a cooked capture the protocol's number, whatever its kind.
    pub protocol: u16,
    /// Of Ethernet II.
    pub destination: [u8; 6],
    /// Of Ethernet II.
    pub source: [u8; 6],
    /// Of a cooked capture: 0 to us, 1 broadcast, 2 multicast, 3 to others, 4 from us.
    pub packet_type: u16,
    /// Of a cooked capture: the hardware type (ARPHRD).
    pub hardware_type: u16,
    /// Of a cooked capture: how many bytes of the address are the sender's, as it states it.
    pub address_len: u16,
    /// Of a cooked capture: the sender's address, and bytes without meaning after it.
    pub address: [u8; 8],
}

/// A tag between link header and packet. The fields of other kinds are 0.
#[repr(C)]
#[derive(Drop)]
pub struct EpTag {
    /// Where the tag itself is.
    pub header: EpPart,
    /// 0 none, 1 VLAN, 2 MACsec.
    pub kind: u32,
    /// The ether type of what follows, 0 where a changed or encrypted MACsec payload follows.
    pub ether_type: u16,
    /// Of VLAN: the identifier.
    pub vlan_id: u16,
    /// Of VLAN: the priority code point.
    pub priority: u8,
    /// Of VLAN: whether the frame may be dropped first.
    pub drop_eligible: bool,
    /// Of MACsec: bit ES.
    pub end_station: bool,
    /// Of MACsec: bit SCB.
    pub single_copy_broadcast: bool,
    /// Of MACsec: bit E.
    pub encrypted: bool,
    /// Of MACsec: bit C.
    pub changed: bool,
    /// Of MACsec: whether a channel identifier is there.
    pub has_channel: bool,
    /// Of MACsec: the association number.
    pub association: u8,
    /// Of MACsec: the short length.
    pub short_len: u8,
    /// Of MACsec: the packet number.
    pub packet_number: u32,
    /// Of MACsec: the secure channel identifier.
    pub channel: u64,
}

pub(crate) fn link_struct(link: &Option<LinkSlice<'_>>) -> EpLink
    ensures { result ≡ link_struct link.now }
{
    match link {
        Some(LinkSlice::Ethernet2(frame)) => ethernet_struct(frame),
        Some(LinkSlice::LinuxSll(packet)) => sll_struct(packet),
        _ => no_link(),
    }
}

fn no_link() -> EpLink
    ensures { result ≡ no_link }
{
    EpLink {
        kind: 0,
        protocol: 0,
        destination: [0; 6],
        source: [0; 6],
        packet_type: 0,
        hardware_type: 0,
        address_len: 0,
        address: [0; 8],
    }
}

fn ethernet_struct(frame: &Ethernet2Slice<'_>) -> EpLink
    ensures { result ≡ ethernet_struct frame.now }
{
    EpLink {
        kind: 1,
        protocol: frame.ether_type().0,
        destination: frame.destination(),
        source: frame.source(),
        ..no_link()
    }
}

fn sll_struct(packet: &LinuxSllSlice<'_>) -> EpLink
    ensures { result ≡ sll_struct packet.now }
{
    EpLink {
        kind: 2,
        protocol: u16::from(packet.protocol_type()),
        packet_type: packet.packet_type().value(),
        hardware_type: packet.arp_hrd_type().0,
        address_len: packet.sender_address_valid_length(),
        address: packet.sender_address(),
        ..no_link()
    }
}

/// The tags from this offset on, and where they end.
pub(crate) fn tags_struct(place: usize, tags: &[LinkExtSlice<'_>]) -> ([EpTag; 3], usize)
    requires { place ≤ 16 }
    ensures tags { result.0 ≡ tags_struct place (whole_tag_in tags.now) }
    ensures end { result.1 ≡ tags_end place (whole_tag_in tags.now) }
    ensures most { result.1 ≤ 64 }
{
    let (first, second_offset) = tag_struct(place, tags, 0);
    let (second, third_offset) = tag_struct(second_offset, tags, 1);
    let (third, end) = tag_struct(third_offset, tags, 2);
    ([first, second, third], end)
}

/// The same of tags after which bytes may be missing.
pub(crate) fn lax_tags_struct(place: usize, tags: &[LaxLinkExtSlice<'_>]) -> ([EpTag; 3], usize)
    requires { place ≤ 16 }
    ensures tags { result.0 ≡ tags_struct place (slice_get tags.now) }
    ensures end { result.1 ≡ tags_end place (slice_get tags.now) }
    ensures most { result.1 ≤ 64 }
{
    let (first, second_offset) = lax_tag_struct(place, tags, 0);
    let (second, third_offset) = lax_tag_struct(second_offset, tags, 1);
    let (third, end) = lax_tag_struct(third_offset, tags, 2);
    ([first, second, third], end)
}

// The tag of this index, if there is one, at this offset, and where it ends.
fn tag_struct(place: usize, tags: &[LinkExtSlice<'_>], index: usize) -> (EpTag, usize)
    requires { place ≤ 48 }
    ensures tag { result.0 ≡ tag_struct place (whole_tag_in tags.now index) }
    ensures end { result.1 ≡ place + len_of (whole_tag_in tags.now index) }
    ensures most { result.1 ≤ place + 16 }
{
    match tags.get(index) {
        None => (no_tag(), place),
        Some(LinkExtSlice::Vlan(tag)) => (vlan_struct(place, tag), place + tag.header_len()),
        Some(LinkExtSlice::Macsec(macsec)) => {
            let end = place + macsec.header.header_len();
            (macsec_struct(place, &macsec.header), end)
        }
    }
}

fn lax_tag_struct(place: usize, tags: &[LaxLinkExtSlice<'_>], index: usize) -> (EpTag, usize)
    requires { place ≤ 48 }
    ensures tag { result.0 ≡ tag_struct place (slice_get tags.now index) }
    ensures end { result.1 ≡ place + len_of (slice_get tags.now index) }
    ensures most { result.1 ≤ place + 16 }
{
    match tags.get(index) {
        None => (no_tag(), place),
        Some(LaxLinkExtSlice::Vlan(tag)) => (vlan_struct(place, tag), place + tag.header_len()),
        Some(LaxLinkExtSlice::Macsec(macsec)) => {
            let end = place + macsec.header.header_len();
            (macsec_struct(place, &macsec.header), end)
        }
    }
}

pub(crate) fn no_tag() -> EpTag
    ensures { result ≡ no_tag }
{
    EpTag {
        header: EpPart::none(),
        kind: 0,
        ether_type: 0,
        vlan_id: 0,
        priority: 0,
        drop_eligible: false,
        end_station: false,
        single_copy_broadcast: false,
        encrypted: false,
        changed: false,
        has_channel: false,
        association: 0,
        short_len: 0,
        packet_number: 0,
        channel: 0,
    }
}

fn vlan_struct(place: usize, tag: &SingleVlanSlice<'_>) -> EpTag
    ensures { result ≡ vlan_struct place tag.now }
{
    EpTag {
        header: EpPart {
            offset: place,
            len: tag.header_len(),
        },
        kind: 1,
        ether_type: tag.ether_type().0,
        vlan_id: tag.vlan_identifier().value(),
        priority: tag.priority_code_point().value(),
        drop_eligible: tag.drop_eligible_indicator(),
        ..no_tag()
    }
}

fn macsec_struct(place: usize, header: &MacsecHeaderSlice<'_>) -> EpTag
    ensures { result ≡ macsec_struct place header.now }
{
    let ether_type = match header.next_ether_type() {
        Some(ether_type) => ether_type.0,
        None => 0,
    };
    EpTag {
        header: EpPart::of(place, header.slice()),
        kind: 2,
        ether_type,
        end_station: header.endstation_id(),
        single_copy_broadcast: header.scb(),
        encrypted: header.encrypted(),
        changed: header.userdata_changed(),
        has_channel: header.sci_present(),
        association: header.an().value(),
        short_len: header.short_len().value(),
        packet_number: header.packet_nr(),
        channel: header.sci().unwrap_or(0),
        ..no_tag()
    }
}
