//! Laws of frames and packets whose IP packet was built.
ghost use Rattle.std.specs.Prelude.{◌≡◌, ◌≤◌, ◌++◌, ℕ, true, false, List, [], ◌∷◌, length, Option, None, Some, Ok, Err};
ghost use Rattle.std.specs.Prelude.{IsErr};
ghost use Rattle.ep_ext.specs.Chain.{Row};
ghost use Rattle.ep_ext.specs.Link.{all_slots, first_named, pieces_in, with_links};
ghost use Rattle.ep_ext.specs.Slot.{slot_of};
ghost use Rattle.ep_ip.specs.Ipv4 as ipv4;
ghost use Rattle.ep_ip.specs.Ipv6 as ipv6;
ghost use Rattle.ep_ipslice.specs.Packet.{FragmentFields};
ghost use Rattle.ep_link.specs.Ethernet as ethernet;
ghost use Rattle.ep_link.specs.Sll.{greatest_packet_type};
ghost use Rattle.ep_link.specs.declared.link.ethernet2_header.Ethernet2Header.{Ethernet2Header};
ghost use Rattle.ep_packet.specs.Class.{class_of, sliced_class};
ghost use Rattle.ep_packet.specs.Class.Class.{Cut, Refused, Whole};
ghost use Rattle.ep_packet.specs.Examples.{eight_bytes, frame_addresses, ipv4_addresses, ipv6_fragment_frame};
ghost use Rattle.ep_packet.specs.Examples.{ipv6_destination, ipv6_source};
ghost use Rattle.ep_packet.specs.IpHeaders.{is_fragmenting};
ghost use Rattle.ep_packet.specs.Readable.{ReadMessage, message_at};
ghost use Rattle.ep_packet.specs.declared.addresses.Addresses.TheVariants.{V6};
ghost use Rattle.ep_packet.specs.declared.err.packet.slice_error.SliceError.{SliceError};
ghost use Rattle.ep_packet.specs.declared.net.ip_headers.IpHeaders.{IpHeaders};
ghost use Rattle.ep_tag.specs.Vlan as vlan;
ghost use Rattle.ep_tag.specs.declared.link.vlan_header.VlanHeader.{VlanHeader};
ghost use Rattle.etherparse.specs.Built.{packet_with_number};
ghost use Rattle.etherparse.specs.BuiltFrameExamples.{ipv4_part, ipv6_part, link_at_literals, two_tags};
ghost use Rattle.etherparse.specs.BuiltFrames.{AuthFits, CookedPackets, FragmentFits, Frames, IpFits, NamesNone};
ghost use Rattle.etherparse.specs.BuiltFrames.{Packets, TagsFit, addresses_in, after_cooked, fields_in};
ghost use Rattle.etherparse.specs.BuiltFrames.{ethernet_packet, ids_in, fragment_with, without_link};

use super::builder::{ipv4_address_is_whole, ipv6_address_is_whole};
use ep_base::IpNumber;
use ep_ext::{IpAuthHeader, Ipv6Extensions, Ipv6FragmentHeader};
use ep_ip::{Ipv4Header, Ipv6Header};
use ep_link::{Ethernet2Header, LinuxSllPacketType};
use ep_packet::err::packet::SliceError;
use ep_packet::{IpHeaders, SlicedPacket};
use ep_tag::{SingleVlanHeader, VlanHeader};

/// A frame whose IP packet the builder wrote, after at most two VLAN tags, is read as the payload
/// that it was given, under the number that was named last.
pub fn built_frames_are_read()
    // A message is whole where it can be read, and else the frame is refused.
    ensures whole { (link : Ethernet2Header) (vlan : Option VlanHeader) (ip : IpHeaders)
        (number : ℕ) (payload : List ℕ)
        → Frames link vlan ip number (length payload)
        → (read : ReadMessage) → is_fragmenting ip ≡ false → message_at number payload ≡ Ok read
        → class_of (packet_with_number (ethernet_packet link vlan ip) number payload)
        ≡ Whole (addresses_in ip) number payload read }
    ensures refused { (link : Ethernet2Header) (vlan : Option VlanHeader) (ip : IpHeaders)
        (number : ℕ) (payload : List ℕ)
        → Frames link vlan ip number (length payload)
        → (e : SliceError) → is_fragmenting ip ≡ false → message_at number payload ≡ Err e
        → class_of (packet_with_number (ethernet_packet link vlan ip) number payload) ≡ Refused }
    // Where the headers mark a fragment it is that fragment.
    ensures as_fragment { (link : Ethernet2Header) (vlan : Option VlanHeader) (ip : IpHeaders)
        (number : ℕ) (payload : List ℕ)
        → Frames link vlan ip number (length payload)
        → (stated : FragmentFields) → is_fragmenting ip ≡ true → fields_in ip ≡ Some stated
        → class_of (packet_with_number (ethernet_packet link vlan ip) number payload)
        ≡ fragment_with vlan ip number payload stated }
{
    ep_ext::laws::whole_header_is_found();
    ep_ext::laws::row_ends_where_none_is_taken();
    ep_ipslice::laws::rows_are_found();
}

/// So `SlicedPacket` slices the frame that was built to the number and the payload, or to the
/// fragment, and refuses it where the payload is no message of its number.
pub fn built_frames_are_sliced(frame: &[u8]) -> Result<SlicedPacket<'_>, SliceError>
    ensures whole { (link : Ethernet2Header) (vlan : Option VlanHeader) (ip : IpHeaders)
        (number : ℕ) (payload : List ℕ)
        → Frames link vlan ip number (length payload)
        → frame.now ≡ packet_with_number (ethernet_packet link vlan ip) number payload
        → (read : ReadMessage) → is_fragmenting ip ≡ false → message_at number payload ≡ Ok read
        → sliced_class result ≡ Whole (addresses_in ip) number payload read }
    ensures refused { (link : Ethernet2Header) (vlan : Option VlanHeader) (ip : IpHeaders)
        (number : ℕ) (payload : List ℕ)
        → Frames link vlan ip number (length payload)
        → frame.now ≡ packet_with_number (ethernet_packet link vlan ip) number payload
        → (e : SliceError) → is_fragmenting ip ≡ false
        → message_at number payload ≡ Err e → IsErr result }
    ensures as_fragment { (link : Ethernet2Header) (vlan : Option VlanHeader) (ip : IpHeaders)
        (number : ℕ) (payload : List ℕ)
        → Frames link vlan ip number (length payload)
        → frame.now ≡ packet_with_number (ethernet_packet link vlan ip) number payload
        → (stated : FragmentFields) → is_fragmenting ip ≡ true → fields_in ip ≡ Some stated
        → sliced_class result ≡ fragment_with vlan ip number payload stated }
{
    built_frames_are_read();
    SlicedPacket::from_ethernet(frame)
}

/// So is a packet that was built with no link header, which `SlicedPacket::from_ip` slices.
pub fn built_packets_are_sliced(packet: &[u8]) -> Result<SlicedPacket<'_>, SliceError>
    ensures whole { (ip : IpHeaders) (number : ℕ) (payload : List ℕ)
        → Packets ip number (length payload) → packet.now ≡ packet_with_number (without_link ip)
        number payload
        → (read : ReadMessage) → is_fragmenting ip ≡ false → message_at number payload ≡ Ok read
        → sliced_class result ≡ Whole (addresses_in ip) number payload read }
    ensures refused { (ip : IpHeaders) (number : ℕ) (payload : List ℕ)
        → Packets ip number (length payload) → packet.now ≡ packet_with_number (without_link ip)
        number payload
        → (e : SliceError) → is_fragmenting ip ≡ false
        → message_at number payload ≡ Err e → IsErr result }
    ensures as_fragment { (ip : IpHeaders) (number : ℕ) (payload : List ℕ)
        → Packets ip number (length payload) → packet.now ≡ packet_with_number (without_link ip)
        number payload
        → (stated : FragmentFields) → is_fragmenting ip ≡ true → fields_in ip ≡ Some stated
        → sliced_class result ≡ fragment_with None ip number payload stated }
{
    built_frames_are_read();
    SlicedPacket::from_ip(packet)
}

/// And so is one after the header of a cooked capture, as `PacketBuilder::linux_sll` writes it, and
/// at most two VLAN tags.
pub fn built_cooked_packets_are_sliced(packet: &[u8]) -> Result<SlicedPacket<'_>, SliceError>
    ensures whole { (packet_type address_len : ℕ) (address : List ℕ) (vlan : Option VlanHeader)
        (ip : IpHeaders) (number : ℕ) (payload : List ℕ)
        → CookedPackets packet_type address vlan ip number (length payload)
        → packet.now ≡ packet_with_number (after_cooked packet_type address_len address vlan ip)
        number payload
        → (read : ReadMessage) → is_fragmenting ip ≡ false → message_at number payload ≡ Ok read
        → sliced_class result ≡ Whole (addresses_in ip) number payload read }
    ensures refused { (packet_type address_len : ℕ) (address : List ℕ) (vlan : Option VlanHeader)
        (ip : IpHeaders) (number : ℕ) (payload : List ℕ)
        → CookedPackets packet_type address vlan ip number (length payload)
        → packet.now ≡ packet_with_number (after_cooked packet_type address_len address vlan ip)
        number payload
        → (e : SliceError) → is_fragmenting ip ≡ false
        → message_at number payload ≡ Err e → IsErr result }
    ensures as_fragment { (packet_type address_len : ℕ) (address : List ℕ) (vlan : Option VlanHeader)
        (ip : IpHeaders) (number : ℕ) (payload : List ℕ)
        → CookedPackets packet_type address vlan ip number (length payload)
        → packet.now ≡ packet_with_number (after_cooked packet_type address_len address vlan ip)
        number payload
        → (stated : FragmentFields) → is_fragmenting ip ≡ true → fields_in ip ≡ Some stated
        → sliced_class result ≡ fragment_with vlan ip number payload stated }
{
    built_frames_are_read();
    SlicedPacket::from_linux_sll(packet)
}

/// Whatever headers there are: their fields are in their ranges, and linked extension headers lead
/// to the number that is named last.
pub fn headers_fit(link: Ethernet2Header, vlan: Option<VlanHeader>, ip: IpHeaders, number: IpNumber)
    ensures link { ethernet.Fits link }
    ensures tags { TagsFit vlan }
    ensures ip { IpFits ip number.0 }
{
    ethernet_fits(&link);
    tags_fit(&vlan);
    ip_fits(ip, number);
}

/// So are those of the header of a cooked capture, as `PacketBuilder::linux_sll` writes it.
pub fn cooked_header_fits(packet_type: LinuxSllPacketType, sender_address: [u8; 8])
    ensures packet_type { packet_type ≤ greatest_packet_type }
    ensures address { length sender_address ≡ 8 }
{
    let _packet_type = packet_type.value();
    let _sender_address = sender_address[7];
}

fn ethernet_fits(header: &Ethernet2Header)
    ensures { ethernet.Fits header.now }
{
    let _source = header.source[5];
    let _destination = header.destination[5];
    let _ether_type = header.ether_type.0;
}

fn tags_fit(tags: &Option<VlanHeader>)
    ensures { TagsFit tags.now }
{
    match tags {
        None => {}
        Some(VlanHeader::Single(tag)) => tag_fits(tag),
        Some(VlanHeader::Double(tags)) => {
            tag_fits(&tags.outer);
            tag_fits(&tags.inner);
        }
    }
}

fn tag_fits(tag: &SingleVlanHeader)
    ensures { vlan.Fits tag.now }
{
    let _priority = tag.pcp.value();
    let _identifier = tag.vlan_id.value();
    let _ether_type = tag.ether_type.0;
}

fn ip_fits(ip: IpHeaders, number: IpNumber)
    ensures { IpFits ip number.0 }
{
    match ip {
        IpHeaders::Ipv4(header, extensions) => {
            ipv4_fits(&header);
            auth_fits(&extensions.auth);
        }
        IpHeaders::Ipv6(header, extensions) => {
            ipv6_fits(&header);
            fragment_fits(&extensions.fragment);
            extensions_lead(extensions, number);
        }
    }
}

fn ipv4_fits(header: &Ipv4Header)
    ensures { ipv4.Fits header.now }
{
    let _dscp = header.dscp.value();
    let _total_len = header.total_len;
    let _identification = header.identification;
    let _offset = header.fragment_offset.value();
    let _checksum = header.header_checksum;
    ipv4_address_is_whole(header.source);
    ipv4_address_is_whole(header.destination);
    let _options = header.options.as_slice();
}

fn auth_fits(auth: &Option<IpAuthHeader>)
    ensures { AuthFits auth.now }
{
    if let Some(header) = auth {
        ep_ext::laws::headers::auth_headers_are_their_bytes(header);
    }
}

fn ipv6_fits(header: &Ipv6Header)
    ensures { ipv6.Fits header.now }
{
    let _class = header.traffic_class;
    let _label = header.flow_label.value();
    let _len = header.payload_length;
    ipv6_address_is_whole(header.source);
    ipv6_address_is_whole(header.destination);
}

fn fragment_fits(fragment: &Option<Ipv6FragmentHeader>)
    ensures { FragmentFits fragment.now }
{
    if let Some(header) = fragment {
        ep_ext::laws::headers::fragment_headers_are_their_bytes(header);
    }
}

fn extensions_lead(extensions: Ipv6Extensions, number: IpNumber)
    ensures { Row slot_of [] (first_named extensions all_slots number.0)
        (pieces_in (with_links extensions number.0) all_slots) number.0 }
{
    let mut linked = extensions;
    linked.set_next_headers(number);
}

/// Frames of literal bytes: eight bytes of UDP from byte 24 on after tags of identifiers 5, of
/// priority 1, and 9, over IPv4; and from byte 8 on over IPv6, after a fragment header.
#[tactic(auto, unfolding(ep_base::specs::Sum::total, ep_base::specs::Sum::fold))]
pub fn fragments_at_literals()
    ensures ipv4 { packet_with_number (ethernet_packet link_at_literals two_tags ipv4_part) 17
        eight_bytes
        ≡ frame_addresses ++ 0x88 ∷ 0xa8 ∷ 0x20 ∷ 5 ∷ 0x81 ∷ 0 ∷ 0 ∷ 9 ∷ 8 ∷ 0
        ∷ 0x45 ∷ 0 ∷ 0 ∷ 28 ∷ 1 ∷ 2 ∷ 0x20 ∷ 3 ∷ 64 ∷ 17 ∷ 0x45 ∷ 0xca ∷ 10 ∷ 0 ∷ 0 ∷ 1 ∷ 10 ∷
        0 ∷ 0 ∷ 2 ∷ eight_bytes }
    ensures ipv6 { packet_with_number (ethernet_packet link_at_literals None ipv6_part) 17 eight_bytes
        ≡ ipv6_fragment_frame }
{}

/// Their headers are such as a builder writes, before 65515 bytes over IPv4 at most.
pub fn fragments_are_written()
    ensures ipv4 { Frames link_at_literals two_tags ipv4_part 17 8 }
    ensures longest { Frames link_at_literals two_tags ipv4_part 17 65515 }
    ensures too_long { Frames link_at_literals two_tags ipv4_part 17 65516 → ⊥ }
    ensures ipv6 { Frames link_at_literals None ipv6_part 17 8 }
    ensures alone { Packets ipv4_part 17 8 × Packets ipv6_part 17 8 }
    ensures cooked { CookedPackets 4 (2 ∷ 0 ∷ 0 ∷ 0 ∷ 0 ∷ 1 ∷ 0 ∷ 0 ∷ []) two_tags ipv4_part 17 8 }
{}

/// What their headers state.
pub fn fragments_stated_at_literals()
    ensures no_ids { ids_in None ≡ [] }
    ensures ids { ids_in two_tags ≡ 5 ∷ 9 ∷ [] }
    ensures ipv4_addresses { addresses_in ipv4_part ≡ ipv4_addresses }
    ensures ipv6_addresses { addresses_in ipv6_part ≡ V6 ipv6_source ipv6_destination }
    ensures ipv4_fields { fields_in ipv4_part
        ≡ Some (record { identification = 0x102; offset = 3; more = true }) }
    ensures ipv6_fields { fields_in ipv6_part
        ≡ Some (record { identification = 0x1020304; offset = 1; more = true }) }
    ensures as_fragment { fragment_with two_tags ipv4_part 17 eight_bytes
        (record { identification = 0x102; offset = 3; more = true })
        ≡ Cut (record {
          vlan_ids = 5 ∷ 9 ∷ [];
          addresses = ipv4_addresses;
          identification = 0x102;
          number = 17;
        }) 3 true eight_bytes }
    ensures udp { NamesNone ipv4_part 17 × NamesNone ipv6_part 17 }
    ensures fragment_header { NamesNone ipv4_part 44 × (NamesNone ipv6_part 44 → ⊥) }
    ensures auth { (NamesNone ipv4_part 51 → ⊥) × (NamesNone ipv6_part 51 → ⊥) }
{}
