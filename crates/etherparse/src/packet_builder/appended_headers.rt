//! Headers appended to a packet, with the ether types and IP numbers that name what follows each.

ghost use Rattle.std.specs.Prelude.{◌≡◌, ◌+◌, ◌≤◌, ◌++◌, length, vec_len, vec_capacity};
ghost use Rattle.ep_link.specs.Link.{link_len, link_encoding};
ghost use Rattle.ep_packet.specs.IpHeaders.{ip_headers_len};
ghost use Rattle.ep_packet.specs.Transport.{transport_len, transport_encoding};
ghost use Rattle.ep_packet.specs.declared.net.ip_headers.IpHeaders.TheVariants as headers;
ghost use Rattle.ep_tag.specs.VlanForms.{tags_encoding};
ghost use Rattle.etherparse.specs.Built.{bytes_if, first_type, ip_bytes, len_if, link_bytes, link_naming};
ghost use Rattle.etherparse.specs.Built.{with_last_number, tags_naming, vlan_bytes};

use ep_base::{EtherType, IpNumber};
use ep_ext::{Ipv4Extensions, Ipv6Extensions};
use ep_ip::{Ipv4Header, Ipv6Header};
use ep_link::LinkHeader;
use ep_packet::TransportHeader;
use ep_tag::VlanHeader;

// Each of these appends a part, for which there is capacity.

#[inline(always)]
pub(super) fn append_link(
    link: Option<LinkHeader>,
    vlan: &Option<VlanHeader>,
    ether_type: EtherType,
    buffer: &mut Vec<u8>,
)
    requires { vec_len buffer.old + len_if link_len link ≤ vec_capacity buffer.old }
    ensures items { buffer.new.items ≡ buffer.old.items ++ link_bytes link vlan.now ether_type.0 }
    ensures len { vec_len buffer.new ≡ vec_len buffer.old + len_if link_len link }
    ensures capacity { vec_capacity buffer.old ≤ vec_capacity buffer.new }
{
    if let Some(header) = link {
        append_link_naming(first_type(vlan, ether_type), header, buffer);
    }
}

#[inline(always)]
fn first_type(vlan: &Option<VlanHeader>, ether_type: EtherType) -> EtherType
    ensures { result.0 ≡ first_type vlan.now ether_type.0 }
{
    match vlan {
        None => ether_type,
        Some(VlanHeader::Single(_)) => EtherType::VLAN_TAGGED_FRAME,
        Some(VlanHeader::Double(_)) => EtherType::PROVIDER_BRIDGING,
    }
}

#[inline(always)]
fn append_link_naming(ether_type: EtherType, link: LinkHeader, buffer: &mut Vec<u8>)
    requires { vec_len buffer.old + link_len link ≤ vec_capacity buffer.old }
    ensures items { buffer.new.items ≡ buffer.old.items
        ++ link_encoding (link_naming ether_type.0 link) }
    ensures len { vec_len buffer.new ≡ vec_len buffer.old + link_len link }
    ensures capacity { vec_capacity buffer.old ≤ vec_capacity buffer.new }
{
    match link {
        LinkHeader::Ethernet2(mut header) => {
            header.ether_type = ether_type;
            header.write(buffer).unwrap();
        }
        LinkHeader::LinuxSll(mut header) => {
            header.protocol_type.change_value(ether_type.0);
            header.write(buffer).unwrap();
        }
    }
}

#[inline(always)]
pub(super) fn append_vlan(vlan: Option<VlanHeader>, ether_type: EtherType, buffer: &mut Vec<u8>)
    requires { vec_len buffer.old + len_if (λ t. length (tags_encoding t)) vlan
        ≤ vec_capacity buffer.old }
    ensures items { buffer.new.items ≡ buffer.old.items ++ vlan_bytes vlan ether_type.0 }
    ensures len { vec_len buffer.new ≡ vec_len buffer.old + len_if
        (λ t. length (tags_encoding t)) vlan }
    ensures capacity { vec_capacity buffer.old ≤ vec_capacity buffer.new }
{
    if let Some(tags) = vlan {
        append_tags(ether_type, tags, buffer);
    }
}

#[inline(always)]
fn append_tags(ether_type: EtherType, tags: VlanHeader, buffer: &mut Vec<u8>)
    requires { vec_len buffer.old + length (tags_encoding tags) ≤ vec_capacity buffer.old }
    ensures items { buffer.new.items ≡ buffer.old.items
        ++ tags_encoding (tags_naming ether_type.0 tags) }
    ensures len { vec_len buffer.new ≡ vec_len buffer.old + length (tags_encoding tags) }
    ensures capacity { vec_capacity buffer.old ≤ vec_capacity buffer.new }
{
    match tags {
        VlanHeader::Single(mut tag) => {
            tag.ether_type = ether_type;
            tag.write(buffer).unwrap();
        }
        VlanHeader::Double(mut tags) => {
            tags.outer.ether_type = EtherType::VLAN_TAGGED_FRAME;
            tags.inner.ether_type = ether_type;
            tags.write(buffer).unwrap();
        }
    }
}

pub(super) fn append_ipv4(
    header: &mut Ipv4Header,
    extensions: &mut Ipv4Extensions,
    number: IpNumber,
    buffer: &mut Vec<u8>,
)
    requires { vec_len buffer.old + ip_headers_len (headers.Ipv4 header.old extensions.old)
        ≤ vec_capacity buffer.old }
    ensures items { buffer.new.items ≡ buffer.old.items
        ++ ip_bytes (with_last_number (headers.Ipv4 header.old extensions.old) number.0) }
    ensures len { vec_len buffer.new ≡ vec_len buffer.old + ip_headers_len
        (headers.Ipv4 header.old extensions.old) }
    ensures capacity { vec_capacity buffer.old ≤ vec_capacity buffer.new }
{
    header.protocol = extensions.set_next_headers(number);
    header.write(buffer).unwrap();
    extensions.write(buffer, header.protocol).unwrap();
}

pub(super) fn append_ipv6(
    header: &mut Ipv6Header,
    extensions: &mut Ipv6Extensions,
    number: IpNumber,
    buffer: &mut Vec<u8>,
)
    requires { vec_len buffer.old + ip_headers_len (headers.Ipv6 header.old extensions.old)
        ≤ vec_capacity buffer.old }
    ensures items { buffer.new.items ≡ buffer.old.items
        ++ ip_bytes (with_last_number (headers.Ipv6 header.old extensions.old) number.0) }
    ensures len { vec_len buffer.new ≡ vec_len buffer.old + ip_headers_len
        (headers.Ipv6 header.old extensions.old) }
    ensures capacity { vec_capacity buffer.old ≤ vec_capacity buffer.new }
{
    header.next_header = extensions.set_next_headers(number);
    header.write(buffer).unwrap();
    extensions.write(buffer, header.next_header).unwrap();
}

#[inline(always)]
pub(super) fn append_transport(transport: &Option<TransportHeader>, buffer: &mut Vec<u8>)
    requires { vec_len buffer.old + len_if transport_len transport.now ≤ vec_capacity buffer.old }
    ensures items { buffer.new.items ≡ buffer.old.items
        ++ bytes_if transport_encoding transport.now }
    ensures len { vec_len buffer.new ≡ vec_len buffer.old + len_if transport_len transport.now }
    ensures capacity { vec_capacity buffer.old ≤ vec_capacity buffer.new }
{
    if let Some(header) = transport {
        header.write(buffer).unwrap();
    }
}
