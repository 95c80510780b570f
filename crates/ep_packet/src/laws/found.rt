//! Laws that say what is found in bytes: the layers of a packet, and headers as values.
ghost use Rattle.std.specs.Prelude.{◌≡◌, ◌≤◌, ◌↔◌, ℕ, List, length, IfSome, IsErr, Ok, Some};
ghost use Rattle.ep_base.specs.declared.link.ether_type.EtherType.{EtherType};
ghost use Rattle.ep_ipslice.specs.Packet.{IpPayload};
ghost use Rattle.ep_link.specs.Ethernet.{ethernet_len, payload_of};
ghost use Rattle.ep_link.specs.Frame.{without_fcs};
ghost use Rattle.ep_link.specs.SllPayload.{named_payload, payload_of as sll_payload_of};
ghost use Rattle.ep_link.specs.declared.link.link_slice.LinkSlice.TheVariants as link;
ghost use Rattle.ep_packet.specs.Class.{class_of};
ghost use Rattle.ep_packet.specs.Class.Class.{Refused};
ghost use Rattle.ep_packet.specs.IpHeadersAt.{ip_headers_at, ipv4_headers_at, ipv6_headers_at};
ghost use Rattle.ep_packet.specs.ReadIpHeaders.{IsIpHeaders, IsIpv4Headers, IsIpv6Headers};
ghost use Rattle.ep_packet.specs.Sliced.{IsSliced, IsSlicedIp, ether_payload, sliced_ether_type, sliced_ethernet};
ghost use Rattle.ep_packet.specs.Sliced.{sliced_ip, sliced_linux_sll};
ghost use Rattle.ep_packet.specs.declared.net.ip_headers.IpHeaders.{IpHeaders};
ghost use Rattle.ep_packet.specs.declared.sliced_packet.SlicedPacket.{SlicedPacket};

use ep_ipslice::laws::{packets_are_their_parts, rows_are_found};
use ep_tag::laws::macsec::payloads_are_found;

/// A packet is found in an Ethernet II frame, or in the bytes after an ether type, exactly if it has
/// their link header, the tags and layers that follow are those there, and the link header is whole.
/// The tags and layers of a packet of a cooked capture are those after its header, if its protocol
/// is an ether type.
pub fn packets_are_their_layers()
    ensures ethernet { (frame : List ℕ) (packet : SlicedPacket)
        → (sliced_ethernet frame ≡ Ok packet)
        ↔ ((ethernet_len ≤ length frame) × (packet.link ≡ Some (link.Ethernet2 (without_fcs frame)))
        × IsSliced (payload_of frame) packet) }
    ensures linux_sll { (bytes : List ℕ) (packet : SlicedPacket)
        → sliced_linux_sll bytes ≡ Ok packet
        → IfSome (named_payload (sll_payload_of bytes)) (λ p. IsSliced p packet) }
    ensures ether_type { (t : EtherType) (bytes : List ℕ) (packet : SlicedPacket)
        → (sliced_ether_type t bytes ≡ Ok packet)
        ↔ ((packet.link ≡ Some (link.EtherPayload (ether_payload t bytes)))
        × IsSliced (ether_payload t bytes) packet) }
{
    payloads_are_found();
}

/// An IP packet with no link header is found exactly if the bytes begin with it, and the message is
/// the one in its payload.
pub fn ip_packets_are_their_layers()
    ensures { (bytes : List ℕ) (packet : SlicedPacket) → (sliced_ip bytes ≡ Ok packet)
        ↔ IsSlicedIp bytes packet }
{
    packets_are_their_parts();
}

/// A frame has the class `Refused` exactly if no packet is found in it.
pub fn frames_without_packet_are_refused()
    ensures { (frame : List ℕ) → IsErr (sliced_ethernet frame) ↔ (class_of frame ≡ Refused) }
{}

/// IP headers as values and a payload are found exactly if the bytes begin with them.
pub fn ip_headers_are_their_parts()
    ensures ipv4 { (bytes : List ℕ) (headers : IpHeaders) (payload : IpPayload)
        → (ipv4_headers_at bytes ≡ Ok (headers, payload)) ↔ IsIpv4Headers bytes headers payload }
    ensures ipv6 { (bytes : List ℕ) (headers : IpHeaders) (payload : IpPayload)
        → (ipv6_headers_at bytes ≡ Ok (headers, payload)) ↔ IsIpv6Headers bytes headers payload }
    ensures ip { (bytes : List ℕ) (headers : IpHeaders) (payload : IpPayload)
        → (ip_headers_at bytes ≡ Ok (headers, payload)) ↔ IsIpHeaders bytes headers payload }
{
    packets_are_their_parts();
    rows_are_found();
}
