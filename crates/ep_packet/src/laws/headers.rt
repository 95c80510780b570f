//! Laws that relate headers as values to views of packets.
ghost use Rattle.std.specs.Prelude.{◌≡◌, [], ◌∷◌, ◌++◌, true, false, Some, None};
ghost use Rattle.ep_base.specs.declared.len_source.LenSource.TheVariants as source;
ghost use Rattle.ep_ext.specs.Follow.{has_slot};
ghost use Rattle.ep_ext.specs.declared.net.ipv6_extensions.Ipv6Extensions.{Ipv6Extensions};
ghost use Rattle.ep_ip.specs.Ipv6.{ipv6_header_of};
ghost use Rattle.ep_ipslice.specs.Packet.{IpPayload, Ipv6Packet, IsIpv6Packet};
ghost use Rattle.ep_packet.specs.Examples.{eight_bytes, ipv6_destination, ipv6_header, ipv6_source, second_fragment};
ghost use Rattle.ep_packet.specs.ReadIpHeaders.{IsIpv6Headers};
ghost use Rattle.ep_packet.specs.declared.net.ip_headers.IpHeaders.{IpHeaders};
ghost use Rattle.ep_packet.specs.declared.net.ip_headers.IpHeaders.TheVariants as ip;

use ep_ipslice::laws;

/// Where the headers of an IPv6 packet as values end at a number that names no extension header,
/// they have the payload of the packet's view, and its header.
pub fn ipv6_headers_agree_with_view(slice: &[u8])
    ensures { (packet : Ipv6Packet) (headers : IpHeaders) (payload : IpPayload)
        → IsIpv6Packet slice.now packet
        → IsIpv6Headers slice.now headers payload → has_slot payload.ip_number.0 ≡ false
        → (payload ≡ packet.payload)
        × ((e : Ipv6Extensions) × (headers ≡ ip.Ipv6 (ipv6_header_of packet.header) e)) }
{
    laws::rows_in_slots_are_views();
    laws::ipv6_packet_is_alone(slice);
}

/// The headers of an IPv6 packet as values, with its payload: a header that names a fragment header,
/// one that names UDP, with offset 1 (8 bytes) and more fragments, the eight bytes that the payload
/// length leaves, and a byte of padding (RFC 8200, sections 3 and 4.5).
pub fn ipv6_headers_at_a_literal()
    ensures { IsIpv6Headers (ipv6_header 16 ++ second_fragment ++ eight_bytes ++ 0 ∷ [])
        (ip.Ipv6 (record {
          traffic_class = 0;
          flow_label = 0;
          payload_length = 16;
          next_header = record { 0 = 44 };
          hop_limit = 64;
          source = ipv6_source;
          destination = ipv6_destination;
        })
        (record {
          hop_by_hop_options = None;
          destination_options = None;
          routing = None;
          fragment = Some (record {
            next_header = record { 0 = 17 };
            fragment_offset = 1;
            more_fragments = true;
            identification = 16909060;
          });
          auth = None;
        }))
        (record {
          ip_number = record { 0 = 17 };
          fragmented = true;
          len_source = source.Ipv6HeaderPayloadLen;
          payload = eight_bytes;
        }) }
{}
