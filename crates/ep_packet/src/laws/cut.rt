//! Laws of packets of which only the first bytes are there.
ghost use Rattle.std.specs.Prelude.{◌≡◌, ◌≤◌, ℕ, List, [], ◌∷◌, ◌++◌, map, take, true, false, None, Some, Ok};
ghost use Rattle.std.specs.Prelude.{IsOkAnd};
ghost use Rattle.ep_base.specs.declared.len_source.LenSource.TheVariants as source;
ghost use Rattle.ep_base.specs.declared.link.ether_type.EtherType.{EtherType};
ghost use Rattle.ep_ipslice.specs.CutPackets.{cut_ipv4};
ghost use Rattle.ep_ipslice.specs.LaxPackets.{whole_ipv4};
ghost use Rattle.ep_link.specs.Link.{fields_of};
ghost use Rattle.ep_link.specs.declared.link.link_slice.LinkSlice.{LinkSlice};
ghost use Rattle.ep_packet.specs.CutPacket.{all_headers_len, cut_link, cut_packet, cut_tags, cut_transport};
ghost use Rattle.ep_packet.specs.CutPacket.{link_len, transport_len};
ghost use Rattle.ep_packet.specs.Examples.{ipv4_header, ipv4_packet, whole_frame, whole_layers};
ghost use Rattle.ep_packet.specs.KeptLayers.{KeepsLayers};
ghost use Rattle.ep_packet.specs.LaxSliced.{lax_sliced_ether_type, lax_sliced_ethernet, lax_sliced_ip};
ghost use Rattle.ep_packet.specs.LaxSliced.{lax_sliced_linux_sll};
ghost use Rattle.ep_packet.specs.Parts.{tags_len, transport_bytes};
ghost use Rattle.ep_packet.specs.Sliced.{sliced_ether_type, sliced_ethernet, sliced_ip, sliced_linux_sll};
ghost use Rattle.ep_packet.specs.declared.lax_sliced_packet.LaxSlicedPacket.{LaxSlicedPacket};
ghost use Rattle.ep_packet.specs.declared.sliced_packet.SlicedPacket.{SlicedPacket};
ghost use Rattle.ep_packet.specs.declared.transport.transport_slice.TransportSlice.{TransportSlice};
ghost use Rattle.ep_tag.specs.LinkExt.{fields_of as tag_fields_of, lax_fields_of};
ghost use Rattle.ep_tag.specs.declared.link.link_ext_slice.LinkExtSlice.{LinkExtSlice};

/// A packet that was cut off at or after the end of its last header, of ARP at or after the end of the
/// packet, has all of its headers, and of each payload what is there; a layer is incomplete exactly where
/// bytes that its length field promises are missing, and nothing stopped the reading.
pub fn cut_packets_are_found()
    ensures ethernet { (n : ℕ) (bytes : List ℕ) (packet : SlicedPacket)
        → sliced_ethernet bytes ≡ Ok packet → all_headers_len packet ≤ n
        → lax_sliced_ethernet (take n bytes) ≡ Ok (cut_packet n packet) }
    ensures linux_sll { (n : ℕ) (bytes : List ℕ) (packet : SlicedPacket)
        → sliced_linux_sll bytes ≡ Ok packet → all_headers_len packet ≤ n
        → lax_sliced_linux_sll (take n bytes) ≡ Ok (cut_packet n packet) }
    ensures ether_type { (t : EtherType) (n : ℕ) (bytes : List ℕ) (packet : SlicedPacket)
        → sliced_ether_type t bytes ≡ Ok packet → all_headers_len packet ≤ n
        → lax_sliced_ether_type t (take n bytes) ≡ cut_packet n packet }
    ensures ip { (n : ℕ) (bytes : List ℕ) (packet : SlicedPacket) → sliced_ip bytes ≡ Ok packet
        → all_headers_len packet ≤ n → lax_sliced_ip (take n bytes) ≡ Ok (cut_packet n packet) }
{
    ep_ipslice::laws::cut_packets_are_found();
    ep_tag::laws::cut::cut_tags_are_found();
}

/// The headers of such a packet are those of the whole one: link header and tags have the same fields, and
/// the header of the message has the same bytes, ports among them. (The headers of the network layer are
/// the same by definition.)
pub fn cut_packets_keep_headers()
    ensures link { (n : ℕ) (header : LinkSlice) → link_len (Some header) ≤ n
        → fields_of (cut_link n header) ≡ fields_of header }
    ensures tags { (n : ℕ) (tags : List LinkExtSlice) → tags_len tags ≤ n
        → map lax_fields_of (cut_tags n tags) ≡ map tag_fields_of tags }
    ensures transport { (n : ℕ) (m : TransportSlice) → transport_len (Some m) ≤ n
        → take (transport_len (Some m)) (transport_bytes (cut_transport n m))
        ≡ take (transport_len (Some m)) (transport_bytes m) }
{
    ep_tag::laws::cut::cut_tags_are_found();
}

/// Where more bytes are there, each layer that was there is there still: the link header and the tags, the
/// headers of the network layer, and the header of the message, unless bytes follow an ICMP timestamp
/// message, which has none; and an IP packet is the same, if all bytes that its length field counts were
/// there.
pub fn more_bytes_keep_layers()
    ensures ethernet { (bytes more : List ℕ) (before : LaxSlicedPacket)
        → lax_sliced_ethernet bytes ≡ Ok before
        → IsOkAnd (lax_sliced_ethernet (bytes ++ more)) (λ after. KeepsLayers before after) }
    ensures linux_sll { (bytes more : List ℕ) (before : LaxSlicedPacket)
        → lax_sliced_linux_sll bytes ≡ Ok before
        → IsOkAnd (lax_sliced_linux_sll (bytes ++ more)) (λ after. KeepsLayers before after) }
    ensures ether_type { (t : EtherType) (bytes more : List ℕ)
        → KeepsLayers (lax_sliced_ether_type t bytes) (lax_sliced_ether_type t (bytes ++ more)) }
    ensures ip { (bytes more : List ℕ) (before : LaxSlicedPacket) → lax_sliced_ip bytes ≡ Ok before
        → IsOkAnd (lax_sliced_ip (bytes ++ more)) (λ after. KeepsLayers before after) }
{
    ep_ipslice::laws::more_bytes_keep_headers();
    ep_ipslice::laws::lax_packet_is_of_its_version();
    ep_tag::laws::cut::more_bytes_keep_tags();
}

/// A frame with a tag, an IPv4 header and a UDP header, which are its first 46 bytes; and its IPv4 packet,
/// of which the first 24 and all 28 bytes are there.
pub fn cut_packets_at_literals()
    ensures found { sliced_ethernet whole_frame ≡ Ok whole_layers }
    ensures headers { all_headers_len whole_layers ≡ 46 }
    ensures short { cut_ipv4 24 ipv4_packet ≡ record {
      header = ipv4_header;
      auth = None;
      incomplete = true;
      payload = record {
        ip_number = record { 0 = 17 };
        fragmented = false;
        len_source = source.Slice;
        payload = 0 ∷ 1 ∷ 0 ∷ 2 ∷ [];
      };
    } }
    ensures whole { cut_ipv4 28 ipv4_packet ≡ whole_ipv4 ipv4_packet }
{}
