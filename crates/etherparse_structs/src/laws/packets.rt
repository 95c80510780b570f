//! What is reported of whole packets, and of packets as far as they are there.
ghost use Rattle.std.specs.Prelude.{◌≡◌, ◌≤◌, ◌+◌, ℕ, Bool, List, [], ◌∷◌, length, false, Some, None, Ok, IfOk, IfSome};
ghost use Rattle.std.specs.List.{slice_get};
ghost use Rattle.etherparse.specs.base.declared.err.layer.Layer.TheVariants as layer;
ghost use Rattle.etherparse.specs.base.declared.err.len_error.LenError.{LenError};
ghost use Rattle.etherparse.specs.base.declared.err.slice_error.SliceError.TheVariants as header_error;
ghost use Rattle.etherparse.specs.base.declared.len_source.LenSource.TheVariants as source;
ghost use Rattle.etherparse.specs.ipslice.Packet.{IpPayload};
ghost use Rattle.etherparse.specs.ipslice.declared.err.ip.header_error.HeaderError.TheVariants as ip_error;
ghost use Rattle.etherparse.specs.link.Ethernet.{ethernet_len};
ghost use Rattle.etherparse.specs.link.Sll.{sll_len};
ghost use Rattle.etherparse.specs.packet.LaxSliced.{lax_sliced_ethernet, lax_sliced_ip, lax_sliced_linux_sll};
ghost use Rattle.etherparse.specs.packet.LaxView.{lax_ether_payload_in};
ghost use Rattle.etherparse.specs.packet.Parts.{tags_len};
ghost use Rattle.etherparse.specs.packet.SliceFault.{of_linux_sll};
ghost use Rattle.etherparse.specs.packet.Sliced.{sliced_ethernet, sliced_ip, sliced_linux_sll};
ghost use Rattle.etherparse.specs.packet.declared.err.packet.slice_error.SliceError.{SliceError};
ghost use Rattle.etherparse.specs.packet.declared.err.packet.slice_error.SliceError.TheVariants as error;
ghost use Rattle.etherparse.specs.packet.declared.lax_sliced_packet.LaxSlicedPacket.{LaxSlicedPacket};
ghost use Rattle.etherparse.specs.packet.declared.sliced_packet.SlicedPacket.{SlicedPacket};
ghost use Rattle.etherparse.specs.tag.MacsecLax.{LaxModified};
ghost use Rattle.etherparse.specs.tag.declared.link.lax_link_ext_slice.LaxLinkExtSlice.{LaxLinkExtSlice};
ghost use Rattle.etherparse.specs.tag.declared.link.lax_link_ext_slice.LaxLinkExtSlice.TheVariants as tag;
ghost use Rattle.etherparse.specs.tag.declared.link.link_ext_slice.LinkExtSlice.{LinkExtSlice};
ghost use Rattle.etherparse_structs.specs.LaxPacket.{incomplete_of, lax_refused, lax_reported, of_ip_header, of_len};
ghost use Rattle.etherparse_structs.specs.LaxPacket.{stop_layer_of, stop_refusal};
ghost use Rattle.etherparse_structs.specs.LaxParts.{AreLaxPartsOf, lax_tags_len};
ghost use Rattle.etherparse_structs.specs.Link.{tags_end, whole_tag_in};
ghost use Rattle.etherparse_structs.specs.Packet.{packet_struct, refused};
ghost use Rattle.etherparse_structs.specs.Refusal.{no_refusal, refusal_of};

use etherparse::laws::packet::{payloads_of_whole_packets, whole_packets_are_lax_packets};

/// The packet of the network layer comes after the tags, at the offset at which the packet's parts
/// have it.
pub fn offsets_after_tags()
    ensures whole { (place : ℕ) (tags : List LinkExtSlice) → length tags ≤ 3
        → tags_end place (whole_tag_in tags) ≡ place + tags_len tags }
    ensures lax { (place : ℕ) (tags : List LaxLinkExtSlice) → length tags ≤ 3
        → tags_end place (slice_get tags) ≡ place + lax_tags_len tags }
{}

/// A packet that the strict call slices has the same layers by the lax one, no stop, and nothing
/// missing.
pub fn whole_packets_are_there()
    ensures ethernet { (bytes : List ℕ) (packet : SlicedPacket) → sliced_ethernet bytes ≡ Ok packet
        → lax_reported ethernet_len of_len (lax_sliced_ethernet bytes) ≡ record {
          packet = packet_struct ethernet_len packet;
          stop = no_refusal;
          stop_layer = 0;
          incomplete = false;
        } }
    ensures linux_sll { (bytes : List ℕ) (packet : SlicedPacket) → sliced_linux_sll bytes ≡ Ok packet
        → lax_reported sll_len of_linux_sll (lax_sliced_linux_sll bytes) ≡ record {
          packet = packet_struct sll_len packet;
          stop = no_refusal;
          stop_layer = 0;
          incomplete = false;
        } }
    ensures ip { (bytes : List ℕ) (packet : SlicedPacket) → sliced_ip bytes ≡ Ok packet
        → lax_reported 0 of_ip_header (lax_sliced_ip bytes) ≡ record {
          packet = packet_struct 0 packet;
          stop = no_refusal;
          stop_layer = 0;
          incomplete = false;
        } }
{
    whole_packets_are_lax_packets();
    payloads_of_whole_packets();
}

/// Each part of a packet as far as it is there is at its offset in the bytes, so that what is
/// reported of offsets and lengths lies in them.
pub fn parts_that_are_there()
    ensures ethernet { (bytes : List ℕ) → IfOk (lax_sliced_ethernet bytes)
        (λ packet. AreLaxPartsOf bytes ethernet_len packet) }
    ensures linux_sll { (bytes : List ℕ) → IfOk (lax_sliced_linux_sll bytes)
        (λ packet. AreLaxPartsOf bytes sll_len packet) }
    ensures ip { (bytes : List ℕ) → IfOk (lax_sliced_ip bytes)
        (λ packet. AreLaxPartsOf bytes 0 packet) }
{}

/// What stopped the reading: nothing, a UDP header of which 7 bytes are there, and a hop-by-hop
/// options header, whose error names extension headers of any kind.
pub fn stops()
    ensures nothing { (stop_refusal None ≡ no_refusal) × (stop_layer_of None ≡ 0) }
    ensures refusal { stop_refusal (Some (
      error.Len (record {
        required_len = 8;
        len = 7;
        len_source = source.Slice;
        layer = layer.UdpHeader;
        layer_start_offset = 34;
      }),
      layer.UdpHeader,
    )) ≡ record {
      kind = 1;
      layer = 18;
      needed = 8;
      there = 7;
      place = 34;
      source = 1;
      value = 0;
    } }
    ensures number { (e : SliceError) → (stop_layer_of (Some (e, layer.UdpHeader)) ≡ 18)
        × (stop_layer_of (Some (e, layer.Ipv6HopByHopHeader)) ≡ 14) }
{}

/// Whether bytes are missing: of the payload of an IP packet, whatever is missing after the tags, and
/// without one of what follows them. That is what the last ether type names, where one does; a
/// MACsec payload that is encrypted or changed names none.
pub fn missing_bytes()
    ensures ip { (missing : Bool) (p : IpPayload) (tags : List LaxLinkExtSlice)
        → incomplete_of (Some (missing, p)) tags ≡ missing }
    ensures ether { (packet : LaxSlicedPacket) → IfSome (lax_ether_payload_in packet)
        (λ p. incomplete_of None packet.link_exts.items ≡ p.incomplete) }
    ensures modified { (missing : Bool) (bytes : List ℕ) → incomplete_of None (tag.Macsec (record {
      header = 12 ∷ 40 ∷ 0 ∷ 0 ∷ 0 ∷ 9 ∷ [];
      payload = LaxModified missing bytes;
    }) ∷ []) ≡ missing }
    ensures none { incomplete_of None [] ≡ false }
{}

/// A packet whose first header can't be read is refused, as where it is read as a whole, and nothing
/// else is reported of it.
pub fn first_headers()
    ensures refused { (e : SliceError) → lax_refused e ≡ record {
      packet = refused e;
      stop = no_refusal;
      stop_layer = 0;
      incomplete = false;
    } }
    ensures refusal { (e : SliceError) → (refused e).refusal ≡ refusal_of e }
    ensures ethernet { (e : LenError) → of_len e ≡ error.Len e }
    ensures ip { (e : LenError) → (of_ip_header (header_error.Len e) ≡ error.Len e)
        × (of_ip_header (header_error.Content (ip_error.UnsupportedIpVersion 5))
        ≡ error.Ip (ip_error.UnsupportedIpVersion 5)) }
{}
