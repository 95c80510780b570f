//! Why frames are refused.
ghost use Rattle.std.specs.Prelude.{◌≡◌, ℕ, List, Err};
ghost use Rattle.ep_base.specs.declared.link.ether_type.EtherType.{EtherType};
ghost use Rattle.ep_base.specs.declared.err.layer.Layer.TheVariants as layer;
ghost use Rattle.ep_base.specs.declared.len_source.LenSource.TheVariants as source;
ghost use Rattle.ep_ext.specs.Slot.{slot_of};
ghost use Rattle.ep_ipslice.specs.Ipv6Fault.{IsFaultIn};
ghost use Rattle.ep_ipslice.specs.declared.err.ip.headers_slice_error.HeadersSliceError.{HeadersSliceError};
ghost use Rattle.ep_ipslice.specs.declared.err.ipv6.slice_error.SliceError.{SliceError as Ipv6Fault};
ghost use Rattle.ep_packet.specs.Examples.{cut_after_auth, cut_after_macsec, cut_after_options, cut_after_tag};
ghost use Rattle.ep_packet.specs.Examples.{cut_in_options, missing_bytes};
ghost use Rattle.ep_packet.specs.FrameFault.{IsCookedFault, IsEtherTypeFault, IsEtherTypeHeadersFault, IsFrameFault};
ghost use Rattle.ep_packet.specs.FrameFault.{IsFrameHeadersFault, IsIpPacketFault, IsIpPacketHeadersFault};
ghost use Rattle.ep_packet.specs.IpHeadersAt.{ip_headers_at, ipv6_headers_at};
ghost use Rattle.ep_packet.specs.PacketHeaders.{ether_type_headers, ethernet_headers, ip_packet_headers};
ghost use Rattle.ep_packet.specs.ReadIpHeaders.{IsIpHeadersFault};
ghost use Rattle.ep_packet.specs.Sliced.{sliced_ether_type, sliced_ethernet, sliced_ip, sliced_linux_sll};
ghost use Rattle.ep_packet.specs.declared.err.packet.slice_error.SliceError.{SliceError};

use ep_ipslice::laws::faults_found_are_first;
use ep_tag::laws::macsec::payloads_are_found;

/// What is refused is refused for its first fault, in the order of the layers.
pub fn refusals_are_first_faults()
    ensures ethernet { (frame : List ℕ) (e : SliceError) → sliced_ethernet frame ≡ Err e
        → IsFrameFault frame e }
    ensures linux_sll { (packet : List ℕ) (e : SliceError) → sliced_linux_sll packet ≡ Err e
        → IsCookedFault packet e }
    ensures ether_type { (t : EtherType) (bytes : List ℕ) (e : SliceError)
        → sliced_ether_type t bytes ≡ Err e → IsEtherTypeFault t bytes e }
    ensures ip { (bytes : List ℕ) (e : SliceError) → sliced_ip bytes ≡ Err e
        → IsIpPacketFault bytes e }
    // The same of headers as values.
    ensures ethernet_headers { (frame : List ℕ) (e : SliceError) → ethernet_headers frame ≡ Err e
        → IsFrameHeadersFault frame e }
    ensures ether_type_headers { (t : EtherType) (bytes : List ℕ) (e : SliceError)
        → ether_type_headers t bytes ≡ Err e → IsEtherTypeHeadersFault t bytes e }
    ensures ip_headers { (bytes : List ℕ) (e : SliceError) → ip_packet_headers bytes ≡ Err e
        → IsIpPacketHeadersFault bytes e }
    // The same of IP headers alone.
    ensures alone { (bytes : List ℕ) (e : HeadersSliceError) → ip_headers_at bytes ≡ Err e
        → IsIpHeadersFault bytes e }
    ensures ipv6_alone { (bytes : List ℕ) (e : Ipv6Fault) → ipv6_headers_at bytes ≡ Err e
        → IsFaultIn slot_of bytes e }
{
    payloads_are_found();
    faults_found_are_first();
}

/// Frames that end within a header, and the offset of that header: an IPv4 header after a VLAN tag,
/// an ARP packet after a MACsec header, UDP after an authentication header, ICMPv6 after hop-by-hop
/// options, and a TCP header within its options.
pub fn offsets_at_literals()
    ensures tag { sliced_ethernet cut_after_tag
        ≡ Err (missing_bytes layer.Ipv4Header 20 10 source.Slice 18) }
    ensures macsec { sliced_ethernet cut_after_macsec
        ≡ Err (missing_bytes layer.Arp 8 6 source.Slice 22) }
    ensures auth { sliced_ethernet cut_after_auth
        ≡ Err (missing_bytes layer.UdpHeader 8 4 source.Ipv4HeaderTotalLen 46) }
    ensures options { sliced_ethernet cut_after_options
        ≡ Err (missing_bytes layer.Icmpv6 8 4 source.Ipv6HeaderPayloadLen 62) }
    ensures tcp { sliced_ethernet cut_in_options
        ≡ Err (missing_bytes layer.TcpHeader 24 22 source.Ipv4HeaderTotalLen 34) }
    // The same of headers as values.
    ensures tag_header { ethernet_headers cut_after_tag
        ≡ Err (missing_bytes layer.Ipv4Header 20 10 source.Slice 18) }
    ensures macsec_header { ethernet_headers cut_after_macsec
        ≡ Err (missing_bytes layer.Arp 8 6 source.Slice 22) }
    ensures auth_header { ethernet_headers cut_after_auth
        ≡ Err (missing_bytes layer.UdpHeader 8 4 source.Ipv4HeaderTotalLen 46) }
    ensures options_header { ethernet_headers cut_after_options
        ≡ Err (missing_bytes layer.Icmpv6 8 4 source.Ipv6HeaderPayloadLen 62) }
    ensures tcp_header { ethernet_headers cut_in_options
        ≡ Err (missing_bytes layer.TcpHeader 24 22 source.Ipv4HeaderTotalLen 34) }
{}
