//! Laws of packets of which only the first bytes are there.
ghost use Rattle.std.specs.Prelude.{◌≡◌, ◌≤◌, ℕ, List, ◌++◌, take, None, Ok, IsOkAnd};
ghost use Rattle.ep_ipslice.specs.CutPackets.{cut_ip, cut_ipv4, cut_ipv6, ip_headers_len, ipv4_headers_len};
ghost use Rattle.ep_ipslice.specs.CutPackets.{ipv6_headers_len};
ghost use Rattle.ep_ipslice.specs.IpSlice.{ip_packet_at};
ghost use Rattle.ep_ipslice.specs.Ipv4Packet.{ipv4_packet_at};
ghost use Rattle.ep_ipslice.specs.Ipv6Packet.{ipv6_packet_at};
ghost use Rattle.ep_ipslice.specs.LaxIp.{lax_ip_packet_at};
ghost use Rattle.ep_ipslice.specs.LaxPackets.{StoppedIpv4, StoppedIpv6, lax_ipv4_packet_at, lax_ipv6_packet_at};
ghost use Rattle.ep_ipslice.specs.MoreBytes.{KeepsIpv4, KeepsIpv6};
ghost use Rattle.ep_ipslice.specs.Packet.{Ipv4Packet, Ipv6Packet};
ghost use Rattle.ep_ipslice.specs.declared.net.ip_slice.IpSlice.{IpSlice};

use ep_ext::laws;

/// A packet that was cut off at or after the end of its extension headers has the same headers, and the
/// payload that is there; it is incomplete exactly where bytes of the payload are missing.
pub fn cut_packets_are_found()
    ensures ipv4 { (n : ℕ) (bytes : List ℕ) (packet : Ipv4Packet) → ipv4_packet_at bytes ≡ Ok packet
        → ipv4_headers_len packet ≤ n
        → lax_ipv4_packet_at (take n bytes) ≡ Ok (cut_ipv4 n packet, None) }
    ensures ipv6 { (n : ℕ) (bytes : List ℕ) (packet : Ipv6Packet) → ipv6_packet_at bytes ≡ Ok packet
        → ipv6_headers_len packet ≤ n
        → lax_ipv6_packet_at (take n bytes) ≡ Ok (cut_ipv6 n packet, None) }
    ensures ip { (n : ℕ) (bytes : List ℕ) (packet : IpSlice) → ip_packet_at bytes ≡ Ok packet
        → ip_headers_len packet ≤ n
        → lax_ip_packet_at (take n bytes) ≡ Ok (cut_ip n packet, None) }
{
    laws::whole_header_is_found();
}

/// Where more bytes are there, a packet has the same header; the same extension headers, if all of them
/// were there, and more of the payload at most; and it is the same packet, if all bytes that its length
/// field counts were there.
pub fn more_bytes_keep_headers()
    ensures ipv4 { (bytes more : List ℕ) (before : StoppedIpv4) → lax_ipv4_packet_at bytes ≡ Ok before
        → IsOkAnd (lax_ipv4_packet_at (bytes ++ more)) (λ after. KeepsIpv4 before after) }
    ensures ipv6 { (bytes more : List ℕ) (before : StoppedIpv6) → lax_ipv6_packet_at bytes ≡ Ok before
        → IsOkAnd (lax_ipv6_packet_at (bytes ++ more)) (λ after. KeepsIpv6 before after) }
{
    laws::whole_header_is_found();
}
