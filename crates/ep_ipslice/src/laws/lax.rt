//! Laws where packets that are there and packets as far as they are there meet.
ghost use Rattle.std.specs.Prelude.{◌≡◌, ◌≢◌, ◌<◌, ◌≤◌, ◌+◌, ◌-◌, ◌^◌, ◌++◌, ℕ, List, length, true, None, Some, Ok};
ghost use Rattle.std.specs.Prelude.{Err, IfSome, IsOkAnd};
ghost use Rattle.std.specs.Option.{option_map};
ghost use Rattle.ep_base.specs.SliceError.{CanMove};
ghost use Rattle.ep_base.specs.declared.err.layer.Layer.TheVariants as layer;
ghost use Rattle.ep_base.specs.declared.err.len_error.LenError.{LenError};
ghost use Rattle.ep_base.specs.declared.err.slice_error.SliceError.{SliceError};
ghost use Rattle.ep_base.specs.declared.err.slice_error.SliceError.TheVariants as slice_error;
ghost use Rattle.ep_base.specs.declared.len_source.LenSource.TheVariants.{Slice};
ghost use Rattle.ep_ip.specs.Ipv4.{total_len_of, version_of};
ghost use Rattle.ep_ip.specs.Ipv4Fault as v4;
ghost use Rattle.ep_ip.specs.Ipv6Fault as v6;
ghost use Rattle.ep_ip.specs.declared.err.ipv4.header_error.HeaderError.{HeaderError as Ipv4HeaderFault};
ghost use Rattle.ep_ip.specs.declared.err.ipv6.header_error.HeaderError.{HeaderError as Ipv6HeaderFault};
ghost use Rattle.ep_ext.specs.Chain.{Fault};
ghost use Rattle.ep_ext.specs.Ipv4Exts.{auth_bytes};
ghost use Rattle.ep_ext.specs.declared.err.ip_auth.header_error.HeaderError.{HeaderError as AuthFault};
ghost use Rattle.ep_ext.specs.declared.err.ipv6_exts.header_error.HeaderError.{HeaderError as ExtsFault};
ghost use Rattle.ep_ipslice.specs.IpSlice.{ip_packet_at, with_ipv4, with_ipv6};
ghost use Rattle.ep_ipslice.specs.Ipv4Packet.{ipv4_packet_at};
ghost use Rattle.ep_ipslice.specs.Ipv6Packet.{ipv6_packet_at};
ghost use Rattle.ep_ipslice.specs.LaxIp.{lax_ip_packet_at, whole_ip, with_lax_ipv4, with_lax_ipv6};
ghost use Rattle.ep_ipslice.specs.LaxPackets.{StoppedIpv4, StoppedIpv6, lax_ipv4_packet_at, lax_ipv6_packet_at};
ghost use Rattle.ep_ipslice.specs.LaxPackets.{whole_ipv4, whole_ipv6};
ghost use Rattle.ep_ipslice.specs.Packet.{Ipv4Packet, Ipv6Packet, body_len};
ghost use Rattle.ep_ipslice.specs.declared.err.ipv4.slice_error.SliceError.TheVariants as ipv4;
ghost use Rattle.ep_ipslice.specs.declared.err.ipv6.slice_error.SliceError.TheVariants as ipv6;
ghost use Rattle.ep_ipslice.specs.declared.net.ip_slice.IpSlice.{IpSlice};

use ep_ext::laws;
use ep_ip::Ipv4HeaderSlice;

/// A packet that is there is the packet as far as it is there: the same parts, of which nothing is
/// missing, and nothing stopped it.
pub fn whole_packets_are_lax_packets()
    ensures ipv4 { (bytes : List ℕ) (packet : Ipv4Packet) → ipv4_packet_at bytes ≡ Ok packet
        → lax_ipv4_packet_at bytes ≡ Ok (whole_ipv4 packet, None) }
    ensures ipv6 { (bytes : List ℕ) (packet : Ipv6Packet) → ipv6_packet_at bytes ≡ Ok packet
        → lax_ipv6_packet_at bytes ≡ Ok (whole_ipv6 packet, None) }
    ensures ip { (bytes : List ℕ) (packet : IpSlice) → ip_packet_at bytes ≡ Ok packet
        → lax_ip_packet_at bytes ≡ Ok (whole_ip packet, None) }
{}

/// Where an IPv4 header's total length is above the bytes that are there, the packet is these bytes
/// and is incomplete.
pub fn cut_ipv4_packet_has_all_bytes()
    ensures { (bytes header : List ℕ) → v4.header_at bytes ≡ Ok header
        → length bytes < total_len_of header
        → IsOkAnd (lax_ipv4_packet_at bytes) (λ r. (r.0.incomplete ≡ true)
        × (r.0.payload.len_source ≡ Slice)
        × (bytes ≡ header ++ (auth_bytes r.0.auth ++ r.0.payload.payload))) }
{}

/// Where an IPv6 header's payload length is above the bytes that follow it, the packet is the bytes
/// that are there and is incomplete.
pub fn cut_ipv6_packet_has_all_bytes()
    ensures { (bytes header : List ℕ) → v6.header_at bytes ≡ Ok header
        → length bytes - 40 < body_len header (length bytes - 40)
        → IsOkAnd (lax_ipv6_packet_at bytes) (λ r. (r.0.incomplete ≡ true)
        × (r.0.payload.len_source ≡ Slice)
        × (bytes ≡ header ++ (r.0.exts.slice ++ r.0.payload.payload))) }
{}

/// Where a packet is refused for a fault of an extension header, that fault stops the packet as far
/// as it is there.
pub fn faults_of_extension_headers_stop()
    ensures auth { (bytes : List ℕ) (e : AuthFault) → ipv4_packet_at bytes ≡ Err (ipv4.Exts e)
        → IsOkAnd (lax_ipv4_packet_at bytes) (λ r. r.1 ≡ Some (slice_error.Content e)) }
    ensures auth_len { (bytes : List ℕ) (e : LenError) → ipv4_packet_at bytes ≡ Err (ipv4.Len e)
        → e.layer ≡ layer.IpAuthHeader
        → IsOkAnd (lax_ipv4_packet_at bytes) (λ r. r.1 ≡ Some (slice_error.Len e)) }
    ensures row { (bytes : List ℕ) (e : ExtsFault) → ipv6_packet_at bytes ≡ Err (ipv6.Exts e)
        → IsOkAnd (lax_ipv6_packet_at bytes)
        (λ r. option_map (λ (f : Fault). f.0) r.1 ≡ Some (slice_error.Content e)) }
    ensures row_len { (bytes : List ℕ) (e : LenError) → ipv6_packet_at bytes ≡ Err (ipv6.Len e)
        → e.layer ≢ layer.Ipv6Header → e.layer ≢ layer.Ipv6Packet
        → IsOkAnd (lax_ipv6_packet_at bytes)
        (λ r. option_map (λ (f : Fault). f.0) r.1 ≡ Some (slice_error.Len e)) }
{}

/// The headers of a packet as far as it is there lie within the bytes, and so does the offset of its
/// fault, so that the length of what comes before the bytes can be added to it.
pub fn lax_faults_can_be_moved()
    ensures ipv4_headers { (bytes : List ℕ) (s : StoppedIpv4) → lax_ipv4_packet_at bytes ≡ Ok s
        → length s.0.header + length (auth_bytes s.0.auth) ≤ length bytes }
    ensures ipv4_stop { (bytes : List ℕ) (s : StoppedIpv4) → lax_ipv4_packet_at bytes ≡ Ok s
        → (n : ℕ) → length bytes + n < 2 ^ 64 → IfSome s.1 (λ e. CanMove e n) }
    ensures ipv4_header { (bytes : List ℕ) (e : SliceError Ipv4HeaderFault)
        → lax_ipv4_packet_at bytes ≡ Err e
        → (n : ℕ) → length bytes + n < 2 ^ 64 → CanMove e n }
    ensures ipv6_headers { (bytes : List ℕ) (s : StoppedIpv6) → lax_ipv6_packet_at bytes ≡ Ok s
        → length s.0.header + length s.0.exts.slice ≤ length bytes }
    ensures ipv6_stop { (bytes : List ℕ) (s : StoppedIpv6) → lax_ipv6_packet_at bytes ≡ Ok s
        → (n : ℕ) → length bytes + n < 2 ^ 64 → IfSome s.1 (λ f. CanMove f.0 n) }
    ensures ipv6_header { (bytes : List ℕ) (e : SliceError Ipv6HeaderFault)
        → lax_ipv6_packet_at bytes ≡ Err e
        → (n : ℕ) → length bytes + n < 2 ^ 64 → CanMove e n }
{
    laws::faults_can_be_moved();
    laws::row_ends_where_none_is_taken();
}

/// The packet of either version is that of the version in the first byte, so that the other laws
/// hold of it, too.
pub fn lax_packet_is_of_its_version()
    ensures ipv4 { (bytes : List ℕ) → version_of bytes ≡ 4
        → (ip_packet_at bytes ≡ with_ipv4 (ipv4_packet_at bytes))
        × (lax_ip_packet_at bytes ≡ with_lax_ipv4 (lax_ipv4_packet_at bytes)) }
    ensures ipv6 { (bytes : List ℕ) → version_of bytes ≡ 6
        → (ip_packet_at bytes ≡ with_ipv6 (ipv6_packet_at bytes))
        × (lax_ip_packet_at bytes ≡ with_lax_ipv6 (lax_ipv6_packet_at bytes)) }
{}
