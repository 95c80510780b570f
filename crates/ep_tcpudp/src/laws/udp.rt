//! Laws of UDP (RFC 768).

ghost use Rattle.std.specs.Prelude.{◌≡◌, ◌↔◌, ◌≤◌, ◌<◌, ℕ, List, ◌++◌, length, IfOk, IsOkAnd, Ok};
ghost use Rattle.ep_base.specs.Bytes.{IsBytes};
ghost use Rattle.ep_base.specs.Prefixes.{TakesPrefix};
ghost use Rattle.ep_tcpudp.specs.Udp.{IsLaxUdp, IsUdpHeader, ReadableUdp, encoding, lax_summed_udp};
ghost use Rattle.ep_tcpudp.specs.Udp.{length_of, summed_udp, udp_header_of};
ghost use Rattle.ep_tcpudp.specs.UdpChecksum.{SealedUdpSumsToAllOnes};
ghost use Rattle.ep_tcpudp.specs.UdpFault.{header_at, lax_udp_at, udp_at};

use crate::UdpHeader;
use ep_base::err::LenError;
use ep_base::laws::checksum_sums_to_all_ones;

/// A receiver that sums a pseudo header, a header with the checksum that belongs to it and the
/// payload finds all ones.
pub fn sealed_sums_to_all_ones()
    ensures { SealedUdpSumsToAllOnes }
{
    checksum_sums_to_all_ones();
}

/// The length of a UDP header in bytes.
pub fn header_lengths()
    ensures len { UdpHeader.LEN ≡ 8 }
    ensures len_u16 { UdpHeader.LEN_U16 ≡ 8 }
{}

/// Headers and lists of 8 bytes correspond one to one: a header's bytes are such a list, which
/// encodes the header, and such a list encodes a header whose bytes it is.
pub fn headers_are_their_bytes(header: &UdpHeader)
    ensures encoded { IsUdpHeader (encoding header.now) }
    ensures read { udp_header_of (encoding header.now) ≡ header.now }
    ensures encoded_again { (bytes : List ℕ) → IsUdpHeader bytes → IsBytes bytes
        → encoding (udp_header_of bytes) ≡ bytes }
{
    let _bytes = header.to_bytes();
}

/// What is found at the start of bytes is a header, and a prefix of the bytes; a prefix that is a
/// header is found.
pub fn headers_are_found()
    ensures { (bytes : List ℕ) → TakesPrefix IsUdpHeader bytes (header_at bytes) }
{}

/// What is found is the datagram that bytes begin with, and where they begin with one it is found.
/// A lax read finds what there is of a datagram, wherever a header is there.
pub fn datagrams_are_found()
    ensures found { (bytes : List ℕ) → IfOk (udp_at bytes)
        (λ datagram. ReadableUdp bytes × (datagram ≡ summed_udp bytes)) }
    ensures only { (bytes : List ℕ) → ReadableUdp bytes → udp_at bytes ≡ Ok (summed_udp bytes) }
    ensures lax_found { (bytes : List ℕ) → IfOk (lax_udp_at bytes)
        (λ datagram. (8 ≤ length bytes) × (datagram ≡ lax_summed_udp bytes)) }
    ensures lax_only { (bytes : List ℕ) → 8 ≤ length bytes
        → lax_udp_at bytes ≡ Ok (lax_summed_udp bytes) }
{}

/// What `to_bytes` gives is read again, whatever follows it.
pub fn header_is_read_again<'a>(
    header: &UdpHeader,
    slice: &'a [u8],
) -> Result<(UdpHeader, &'a [u8]), LenError>
    ensures { (rest : List ℕ) → slice.now ≡ encoding header.now ++ rest
        → IsOkAnd result (λ r. (r.0 ≡ header.now) × (r.1.now ≡ rest)) }
{
    let _bytes = header.to_bytes();
    UdpHeader::from_slice(slice)
}

/// A datagram that is there is what a lax read finds. Where its length field is above the bytes
/// there, or counts no header, all bytes are found, and where bytes of the header are missing, the
/// refusal is the same. What a lax read finds is found again.
pub fn lax_reads_find_what_is_there()
    ensures datagram { (bytes datagram : List ℕ) → udp_at bytes ≡ Ok datagram
        → lax_udp_at bytes ≡ Ok datagram }
    ensures cut_off { (bytes : List ℕ) → 8 ≤ length bytes → length bytes < length_of bytes
        → lax_udp_at bytes ≡ Ok bytes }
    ensures no_header { (bytes : List ℕ) → 8 ≤ length bytes → length_of bytes < 8
        → lax_udp_at bytes ≡ Ok bytes }
    ensures short { (bytes : List ℕ) → length bytes < 8 → lax_udp_at bytes ≡ udp_at bytes }
    ensures again { (bytes : List ℕ) → IsLaxUdp bytes ↔ (lax_udp_at bytes ≡ Ok bytes) }
{}
