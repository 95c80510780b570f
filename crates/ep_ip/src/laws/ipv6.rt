//! Laws of IPv6 headers and of the walk over extension headers (RFC 8200, sections 3 and 4).
ghost use Rattle.std.specs.Prelude.{◌≡◌, ℕ, ◌+◌, ◌*◌, List, [], ◌∷◌, ◌++◌, ◌||◌, ◌==◌, length, ◌↔◌, IsTrue, IsOkAnd};
ghost use Rattle.std.specs.List.{concat, list_any};
ghost use Rattle.ep_base.specs.Bytes.{IsBytes};
ghost use Rattle.ep_base.specs.IpEcn.{ecn_number};
ghost use Rattle.ep_base.specs.IpNumber.{ext_header_numbers};
ghost use Rattle.ep_base.specs.Prefixes.{TakesPrefix};
ghost use Rattle.ep_ip.specs.Ipv6.{IsIpv6Header, ipv6_header_of, encoding, dscp_in, ecn_in};
ghost use Rattle.ep_ip.specs.Ipv6Fault.{header_at};
ghost use Rattle.ep_ip.specs.Skip.{Walk, is_skipped, skipped_headers, outcome, skip};

use crate::err::ipv6::HeaderSliceError;
use crate::{Ipv6Header, Ipv6HeaderSlice};
use std::alloc::AllocError;

/// The lengths of an IPv6 header in bytes.
pub fn header_lengths() -> [usize; 2]
    ensures { result ≡ 40 ∷ 40 ∷ [] }
{
    [Ipv6Header::LEN, Ipv6Header::SERIALIZED_SIZE]
}

/// Headers and lists of 40 bytes whose first half byte is 6 are each other's: a header's bytes are
/// such a list, which encodes the header, and such a list encodes a header whose bytes it is.
pub fn headers_are_their_bytes(header: &Ipv6Header)
    ensures header { IsIpv6Header (encoding header.now) }
    ensures fields { ipv6_header_of (encoding header.now) ≡ header.now }
    ensures again { (bytes : List ℕ) → IsIpv6Header bytes → IsBytes bytes
        → encoding (ipv6_header_of bytes) ≡ bytes }
{
    // For the proof alone, which reads its contract.
    let _bytes = header.to_bytes();
}

/// What is found at the start of bytes is a header and a prefix of them, and a prefix of them that is
/// a header is found.
pub fn headers_are_found()
    ensures { (bytes : List ℕ) → TakesPrefix IsIpv6Header bytes (header_at bytes) }
{}

/// What `to_bytes` gives is read again, whatever follows it.
pub fn header_is_read_again<'a>(
    header: &Ipv6Header,
    slice: &'a [u8],
) -> Result<(Ipv6Header, &'a [u8]), HeaderSliceError>
    ensures { (rest : List ℕ) → slice.now ≡ encoding header.now ++ rest
        → IsOkAnd result (λ r. (r.0 ≡ header.now) × (r.1.now ≡ rest)) }
{
    // For the proof alone, which reads its contract.
    let _bytes = header.to_bytes();
    Ipv6Header::from_slice(slice)
}

/// A traffic class is its differentiated services code point and its explicit congestion
/// notification.
pub fn traffic_class_has_two_parts()
    ensures { (class : ℕ) → 4 * dscp_in class + ecn_number (ecn_in class) ≡ class }
{}

/// The numbers of extension headers are those that the walk skips, and 50, 253 and 254: an
/// encrypted payload (RFC 4303) and headers of experiments (RFC 3692) don't begin with a number and
/// a length.
pub fn skipped_numbers_are_ext_headers()
    ensures { (n : ℕ) → list_any (λ number. n == number) ext_header_numbers
        ≡ (is_skipped n || ((n == 50) || ((n == 253) || (n == 254)))) }
{}

/// Bytes are headers in a row and a rest that begins with no whole header, and however they are so,
/// the walk skips those headers.
pub fn skip_follows_every_walk()
    ensures some { (number : ℕ) (bytes : List ℕ) → (headers : List (List ℕ)) × (last : ℕ)
        × (rest : List ℕ) × Walk number bytes headers last rest }
    ensures headers { (number : ℕ) (bytes : List ℕ) (headers : List (List ℕ))
        (last : ℕ) (rest : List ℕ)
        → Walk number bytes headers last rest → skipped_headers number bytes ≡ headers }
    ensures answer { (number : ℕ) (bytes : List ℕ) (headers : List (List ℕ))
        (last : ℕ) (rest : List ℕ)
        → Walk number bytes headers last rest
        → skip number bytes ≡ outcome (length (concat headers)) last rest }
{}

/// Headers are equal where their fields are.
pub fn headers_are_equal_as_fields(a: &Ipv6Header, b: &Ipv6Header) -> bool
    ensures { IsTrue result ↔ (a.now ≡ b.now) }
{
    a == b
}

/// Header slices are equal where their bytes are.
pub fn slices_are_equal_as_bytes(a: &Ipv6HeaderSlice, b: &Ipv6HeaderSlice) -> bool
    ensures { IsTrue result ↔ (a.now ≡ b.now) }
{
    a == b
}

/// A copy of a header is the header.
pub fn header_is_copied(header: &Ipv6Header) -> Result<Ipv6Header, AllocError>
    ensures { IsOkAnd result (λ copy. copy ≡ header.now) }
{
    header.clone()
}
