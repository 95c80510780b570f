//! Laws of IPv4 headers (RFC 791, section 3.1).
ghost use Rattle.std.specs.Prelude.{◌≡◌, ℕ, ◌*◌, List, [], ◌∷◌, ◌++◌, ◌↔◌, IsTrue, IsOkAnd, fold};
ghost use Rattle.std.specs.Hash as fed;
ghost use Rattle.std.specs.Ordering.{nat_cmp};
ghost use Rattle.std.specs.Cmp.Lexicographic.{slice_cmp};
ghost use Rattle.ep_base.specs.Bytes.{IsBytes};
ghost use Rattle.ep_base.specs.Prefixes.{TakesPrefix};
ghost use Rattle.ep_ip.specs.Ipv4.{IsIpv4Header, ipv4_header_of, ihl_of, total_len_of, encoding};
ghost use Rattle.ep_ip.specs.Ipv4.{with_reserved_bit_zero};
ghost use Rattle.ep_ip.specs.Ipv4Fault.{IsPayloadLen, header_at};

use crate::err::ipv4::HeaderSliceError;
use crate::{Ipv4Header, Ipv4HeaderSlice, Ipv4Options};
use ep_base::err::LenError;
use std::alloc::AllocError;
use std::cmp::Ordering;
use std::hash::{Hash, Hasher};

/// The lengths of an IPv4 header and of its options in bytes.
pub fn header_lengths() -> [usize; 3]
    ensures lengths { result ≡ 20 ∷ 60 ∷ 20 ∷ [] }
    ensures least { Ipv4Header.MIN_LEN_U16 ≡ 20 }
    ensures options { Ipv4Options.MAX_LEN ≡ 40 }
{
    [
        Ipv4Header::MIN_LEN,
        Ipv4Header::MAX_LEN,
        Ipv4Header::SERIALIZED_SIZE,
    ]
}

/// What is found at the start of bytes is a header and a prefix of them, and a prefix of them that is
/// a header is found.
pub fn headers_are_found()
    ensures { (bytes : List ℕ) → TakesPrefix IsIpv4Header bytes (header_at bytes) }
{}

/// What `to_bytes` gives is read again, whatever follows it.
pub fn header_is_read_again<'a>(
    header: &Ipv4Header,
    slice: &'a [u8],
) -> Result<(Ipv4Header, &'a [u8]), HeaderSliceError>
    ensures { (rest : List ℕ) → slice.now ≡ encoding header.now ++ rest
        → IsOkAnd result (λ r. (r.0 ≡ header.now) × (r.1.now ≡ rest)) }
{
    // For the proof alone, which reads its contract.
    let _bytes = header.to_bytes();
    Ipv4Header::from_slice(slice)
}

/// Two headers' bytes are read as equal fields exactly where they agree but for the reserved
/// bit, the top one of byte 6.
pub fn same_fields_from_same_bytes()
    ensures { (a b : List ℕ) → IsIpv4Header a → IsBytes a → IsIpv4Header b → IsBytes b
        → (ipv4_header_of a ≡ ipv4_header_of b) ↔ (with_reserved_bit_zero a
        ≡ with_reserved_bit_zero b) }
{}

/// A header's bytes and its fields have the same payload length, or the same refusal.
pub fn payload_lengths_agree(
    header: &Ipv4HeaderSlice<'_>,
) -> (Result<u16, LenError>, Result<u16, LenError>)
    ensures value { IsPayloadLen (4 * ihl_of header.now) (total_len_of header.now) result.0 }
    ensures agree { result.0 ≡ result.1 }
{
    (header.payload_len(), header.to_header().payload_len())
}

/// Headers are equal where their fields are.
pub fn headers_are_equal_as_fields(a: &Ipv4Header, b: &Ipv4Header) -> bool
    ensures { IsTrue result ↔ (a.now ≡ b.now) }
{
    a == b
}

/// A clone of a header is that header.
pub fn header_is_copied(header: &Ipv4Header) -> Result<Ipv4Header, AllocError>
    ensures { IsOkAnd result (λ copy. copy ≡ header.now) }
{
    header.clone()
}

/// Header slices are equal where their bytes are.
pub fn slices_are_equal_as_bytes(a: &Ipv4HeaderSlice<'_>, b: &Ipv4HeaderSlice<'_>) -> bool
    ensures { IsTrue result ↔ (a.now ≡ b.now) }
{
    a == b
}

/// Options are equal where their bytes are.
pub fn options_are_equal_as_bytes(a: &Ipv4Options, b: &Ipv4Options) -> bool
    ensures { IsTrue result ↔ (a.now ≡ b.now) }
{
    a == b
}

/// Options are ordered as their bytes.
pub fn options_are_ordered_as_bytes(a: &Ipv4Options, b: &Ipv4Options) -> Ordering
    ensures { result ≡ slice_cmp nat_cmp a.now b.now }
{
    a.cmp(b)
}

/// Options feed a hasher what the slice of their bytes does.
pub fn options_hash_as_bytes<H: Hasher>(options: &Ipv4Options, state: &mut H)
    ensures { state.new ≡ fold H.write state.old (fed.slice fed.u8 options.now) }
{
    options.hash(state);
}
