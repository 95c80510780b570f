//! Laws of ICMPv6 messages (RFC 4443).
ghost use Rattle.std.specs.Prelude.{◌≡◌, ◌+◌, ℕ, List, [], ◌∷◌, ◌++◌, IfOk, IsOkAnd, IsTrue, Ok, length};
ghost use Rattle.ep_base.specs.Bytes.{IsBytes};
ghost use Rattle.ep_base.specs.Sum.{all_ones};
ghost use Rattle.ep_icmp.specs.Icmpv6.{IsCanonical, ReadableIcmpv6, icmpv6_with_checksum, icmpv6_header_of, layout_of};
ghost use Rattle.ep_icmp.specs.Icmpv6.{pseudo, encoding, type_of};
ghost use Rattle.ep_icmp.specs.Icmpv6Fault.{message_at};
ghost use Rattle.ep_icmp.specs.Layout.{with_unused_bytes_zero};
ghost use Rattle.ep_icmp.specs.declared.transport.icmpv6_type.Icmpv6Type.{Icmpv6Type};

use crate::Icmpv6Header;
use ep_base::err::LenError;

/// The length of a header, and how many bytes `to_bytes` has space for.
pub fn lengths() -> [usize; 2]
    ensures { result ≡ 8 ∷ 40 ∷ [] }
{
    [Icmpv6Header::MIN_LEN, Icmpv6Header::MAX_LEN]
}

/// What is found is a message, and all of the bytes; bytes that are a message are found.
pub fn messages_are_found()
    ensures found { (bytes : List ℕ) → IfOk (message_at bytes)
        (λ message. ReadableIcmpv6 message × (message ≡ bytes)) }
    ensures only { (bytes : List ℕ) → ReadableIcmpv6 bytes → message_at bytes ≡ Ok bytes }
{}

/// What `to_bytes` gives is read again, whatever follows it, but for an `Unknown` of a type and
/// code that another variant has.
pub fn header_is_read_again<'a>(
    header: &Icmpv6Header,
    slice: &'a [u8],
) -> Result<(Icmpv6Header, &'a [u8]), LenError>
    ensures { (rest : List ℕ) → slice.now ≡ encoding header.now ++ rest
        → IsCanonical header.now.icmp_type
        → IsOkAnd result (λ r. (r.0 ≡ header.now) × (r.1.now ≡ rest)) }
{
    let _bytes = header.to_bytes();
    Icmpv6Header::from_slice(slice)
}

/// What is read from a message and written again are the bytes of its header, with those that its
/// kind leaves unused as 0.
pub fn header_is_written_back()
    ensures { (bytes : List ℕ) → ReadableIcmpv6 bytes → IsBytes bytes
        → encoding (icmpv6_header_of bytes) ≡ with_unused_bytes_zero (layout_of (type_of bytes))
        bytes }
{}

/// A pseudo header, a header with the checksum that belongs to these addresses and a payload, and
/// that payload sum to all ones, which is what `is_checksum_valid` tests.
pub fn checksums_sum_to_all_ones()
    ensures { (kind : Icmpv6Type) (source destination payload : List ℕ) → length source ≡ 16
        → length destination ≡ 16
        → IsTrue (all_ones (pseudo source destination (8 + length payload)
        ++ encoding (icmpv6_with_checksum source destination kind payload) ++ payload)) }
{
    ep_base::laws::checksum_sums_to_all_ones();
}
