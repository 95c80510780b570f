//! Laws of ICMPv4 messages (RFC 792).
ghost use Rattle.std.specs.Prelude.{◌≡◌, ℕ, List, [], ◌∷◌, ◌++◌, IfOk, IsOkAnd, IsTrue, Ok};
ghost use Rattle.ep_base.specs.Bytes.{IsBytes, num};
ghost use Rattle.ep_base.specs.Sum.{all_ones};
ghost use Rattle.ep_icmp.specs.Icmpv4.{IsPayload, IsCanonical, ReadableIcmpv4, icmpv4_with_checksum, icmpv4_header_of};
ghost use Rattle.ep_icmp.specs.Icmpv4.{has_numbers, is_timestamp_reply, is_timestamp_request, layout_of, encoding, type_of};
ghost use Rattle.ep_icmp.specs.Icmpv4Fault.{message_at};
ghost use Rattle.ep_icmp.specs.Layout.{with_unused_bytes_zero};
ghost use Rattle.ep_icmp.specs.declared.transport.icmpv4_type.Icmpv4Type.{Icmpv4Type};
ghost use Rattle.ep_icmp.specs.declared.transport.icmpv4_type.Icmpv4Type.TheVariants.{TimestampRequest, TimestampReply};

use crate::icmpv4::TimestampMessage;
use crate::{IcmpEchoHeader, Icmpv4Header};
use ep_base::err::LenError;

/// The least and the greatest length of a header, the length of a timestamp message, and that of
/// what an echo message has in its header, in bytes.
pub fn lengths() -> [usize; 4]
    ensures { result ≡ 8 ∷ 20 ∷ 20 ∷ 4 ∷ [] }
{
    [
        Icmpv4Header::MIN_LEN,
        Icmpv4Header::MAX_LEN,
        TimestampMessage::LEN,
        IcmpEchoHeader::LEN,
    ]
}

/// What is found is a message, and all of the bytes; bytes that are a message are found.
pub fn messages_are_found()
    ensures found { (bytes : List ℕ) → IfOk (message_at bytes)
        (λ message. ReadableIcmpv4 message × (message ≡ bytes)) }
    ensures only { (bytes : List ℕ) → ReadableIcmpv4 bytes → message_at bytes ≡ Ok bytes }
{}

/// A message is a timestamp request, or its reply, exactly where the table of kinds gives these its
/// type and code.
pub fn timestamps_are_listed()
    ensures request { (bytes : List ℕ) (message : TimestampMessage) → is_timestamp_request bytes
        ≡ has_numbers (num bytes 0 1) (num bytes 1 1) (TimestampRequest message) }
    ensures reply { (bytes : List ℕ) (message : TimestampMessage) → is_timestamp_reply bytes
        ≡ has_numbers (num bytes 0 1) (num bytes 1 1) (TimestampReply message) }
{}

/// What `to_bytes` gives is read again, whatever payload of the kind follows it, but for an
/// `Unknown` of a type and code that another variant has.
pub fn header_is_read_again<'a>(
    header: &Icmpv4Header,
    slice: &'a [u8],
) -> Result<(Icmpv4Header, &'a [u8]), LenError>
    ensures { (rest : List ℕ) → slice.now ≡ encoding header.now ++ rest
        → IsCanonical header.now.icmp_type
        → IsPayload header.now.icmp_type rest
        → IsOkAnd result (λ r. (r.0 ≡ header.now) × (r.1.now ≡ rest)) }
{
    let _bytes = header.to_bytes();
    Icmpv4Header::from_slice(slice)
}

/// What is read from a message and written again are the bytes of its header, with those that its
/// kind leaves unused as 0.
pub fn header_is_written_back()
    ensures { (bytes : List ℕ) → ReadableIcmpv4 bytes → IsBytes bytes
        → encoding (icmpv4_header_of bytes) ≡ with_unused_bytes_zero (layout_of (type_of bytes))
        bytes }
{}

/// A header with the checksum that belongs to a payload, and that payload, sum to all ones.
pub fn checksums_sum_to_all_ones()
    ensures { (kind : Icmpv4Type) (payload : List ℕ)
        → IsTrue (all_ones (encoding (icmpv4_with_checksum kind payload) ++ payload)) }
{
    ep_base::laws::checksum_sums_to_all_ones();
}
