//! Laws of neighbor discovery (RFC 4861).
ghost use Rattle.std.specs.Prelude.{◌≡◌, ℕ, List, [], ◌∷◌, ◌++◌, IfOk, IfSome, IsOkAnd, IsSomeAnd, Ok, Some};
ghost use Rattle.ep_base.specs.Bytes.{IsBytes};
ghost use Rattle.ep_icmp.specs.Ndp.{IsNdp, IsNdpHeader, encoding, message_at, ndp_header_of, with_reserved_bits_zero};
ghost use Rattle.ep_icmp.specs.NdpOptions.{ItemsAreEncoded, NoOtherItems, OptionsComeBack};

use crate::icmpv6::ndp::{NdpError, NdpHeader};

/// The least and the greatest length of a header in bytes.
pub fn lengths() -> [usize; 2]
    ensures { result ≡ 8 ∷ 40 ∷ [] }
{
    [NdpHeader::MIN_LEN, NdpHeader::MAX_LEN]
}

/// What is found is a message, and all of the bytes; bytes that are a message are found.
pub fn messages_are_found()
    ensures found { (bytes : List ℕ) → IfSome (message_at bytes)
        (λ r. IfOk r (λ message. IsNdp message × (message ≡ bytes))) }
    ensures only { (bytes : List ℕ) → IsNdp bytes → message_at bytes ≡ Some (Ok bytes) }
{}

/// The bytes of a header are a header, and encode its fields. Fields that were read are encoded as
/// the bytes that they were read from, but for the code and the reserved bits, which are 0.
pub fn headers_are_their_bytes(header: &NdpHeader)
    ensures encoded { IsNdpHeader (encoding header.now) }
    ensures read { ndp_header_of (encoding header.now) ≡ header.now }
    ensures encoded_again { (bytes : List ℕ) → IsNdpHeader bytes → IsBytes bytes
        → encoding (ndp_header_of bytes) ≡ with_reserved_bits_zero bytes }
{
    let _bytes = header.to_bytes();
}

/// What `to_bytes` gives is read again, whatever options follow it.
pub fn header_is_read_again<'a>(
    header: &NdpHeader,
    slice: &'a [u8],
) -> Option<Result<(NdpHeader, &'a [u8]), NdpError>>
    ensures { (rest : List ℕ) → slice.now ≡ encoding header.now ++ rest
        → IsSomeAnd result (λ r. IsOkAnd r (λ read. (read.0 ≡ header.now) × (read.1.now ≡ rest))) }
{
    let _bytes = header.to_bytes();
    NdpHeader::from_slice(slice)
}

/// The bytes of options are read as the options that they start with, each once and in order, and
/// then as the fault that they end with, if there is one; and there is no other way to read them.
pub fn items_are_options()
    ensures encoded { ItemsAreEncoded }
    ensures no_other { NoOtherItems }
{}

/// What an option is encoded as is an option, and is read as it.
pub fn options_come_back()
    ensures { OptionsComeBack }
{}
