//! Laws of single extension headers, and of the reader with a limit.
ghost use Rattle.std.specs.Prelude.{◌≡◌, ◌↔◌, ◌+◌, ℕ, true, false, List, [], ◌∷◌, ◌++◌, map, Some, None, IsOkAnd};
ghost use Rattle.std.specs.Prelude.{Ok, Err, Option};
ghost use Rattle.ep_base.specs.Bytes.{IsBytes};
ghost use Rattle.ep_base.specs.Prefixes.{TakesPrefix};
ghost use Rattle.ep_ext.specs.Auth.{IsAuth, auth_of, auth_at, auth_encoding, auth_cleared, icv_fault};
ghost use Rattle.ep_ext.specs.Fragment.{IsFragment, fragment_header_of, fragment_encoding, fragment_cleared, fragment_at};
ghost use Rattle.ep_ext.specs.Ipv4Exts.{Ipv4Chain, auth_after};
ghost use Rattle.ep_ext.specs.Raw.{IsRawExt, raw_of, raw_at, raw_encoding, is_raw_number, payload_fault};
ghost use Rattle.ep_base.specs.LenError.{too_few_bytes};
ghost use Rattle.ep_base.specs.declared.err.slice_error.SliceError.TheVariants as slice_error;

use crate::err::ip_auth::{HeaderError, HeaderSliceError, IcvLenError};
use crate::err::ipv6_exts::ExtPayloadLenError;
use crate::io::LimitedReader;
use crate::{IpAuthHeader, Ipv6FragmentHeader, Ipv6RawExtHeader};
use ep_base::err::{Layer, LenError};

/// The lengths in bytes: of a raw extension header and its payload, the least and the greatest; of
/// a fragment header; of an authentication header, and the greatest of its check value.
pub fn header_lengths() -> [usize; 8]
    ensures { result ≡ 8 ∷ 2048 ∷ 6 ∷ 2046 ∷ 8 ∷ 12 ∷ 1028 ∷ 1016 ∷ [] }
{
    [
        Ipv6RawExtHeader::MIN_LEN,
        Ipv6RawExtHeader::MAX_LEN,
        Ipv6RawExtHeader::MIN_PAYLOAD_LEN,
        Ipv6RawExtHeader::MAX_PAYLOAD_LEN,
        Ipv6FragmentHeader::LEN,
        IpAuthHeader::MIN_LEN,
        IpAuthHeader::MAX_LEN,
        IpAuthHeader::MAX_ICV_LEN,
    ]
}

/// What is found at the start of bytes is a header and a prefix of them, and a prefix of them that is
/// a header is found. After a number of IPv4 it is the header, if the number names one.
pub fn headers_are_found()
    ensures raw { (bytes : List ℕ) → TakesPrefix IsRawExt bytes (raw_at bytes) }
    ensures fragment { (bytes : List ℕ) → TakesPrefix IsFragment bytes (fragment_at bytes) }
    ensures auth { (bytes : List ℕ) → TakesPrefix IsAuth bytes (auth_at bytes) }
    ensures after { (number : ℕ) (bytes : List ℕ) (auth : Option (List ℕ))
        → (auth_after number bytes ≡ Ok auth) ↔ ((rest : List ℕ) × Ipv4Chain number bytes auth rest) }
{}

/// Raw extension headers and their bytes are each other's.
pub fn raw_headers_are_their_bytes(header: &Ipv6RawExtHeader)
    ensures header { IsRawExt (raw_encoding header.now) }
    ensures fields { raw_of (raw_encoding header.now) ≡ header.now }
    ensures again { (bytes : List ℕ) → IsRawExt bytes → raw_encoding (raw_of bytes) ≡ bytes }
{
    let _len = header.header_len();
}

/// Fragment headers and their bytes are each other's, reserved bits aside.
pub fn fragment_headers_are_their_bytes(header: &Ipv6FragmentHeader)
    ensures header { IsFragment (fragment_encoding header.now) }
    ensures fields { fragment_header_of (fragment_encoding header.now) ≡ header.now }
    ensures again { (bytes : List ℕ) → IsFragment bytes → IsBytes bytes
        → fragment_encoding (fragment_header_of bytes) ≡ fragment_cleared bytes }
{
    let _len = header.header_len();
}

/// Authentication headers and their bytes are each other's, reserved bytes aside.
pub fn auth_headers_are_their_bytes(header: &IpAuthHeader)
    ensures header { IsAuth (auth_encoding header.now) }
    ensures fields { auth_of (auth_encoding header.now) ≡ header.now }
    ensures again { (bytes : List ℕ) → IsAuth bytes → IsBytes bytes
        → auth_encoding (auth_of bytes) ≡ auth_cleared bytes }
{
    let _len = header.header_len();
}

/// What `to_bytes` gives of a raw extension header is read again, whatever follows it.
pub fn raw_header_is_read_again<'a>(
    header: &Ipv6RawExtHeader,
    slice: &'a [u8],
) -> Result<(Ipv6RawExtHeader, &'a [u8]), LenError>
    ensures { (rest : List ℕ) → slice.now ≡ raw_encoding header.now ++ rest
        → IsOkAnd result (λ r. (r.0 ≡ header.now) × (r.1.now ≡ rest)) }
{
    let _len = header.header_len();
    Ipv6RawExtHeader::from_slice(slice)
}

/// What `to_bytes` gives of a fragment header is read again, whatever follows it.
pub fn fragment_header_is_read_again<'a>(
    header: &Ipv6FragmentHeader,
    slice: &'a [u8],
) -> Result<(Ipv6FragmentHeader, &'a [u8]), LenError>
    ensures { (rest : List ℕ) → slice.now ≡ fragment_encoding header.now ++ rest
        → IsOkAnd result (λ r. (r.0 ≡ header.now) × (r.1.now ≡ rest)) }
{
    let _len = header.header_len();
    Ipv6FragmentHeader::from_slice(slice)
}

/// What `to_bytes` gives of an authentication header is read again, whatever follows it.
pub fn auth_header_is_read_again<'a>(
    header: &IpAuthHeader,
    slice: &'a [u8],
) -> Result<(IpAuthHeader, &'a [u8]), HeaderSliceError>
    ensures { (rest : List ℕ) → slice.now ≡ auth_encoding header.now ++ rest
        → IsOkAnd result (λ r. (r.0 ≡ header.now) × (r.1.now ≡ rest)) }
{
    let _len = header.header_len();
    IpAuthHeader::from_slice(slice)
}

/// A new layer doesn't move the offset at which a reader's limit lies.
pub fn new_layer_keeps_the_end<T>(reader: &mut LimitedReader<T>, layer: Layer)
    ensures { reader.new.layer_offset + reader.new.max_len
        ≡ reader.old.layer_offset + reader.old.max_len }
{
    let _within = reader.read_len();
    reader.start_layer(layer);
}

/// Literal values: a routing header, a fragment header and an authentication header of some bytes,
/// and the errors of fewer bytes (RFC 8200, sections 4.4 and 4.5; RFC 4302, section 2).
pub fn worked_headers()
    ensures raw { raw_of (17 ∷ 0 ∷ 1 ∷ 4 ∷ 2 ∷ 3 ∷ 5 ∷ 6 ∷ [])
        ≡ record { next_header = record { 0 = 17 }; payload = 1 ∷ 4 ∷ 2 ∷ 3 ∷ 5 ∷ 6 ∷ [] } }
    ensures raw_prefix { raw_at (17 ∷ 0 ∷ 1 ∷ 4 ∷ 2 ∷ 3 ∷ 5 ∷ 6 ∷ 170 ∷ [])
        ≡ Ok (17 ∷ 0 ∷ 1 ∷ 4 ∷ 2 ∷ 3 ∷ 5 ∷ 6 ∷ []) }
    ensures raw_too_short { raw_at (17 ∷ 1 ∷ 1 ∷ 4 ∷ 2 ∷ 3 ∷ 5 ∷ 6 ∷ [])
        ≡ Err (too_few_bytes Layer.Ipv6ExtHeader 16 8) }
    ensures fragment { fragment_header_of (58 ∷ 255 ∷ 171 ∷ 205 ∷ 18 ∷ 52 ∷ 86 ∷ 120 ∷ [])
        ≡ record {
          next_header = record { 0 = 58 };
          fragment_offset = 5497;
          more_fragments = true;
          identification = 305419896;
        } }
    ensures fragment_encoded { fragment_cleared (58 ∷ 255 ∷ 171 ∷ 205 ∷ 18 ∷ 52 ∷ 86 ∷ 120 ∷ [])
        ≡ 58 ∷ 0 ∷ 171 ∷ 201 ∷ 18 ∷ 52 ∷ 86 ∷ 120 ∷ [] }
    ensures fragment_too_short { fragment_at (58 ∷ 0 ∷ [])
        ≡ Err (too_few_bytes Layer.Ipv6FragHeader 8 2) }
    ensures auth { auth_of (6 ∷ 2 ∷ 255 ∷ 238 ∷ 1 ∷ 2 ∷ 3 ∷ 4 ∷ 5 ∷ 6 ∷ 7 ∷
        8 ∷ 9 ∷ 10 ∷ 11 ∷ 12 ∷ [])
        ≡ record {
          next_header = record { 0 = 6 };
          spi = 16909060;
          sequence_number = 84281096;
          icv = 9 ∷ 10 ∷ 11 ∷ 12 ∷ [];
        } }
    ensures auth_encoded { auth_cleared (6 ∷ 1 ∷ 255 ∷ 238 ∷ 1 ∷ 2 ∷ 3 ∷ 4 ∷ 5 ∷ 6 ∷ 7 ∷ 8 ∷ [])
        ≡ 6 ∷ 1 ∷ 0 ∷ 0 ∷ 1 ∷ 2 ∷ 3 ∷ 4 ∷ 5 ∷ 6 ∷ 7 ∷ 8 ∷ [] }
    ensures auth_too_short { auth_at (6 ∷ 2 ∷ 0 ∷ 0 ∷ 1 ∷ 2 ∷ 3 ∷ 4 ∷ 5 ∷ 6 ∷ 7 ∷ 8 ∷ [])
        ≡ Err (slice_error.Len (too_few_bytes Layer.IpAuthHeader 16 12)) }
    ensures auth_zero { auth_at (6 ∷ 0 ∷ 0 ∷ 0 ∷ 1 ∷ 2 ∷ 3 ∷ 4 ∷ 5 ∷ 6 ∷ 7 ∷ 8 ∷ [])
        ≡ Err (slice_error.Content HeaderError.ZeroPayloadLen) }
{}

/// Literal lengths: of payloads of raw extension headers and of check values, those accepted and
/// those next to them; and which numbers have the raw layout.
pub fn worked_lengths()
    ensures payloads { map payload_fault (5 ∷ 6 ∷ 7 ∷ 14 ∷ 2046 ∷ 2054 ∷ [])
        ≡ Some (ExtPayloadLenError.TooSmall 5) ∷ None ∷ Some (ExtPayloadLenError.Unaligned 7) ∷
        None ∷ None ∷ Some (ExtPayloadLenError.TooBig 2054) ∷ [] }
    ensures check_values { map icv_fault (0 ∷ 3 ∷ 4 ∷ 1016 ∷ 1017 ∷ 1020 ∷ [])
        ≡ None ∷ Some (IcvLenError.Unaligned 3) ∷ None ∷ None ∷ Some (IcvLenError.TooBig 1017) ∷
        Some (IcvLenError.TooBig 1020) ∷ [] }
    ensures numbers { map is_raw_number (0 ∷ 43 ∷ 44 ∷ 51 ∷ 60 ∷ 135 ∷ 139 ∷ 140 ∷ 17 ∷ [])
        ≡ true ∷ true ∷ false ∷ false ∷ true ∷ true ∷ true ∷ true ∷ false ∷ [] }
{}
