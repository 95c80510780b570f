//! Laws of Ethernet II headers (RFC 894).
ghost use Rattle.std.specs.Prelude.{◌≡◌, ℕ, List, [], ◌∷◌, ◌++◌, length, IsOkAnd};
ghost use Rattle.ep_base.specs.Bytes.{IsBytes};
ghost use Rattle.ep_link.specs.Ethernet.{ethernet_len, ethernet_header_of, encoding, payload_of};

use crate::Ethernet2Header;
use ep_base::err::LenError;

/// The length of a header in bytes.
pub fn header_lengths() -> [usize; 1]
    ensures { result ≡ 14 ∷ [] }
{
    [Ethernet2Header::LEN]
}

/// Headers and lists of 14 bytes are each other's: a header's bytes are such a list, which encodes
/// the header, and such a list encodes a header whose bytes it is.
pub fn headers_are_their_bytes(header: &Ethernet2Header)
    ensures fields { ethernet_header_of (encoding header.now) ≡ header.now }
    ensures again { (frame : List ℕ) → length frame ≡ ethernet_len → IsBytes frame
        → encoding (ethernet_header_of frame) ≡ frame }
{
    let _bytes = header.to_bytes();
}

/// What `to_bytes` gives is read again, whatever follows it.
pub fn header_is_read_again<'a>(
    header: &Ethernet2Header,
    slice: &'a [u8],
) -> Result<(Ethernet2Header, &'a [u8]), LenError>
    ensures { (rest : List ℕ) → slice.now ≡ encoding header.now ++ rest
        → IsOkAnd result (λ r. (r.0 ≡ header.now) × (r.1.now ≡ rest)) }
{
    let _bytes = header.to_bytes();
    Ethernet2Header::from_slice(slice)
}

/// The destination first, then the source, then an ether type of 0800, with two bytes after it.
pub fn fields_at_literals()
    ensures fields { ethernet_header_of (1 ∷ 2 ∷ 3 ∷ 4 ∷ 5 ∷ 6 ∷ 7 ∷ 8 ∷ 9 ∷ 10 ∷ 11 ∷ 12 ∷ 8 ∷ 0 ∷
        21 ∷ 22 ∷ []) ≡ record {
          source = 7 ∷ 8 ∷ 9 ∷ 10 ∷ 11 ∷ 12 ∷ [];
          destination = 1 ∷ 2 ∷ 3 ∷ 4 ∷ 5 ∷ 6 ∷ [];
          ether_type = record { 0 = 0x0800 };
        } }
    ensures payload { (payload_of (1 ∷ 2 ∷ 3 ∷ 4 ∷ 5 ∷ 6 ∷ 7 ∷ 8 ∷ 9 ∷ 10 ∷ 11 ∷ 12 ∷ 8 ∷ 0 ∷ 21 ∷ 22 ∷
        [])).payload ≡ 21 ∷ 22 ∷ [] }
{}
