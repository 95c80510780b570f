//! Laws of VLAN tags (IEEE 802.1Q, section 9.6).
ghost use Rattle.std.specs.Prelude.{◌≡◌, ℕ, List, [], ◌∷◌, ◌++◌, length, true, IsOkAnd};
ghost use Rattle.ep_base.specs.Bytes.{IsBytes};
ghost use Rattle.ep_tag.specs.Vlan.{vlan_len, single_vlan_header_of, encoding, payload_of};

use crate::{DoubleVlanHeader, SingleVlanHeader};
use ep_base::err::LenError;

/// The lengths of one and two tags in bytes.
pub fn header_lengths() -> [usize; 2]
    ensures { result ≡ 4 ∷ 8 ∷ [] }
{
    [SingleVlanHeader::LEN, DoubleVlanHeader::LEN]
}

/// Headers and lists of 4 bytes are each other's: a header's bytes are such a list, which encodes
/// the header, and such a list encodes a header whose bytes it is.
pub fn headers_are_their_bytes(header: &SingleVlanHeader)
    ensures header { length (encoding header.now) ≡ vlan_len }
    ensures fields { single_vlan_header_of (encoding header.now) ≡ header.now }
    ensures again { (tag : List ℕ) → length tag ≡ vlan_len → IsBytes tag
        → encoding (single_vlan_header_of tag) ≡ tag }
{
    let _bytes = header.to_bytes();
}

/// What `to_bytes` gives is read again, whatever follows it.
pub fn header_is_read_again<'a>(
    header: &SingleVlanHeader,
    slice: &'a [u8],
) -> Result<(SingleVlanHeader, &'a [u8]), LenError>
    ensures { (rest : List ℕ) → slice.now ≡ encoding header.now ++ rest
        → IsOkAnd result (λ r. (r.0 ≡ header.now) × (r.1.now ≡ rest)) }
{
    let _bytes = header.to_bytes();
    SingleVlanHeader::from_slice(slice)
}

/// Priority 5, drop eligible, identifier 0123 and ether type 86dd, with two bytes after them.
pub fn fields_at_literals()
    ensures fields { single_vlan_header_of (0xb1 ∷ 0x23 ∷ 0x86 ∷ 0xdd ∷ 7 ∷ 8 ∷ []) ≡ record {
      pcp = 5;
      drop_eligible_indicator = true;
      vlan_id = 0x123;
      ether_type = record { 0 = 0x86dd };
    } }
    ensures payload { (payload_of (0xb1 ∷ 0x23 ∷ 0x86 ∷ 0xdd ∷ 7 ∷ 8 ∷ [])).payload ≡ 7 ∷ 8 ∷ [] }
{}
