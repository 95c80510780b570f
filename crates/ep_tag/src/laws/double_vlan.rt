//! Laws of two VLAN tags (IEEE 802.1Q, section 9.6).
ghost use Rattle.std.specs.Prelude.{◌≡◌, ℕ, List, [], ◌∷◌, ◌++◌, true, false, Err, IsOkAnd};
ghost use Rattle.ep_base.specs.Bytes.{IsBytes};
ghost use Rattle.ep_base.specs.LenError.{too_few_bytes};
ghost use Rattle.ep_base.specs.declared.err.layer.Layer.TheVariants as layer;
ghost use Rattle.ep_base.specs.declared.err.slice_error.SliceError.TheVariants.{Content, Len};
ghost use Rattle.ep_tag.specs.DoubleVlan.{IsDoubleVlanHeader, double_vlan_at, double_vlan_header_of, no_vlan_type};
ghost use Rattle.ep_tag.specs.Vlan.{double_encoding, is_vlan_type};
ghost use Rattle.ep_base.specs.Prefixes.{TakesPrefix};

use super::vlan;
use crate::DoubleVlanHeader;
use crate::err::double_vlan::HeaderSliceError;

/// The bytes of two tags encode them, and are a header where the outer tag's ether type names a VLAN
/// tag; the bytes of such a header have fields that encode it again.
pub fn headers_are_their_bytes(header: &DoubleVlanHeader)
    ensures header { is_vlan_type header.now.outer.ether_type ≡ true
        → IsDoubleVlanHeader (double_encoding header.now) }
    ensures fields { double_vlan_header_of (double_encoding header.now) ≡ header.now }
    ensures again { (bytes : List ℕ) → IsDoubleVlanHeader bytes → IsBytes bytes
        → double_encoding (double_vlan_header_of bytes) ≡ bytes }
{
    vlan::headers_are_their_bytes(&header.outer);
    vlan::headers_are_their_bytes(&header.inner);
}

/// A header at the start of bytes is taken, whatever follows it, and nothing else is.
pub fn headers_are_found()
    ensures { (bytes : List ℕ) → TakesPrefix IsDoubleVlanHeader bytes (double_vlan_at bytes) }
{}

/// What `to_bytes` gives is read again, whatever follows it, where the outer tag's ether type names
/// a VLAN tag.
pub fn header_is_read_again<'a>(
    header: &DoubleVlanHeader,
    slice: &'a [u8],
) -> Result<(DoubleVlanHeader, &'a [u8]), HeaderSliceError>
    ensures { (rest : List ℕ) → is_vlan_type header.now.outer.ether_type ≡ true
        → slice.now ≡ double_encoding header.now ++ rest
        → IsOkAnd result (λ r. (r.0 ≡ header.now) × (r.1.now ≡ rest)) }
{
    headers_are_their_bytes(header);
    DoubleVlanHeader::from_slice(slice)
}

/// Priority 5, drop eligible and identifier 0123 before priority 0 and identifier 0004, with two bytes
/// after them; and the two faults: seven bytes, and an ether type of IPv4 after the outer tag.
pub fn fields_at_literals()
    ensures fields { double_vlan_header_of (0xb1 ∷ 0x23 ∷ 0x81 ∷ 0 ∷ 0 ∷ 4 ∷ 8 ∷ 0 ∷ []) ≡ record {
      outer = record {
        pcp = 5;
        drop_eligible_indicator = true;
        vlan_id = 0x123;
        ether_type = record { 0 = 0x8100 };
      };
      inner = record {
        pcp = 0;
        drop_eligible_indicator = false;
        vlan_id = 4;
        ether_type = record { 0 = 0x0800 };
      };
    } }
    ensures short { double_vlan_at (0xb1 ∷ 0x23 ∷ 8 ∷ 0 ∷ 0 ∷ 4 ∷ 8 ∷ [])
        ≡ Err (Len (too_few_bytes layer.VlanHeader 8 7)) }
    ensures other { double_vlan_at (0xb1 ∷ 0x23 ∷ 8 ∷ 0 ∷ 0 ∷ 4 ∷ 8 ∷ 0 ∷ [])
        ≡ Err (Content (no_vlan_type (record { 0 = 0x0800 }))) }
    ensures provider { is_vlan_type (record { 0 = 0x88a8 }) ≡ true }
    ensures older { is_vlan_type (record { 0 = 0x9100 }) ≡ true }
    ensures macsec { is_vlan_type (record { 0 = 0x88e5 }) ≡ false }
{}
