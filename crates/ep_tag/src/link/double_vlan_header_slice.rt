//! An outer and an inner VLAN tag as borrowed bytes.
ghost use Rattle.std.specs.Prelude.{◌≡◌, ℕ, List, IfErr, nat_eq};
ghost use Rattle.std.specs.Cmp.Lexicographic.{pointwise};
ghost use Rattle.std.specs.Cmp.Rules.{comparing};
ghost use Rattle.std.proofs.Common.{rules};
ghost use Rattle.ep_base.specs.SliceError.{content_offset};
ghost use Rattle.ep_tag.specs.DoubleVlan.{IsDoubleVlanHeader, double_vlan_at, double_vlan_header_of, inner_of};
ghost use Rattle.ep_tag.specs.DoubleVlan.{outer_of};
ghost use Rattle.ep_tag.specs.Vlan.{is_vlan_type};

use super::{DoubleVlanHeader, SingleVlanHeader, SingleVlanHeaderSlice};
use crate::err::double_vlan::{HeaderError, HeaderSliceError};
use ep_base::EtherType;
use ep_base::err::{Layer, LenError};
use std::marker::Model;

/// The 8 bytes of two VLAN tags, one directly after the other (IEEE 802.1Q, section 9.6), borrowed.
/// They were tested when the value was made. A contract sees the value as those bytes.
#[derive(Clone, Debug, Drop)]
pub struct DoubleVlanHeaderSlice<'a> {
    slice: &'a [u8],
}

impl<'a> Model for DoubleVlanHeaderSlice<'a> {
    ghost Value = { List ℕ };

    ghost view = { λ header. header.slice.now };

    ghost invariant = { λ header. IsDoubleVlanHeader header.slice.now };
}

impl<'a> DoubleVlanHeaderSlice<'a> {
    /// The tags at the start of the slice. Refused are, in this order, a slice of fewer than 8 bytes,
    /// and an outer tag whose ether type names no VLAN tag (8100, 88a8, 9100).
    pub fn from_slice(slice: &'a [u8]) -> Result<DoubleVlanHeaderSlice<'a>, HeaderSliceError>
        // The tags, or the first fault: law `double_vlan::headers_are_found`.
        ensures exact { result ≡ double_vlan_at slice.now }
        ensures offset { IfErr result (λ e. content_offset e ≡ 0) }
    {
        if slice.len() < DoubleVlanHeader::LEN {
            return Err(HeaderSliceError::Len(LenError::too_few_bytes(
                Layer::VlanHeader,
                DoubleVlanHeader::LEN,
                slice.len(),
            )));
        }
        let ether_type = EtherType(u16::from_be_bytes([slice[2], slice[3]]));
        if !is_vlan_type(ether_type) {
            return Err(HeaderSliceError::Content(HeaderError::NonVlanEtherType {
                unexpected_ether_type: ether_type,
            }));
        }
        Ok(DoubleVlanHeaderSlice {
            slice: &slice[..DoubleVlanHeader::LEN],
        })
    }

    /// The 8 bytes of both tags.
    pub fn slice(&self) -> &'a [u8]
        ensures bytes { result.now ≡ self.now }
        ensures header { IsDoubleVlanHeader self.now }
    {
        self.slice
    }

    /// The tag that comes first.
    pub fn outer(&self) -> SingleVlanHeaderSlice<'a>
        ensures { result ≡ outer_of self.now }
    {
        SingleVlanHeaderSlice {
            slice: &self.slice[..SingleVlanHeader::LEN],
        }
    }

    /// The tag after it.
    pub fn inner(&self) -> SingleVlanHeaderSlice<'a>
        ensures { result ≡ inner_of self.now }
    {
        SingleVlanHeaderSlice {
            slice: &self.slice[SingleVlanHeader::LEN..],
        }
    }

    /// The fields of both tags.
    pub fn to_header(&self) -> DoubleVlanHeader
        ensures { result ≡ double_vlan_header_of self.now }
    {
        DoubleVlanHeader {
            outer: self.outer().to_header(),
            inner: self.inner().to_header(),
        }
    }
}

fn is_vlan_type(ether_type: EtherType) -> bool
    ensures { result ≡ is_vlan_type ether_type }
{
    ether_type == EtherType::VLAN_TAGGED_FRAME
        || ether_type == EtherType::PROVIDER_BRIDGING
        || ether_type == EtherType::VLAN_DOUBLE_TAGGED_FRAME
}

impl<'a> PartialEq for DoubleVlanHeaderSlice<'a> {
    ghost eq = { pointwise nat_eq };

    ghost laws = { Prim.search (comparing, rules) };

    fn eq(&self, other: &Self) -> bool {
        self.slice == other.slice
    }
}

impl<'a> Eq for DoubleVlanHeaderSlice<'a> {
    ghost laws = { Prim.search (comparing, rules) };
}
