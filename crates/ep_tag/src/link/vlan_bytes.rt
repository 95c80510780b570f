//! The bytes of a VLAN tag, alone or with what follows it.
ghost use Rattle.std.specs.Prelude.{◌≡◌, ◌≤◌, ℕ, List, length, nat_eq};
ghost use Rattle.std.specs.Cmp.Lexicographic.{pointwise};
ghost use Rattle.std.specs.Cmp.Rules.{comparing};
ghost use Rattle.std.proofs.Common.{rules};
ghost use Rattle.ep_tag.specs.Vlan.{vlan_len, pcp_of, drop_eligible_of, vlan_id_of, next_type_of};
ghost use Rattle.ep_tag.specs.Vlan.{single_vlan_header_of};

use super::{SingleVlanHeader, VlanId, VlanPcp};
use ep_base::EtherType;
use std::fmt;
use std::marker::Model;

/// A VLAN tag (IEEE 802.1Q, section 9.6), borrowed: a slice of at most `MOST` bytes that begins
/// with the tag. A contract sees the value as those bytes.
#[derive(Clone, Drop)]
pub struct VlanBytes<'a, const MOST: usize> {
    pub(super) slice: &'a [u8],
}

impl<'a, const MOST: usize> Model for VlanBytes<'a, MOST> {
    ghost Value = { List ℕ };

    ghost view = { λ tag. tag.slice.now };

    ghost invariant = { λ tag. (vlan_len ≤ length tag.slice.now) × (length tag.slice.now ≤ MOST) };
}

#[tactic(auto, using(crate::proofs::Bits::masks))]
impl<'a, const MOST: usize> VlanBytes<'a, MOST> {
    /// The priority code point.
    pub fn priority_code_point(&self) -> VlanPcp
        ensures { result ≡ pcp_of self.now }
    {
        VlanPcp::try_new(self.slice[0] >> 5).unwrap()
    }

    /// Whether the frame may be dropped first.
    pub fn drop_eligible_indicator(&self) -> bool
        ensures { result ≡ drop_eligible_of self.now }
    {
        self.slice[0] & 0x10 != 0
    }

    /// The identifier of the VLAN.
    pub fn vlan_identifier(&self) -> VlanId
        ensures { result ≡ vlan_id_of self.now }
    {
        let tag_control = u16::from_be_bytes([self.slice[0], self.slice[1]]);
        VlanId::try_new(tag_control & VlanId::MAX_U16).unwrap()
    }

    /// The ether type of what follows the tag.
    pub fn ether_type(&self) -> EtherType
        ensures { result ≡ next_type_of self.now }
    {
        EtherType(u16::from_be_bytes([self.slice[2], self.slice[3]]))
    }

    /// The fields of the tag.
    pub fn to_header(&self) -> SingleVlanHeader
        ensures { result ≡ single_vlan_header_of self.now }
    {
        SingleVlanHeader {
            pcp: self.priority_code_point(),
            drop_eligible_indicator: self.drop_eligible_indicator(),
            vlan_id: self.vlan_identifier(),
            ether_type: self.ether_type(),
        }
    }
}

impl<'a, const MOST: usize> fmt::Debug for VlanBytes<'a, MOST> {
    fn fmt<W: fmt::Write>(&self, f: &mut fmt::Formatter<W>) -> fmt::Result {
        let name = if MOST == SingleVlanHeader::LEN {
            "SingleVlanHeaderSlice"
        } else {
            "SingleVlanSlice"
        };
        f.debug_struct(name).field("slice", &self.slice).finish()
    }
}

impl<'a, const MOST: usize> PartialEq for VlanBytes<'a, MOST> {
    ghost eq = { pointwise nat_eq };

    ghost laws = { Prim.search (comparing, rules) };

    fn eq(&self, other: &Self) -> bool {
        self.slice == other.slice
    }
}

impl<'a, const MOST: usize> Eq for VlanBytes<'a, MOST> {
    ghost laws = { Prim.search (comparing, rules) };
}
