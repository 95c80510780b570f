//! VLAN tags as values.
ghost use Rattle.std.specs.Prelude.{◌≡◌, ◌+◌, ◌^◌, ◌≤◌, List, ℕ, if◌then◌else◌, ◌++◌, length, OnOk, OnErr, IsOk, IfOk};
ghost use Rattle.std.specs.Prelude.{IfErr, IsOkAnd, Err, Bool, false, vec_len, vec_capacity};
ghost use Rattle.ep_base.specs.declared.err.layer.Layer.TheVariants as layer;
ghost use Rattle.ep_tag.specs.Prefix.{prefix_at};
ghost use Rattle.ep_tag.specs.Vlan.{vlan_len, default_header, single_vlan_header_of, encoding, IsRead, Fits};

use super::{SingleVlanHeaderSlice, VlanId, VlanPcp};
use ep_base::EtherType;
use ep_base::err::LenError;
use std::alloc::AllocError;

/// A VLAN tag (IEEE 802.1Q, section 9.6). Its 4 bytes hold numbers high byte first.
#[derive(Clone, Debug, PartialEq, Eq, Drop)]
pub struct SingleVlanHeader {
    /// The priority code point.
    pub pcp: VlanPcp,
    /// Whether the frame may be dropped first.
    pub drop_eligible_indicator: bool,
    /// The identifier of the VLAN.
    pub vlan_id: VlanId,
    /// The ether type of what follows the tag.
    pub ether_type: EtherType,
}

impl SingleVlanHeader {
    /// The length of a VLAN tag in bytes.
    pub const LEN: usize = 4;

    /// The tag at the start of the slice, and the bytes after it. A slice of fewer than 4 bytes is
    /// refused.
    pub fn from_slice(slice: &[u8]) -> Result<(SingleVlanHeader, &[u8]), LenError>
        // The start of the slice is a tag, and is read so.
        ensures found { IfOk result (λ r. IsRead slice.now r.0 r.1.now) }
        // Any four bytes are read.
        ensures only { (prefix rest : List ℕ) → length prefix ≡ vlan_len → slice.now ≡ prefix ++ rest
            → IsOkAnd result (λ r. (r.0 ≡ single_vlan_header_of prefix) × (r.1.now ≡ rest)) }
        ensures err { IfErr result (λ e. prefix_at layer.VlanHeader vlan_len slice.now ≡ Err e) }
        ensures offset { IfErr result (λ e. e.layer_start_offset ≡ 0) }
    {
        let header = SingleVlanHeaderSlice::from_slice(slice)?;
        let rest = &slice[SingleVlanHeader::LEN..];
        Ok((header.to_header(), rest))
    }

    /// The fields that four bytes encode.
    pub fn from_bytes(bytes: [u8; 4]) -> SingleVlanHeader
        ensures { result ≡ single_vlan_header_of bytes }
    {
        SingleVlanHeaderSlice::of_bytes(&bytes).to_header()
    }

    /// The length of a VLAN tag in bytes.
    pub fn header_len(&self) -> usize
        ensures { result ≡ 4 }
    {
        SingleVlanHeader::LEN
    }

    /// The bytes of the tag.
    pub fn to_bytes(&self) -> [u8; 4]
        ensures bytes { result ≡ encoding self.now }
        // They encode these fields.
        ensures fields { single_vlan_header_of result ≡ self.now }
    {
        self.encoded()
    }

    fn encoded(&self) -> [u8; 4]
        ensures bytes { result ≡ encoding self.now }
        ensures fits { Fits self.now }
    {
        let priority = u16::from(self.pcp.value()) << 13;
        let tag_control = (priority
            | self.drop_eligible_bit()
            | self.vlan_id.value()).to_be_bytes();
        let ether_type = self.ether_type.0.to_be_bytes();
        [tag_control[0], tag_control[1], ether_type[0], ether_type[1]]
    }

    fn drop_eligible_bit(&self) -> u16
        ensures { result ≡ (if self.now.drop_eligible_indicator then 2 ^ 12 else 0) }
    {
        if self.drop_eligible_indicator {
            1 << 12
        } else {
            0
        }
    }

    /// Appends the bytes of the tag.
    pub fn write(&self, buffer: &mut Vec<u8>) -> Result<(), AllocError>
        ensures ok { OnOk result (buffer.new.items ≡ buffer.old.items ++ encoding self.now) }
        ensures len { OnOk result (vec_len buffer.new ≡ vec_len buffer.old + vlan_len) }
        ensures err { OnErr result (buffer.new.items ≡ buffer.old.items) }
        // It fails only where capacity was missing, and capacity never shrinks.
        ensures succeeds { vec_len buffer.old + vlan_len ≤ vec_capacity buffer.old → IsOk result }
        ensures capacity { vec_capacity buffer.old ≤ vec_capacity buffer.new }
    {
        buffer.extend_from_slice(&self.to_bytes())
    }
}

impl Default for SingleVlanHeader {
    ghost is_default = { λ header. header ≡ default_header };

    /// 0 in every field.
    fn default() -> Self {
        SingleVlanHeader {
            pcp: VlanPcp::ZERO,
            drop_eligible_indicator: false,
            vlan_id: VlanId::ZERO,
            ether_type: EtherType(0),
        }
    }
}
