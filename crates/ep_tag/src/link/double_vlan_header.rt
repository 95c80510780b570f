//! An outer and an inner VLAN tag as a value.
ghost use Rattle.std.specs.Prelude.{◌≡◌, ◌+◌, ◌≤◌, ◌++◌, ℕ, List, Err, OnOk, OnErr, IsOk, IfOk, IfErr, IsOkAnd};
ghost use Rattle.std.specs.Prelude.{vec_len, vec_capacity};
ghost use Rattle.ep_base.specs.SliceError.{content_offset};
ghost use Rattle.ep_tag.specs.DoubleVlan.{IsDoubleVlanHeader, IsRead, double_vlan_at, double_vlan_header_of};
ghost use Rattle.ep_tag.specs.Vlan.{double_encoding};

use super::{DoubleVlanHeaderSlice, SingleVlanHeader};
use crate::err::double_vlan::HeaderSliceError;
use std::alloc::AllocError;

/// Two VLAN tags, one after the other (IEEE 802.1Q, section 9.6; the outer one is the provider's).
#[derive(Clone, Debug, PartialEq, Eq, Drop)]
pub struct DoubleVlanHeader {
    /// The tag that comes first.
    pub outer: SingleVlanHeader,
    /// The tag after it.
    pub inner: SingleVlanHeader,
}

impl DoubleVlanHeader {
    /// The length of two VLAN tags in bytes.
    pub const LEN: usize = 8;

    /// The tags at the start of the slice, and the bytes after them. Refused are, in this order, a slice
    /// of fewer than 8 bytes, and an outer tag whose ether type names no VLAN tag (8100, 88a8, 9100).
    pub fn from_slice(slice: &[u8]) -> Result<(DoubleVlanHeader, &[u8]), HeaderSliceError>
        // The start of the slice are two tags, and they are read so.
        ensures found { IfOk result (λ r. IsRead slice.now r.0 r.1.now) }
        // A prefix of two tags is read.
        ensures only { (prefix rest : List ℕ) → IsDoubleVlanHeader prefix → slice.now ≡ prefix ++ rest
            → IsOkAnd result (λ r. (r.0 ≡ double_vlan_header_of prefix) × (r.1.now ≡ rest)) }
        // Else it is the first fault.
        ensures err { IfErr result (λ e. double_vlan_at slice.now ≡ Err e) }
        ensures offset { IfErr result (λ e. content_offset e ≡ 0) }
    {
        let header = DoubleVlanHeaderSlice::from_slice(slice)?;
        let rest = &slice[DoubleVlanHeader::LEN..];
        Ok((header.to_header(), rest))
    }

    /// The length of two VLAN tags in bytes.
    pub fn header_len(&self) -> usize
        ensures { result ≡ 8 }
    {
        DoubleVlanHeader::LEN
    }

    /// The bytes of both tags, the outer one first.
    pub fn to_bytes(&self) -> [u8; 8]
        ensures { result ≡ double_encoding self.now }
    {
        let outer = self.outer.to_bytes();
        let inner = self.inner.to_bytes();
        [
            outer[0], outer[1], outer[2], outer[3], inner[0], inner[1], inner[2], inner[3],
        ]
    }

    /// Appends the bytes of both tags, the outer one first.
    pub fn write(&self, buffer: &mut Vec<u8>) -> Result<(), AllocError>
        ensures ok { OnOk result (buffer.new.items ≡ buffer.old.items ++ double_encoding self.now) }
        ensures len { OnOk result (vec_len buffer.new ≡ vec_len buffer.old + 8) }
        ensures err { OnErr result (buffer.new.items ≡ buffer.old.items) }
        // It fails only where capacity was missing, and capacity never shrinks.
        ensures succeeds { vec_len buffer.old + 8 ≤ vec_capacity buffer.old → IsOk result }
        ensures capacity { vec_capacity buffer.old ≤ vec_capacity buffer.new }
    {
        buffer.extend_from_slice(&self.to_bytes())
    }
}
