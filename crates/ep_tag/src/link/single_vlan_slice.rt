//! VLAN tags with all bytes after them, borrowed.
ghost use Rattle.std.specs.Prelude.{◌≡◌, ◌≤◌, length, take, drop, replicate, IfErr};
ghost use Rattle.ep_base.specs.declared.err.layer.Layer.TheVariants as layer;
ghost use Rattle.ep_tag.specs.Prefix.{whole_at};
ghost use Rattle.ep_tag.specs.Vlan.{vlan_len, payload_of};

use super::vlan_bytes::VlanBytes;
use super::{EtherPayloadSlice, SingleVlanHeader};
use ep_base::LenSource;
use ep_base::err::{Layer, LenError};

// As many bytes as a slice has.
const MOST: usize = usize::MAX;

/// A VLAN tag (IEEE 802.1Q, section 9.6) and all bytes after it, borrowed. A contract sees the
/// value as the bytes of both.
pub type SingleVlanSlice<'a> = VlanBytes<'a, { MOST }>;

impl<'a> VlanBytes<'a, { MOST }> {
    /// The tag at the start of the slice, and what follows it. A slice of fewer than 4 bytes is
    /// refused.
    pub fn from_slice(slice: &'a [u8]) -> Result<SingleVlanSlice<'a>, LenError>
        ensures exact { result ≡ whole_at layer.VlanHeader vlan_len slice.now }
        ensures offset { IfErr result (λ e. e.layer_start_offset ≡ 0) }
    {
        if slice.len() < SingleVlanHeader::LEN {
            return Err(LenError::too_few_bytes(
                Layer::VlanHeader,
                SingleVlanHeader::LEN,
                slice.len(),
            ));
        }
        Ok(VlanBytes { slice })
    }

    // Four zero bytes.
    pub(crate) fn zeroed() -> SingleVlanSlice<'a>
        ensures { result ≡ replicate 4 0 }
    {
        VlanBytes { slice: b"\0\0\0\0" }
    }

    /// The tag and all bytes after it.
    pub fn slice(&self) -> &'a [u8]
        ensures bytes { result.now ≡ self.now }
        ensures least { vlan_len ≤ length self.now }
    {
        self.slice
    }

    /// The tag's 4 bytes.
    pub fn header_slice(&self) -> &'a [u8]
        ensures { result.now ≡ take vlan_len self.now }
    {
        &self.slice[..SingleVlanHeader::LEN]
    }

    /// The length of a VLAN tag in bytes.
    pub fn header_len(&self) -> usize
        ensures { result ≡ 4 }
    {
        SingleVlanHeader::LEN
    }

    /// What follows the tag, under the tag's ether type.
    pub fn payload(&self) -> EtherPayloadSlice<'a>
        ensures payload { result ≡ payload_of self.now }
        ensures least { vlan_len ≤ length self.now }
    {
        let _tag = &self.slice;
        EtherPayloadSlice {
            ether_type: self.ether_type(),
            len_source: LenSource::Slice,
            payload: self.payload_slice(),
        }
    }

    /// The bytes after the tag.
    pub fn payload_slice(&self) -> &'a [u8]
        ensures { result.now ≡ drop vlan_len self.now }
    {
        &self.slice[SingleVlanHeader::LEN..]
    }
}
