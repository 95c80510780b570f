//! VLAN tags as borrowed bytes.
ghost use Rattle.std.specs.Prelude.{◌≡◌, length, IfErr};
ghost use Rattle.ep_base.specs.declared.err.layer.Layer.TheVariants as layer;
ghost use Rattle.ep_tag.specs.Prefix.{prefix_at};
ghost use Rattle.ep_tag.specs.Vlan.{vlan_len};

use super::SingleVlanHeader;
use super::vlan_bytes::VlanBytes;
use ep_base::err::{Layer, LenError};

/// The 4 bytes of a VLAN tag (IEEE 802.1Q, section 9.6), borrowed. A contract sees the value as
/// those bytes.
pub type SingleVlanHeaderSlice<'a> = VlanBytes<'a, 4>;

impl<'a> VlanBytes<'a, 4> {
    /// The tag at the start of the slice. A slice of fewer than 4 bytes is refused.
    pub fn from_slice(slice: &'a [u8]) -> Result<SingleVlanHeaderSlice<'a>, LenError>
        // The first four bytes: law `prefix::prefixes_are_found`.
        ensures exact { result ≡ prefix_at layer.VlanHeader vlan_len slice.now }
        ensures offset { IfErr result (λ e. e.layer_start_offset ≡ 0) }
    {
        if slice.len() < SingleVlanHeader::LEN {
            return Err(LenError::too_few_bytes(
                Layer::VlanHeader,
                SingleVlanHeader::LEN,
                slice.len(),
            ));
        }
        Ok(VlanBytes {
            slice: &slice[..SingleVlanHeader::LEN],
        })
    }

    // The tag of four bytes.
    pub(crate) fn of_bytes(bytes: &'a [u8; 4]) -> SingleVlanHeaderSlice<'a>
        ensures { result ≡ bytes.now }
    {
        VlanBytes { slice: bytes }
    }

    /// The tag's 4 bytes.
    pub fn slice(&self) -> &'a [u8]
        ensures bytes { result.now ≡ self.now }
        ensures len { length self.now ≡ vlan_len }
    {
        self.slice
    }
}
