//! An outer and an inner VLAN tag with the payload of each, borrowed.
ghost use Rattle.std.specs.Prelude.{◌≡◌, drop};
ghost use Rattle.ep_tag.specs.Vlan.{vlan_len, single_vlan_header_of, payload_of};

use super::{DoubleVlanHeader, EtherPayloadSlice, SingleVlanSlice};

/// Two VLAN tags (IEEE 802.1Q, section 9.6), each with what follows it, borrowed.
#[derive(Clone, Debug, PartialEq, Eq, Drop)]
pub struct DoubleVlanSlice<'a> {
    /// The tag that comes first.
    pub outer: SingleVlanSlice<'a>,
    /// The tag after it, mostly directly, else with a MACsec header between.
    pub inner: SingleVlanSlice<'a>,
}

impl<'a> DoubleVlanSlice<'a> {
    /// The length of two VLAN tags in bytes.
    pub fn header_len(&self) -> usize
        ensures { result ≡ 8 }
    {
        DoubleVlanHeader::LEN
    }

    /// What follows the inner tag, under its ether type.
    pub fn payload(&self) -> EtherPayloadSlice<'a>
        ensures { result ≡ payload_of self.now.inner }
    {
        self.inner.payload()
    }

    /// The bytes after the inner tag.
    pub fn payload_slice(&self) -> &'a [u8]
        ensures { result.now ≡ drop vlan_len self.now.inner }
    {
        self.inner.payload_slice()
    }

    /// The fields of both tags.
    pub fn to_header(&self) -> DoubleVlanHeader
        ensures { result
            ≡ record {
              outer = single_vlan_header_of self.now.outer;
              inner = single_vlan_header_of
                  self.now.inner;
            } }
    {
        DoubleVlanHeader {
            outer: self.outer.to_header(),
            inner: self.inner.to_header(),
        }
    }
}
