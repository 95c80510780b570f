//! One or two VLAN tags with their payload, borrowed.
ghost use Rattle.std.specs.Prelude.{◌≡◌};
ghost use Rattle.ep_tag.specs.VlanForms.{fields_of, last_payload_of, tags_len_of};

use super::{DoubleVlanSlice, EtherPayloadSlice, SingleVlanSlice, VlanHeader};

/// One VLAN tag or two (IEEE 802.1Q, section 9.6), with what follows, borrowed.
#[derive(Clone, Debug, PartialEq, Eq, Drop)]
pub enum VlanSlice<'a> {
    /// One tag.
    SingleVlan(SingleVlanSlice<'a>),
    /// Two tags.
    DoubleVlan(DoubleVlanSlice<'a>),
}

impl<'a> VlanSlice<'a> {
    /// The fields of the tags.
    pub fn to_header(&self) -> VlanHeader
        ensures { result ≡ fields_of self.now }
    {
        match self {
            VlanSlice::SingleVlan(tag) => VlanHeader::Single(tag.to_header()),
            VlanSlice::DoubleVlan(tags) => VlanHeader::Double(tags.to_header()),
        }
    }

    /// The length of the tags in bytes: 4 or 8.
    pub fn header_len(&self) -> usize
        ensures { result ≡ tags_len_of self.now }
    {
        match self {
            VlanSlice::SingleVlan(tag) => tag.header_len(),
            VlanSlice::DoubleVlan(tags) => tags.header_len(),
        }
    }

    /// What follows the last tag, under its ether type.
    pub fn payload(&self) -> EtherPayloadSlice<'a>
        ensures { result ≡ last_payload_of self.now }
    {
        match self {
            VlanSlice::SingleVlan(tag) => tag.payload(),
            VlanSlice::DoubleVlan(tags) => tags.payload(),
        }
    }
}
