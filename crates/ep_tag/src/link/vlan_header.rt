//! One or two VLAN tags as a value.
ghost use Rattle.std.specs.Prelude.{◌≡◌, ◌+◌, ◌≤◌, ◌++◌, length, OnOk, OnErr, IsOk, vec_len, vec_capacity};
ghost use Rattle.ep_tag.specs.VlanForms.{tags_encoding, last_type_in};

use super::{DoubleVlanHeader, SingleVlanHeader};
use ep_base::EtherType;
use std::alloc::AllocError;

/// One VLAN tag or two (IEEE 802.1Q, section 9.6).
#[derive(Clone, Debug, PartialEq, Eq, Drop)]
pub enum VlanHeader {
    /// One tag.
    Single(SingleVlanHeader),
    /// Two tags, one after the other.
    Double(DoubleVlanHeader),
}

impl VlanHeader {
    /// The ether type of what follows the last tag.
    pub fn next_header(&self) -> EtherType
        ensures { result ≡ last_type_in self.now }
    {
        match self {
            VlanHeader::Single(header) => header.ether_type,
            VlanHeader::Double(header) => header.inner.ether_type,
        }
    }

    /// The length of the tags in bytes: 4 or 8.
    pub fn header_len(&self) -> usize
        ensures { result ≡ length (tags_encoding self.now) }
    {
        match self {
            VlanHeader::Single(_) => SingleVlanHeader::LEN,
            VlanHeader::Double(_) => DoubleVlanHeader::LEN,
        }
    }

    /// Appends the bytes of the tags, the outer one first.
    pub fn write(&self, buffer: &mut Vec<u8>) -> Result<(), AllocError>
        ensures ok { OnOk result (buffer.new.items ≡ buffer.old.items ++ tags_encoding self.now) }
        ensures len { OnOk result (vec_len buffer.new
            ≡ vec_len buffer.old + length (tags_encoding self.now)) }
        ensures err { OnErr result (buffer.new.items ≡ buffer.old.items) }
        // It fails only where capacity was missing, and capacity never shrinks.
        ensures succeeds { vec_len buffer.old + length (tags_encoding self.now)
            ≤ vec_capacity buffer.old → IsOk result }
        ensures capacity { vec_capacity buffer.old ≤ vec_capacity buffer.new }
    {
        match self {
            VlanHeader::Single(header) => header.write(buffer),
            VlanHeader::Double(header) => header.write(buffer),
        }
    }
}
