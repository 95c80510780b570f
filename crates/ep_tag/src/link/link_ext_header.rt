//! VLAN tags or MACsec headers as values.
ghost use Rattle.std.specs.Prelude.{◌≡◌, ◌+◌, ◌≤◌, ◌++◌, length, OnOk, OnErr, IsOk, vec_len, vec_capacity};
ghost use Rattle.ep_tag.specs.LinkExt.{tag_encoding, next_type_in};
ghost use Rattle.ep_tag.specs.Vlan.{default_header};
ghost use Rattle.ep_tag.specs.declared.link.link_ext_header.LinkExtHeader.TheVariants as header;

use super::{MacsecHeader, SingleVlanHeader};
use ep_base::EtherType;
use std::alloc::AllocError;

/// A tag between a link header and the packet.
#[derive(Clone, Debug, PartialEq, Eq, Drop)]
pub enum LinkExtHeader {
    /// A VLAN tag.
    Vlan(SingleVlanHeader),
    /// A MACsec header.
    Macsec(MacsecHeader),
}

impl LinkExtHeader {
    /// The length of the tag in bytes.
    pub fn header_len(&self) -> usize
        ensures { result ≡ length (tag_encoding self.now) }
    {
        match self {
            LinkExtHeader::Vlan(header) => header.header_len(),
            LinkExtHeader::Macsec(header) => header.header_len(),
        }
    }

    /// The ether type of what follows the tag, where it has one: none after a modified
    /// MACsec payload.
    pub fn next_ether_type(&self) -> Option<EtherType>
        ensures { result ≡ next_type_in self.now }
    {
        match self {
            LinkExtHeader::Vlan(header) => Some(header.ether_type),
            LinkExtHeader::Macsec(header) => header.next_ether_type(),
        }
    }

    /// Appends the bytes of the tag.
    pub fn write(&self, buffer: &mut Vec<u8>) -> Result<(), AllocError>
        ensures ok { OnOk result (buffer.new.items ≡ buffer.old.items ++ tag_encoding self.now) }
        ensures len { OnOk result (vec_len buffer.new
            ≡ vec_len buffer.old + length (tag_encoding self.now)) }
        ensures err { OnErr result (buffer.new.items ≡ buffer.old.items) }
        // It fails only where capacity was missing, and capacity never shrinks.
        ensures succeeds { vec_len buffer.old + length (tag_encoding self.now)
            ≤ vec_capacity buffer.old → IsOk result }
        ensures capacity { vec_capacity buffer.old ≤ vec_capacity buffer.new }
    {
        match self {
            LinkExtHeader::Vlan(header) => header.write(buffer),
            LinkExtHeader::Macsec(header) => header.write(buffer),
        }
    }
}

impl Default for LinkExtHeader {
    ghost is_default = { λ h. h ≡ header.Vlan default_header };

    /// A VLAN tag that is 0 in every field.
    fn default() -> Self {
        LinkExtHeader::Vlan(SingleVlanHeader::default())
    }
}
