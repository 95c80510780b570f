//! VLAN tags or MACsec headers with their payloads, borrowed.
ghost use Rattle.std.specs.Prelude.{◌≡◌, ◌≤◌, replicate};
ghost use Rattle.ep_tag.specs.LinkExt.{tag_len, fields_of, payload_after};
ghost use Rattle.ep_tag.specs.declared.link.link_ext_slice.LinkExtSlice.TheVariants as tag;

use super::{EtherPayloadSlice, LinkExtHeader, MacsecSlice, SingleVlanSlice};

/// A tag between a link header and the packet, with what follows it, borrowed.
#[derive(Clone, Debug, PartialEq, Eq, Drop)]
pub enum LinkExtSlice<'a> {
    /// A VLAN tag.
    Vlan(SingleVlanSlice<'a>),
    /// A MACsec header.
    Macsec(MacsecSlice<'a>),
}

impl<'a> LinkExtSlice<'a> {
    /// The length of the tag itself in bytes.
    pub fn header_len(&self) -> usize
        ensures len { result ≡ tag_len self.now }
        ensures most { result ≤ 16 }
    {
        match self {
            LinkExtSlice::Vlan(vlan) => vlan.header_len(),
            LinkExtSlice::Macsec(macsec) => macsec.header.header_len(),
        }
    }

    /// The fields of the tag.
    pub fn to_header(&self) -> LinkExtHeader
        ensures { result ≡ fields_of self.now }
    {
        match self {
            LinkExtSlice::Vlan(vlan) => LinkExtHeader::Vlan(vlan.to_header()),
            LinkExtSlice::Macsec(macsec) => LinkExtHeader::Macsec(macsec.to_header()),
        }
    }

    /// What the tag's ether type names, where it has one: none after a modified MACsec payload.
    pub fn ether_payload(&self) -> Option<EtherPayloadSlice<'a>>
        ensures { result ≡ payload_after self.now }
    {
        match self {
            LinkExtSlice::Vlan(vlan) => Some(vlan.payload()),
            LinkExtSlice::Macsec(macsec) => macsec.ether_payload(),
        }
    }
}

impl<'a> Default for LinkExtSlice<'a> {
    ghost is_default = { λ slice. slice ≡ tag.Vlan (replicate 4 0) };

    /// A VLAN tag of four zero bytes.
    fn default() -> Self {
        LinkExtSlice::Vlan(SingleVlanSlice::zeroed())
    }
}
