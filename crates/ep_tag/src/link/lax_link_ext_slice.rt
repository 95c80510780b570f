//! VLAN tags or MACsec headers with their payloads, as far as these are there.
ghost use Rattle.std.specs.Prelude.{◌≡◌, ◌≤◌, replicate};
ghost use Rattle.ep_tag.specs.LinkExt.{lax_tag_len, lax_fields_of, lax_payload_after};
ghost use Rattle.ep_tag.specs.declared.link.lax_link_ext_slice.LaxLinkExtSlice.TheVariants as tag;

use super::{LaxEtherPayloadSlice, LaxMacsecSlice, LinkExtHeader, SingleVlanSlice};

/// A tag between a link header and the packet, with what there is of what follows it, borrowed.
#[derive(Clone, Debug, PartialEq, Eq, Drop)]
pub enum LaxLinkExtSlice<'a> {
    /// A VLAN tag. It states no length, so that it doesn't say whether bytes after it are missing.
    Vlan(SingleVlanSlice<'a>),
    /// A MACsec header.
    Macsec(LaxMacsecSlice<'a>),
}

impl<'a> LaxLinkExtSlice<'a> {
    /// The length of the tag itself in bytes.
    pub fn header_len(&self) -> usize
        ensures len { result ≡ lax_tag_len self.now }
        ensures most { result ≤ 16 }
    {
        match self {
            LaxLinkExtSlice::Vlan(vlan) => vlan.header_len(),
            LaxLinkExtSlice::Macsec(macsec) => macsec.header.header_len(),
        }
    }

    /// The fields of the tag.
    pub fn to_header(&self) -> LinkExtHeader
        ensures { result ≡ lax_fields_of self.now }
    {
        match self {
            LaxLinkExtSlice::Vlan(vlan) => LinkExtHeader::Vlan(vlan.to_header()),
            LaxLinkExtSlice::Macsec(macsec) => LinkExtHeader::Macsec(macsec.to_header()),
        }
    }

    /// What there is of what the tag's ether type names, where it has one: none after a modified
    /// MACsec payload. After a VLAN tag `incomplete` is false, also where the tag lies in a payload
    /// of which bytes are missing.
    pub fn ether_payload(&self) -> Option<LaxEtherPayloadSlice<'a>>
        ensures { result ≡ lax_payload_after self.now }
    {
        match self {
            LaxLinkExtSlice::Vlan(vlan) => Some(LaxEtherPayloadSlice::from(vlan.payload())),
            LaxLinkExtSlice::Macsec(macsec) => macsec.ether_payload(),
        }
    }
}

impl<'a> Default for LaxLinkExtSlice<'a> {
    ghost is_default = { λ slice. slice ≡ tag.Vlan (replicate 4 0) };

    /// A VLAN tag of four zero bytes.
    fn default() -> Self {
        LaxLinkExtSlice::Vlan(SingleVlanSlice::zeroed())
    }
}
