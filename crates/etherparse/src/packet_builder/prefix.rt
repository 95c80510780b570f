//! What precedes the network layer.

ghost use Rattle.std.specs.Prelude.{◌≡◌, ◌+◌, ◌≤◌, length};
ghost use Rattle.ep_link.specs.Link.{link_len};
ghost use Rattle.ep_tag.specs.VlanForms.{tags_encoding};
ghost use Rattle.etherparse.specs.Built.{len_if};

use ep_link::LinkHeader;
use ep_tag::VlanHeader;

/// The link header and the tags that were chosen.
#[derive(Drop)]
pub struct Prefix {
    pub(super) link_header: Option<LinkHeader>,
    pub(super) vlan_header: Option<VlanHeader>,
}

impl Prefix {
    #[inline(always)]
    pub(super) fn len(&self) -> usize
        ensures value { result ≡ len_if link_len self.now.link_header
            + len_if (λ t. length (tags_encoding t)) self.now.vlan_header }
        ensures small { result ≤ 24 }
    {
        link_len(&self.link_header) + vlan_len(&self.vlan_header)
    }
}

#[inline(always)]
fn link_len(link: &Option<LinkHeader>) -> usize
    ensures value { result ≡ len_if link_len link.now }
    ensures small { result ≤ 16 }
{
    match link {
        Some(header) => header.header_len(),
        None => 0,
    }
}

#[inline(always)]
fn vlan_len(vlan: &Option<VlanHeader>) -> usize
    ensures value { result ≡ len_if (λ t. length (tags_encoding t)) vlan.now }
    ensures small { result ≤ 8 }
{
    match vlan {
        Some(VlanHeader::Single(tag)) => tag.header_len(),
        Some(VlanHeader::Double(tags)) => tags.header_len(),
        None => 0,
    }
}
