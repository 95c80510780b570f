//! Ethernet II headers as borrowed bytes.
ghost use Rattle.std.specs.Prelude.{◌≡◌, ℕ, List, length, IfErr, nat_eq};
ghost use Rattle.std.specs.Cmp.Lexicographic.{pointwise};
ghost use Rattle.std.specs.Cmp.Rules.{comparing};
ghost use Rattle.std.proofs.Common.{rules};
ghost use Rattle.ep_base.specs.declared.err.layer.Layer.TheVariants as layer;
ghost use Rattle.ep_link.specs.Ethernet.{ethernet_len, destination_of, source_of, next_type_of, ethernet_header_of};
ghost use Rattle.ep_tag.specs.Prefix.{prefix_at};

use super::{Ethernet2Header, ethernet2_bytes};
use ep_base::EtherType;
use ep_base::err::{Layer, LenError};
use std::marker::Model;

/// The 14 bytes of an Ethernet II header (RFC 894), borrowed. A contract sees the value as those
/// bytes.
#[derive(Clone, Debug, Drop)]
pub struct Ethernet2HeaderSlice<'a> {
    slice: &'a [u8],
}

impl<'a> Model for Ethernet2HeaderSlice<'a> {
    ghost Value = { List ℕ };

    ghost view = { λ header. header.slice.now };

    ghost invariant = { λ header. length header.slice.now ≡ ethernet_len };
}

impl<'a> Ethernet2HeaderSlice<'a> {
    /// The header at the start of the slice. A slice of fewer than 14 bytes is refused.
    pub fn from_slice(slice: &'a [u8]) -> Result<Ethernet2HeaderSlice<'a>, LenError>
        // The first 14 bytes: law `ep_tag::laws::prefix::prefixes_are_found`.
        ensures exact { result ≡ prefix_at layer.Ethernet2Header ethernet_len slice.now }
        ensures offset { IfErr result (λ e. e.layer_start_offset ≡ 0) }
    {
        if slice.len() < Ethernet2Header::LEN {
            return Err(LenError::too_few_bytes(
                Layer::Ethernet2Header,
                Ethernet2Header::LEN,
                slice.len(),
            ));
        }
        Ok(Ethernet2HeaderSlice {
            slice: &slice[..Ethernet2Header::LEN],
        })
    }

    // The header of 14 bytes.
    pub(super) fn of_bytes(bytes: &'a [u8; 14]) -> Ethernet2HeaderSlice<'a>
        ensures { result ≡ bytes.now }
    {
        Ethernet2HeaderSlice { slice: bytes }
    }

    /// The header's 14 bytes.
    pub fn slice(&self) -> &'a [u8]
        ensures bytes { result.now ≡ self.now }
        ensures len { length self.now ≡ ethernet_len }
    {
        self.slice
    }

    /// The destination address.
    pub fn destination(&self) -> [u8; 6]
        ensures { result ≡ destination_of self.now }
    {
        ethernet2_bytes::destination_of(self.slice)
    }

    /// The source address.
    pub fn source(&self) -> [u8; 6]
        ensures { result ≡ source_of self.now }
    {
        ethernet2_bytes::source_of(self.slice)
    }

    /// The ether type of what follows the header.
    pub fn ether_type(&self) -> EtherType
        ensures { result ≡ next_type_of self.now }
    {
        ethernet2_bytes::ether_type_of(self.slice)
    }

    /// The fields of the header.
    pub fn to_header(&self) -> Ethernet2Header
        ensures { result ≡ ethernet_header_of self.now }
    {
        ethernet2_bytes::header_of(self.slice)
    }
}

impl<'a> PartialEq for Ethernet2HeaderSlice<'a> {
    ghost eq = { pointwise nat_eq };

    ghost laws = { Prim.search (comparing, rules) };

    fn eq(&self, other: &Self) -> bool {
        self.slice == other.slice
    }
}

impl<'a> Eq for Ethernet2HeaderSlice<'a> {
    ghost laws = { Prim.search (comparing, rules) };
}
