//! The iterator over the extension headers of an IPv6 packet.

ghost use Rattle.std.specs.Prelude.{◌≡◌, [], ◌∷◌, MatchOption, nat_eq};
ghost use Rattle.std.specs.Cmp.Lexicographic.{pointwise};
ghost use Rattle.std.specs.Cmp.Rules.{comparing};
ghost use Rattle.std.specs.Iterator.{YieldsFirstBy, item_count};
ghost use Rattle.std.specs.Ordering.{on};
ghost use Rattle.std.proofs.Common.{rules};
ghost use Rattle.ep_base.specs.Bytes.{num};
ghost use Rattle.ep_ipslice.specs.Compared.{left_as};
ghost use Rattle.ep_ipslice.specs.Ipv6Ext.{piece_of};
ghost use Rattle.ep_ipslice.specs.Ipv6Walk.{HeadersLeft, IsLeft, headers_left, pieces_left};

use super::Ipv6ExtensionSlice;
use super::ipv6_extension_slice::ext_len;
use super::ipv6_extensions_slice::slot_of;
use ep_base::IpNumber;
use ep_ext::laws;
use std::marker::Model;

/// The extension headers of an [`Ipv6ExtensionsSlice`](super::Ipv6ExtensionsSlice), in their order,
/// and then nothing more.
///
/// A contract sees the value as the number of the next header and the bytes of all that are left,
/// whose headers are `headers_left`.
#[derive(Clone, Debug, Drop)]
pub struct Ipv6ExtensionSliceIter<'a> {
    next_header: IpNumber,
    rest: &'a [u8],
}

impl<'a> Model for Ipv6ExtensionSliceIter<'a> {
    ghost Value = { HeadersLeft };

    ghost view = { λ iter. record { next_header = iter.next_header.0; rest = iter.rest.now } };

    ghost invariant = { λ iter. IsLeft iter.next_header.0 iter.rest.now };
}

impl<'a> Ipv6ExtensionSliceIter<'a> {
    // The headers whose bytes these are, of which the first has this number.
    pub(super) fn new(first: IpNumber, slice: &'a [u8]) -> Ipv6ExtensionSliceIter<'a>
        requires { IsLeft first.0 slice.now }
        ensures { result ≡ record { next_header = first.0; rest = slice.now } }
    {
        Ipv6ExtensionSliceIter {
            next_header: first,
            rest: slice,
        }
    }
}

impl<'a> Iterator for Ipv6ExtensionSliceIter<'a> {
    type Item = Ipv6ExtensionSlice<'a>;

    ghost next_gives = { YieldsFirstBy piece_of headers_left };

    ghost remaining = { item_count headers_left };

    fn next(&mut self) -> Option<Ipv6ExtensionSlice<'a>> {
        match first_header(self.next_header, self.rest) {
            Some((header, next_header, following)) => {
                self.next_header = next_header;
                self.rest = following;
                Some(header)
            }
            None => None,
        }
    }
}

impl<'a> Default for Ipv6ExtensionSliceIter<'a> {
    ghost is_default = { λ iter. iter ≡ record { next_header = 59; rest = [] } };

    fn default() -> Self {
        Ipv6ExtensionSliceIter {
            next_header: IpNumber::IPV6_NO_NEXT_HEADER,
            rest: &[],
        }
    }
}

impl<'a> PartialEq for Ipv6ExtensionSliceIter<'a> {
    ghost eq = { on left_as (pointwise nat_eq) };

    ghost laws = { Prim.search (comparing, rules) };

    fn eq(&self, other: &Self) -> bool {
        self.next_header == other.next_header && self.rest == other.rest
    }
}

impl<'a> Eq for Ipv6ExtensionSliceIter<'a> {
    ghost laws = { Prim.search (comparing, rules) };
}

// The first of the headers that are left, the number that it names and what follows it.
fn first_header(number: IpNumber, rest: &[u8]) -> Option<(Ipv6ExtensionSlice<'_>, IpNumber, &[u8])>
    requires { IsLeft number.0 rest.now }
    ensures { MatchOption result (pieces_left number.0 rest.now ≡ [])
        (λ r. (pieces_left number.0 rest.now ≡ piece_of r.0 ∷ pieces_left r.1.0 r.2.now)
        × IsLeft r.1.0 r.2.now) }
{
    laws::whole_header_is_found();
    if rest.is_empty() {
        return None;
    }
    let slot = slot_of(false, number).unwrap();
    let (prefix, following) = rest.split_at(ext_len(slot, rest));
    let header = Ipv6ExtensionSlice::of_bytes(slot, prefix);
    Some((header, IpNumber(prefix[0]), following))
}
