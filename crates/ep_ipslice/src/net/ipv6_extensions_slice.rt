//! The extension headers of an IPv6 packet.

ghost use Rattle.std.specs.Prelude.{◌≡◌, ◌<◌, ◌+◌, ◌^◌, ℕ, List, [], ◌==◌, length, nat_eq, IfErr, None};
ghost use Rattle.std.specs.Cmp.Lexicographic.{pointwise};
ghost use Rattle.std.specs.Cmp.Rules.{comparing};
ghost use Rattle.std.specs.Ordering.{on};
ghost use Rattle.std.proofs.Common.{rules};
ghost use Rattle.std.specs.List.{list_any};
ghost use Rattle.ep_ipslice.specs.Compared.{compared_as};
ghost use Rattle.ep_ext.specs.Chain.{Chain, Row, fault_at};
ghost use Rattle.ep_base.specs.SliceError.{CanMove};
ghost use Rattle.ep_ext.specs.Value.{Piece, bytes_of, piece_at};
ghost use Rattle.ep_ext.specs.declared.net.ipv6_ext_slot.Ipv6ExtSlot.TheVariants as slot;
ghost use Rattle.ep_ipslice.specs.Ipv6Exts.{Answers, Ipv6Exts, IsView, IsViewOf, Stops, exts_of, is_fragmenting_piece};
ghost use Rattle.ep_ipslice.specs.Ipv6Exts.{is_started, slot_after, view_order};
ghost use Rattle.ep_ipslice.specs.Ipv6Walk.{headers_left};

use super::{Ipv6ExtensionSlice, Ipv6ExtensionSliceIter};
use ep_base::IpNumber;
use ep_base::err::Layer;
use ep_ext::err::ipv6_exts::{HeaderError, HeaderSliceError};
use ep_ext::{Ipv6ExtSlot, Ipv6FragmentHeaderSlice, laws};
use std::marker::Model;

/// The extension headers after an IPv6 header (RFC 8200, section 4), borrowed: hop-by-hop options
/// as the first, routing, fragment, authentication headers and destination options in any order and
/// number. They were tested when the value was made.
///
/// A contract sees the value as the number of its first header, whether one of them is the fragment
/// header of a fragment, and the bytes of all.
#[derive(Clone, Debug, Drop)]
pub struct Ipv6ExtensionsSlice<'a> {
    first_header: Option<IpNumber>,
    fragmented: bool,
    slice: &'a [u8],
}

impl<'a> Model for Ipv6ExtensionsSlice<'a> {
    ghost Value = { Ipv6Exts };

    ghost view = { λ e. record
        { first_header = e.first_header; fragmented = e.fragmented; slice = e.slice.now } };

    ghost invariant = { λ e. IsView
        (record { first_header = e.first_header; fragmented = e.fragmented; slice = e.slice.now }) };
}

impl<'a> Ipv6ExtensionsSlice<'a> {
    /// The extension headers in a row at the start of the slice, of which the first has this
    /// number, the number after them and the bytes after them.
    ///
    /// Refused is the first header that isn't whole, or breaks its format, and hop-by-hop options
    /// after another header.
    #[inline(always)]
    pub fn from_slice(
        first: IpNumber,
        slice: &'a [u8],
    ) -> Result<(Ipv6ExtensionsSlice<'a>, IpNumber, &'a [u8]), HeaderSliceError>
        // The slice is headers in a row and a rest, and the answer is theirs.
        ensures found { (pieces : List Piece) × (last : ℕ) × (rest : List ℕ)
            × Chain view_order first.0 slice.now pieces last rest × Answers first.0 pieces last rest result }
        // However the slice is headers in a row and a rest, the answer is theirs.
        ensures only { (pieces : List Piece) (last : ℕ) (rest : List ℕ)
            → Chain view_order first.0 slice.now pieces last rest
            → Answers first.0 pieces last rest result }
        // The offset of an error of too few bytes lies within the slice.
        ensures offset { IfErr result (λ e. (n : ℕ) → length slice.now + n < 2 ^ 64 → CanMove e n) }
    {
        laws::chain_is_alone();
        laws::faults_can_be_moved();
        match Self::walk(first, slice) {
            (extensions, number, rest, None) => Ok((extensions, number, rest)),
            (_, _, _, Some((error, _))) => Err(error),
        }
    }

    /// The same up to the first fault, and the fault with the layer in which it is.
    pub fn from_slice_lax(
        first: IpNumber,
        slice: &'a [u8],
    ) -> (
        Ipv6ExtensionsSlice<'a>,
        IpNumber,
        &'a [u8],
        Option<(HeaderSliceError, Layer)>,
    )
        ensures found { (pieces : List Piece) × (last : ℕ) × (rest : List ℕ)
            × Chain view_order first.0 slice.now pieces last rest × Stops first.0 pieces last rest result }
        ensures only { (pieces : List Piece) (last : ℕ) (rest : List ℕ)
            → Chain view_order first.0 slice.now pieces last rest
            → Stops first.0 pieces last rest result }
    {
        laws::chain_is_alone();
        Self::walk(first, slice)
    }

    #[inline(always)]
    fn walk(
        first: IpNumber,
        slice: &'a [u8],
    ) -> (
        Ipv6ExtensionsSlice<'a>,
        IpNumber,
        &'a [u8],
        Option<(HeaderSliceError, Layer)>,
    )
        ensures { (pieces : List Piece) × (last : ℕ) × (rest : List ℕ)
            × Chain view_order first.0 slice.now pieces last rest × Stops first.0 pieces last rest result }
    {
        laws::row_grows_by_a_header();
        laws::row_ends_where_none_is_taken();
        laws::faults_can_be_moved();
        let mut has_header = false;
        let mut number = first;
        let mut fragmented = false;
        let mut rest = slice;
        'headers: while let Some(slot) = slot_of(has_header, number) {
            match Ipv6ExtensionSlice::from_slice(slot, rest) {
                Ok(header) => {
                    let (prefix, following) = rest.split_at(header.bytes().len());
                    has_header = true;
                    number = IpNumber(prefix[0]);
                    fragmented |= header.is_fragmenting();
                    rest = following;
                }
                Err(error) => {
                    let offset = slice.len() - rest.len();
                    let extensions = Self::of_parts(
                        first,
                        has_header,
                        fragmented,
                        &slice[..offset],
                    );
                    let fault = (error.add_slice_offset(offset), slot.layer());
                    return (extensions, number, rest, Some(fault));
                }
            }
        }
        let len = slice.len() - rest.len();
        let extensions = Self::of_parts(first, has_header, fragmented, &slice[..len]);
        (extensions, number, rest, misplaced(number))
    }

    // The headers whose bytes these are.
    #[inline(always)]
    fn of_parts(
        first: IpNumber,
        has_header: bool,
        fragmented: bool,
        slice: &'a [u8],
    ) -> Ipv6ExtensionsSlice<'a>
        requires { IsViewOf first has_header fragmented slice.now }
        ensures { (pieces : List Piece) → slice.now ≡ bytes_of pieces → has_header ≡ is_started pieces
            → fragmented ≡ list_any is_fragmenting_piece pieces → result ≡ exts_of first.0 pieces }
    {
        Ipv6ExtensionsSlice {
            first_header: if has_header { Some(first) } else { None },
            fragmented,
            slice,
        }
    }

    /// The headers, in their order.
    pub fn iter(&self) -> Ipv6ExtensionSliceIter<'a>
        // They are the headers of some row, of which the view shows the bytes.
        ensures view { IsView self.now }
        ensures headers { (first : ℕ) (pieces : List Piece) (last : ℕ)
            → Row view_order [] first pieces last
            → self.now ≡ exts_of first pieces → headers_left result ≡ pieces }
    {
        laws::whole_header_is_found();
        match self.first_header {
            Some(first) => Ipv6ExtensionSliceIter::new(first, self.slice),
            None => Ipv6ExtensionSliceIter::default(),
        }
    }

    /// The first fragment header, if there is one: it has identification and offset of the payload
    /// as a fragment.
    pub fn first_fragment_header(&self) -> Option<Ipv6FragmentHeaderSlice<'a>>
        ensures { (first : ℕ) (pieces : List Piece) (last : ℕ) → Row view_order [] first pieces last
            → self.now ≡ exts_of first pieces → result ≡ piece_at pieces slot.Fragment }
    {
        for header in self.iter() {
            if let Ipv6ExtensionSlice::Fragment(fragment) = header {
                return Some(fragment);
            }
        }
        None
    }

    /// Whether one of the headers is the fragment header of a fragment: more fragments follow, or
    /// its offset isn't 0.
    pub fn is_fragmenting_payload(&self) -> bool
        ensures { result ≡ self.now.fragmented }
    {
        self.fragmented
    }

    /// The number of the first header, if there is one.
    pub fn first_header(&self) -> Option<IpNumber>
        ensures { result ≡ self.now.first_header }
    {
        self.first_header
    }

    /// The bytes of all headers.
    pub fn slice(&self) -> &'a [u8]
        ensures bytes { result.now ≡ self.now.slice }
        ensures view { IsView self.now }
    {
        self.slice
    }

    /// Whether there is no header.
    pub fn is_empty(&self) -> bool
        ensures { result ≡ (length self.now.slice == 0) }
    {
        self.slice.is_empty()
    }
}

impl<'a> IntoIterator for Ipv6ExtensionsSlice<'a> {
    type Item = Ipv6ExtensionSlice<'a>;

    type IntoIter = Ipv6ExtensionSliceIter<'a>;

    ghost into_iter_gives = { λ extensions iter. (first : ℕ) (pieces : List Piece) (last : ℕ)
        → Row view_order [] first pieces last → extensions ≡ exts_of first pieces
        → headers_left iter ≡ pieces };

    fn into_iter(self) -> Ipv6ExtensionSliceIter<'a> {
        self.iter()
    }
}

impl<'a> PartialEq for Ipv6ExtensionsSlice<'a> {
    ghost eq = { on compared_as (pointwise nat_eq) };

    ghost laws = { Prim.search (comparing, rules) };

    fn eq(&self, other: &Self) -> bool {
        self.first_header == other.first_header
            && self.fragmented == other.fragmented
            && self.slice == other.slice
    }
}

impl<'a> Eq for Ipv6ExtensionsSlice<'a> {
    ghost laws = { Prim.search (comparing, rules) };
}

// The slot of a header of this number: hop-by-hop options come before all others.
pub(super) fn slot_of(has_header: bool, number: IpNumber) -> Option<Ipv6ExtSlot>
    ensures { result ≡ slot_after has_header number.0 }
{
    match number {
        IpNumber::IPV6_HEADER_HOP_BY_HOP if has_header => None,
        IpNumber::IPV6_HEADER_HOP_BY_HOP => Some(Ipv6ExtSlot::HopByHop),
        IpNumber::IPV6_ROUTE_HEADER => Some(Ipv6ExtSlot::Routing),
        IpNumber::IPV6_FRAGMENTATION_HEADER => Some(Ipv6ExtSlot::Fragment),
        IpNumber::AUTHENTICATION_HEADER => Some(Ipv6ExtSlot::Authentication),
        IpNumber::IPV6_DESTINATION_OPTIONS => Some(Ipv6ExtSlot::Destination),
        _ => None,
    }
}

// Hop-by-hop options that are not at the start.
fn misplaced(number: IpNumber) -> Option<(HeaderSliceError, Layer)>
    ensures { result ≡ fault_at 0 None number.0 [] }
{
    if number == IpNumber::IPV6_HEADER_HOP_BY_HOP {
        let error = HeaderSliceError::Content(HeaderError::HopByHopNotAtStart);
        return Some((error, Layer::Ipv6HopByHopHeader));
    }
    None
}
