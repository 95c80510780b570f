//! Extension headers of an IPv6 packet, found in a row as views, then copied into a value.

ghost use Rattle.std.specs.Prelude.{◌≡◌, ℕ, List, [], ◌++◌, IfOk, IfErr, OnErr, Err, Some, None};
ghost use Rattle.std.specs.Option.{option_map};
ghost use Rattle.ep_base.specs.Bytes.{num};
ghost use Rattle.ep_ext.specs.Borrowed.{Finds, Holds, with_slice_at};
ghost use Rattle.ep_ext.specs.Chain.{Chain, IsPiece, prefix_of, fault_at};
ghost use Rattle.ep_ext.specs.Slot.{slot_of};
ghost use Rattle.ep_ext.specs.Auth.{IsAuth, auth_of};
ghost use Rattle.ep_ext.specs.Fragment.{IsFragment};
ghost use Rattle.ep_ext.specs.Raw.{IsRawExt, raw_of};
ghost use Rattle.ep_ext.specs.Value.{Piece, value_of};

use super::passed::Passed;
use super::{
    IpAuthHeader, IpAuthHeaderSlice, Ipv6ExtSlot, Ipv6Extensions, Ipv6FragmentHeaderSlice,
    Ipv6RawExtHeader, Ipv6RawExtHeaderSlice, Ipv6RoutingExtensions,
};
use crate::err::ip_auth;
use crate::err::ipv6_exts::{HeaderError, HeaderSliceError};
use ep_base::IpNumber;
use ep_base::err::Layer;

/// Extension headers of an IPv6 packet, borrowed, each in its slot. An `Ipv6Extensions` has space
/// for each header in its greatest length, so a walk keeps these, and makes the value at its end.
#[derive(Drop)]
pub struct BorrowedExtensions<'a> {
    hop_by_hop_options: Option<Ipv6RawExtHeaderSlice<'a>>,
    destination_options: Option<Ipv6RawExtHeaderSlice<'a>>,
    routing: Option<Ipv6RawExtHeaderSlice<'a>>,
    fragment: Option<Ipv6FragmentHeaderSlice<'a>>,
    auth: Option<IpAuthHeaderSlice<'a>>,
    final_destination_options: Option<Ipv6RawExtHeaderSlice<'a>>,
}

impl<'a> BorrowedExtensions<'a> {
    /// No header.
    pub fn nothing() -> Self
        ensures { Holds result [] }
    {
        BorrowedExtensions {
            hop_by_hop_options: None,
            destination_options: None,
            routing: None,
            fragment: None,
            auth: None,
            final_destination_options: None,
        }
    }

    /// Finds the headers in a row, up to the first fault, and returns the number and the bytes
    /// after them.
    #[inline(never)]
    pub fn fill(
        &mut self,
        first: IpNumber,
        slice: &'a [u8],
    ) -> (IpNumber, &'a [u8], Option<(HeaderSliceError, Layer)>)
        requires { Holds self.old [] }
        ensures { (pieces : List Piece) × (last : ℕ) × (rest : List ℕ)
            × Chain slot_of first.0 slice.now pieces last rest × Finds pieces last rest self.new result }
    {
        let mut passed = Passed::nothing();
        let mut number = first;
        let mut rest = slice;
        'pieces: while let Some(slot) = passed.slot_of(number) {
            match self.take(slot, rest) {
                Ok((next, following)) => {
                    number = next;
                    rest = following;
                    passed = passed.with(slot);
                }
                Err(error) => {
                    let offset = slice.len() - rest.len();
                    let fault = (error.add_slice_offset(offset), slot.layer());
                    return (number, rest, Some(fault));
                }
            }
        }
        (number, rest, misplaced_options(number))
    }

    // Takes the header at the start of the slice, and returns the number that it names and what
    // follows it.
    fn take(
        &mut self,
        slot: Ipv6ExtSlot,
        slice: &'a [u8],
    ) -> Result<(IpNumber, &'a [u8]), HeaderSliceError>
        ensures found { IfOk result (λ r. (header : List ℕ) × IsPiece slot header
            × (slice.now ≡ header ++ r.1.now) × (r.0.0 ≡ num header 0 1)
            × (self.new ≡ with_slice_at self.old slot header)) }
        ensures err { IfErr result (λ e. prefix_of slot slice.now ≡ Err e) }
        ensures kept { OnErr result (self.new ≡ self.old) }
    {
        match slot {
            Ipv6ExtSlot::HopByHop => take_raw(&mut self.hop_by_hop_options, slice),
            Ipv6ExtSlot::Destination => take_raw(&mut self.destination_options, slice),
            Ipv6ExtSlot::Routing => take_raw(&mut self.routing, slice),
            Ipv6ExtSlot::Fragment => take_fragment(&mut self.fragment, slice),
            Ipv6ExtSlot::Authentication => take_auth(&mut self.auth, slice),
            Ipv6ExtSlot::FinalDestination => take_raw(&mut self.final_destination_options, slice),
        }
    }

    /// Puts the headers into their slots, each with one copy of its bytes.
    pub fn put_into(&self, extensions: &mut Ipv6Extensions)
        requires { extensions.old ≡ value_of [] }
        ensures { (pieces : List Piece) → Holds self.now pieces → extensions.new ≡ value_of pieces }
    {
        if let Some(header) = &self.hop_by_hop_options {
            put_raw(&mut extensions.hop_by_hop_options, header);
        }
        if let Some(header) = &self.destination_options {
            put_raw(&mut extensions.destination_options, header);
        }
        if let Some(header) = &self.routing {
            put_routing(
                &mut extensions.routing,
                header,
                &self.final_destination_options,
            );
        }
        if let Some(header) = &self.fragment {
            extensions.fragment = Some(header.to_header());
        }
        if let Some(header) = &self.auth {
            put_auth(&mut extensions.auth, header);
        }
    }
}

// Takes the header at the start of the slice, and returns the number that it names and what follows
// it.
fn take_raw<'a>(
    slot: &mut Option<Ipv6RawExtHeaderSlice<'a>>,
    slice: &'a [u8],
) -> Result<(IpNumber, &'a [u8]), HeaderSliceError>
    ensures found { IfOk result (λ r. (header : List ℕ) × IsRawExt header
        × (slice.now ≡ header ++ r.1.now) × (r.0.0 ≡ num header 0 1) × (slot.new ≡ Some header)) }
    // It is refused as hop-by-hop options, which have the same layout.
    ensures err { IfErr result (λ e. prefix_of Ipv6ExtSlot.HopByHop slice.now ≡ Err e) }
    ensures kept { OnErr result (slot.new ≡ slot.old) }
{
    match Ipv6RawExtHeader::split(slice) {
        Ok((prefix, rest)) => {
            let header = Ipv6RawExtHeaderSlice::of_bytes(prefix);
            let next = header.next_header();
            *slot = Some(header);
            Ok((next, rest))
        }
        Err(error) => Err(HeaderSliceError::Len(error)),
    }
}

// The same of a fragment header.
fn take_fragment<'a>(
    slot: &mut Option<Ipv6FragmentHeaderSlice<'a>>,
    slice: &'a [u8],
) -> Result<(IpNumber, &'a [u8]), HeaderSliceError>
    ensures found { IfOk result (λ r. (header : List ℕ) × IsFragment header
        × (slice.now ≡ header ++ r.1.now) × (r.0.0 ≡ num header 0 1) × (slot.new ≡ Some header)) }
    ensures err { IfErr result (λ e. prefix_of Ipv6ExtSlot.Fragment slice.now ≡ Err e) }
    ensures kept { OnErr result (slot.new ≡ slot.old) }
{
    match Ipv6FragmentHeaderSlice::split(slice) {
        Ok((fragment, rest)) => {
            let next = fragment.next_header();
            *slot = Some(fragment);
            Ok((next, rest))
        }
        Err(error) => Err(HeaderSliceError::Len(error)),
    }
}

// The same of an authentication header.
fn take_auth<'a>(
    slot: &mut Option<IpAuthHeaderSlice<'a>>,
    slice: &'a [u8],
) -> Result<(IpNumber, &'a [u8]), HeaderSliceError>
    ensures found { IfOk result (λ r. (header : List ℕ) × IsAuth header
        × (slice.now ≡ header ++ r.1.now) × (r.0.0 ≡ num header 0 1) × (slot.new ≡ Some header)) }
    ensures err { IfErr result (λ e. prefix_of Ipv6ExtSlot.Authentication slice.now ≡ Err e) }
    ensures kept { OnErr result (slot.new ≡ slot.old) }
{
    match IpAuthHeaderSlice::split(slice) {
        Ok((auth, rest)) => {
            let next = auth.next_header();
            *slot = Some(auth);
            Ok((next, rest))
        }
        Err(ip_auth::HeaderSliceError::Len(error)) => Err(HeaderSliceError::Len(error)),
        Err(ip_auth::HeaderSliceError::Content(error)) => Err(HeaderSliceError::Content(
            HeaderError::IpAuth(error),
        )),
    }
}

// Hop-by-hop options that are not at the start.
fn misplaced_options(number: IpNumber) -> Option<(HeaderSliceError, Layer)>
    ensures { result ≡ fault_at 0 None number.0 [] }
{
    if number == IpNumber::IPV6_HEADER_HOP_BY_HOP {
        let error = HeaderSliceError::Content(HeaderError::HopByHopNotAtStart);
        return Some((error, Layer::Ipv6HopByHopHeader));
    }
    None
}

// Puts a header into its slot: first an empty one, whose bytes are then written there, so that none
// are moved. Not inlined, since a function clears the stack space of its values at its start.
#[inline(never)]
fn put_raw(slot: &mut Option<Ipv6RawExtHeader>, header: &Ipv6RawExtHeaderSlice)
    ensures { slot.new ≡ Some (raw_of header.now) }
{
    *slot = Some(Ipv6RawExtHeader::shortest());
    if let Some(slot) = slot {
        slot.fill(header.slice());
    }
}

// The same of a routing header and its final destination options.
#[inline(never)]
fn put_routing(
    slot: &mut Option<Ipv6RoutingExtensions>,
    header: &Ipv6RawExtHeaderSlice,
    options: &Option<Ipv6RawExtHeaderSlice>,
)
    ensures { slot.new
        ≡ Some (record {
          routing = raw_of header.now;
          final_destination_options = option_map raw_of options.now;
        }) }
{
    *slot = Some(Ipv6RoutingExtensions {
        routing: Ipv6RawExtHeader::shortest(),
        final_destination_options: None,
    });
    if let Some(slot) = slot {
        slot.routing.fill(header.slice());
        if let Some(options) = options {
            put_raw(&mut slot.final_destination_options, options);
        }
    }
}

// The same of an authentication header.
#[inline(never)]
fn put_auth(slot: &mut Option<IpAuthHeader>, header: &IpAuthHeaderSlice)
    ensures { slot.new ≡ Some (auth_of header.now) }
{
    *slot = Some(IpAuthHeader::shortest());
    if let Some(slot) = slot {
        header.put_into(slot);
    }
}
