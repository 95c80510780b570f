//! Laws of the IP packet at the start of bytes: its parts, its extension headers in a row, its
//! faults, and its fields as a fragment.
ghost use Rattle.std.specs.Prelude.{◌≡◌, ◌↔◌, ◌<◌, ◌≤◌, ◌+◌, ◌-◌, ◌^◌, ℕ, List, [], ◌∷◌, ◌++◌, length, None, Some, Ok};
ghost use Rattle.std.specs.Prelude.{Err, IsOkAnd, false, replicate};
ghost use Rattle.std.specs.Option.{option_map, option_map_or};
ghost use Rattle.std.specs.List.{list_any};
ghost use Rattle.ep_ip.specs.Ipv6.{next_header_of};
ghost use Rattle.ep_ip.specs.Skip.{is_skipped};
ghost use Rattle.ep_base.specs.declared.len_source.LenSource.{LenSource};
ghost use Rattle.ep_ext.specs.Chain.{Chain, Fault, Row, fault_of};
ghost use Rattle.ep_ext.specs.Fragment.{fragments};
ghost use Rattle.ep_ext.specs.Slot.{KeepsNumbers, Order, slot_of};
ghost use Rattle.ep_ext.specs.Value.{Piece, bytes_of, value_of};
ghost use Rattle.ep_ext.specs.declared.net.ipv6_ext_slot.Ipv6ExtSlot.TheVariants as slot;
ghost use Rattle.ep_ipslice.specs.FaultOffset.{ip_offset, ipv4_offset, ipv6_offset};
ghost use Rattle.ep_ipslice.specs.IpSlice.{IsIpFault, IsIpFaultIn, IsWhole, ip_packet_at, IsIpPacket};
ghost use Rattle.ep_ipslice.specs.Ipv4Packet.{ipv4_packet_at};
ghost use Rattle.ep_ipslice.specs.Ipv6Packet.{body_of, extensions_in, ipv6_packet_at, number_after, rest_after};
ghost use Rattle.ep_ipslice.specs.Ipv6Walk.{pieces_within};
ghost use Rattle.ep_ipslice.specs.Ipv6Fault.{IsFaultIn, IsIpv6Fault, IsRowFault, of_exts_fault};
ghost use Rattle.ep_ipslice.specs.declared.err.ip.slice_error.SliceError.{SliceError as IpFault};
ghost use Rattle.ep_ipslice.specs.declared.err.ipv4.slice_error.SliceError.{SliceError as Ipv4Fault};
ghost use Rattle.ep_ipslice.specs.declared.err.ipv6.slice_error.SliceError.{SliceError as Ipv6Fault};
ghost use Rattle.ep_ipslice.specs.Ipv6Exts.{view_order, is_fragmenting_piece};
ghost use Rattle.ep_ipslice.specs.Packet.{Ipv4Packet, Ipv6Packet, IsIpv4Packet, IsIpv6Body, IsIpv6Packet, body_len};
ghost use Rattle.ep_ipslice.specs.Packet.{body_source, fragment_fields, ipv4_fragment_fields, ipv6_fragment_fields};

use crate::{IpSlice, Ipv4Slice, Ipv6Slice};
use ep_base::err::LenError;
use ep_base::{IpFragOffset, IpNumber};
use ep_ext::laws;

/// A slice starts with one IPv4 packet at most.
pub fn ipv4_packet_is_alone(slice: &[u8])
    ensures { (p q : Ipv4Packet) → IsIpv4Packet slice.now p → IsIpv4Packet slice.now q → p ≡ q }
{}

/// A slice starts with one IPv6 packet at most.
pub fn ipv6_packet_is_alone(slice: &[u8])
    ensures { (p q : Ipv6Packet) → IsIpv6Packet slice.now p → IsIpv6Packet slice.now q → p ≡ q }
{}

/// Bytes that begin with no IPv6 packet have one first fault, and so have those that begin with no
/// IP packet, whatever the order in which extension headers stand.
pub fn faults_are_alone()
    ensures ipv6 { (order : Order) (bytes : List ℕ) (e f : Ipv6Fault)
        → IsFaultIn order bytes e → IsFaultIn order bytes f → e ≡ f }
    ensures ip { (order : Order) (bytes : List ℕ) (e f : IpFault)
        → IsIpFaultIn order bytes e → IsIpFaultIn order bytes f → e ≡ f }
{
    laws::chain_is_alone();
}

/// The body that a header's payload length bounds lies within the bytes, and a fault at which
/// extension headers in it end, under whatever order, is one of the bytes.
pub fn bodies_lie_within()
    ensures within { (bytes header : List ℕ) (source : LenSource) (body : List ℕ)
        → IsIpv6Body bytes header source body → 40 + length body ≤ length bytes }
    ensures fault { (order : Order) (bytes header : List ℕ) (source : LenSource) (body : List ℕ)
        (pieces : List Piece) (last : ℕ) (rest : List ℕ) (fault : Fault)
        → IsIpv6Body bytes header source body
        → Chain order (next_header_of header) body pieces last rest
        → fault_of order pieces last rest ≡ Some fault
        → IsRowFault order bytes header (of_exts_fault source fault.0) }
{}

/// The packet that is found at the start of bytes is one that they begin with, and one that they
/// begin with is found.
pub fn packets_are_their_parts()
    ensures ipv4 { (bytes : List ℕ) (packet : Ipv4Packet) → (ipv4_packet_at bytes ≡ Ok packet)
        ↔ IsIpv4Packet bytes packet }
    ensures ipv6 { (bytes : List ℕ) (packet : Ipv6Packet) → (ipv6_packet_at bytes ≡ Ok packet)
        ↔ IsIpv6Packet bytes packet }
    ensures ip { (bytes : List ℕ) (packet : IpSlice) → (ip_packet_at bytes ≡ Ok packet)
        ↔ IsIpPacket bytes packet }
{}

/// Where no packet is found at the start of bytes, the fault that is found is the first one; and so
/// is that at which extension headers end, under whatever order.
pub fn faults_found_are_first()
    ensures ipv6 { (bytes : List ℕ) (e : Ipv6Fault) → ipv6_packet_at bytes ≡ Err e
        → IsIpv6Fault bytes e }
    ensures ip { (bytes : List ℕ) (e : IpFault) → ip_packet_at bytes ≡ Err e → IsIpFault bytes e }
    ensures row { (order : Order) (bytes header : List ℕ) (fault : Fault)
        → body_len header (length bytes - 40) ≤ length bytes - 40 → (pieces : List Piece)
        → pieces ≡ pieces_within (length (body_of bytes header)) order []
        (next_header_of header) (body_of bytes header)
        → fault_of order pieces (number_after (next_header_of header) pieces)
        (rest_after bytes header pieces) ≡ Some fault
        → IsRowFault order bytes header
        (of_exts_fault (body_source header (length bytes - 40)) fault.0) }
{
    laws::row_ends_where_none_is_taken();
}

/// Headers in a row, each in a slot of its own, are headers in a row of a view, with the same
/// bytes. One of these is the fragment header of a fragment where the fragment header of a value
/// is.
pub fn rows_in_slots_are_views()
    ensures { (first : ℕ) (pieces : List Piece) (last : ℕ) → Row slot_of [] first pieces last
        → (q : List Piece) × Row view_order [] first q last × (bytes_of q ≡ bytes_of pieces)
        × (list_any is_fragmenting_piece q ≡ option_map_or fragments (value_of pieces).fragment false) }
{}

/// Headers in a row before a rest, as far as the order has a slot for one, are those that are found
/// one by one.
pub fn rows_are_found()
    ensures { (order : Order) (first : ℕ) (bytes : List ℕ) (pieces : List Piece)
        (last : ℕ) (rest : List ℕ)
        → Chain order first bytes pieces last rest
        → pieces_within (length bytes) order [] first bytes ≡ pieces }
{
    laws::whole_header_is_found();
}

/// The offset of a fault lies within the bytes, so that the length of what comes before them can be
/// added to it.
pub fn faults_can_be_moved()
    ensures ipv4 { (bytes : List ℕ) (e : Ipv4Fault) → ipv4_packet_at bytes ≡ Err e
        → (n : ℕ) → length bytes + n < 2 ^ 64 → ipv4_offset e + n < 2 ^ 64 }
    ensures ipv6 { (bytes : List ℕ) (e : Ipv6Fault) → IsIpv6Fault bytes e
        → (n : ℕ) → length bytes + n < 2 ^ 64 → ipv6_offset e + n < 2 ^ 64 }
    ensures ip { (bytes : List ℕ) (e : IpFault) → IsIpFault bytes e
        → (n : ℕ) → length bytes + n < 2 ^ 64 → ip_offset e + n < 2 ^ 64 }
    // The same under any order of extension headers.
    ensures ipv6_in { (order : Order) (bytes : List ℕ) (e : Ipv6Fault) → IsFaultIn order bytes e
        → (n : ℕ) → length bytes + n < 2 ^ 64 → ipv6_offset e + n < 2 ^ 64 }
    ensures ip_in { (order : Order) (bytes : List ℕ) (e : IpFault) → IsIpFaultIn order bytes e
        → (n : ℕ) → length bytes + n < 2 ^ 64 → ip_offset e + n < 2 ^ 64 }
{
    laws::faults_can_be_moved();
}

/// Where an IPv6 packet's extension headers end at a number that the walk over all skipped headers
/// doesn't skip, that walk gives the number and the payload of the view.
pub fn skip_agrees_with_view(first: IpNumber, body: &[u8]) -> Result<(IpNumber, &[u8]), LenError>
    ensures { (bytes : List ℕ) (packet : Ipv6Packet) → IsIpv6Packet bytes packet
        → first.0 ≡ next_header_of packet.header
        → body.now ≡ packet.exts.slice ++ packet.payload.payload
        → is_skipped packet.payload.ip_number.0 ≡ false
        → IsOkAnd result (λ r. (r.0 ≡ packet.payload.ip_number)
        × (r.1.now ≡ packet.payload.payload)) }
{
    laws::row_ends_where_none_is_taken();
    laws::skip_call_agrees_with_chain(first, body)
}

/// The numbers of the headers that a view takes, first and after another header.
#[tactic(auto, unfolding(crate::specs::Ipv6Exts::view_order))]
pub fn numbers_of_a_view()
    ensures first { view_order [] 0 ≡ Some slot.HopByHop }
    ensures following { view_order (slot.Fragment ∷ []) 0 ≡ None }
    ensures routing { view_order (slot.Routing ∷ []) 43 ≡ Some slot.Routing }
    ensures fragment { view_order (slot.Fragment ∷ []) 44 ≡ Some slot.Fragment }
    ensures auth { view_order [] 51 ≡ Some slot.Authentication }
    ensures destination { view_order (slot.Destination ∷ []) 60 ≡ Some slot.Destination }
    ensures other { view_order [] 135 ≡ None }
    ensures own { KeepsNumbers view_order }
    ensures without_a_length { body_len (replicate 40 0) 7 ≡ 7 }
{}

/// The bytes of an IP packet start with that packet, as every caller knows of a view.
pub fn ip_packet_is_whole(packet: &IpSlice)
    ensures { IsWhole packet.now }
{
    // For the proof alone.
    match packet {
        IpSlice::Ipv4(packet) => {
            let _extensions = packet.extensions();
        }
        IpSlice::Ipv6(packet) => {
            let _extensions = packet.extensions();
        }
    }
}

/// The extension headers in an IPv6 packet's own bytes are those of its row.
pub fn extensions_of_a_packet()
    ensures { (bytes : List ℕ) (packet : Ipv6Packet) (is : IsIpv6Packet bytes packet)
        → extensions_in packet ≡ is.pieces }
{
    laws::whole_header_is_found();
}

/// What an IPv4 packet's getters return of its payload as a fragment: identification, offset in
/// units of 8 bytes, and whether more fragments follow.
pub fn ipv4_fragment_fields(packet: &Ipv4Slice) -> (u16, IpFragOffset, bool)
    ensures { ipv4_fragment_fields packet.now.header
        ≡ record { identification = result.0; offset = result.1; more = result.2 } }
{
    let header = packet.header();
    (
        header.identification(),
        header.fragments_offset(),
        header.more_fragments(),
    )
}

/// The same of an IPv6 packet, which has it in its first fragment header, if there is one.
pub fn ipv6_fragment_fields(packet: &Ipv6Slice) -> Option<(u32, IpFragOffset, bool)>
    ensures { (bytes : List ℕ) (is : IsIpv6Packet bytes packet.now) → ipv6_fragment_fields is.pieces
        ≡ option_map fragment_fields result }
{
    match packet.extensions().first_fragment_header() {
        Some(header) => Some((
            header.identification(),
            header.fragment_offset(),
            header.more_fragments(),
        )),
        None => None,
    }
}
