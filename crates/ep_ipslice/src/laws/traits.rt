//! What `Clone`, `PartialEq`, `Ord`, `Default` and `Hash` of the types here mean, each clause about
//! the relation that the type's own impl names. `laws::hashes` has the hashes of errors.
ghost use Rattle.std.specs.Prelude.{◌≡◌, ◌↔◌, IsTrue, List, [], None, fold};
ghost use Rattle.std.specs.Cmp.Lexicographic.{slice_cmp};
ghost use Rattle.std.specs.Ordering.{nat_cmp, ordering_then};
ghost use Rattle.ep_base.specs.LenSource.{source_index};
ghost use Rattle.ep_base.specs.Traits.{CopyIsValue, CopyNeverFails, EqualIsSame, IsPlainData};
ghost use Rattle.ep_ipslice.specs.Compared.{bool_index, hashed_as, lax_value};
ghost use Rattle.ep_ipslice.specs.Ipv6Walk.{HeadersLeft, headers_left};
ghost use Rattle.ep_ipslice.specs.Packet.{IpPayload};
ghost use Rattle.ep_ipslice.specs.declared.net.ipv4_extensions_slice.Ipv4ExtensionsSlice.{Ipv4ExtensionsSlice};
ghost use Rattle.ep_ipslice.specs.declared.net.lax_ip_payload_slice.LaxIpPayloadSlice.{LaxIpPayloadSlice};

use crate::err::{ip, ipv4, ipv6};
use crate::{
    IpPayloadSlice, IpSlice, Ipv4ExtensionsSlice, Ipv4Slice, Ipv6ExtensionSlice,
    Ipv6ExtensionSliceIter, Ipv6ExtensionsSlice, Ipv6Slice, LaxIpPayloadSlice, LaxIpSlice,
    LaxIpv4Slice, LaxIpv6Slice,
};
use ep_base::laws::traits::Value;
use std::hash::{Hash, Hasher};

/// A copy is the value and takes no memory. Equal are the values that are the same: all that a view
/// shows, all fields of an error.
pub fn types_are_plain_data<'a>()
    ensures ip_payload_slice { IsPlainData ⟦<IpPayloadSlice<'a> as Value>⟧ }
    ensures ipv4_extensions_slice { IsPlainData ⟦<Ipv4ExtensionsSlice<'a> as Value>⟧ }
    ensures ipv6_extension_slice { IsPlainData ⟦<Ipv6ExtensionSlice<'a> as Value>⟧ }
    ensures ipv6_extension_slice_iter { IsPlainData ⟦<Ipv6ExtensionSliceIter<'a> as Value>⟧ }
    ensures ipv6_extensions_slice { IsPlainData ⟦<Ipv6ExtensionsSlice<'a> as Value>⟧ }
    ensures ipv4_slice { IsPlainData ⟦<Ipv4Slice<'a> as Value>⟧ }
    ensures ipv6_slice { IsPlainData ⟦<Ipv6Slice<'a> as Value>⟧ }
    ensures lax_ipv4_slice { IsPlainData ⟦<LaxIpv4Slice<'a> as Value>⟧ }
    ensures lax_ipv6_slice { IsPlainData ⟦<LaxIpv6Slice<'a> as Value>⟧ }
    ensures ipv4_slice_error { IsPlainData ⟦<ipv4::SliceError as Value>⟧ }
    ensures ipv6_slice_error { IsPlainData ⟦<ipv6::SliceError as Value>⟧ }
    ensures ip_header_error { IsPlainData ⟦<ip::HeaderError as Value>⟧ }
    ensures ip_headers_error { IsPlainData ⟦<ip::HeadersError as Value>⟧ }
    ensures ip_headers_slice_error { IsPlainData ⟦<ip::HeadersSliceError as Value>⟧ }
    ensures ip_slice_error { IsPlainData ⟦<ip::SliceError as Value>⟧ }
{
    ep_base::laws::traits::types_are_plain_data();
    ep_ip::laws::traits::types_are_plain_data();
    ep_ext::laws::traits::types_are_plain_data();
}

/// A copy is the value: of a view the bytes and its fields.
pub fn copies_are_values<'a>()
    ensures lax_ip_payload_slice { CopyIsValue ⟦<LaxIpPayloadSlice<'a> as Clone>⟧.is_clone }
    ensures ip_slice { CopyIsValue ⟦<IpSlice<'a> as Clone>⟧.is_clone }
    ensures lax_ip_slice { CopyIsValue ⟦<LaxIpSlice<'a> as Clone>⟧.is_clone }
{}

/// To copy one of these takes no memory and doesn't fail.
pub fn copies_never_fail<'a>()
    ensures lax_ip_payload_slice { CopyNeverFails ⟦<LaxIpPayloadSlice<'a> as Clone>⟧.is_infallible }
    ensures ip_slice { CopyNeverFails ⟦<IpSlice<'a> as Clone>⟧.is_infallible }
    ensures lax_ip_slice { CopyNeverFails ⟦<LaxIpSlice<'a> as Clone>⟧.is_infallible }
{}

/// Equal are packets of either version that are the same.
pub fn equal_packets_are_same<'a>()
    ensures { EqualIsSame ⟦<IpSlice<'a> as PartialEq>⟧.eq }
{
    types_are_plain_data();
}

/// The same of packets as far as they are there.
pub fn equal_lax_packets_are_same<'a>()
    ensures { EqualIsSame ⟦<LaxIpSlice<'a> as PartialEq>⟧.eq }
{
    types_are_plain_data();
}

/// Payloads that may have been cut off are equal where all their fields are the same.
pub fn lax_payloads_are_equal_by_value<'a>()
    ensures { (a b : LaxIpPayloadSlice) → IsTrue (⟦<LaxIpPayloadSlice<'a> as PartialEq>⟧.eq a b)
        ↔ (lax_value a ≡ lax_value b) }
{
    ep_base::laws::traits::types_are_plain_data();
}

/// No header is the default of extension headers, and an iterator with no header left that of the
/// iterator over them.
pub fn defaults_hold_no_header<'a>()
    ensures ipv4_extensions_slice { (value : Ipv4ExtensionsSlice)
        → ⟦<Ipv4ExtensionsSlice<'a> as Default>⟧.is_default value → value.auth ≡ None }
    ensures ipv6_extension_slice_iter { (left : HeadersLeft)
        → ⟦<Ipv6ExtensionSliceIter<'a> as Default>⟧.is_default left
        → (left.next_header ≡ 59) × (headers_left left ≡ []) }
{}

/// Payloads are ordered by their protocol numbers, then whole ones first, then by the sources of
/// their lengths, then by their bytes.
pub fn payloads_are_ordered_by_fields<'a>()
    ensures { (a b : IpPayload) → ⟦<IpPayloadSlice<'a> as Ord>⟧.cmp a b
        ≡ ordering_then (nat_cmp a.ip_number.0 b.ip_number.0) (
        ordering_then (nat_cmp (bool_index a.fragmented) (bool_index b.fragmented)) (
        ordering_then (nat_cmp (source_index a.len_source) (source_index b.len_source))
        (slice_cmp nat_cmp a.payload b.payload))) }
{}

/// A payload feeds a hasher all its fields.
pub fn payload_hashes_all_fields<H: Hasher>(payload: &IpPayloadSlice, state: &mut H)
    ensures { state.new ≡ fold H.write state.old (hashed_as payload.now) }
{
    payload.hash(state);
}
