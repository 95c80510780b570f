//! What `Clone`, `PartialEq`, `Ord` and `Hash` of the types here mean, each clause about the
//! relation that the type's own impl names.
ghost use Rattle.std.specs.Prelude.{◌≡◌, ◌↔◌, ℕ, IsTrue, pos};
ghost use Rattle.std.specs.Cmp.Lexicographic.{slice_cmp};
ghost use Rattle.std.specs.Hash as fed;
ghost use Rattle.std.specs.Ordering.{nat_cmp};
ghost use Rattle.ep_base.specs.declared.link.ether_type.EtherType.{EtherType};
ghost use Rattle.ep_base.specs.Traits.{CopyIsValue, CopyNeverFails, HashIsOf, IsPlainData, OrderIsOf, VariantFeeds};
ghost use Rattle.ep_tag.specs.Ether.{EtherPayload, LaxEtherPayload};
ghost use Rattle.ep_tag.specs.EtherOrder.{hashed_as, lax_hashed_as, lax_ordered_as, ordered_as};
ghost use Rattle.ep_tag.specs.MacsecOrder.{ptype_ordered_as};
ghost use Rattle.ep_tag.specs.MacsecView.{lax_payload_parsed, payload_parsed};
ghost use Rattle.ep_tag.specs.declared.err.double_vlan.header_error.HeaderError.TheVariants as double;
ghost use Rattle.ep_tag.specs.declared.err.macsec.header_error.HeaderError.TheVariants as fault;
ghost use Rattle.ep_tag.specs.declared.link.lax_macsec_payload_slice.LaxMacsecPayloadSlice.{LaxMacsecPayloadSlice};
ghost use Rattle.ep_tag.specs.declared.link.macsec_p_type.MacsecPType.{MacsecPType};
ghost use Rattle.ep_tag.specs.declared.link.macsec_p_type.MacsecPType.TheVariants as ptype;
ghost use Rattle.ep_tag.specs.declared.link.macsec_payload_slice.MacsecPayloadSlice.{MacsecPayloadSlice};

use crate::err::{double_vlan, macsec};
use crate::{
    DoubleVlanHeader, DoubleVlanHeaderSlice, DoubleVlanSlice, EtherPayloadSlice,
    LaxEtherPayloadSlice, LaxLinkExtSlice, LaxMacsecPayloadSlice, LaxMacsecSlice, LinkExtHeader,
    LinkExtSlice, MacsecAn, MacsecHeader, MacsecHeaderSlice, MacsecPType, MacsecPayloadSlice,
    MacsecShortLen, MacsecSlice, SingleVlanHeader, SingleVlanHeaderSlice, SingleVlanSlice,
    VlanHeader, VlanId, VlanPcp, VlanSlice,
};
use ep_base::EtherType;
use ep_base::laws::traits::Value;
use std::hash::Hash;

/// A copy is the value and takes no memory. Equal are the values that are the same: all fields of a
/// header, all bytes of a slice, and the kind of tag or fault.
pub fn types_are_plain_data<'a>()
    ensures vlan_id { IsPlainData ⟦<VlanId as Value>⟧ }
    ensures vlan_pcp { IsPlainData ⟦<VlanPcp as Value>⟧ }
    ensures macsec_an { IsPlainData ⟦<MacsecAn as Value>⟧ }
    ensures macsec_short_len { IsPlainData ⟦<MacsecShortLen as Value>⟧ }
    ensures macsec_p_type { IsPlainData ⟦<MacsecPType as Value>⟧ }
    ensures single_vlan_header { IsPlainData ⟦<SingleVlanHeader as Value>⟧ }
    ensures double_vlan_header { IsPlainData ⟦<DoubleVlanHeader as Value>⟧ }
    ensures vlan_header { IsPlainData ⟦<VlanHeader as Value>⟧ }
    ensures macsec_header { IsPlainData ⟦<MacsecHeader as Value>⟧ }
    ensures link_ext_header { IsPlainData ⟦<LinkExtHeader as Value>⟧ }
    ensures single_vlan_header_slice { IsPlainData ⟦<SingleVlanHeaderSlice<'a> as Value>⟧ }
    ensures single_vlan_slice { IsPlainData ⟦<SingleVlanSlice<'a> as Value>⟧ }
    ensures double_vlan_slice { IsPlainData ⟦<DoubleVlanSlice<'a> as Value>⟧ }
    ensures double_vlan_header_slice { IsPlainData ⟦<DoubleVlanHeaderSlice<'a> as Value>⟧ }
    ensures vlan_slice { IsPlainData ⟦<VlanSlice<'a> as Value>⟧ }
    ensures macsec_header_slice { IsPlainData ⟦<MacsecHeaderSlice<'a> as Value>⟧ }
    ensures macsec_slice { IsPlainData ⟦<MacsecSlice<'a> as Value>⟧ }
    ensures ether_payload_slice { IsPlainData ⟦<EtherPayloadSlice<'a> as Value>⟧ }
    ensures link_ext_slice { IsPlainData ⟦<LinkExtSlice<'a> as Value>⟧ }
    ensures lax_macsec_slice { IsPlainData ⟦<LaxMacsecSlice<'a> as Value>⟧ }
    ensures lax_ether_payload_slice { IsPlainData ⟦<LaxEtherPayloadSlice<'a> as Value>⟧ }
    ensures lax_link_ext_slice { IsPlainData ⟦<LaxLinkExtSlice<'a> as Value>⟧ }
    ensures double_vlan_header_error { IsPlainData ⟦<double_vlan::HeaderError as Value>⟧ }
    ensures macsec_header_error { IsPlainData ⟦<macsec::HeaderError as Value>⟧ }
{
    ep_base::laws::traits::types_are_plain_data();
}

/// A copy is the value: of a header its fields, of a slice its bytes.
pub fn copies_are_values<'a>()
    ensures macsec_payload_slice { CopyIsValue ⟦<MacsecPayloadSlice<'a> as Clone>⟧.is_clone }
    ensures lax_macsec_payload_slice { CopyIsValue ⟦<LaxMacsecPayloadSlice<'a> as Clone>⟧.is_clone }
{}

/// To copy one of these takes no memory and doesn't fail.
pub fn copies_never_fail<'a>()
    ensures macsec_payload_slice { CopyNeverFails
        ⟦<MacsecPayloadSlice<'a> as Clone>⟧.is_infallible }
    ensures lax_macsec_payload_slice { CopyNeverFails
        ⟦<LaxMacsecPayloadSlice<'a> as Clone>⟧.is_infallible }
{}

/// MACsec payloads are equal where they are of one kind, and all that a contract sees of them is
/// the same.
pub fn macsec_payloads_are_equal_as_seen<'a>()
    ensures { (a b : MacsecPayloadSlice) → IsTrue (⟦<MacsecPayloadSlice<'a> as PartialEq>⟧.eq a b)
        ↔ (payload_parsed a ≡ payload_parsed b) }
{}

/// So are those that may have been cut off.
pub fn lax_macsec_payloads_are_equal_as_seen<'a>()
    ensures { (a b : LaxMacsecPayloadSlice)
        → IsTrue (⟦<LaxMacsecPayloadSlice<'a> as PartialEq>⟧.eq a b)
        ↔ (lax_payload_parsed a ≡ lax_payload_parsed b) }
{}

/// Numbers are ordered as numbers.
pub fn orders_are_of_numbers()
    ensures vlan_id { OrderIsOf (λ n. n) ⟦<VlanId as Ord>⟧.cmp }
    ensures vlan_pcp { OrderIsOf (λ n. n) ⟦<VlanPcp as Ord>⟧.cmp }
    ensures macsec_an { OrderIsOf (λ n. n) ⟦<MacsecAn as Ord>⟧.cmp }
    ensures macsec_short_len { OrderIsOf (λ n. n) ⟦<MacsecShortLen as Ord>⟧.cmp }
{}

/// Kinds of MACsec payloads are ordered as they are declared, and unmodified ones by their ether
/// type. A hasher is fed the index of the kind, and of an unmodified one the ether type.
pub fn macsec_p_types_by_kind()
    ensures order { (a b : MacsecPType) → ⟦<MacsecPType as Ord>⟧.cmp a b
        ≡ slice_cmp nat_cmp (ptype_ordered_as a) (ptype_ordered_as b) }
    ensures unmodified { VariantFeeds ⟦<MacsecPType as Hash>⟧.hash_input 0 ptype.Unmodified
        ⟦<EtherType as Hash>⟧.hash_input }
    ensures modified { ⟦<MacsecPType as Hash>⟧.hash_input ptype.Modified ≡ fed.isize (pos 1) }
    ensures encrypted { ⟦<MacsecPType as Hash>⟧.hash_input ptype.Encrypted ≡ fed.isize (pos 2) }
    ensures encrypted_unmodified { ⟦<MacsecPType as Hash>⟧.hash_input ptype.EncryptedUnmodified
        ≡ fed.isize (pos 3) }
{}

/// A hasher is fed the ether type that the one fault of two VLAN tags names.
pub fn double_vlan_errors_hash_all_fields()
    ensures { (t : EtherType) → ⟦<double_vlan::HeaderError as Hash>⟧.hash_input
        (double.NonVlanEtherType t) ≡ ⟦<EtherType as Hash>⟧.hash_input t }
{}

/// A hasher is fed which fault a MACsec header has, by its index among them.
pub fn errors_hash_as_indices()
    ensures version { ⟦<macsec::HeaderError as Hash>⟧.hash_input fault.UnexpectedVersion
        ≡ fed.isize (pos 0) }
    ensures short_len { ⟦<macsec::HeaderError as Hash>⟧.hash_input fault.InvalidUnmodifiedShortLen
        ≡ fed.isize (pos 1) }
{}

/// A hasher is fed a number as it is.
pub fn hashes_are_of_numbers()
    ensures vlan_id { HashIsOf fed.u16 ⟦<VlanId as Hash>⟧.hash_input }
    ensures vlan_pcp { HashIsOf fed.u8 ⟦<VlanPcp as Hash>⟧.hash_input }
    ensures macsec_an { HashIsOf fed.u8 ⟦<MacsecAn as Hash>⟧.hash_input }
    ensures macsec_short_len { HashIsOf fed.u8 ⟦<MacsecShortLen as Hash>⟧.hash_input }
{}

/// Payloads after an ether type are ordered by the type, then by what bounds them, as it is
/// declared, then by their bytes; a hasher is fed the three in this order.
pub fn ether_payloads_by_all_fields<'a>()
    ensures order { (a b : EtherPayload) → ⟦<EtherPayloadSlice<'a> as Ord>⟧.cmp a b
        ≡ slice_cmp nat_cmp (ordered_as a) (ordered_as b) }
    ensures hash { HashIsOf hashed_as ⟦<EtherPayloadSlice<'a> as Hash>⟧.hash_input }
{}

/// Of those that may have been cut off it is first whether they were, and then the three.
pub fn lax_ether_payloads_by_all_fields<'a>()
    ensures order { (a b : LaxEtherPayload) → ⟦<LaxEtherPayloadSlice<'a> as Ord>⟧.cmp a b
        ≡ slice_cmp nat_cmp (lax_ordered_as a) (lax_ordered_as b) }
    ensures hash { HashIsOf lax_hashed_as ⟦<LaxEtherPayloadSlice<'a> as Hash>⟧.hash_input }
{}
