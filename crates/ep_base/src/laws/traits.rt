//! What `Clone`, `PartialEq`, `Ord`, `Default` and `Hash` of the types here mean. Each clause is about the
//! relation that the type's own impl names and that its calls keep.

ghost use Rattle.std.specs.Prelude.{◌++◌};
ghost use Rattle.std.specs.Hash as fed;
ghost use Rattle.ep_base.specs.declared.err.len_error.LenError.{LenError};
ghost use Rattle.ep_base.specs.declared.err.slice_error.SliceError.TheVariants as slice_error;
ghost use Rattle.ep_base.specs.declared.err.slice_write_space_error.SliceWriteSpaceError.{SliceWriteSpaceError};
ghost use Rattle.ep_base.specs.declared.err.value_too_big_error.ValueTooBigError.{ValueTooBigError};
ghost use Rattle.ep_base.specs.declared.net.ip_dscp_unknown_value_error.IpDscpUnknownValueError.{IpDscpUnknownValueError};
ghost use Rattle.ep_base.specs.declared.net.ip_ecn.IpEcn.TheVariants.{NotEct};
ghost use Rattle.ep_base.specs.IpDscpKnown.{code_point};
ghost use Rattle.ep_base.specs.IpEcn.{ecn_number};
ghost use Rattle.ep_base.specs.Layer.{layer_index};
ghost use Rattle.ep_base.specs.LenSource.{source_index};
ghost use Rattle.ep_base.specs.Traits.{CopyIsValue, CopyNeverFails, DefaultIs, EqualIsSame, HashIsOf, HashIsOfIndex};
ghost use Rattle.ep_base.specs.Traits.{IsPlainData, OrderIsOf, VariantFeeds};
ghost use Rattle.ep_base.specs.ValueType.{kind_index};

use crate::checksum::Sum16BitWords;
use crate::err::{Layer, LenError, SliceError, SliceWriteSpaceError, ValueTooBigError, ValueType};
use crate::{
    EtherType, IpDscp, IpDscpKnown, IpDscpUnknownValueError, IpEcn, IpFragOffset, IpNumber,
    Ipv6FlowLabel, LenSource,
};
use std::hash::Hash;

/// What is copied and compared. In a clause, `⟦<VlanId as Value>⟧` names what `Clone` and
/// `PartialEq` of the type mean.
pub trait Value: Clone + PartialEq {}

impl<T: Clone + PartialEq> Value for T {}

/// A copy is the value and takes no memory. Equal are the values that are the same: numbers, names,
/// and all fields of an error. Sums are equal where their folds are.
pub fn types_are_plain_data()
    ensures ip_dscp { IsPlainData ⟦<IpDscp as Value>⟧ }
    ensures ip_dscp_known { IsPlainData ⟦<IpDscpKnown as Value>⟧ }
    ensures ip_ecn { IsPlainData ⟦<IpEcn as Value>⟧ }
    ensures ip_frag_offset { IsPlainData ⟦<IpFragOffset as Value>⟧ }
    ensures ip_number { IsPlainData ⟦<IpNumber as Value>⟧ }
    ensures ipv6_flow_label { IsPlainData ⟦<Ipv6FlowLabel as Value>⟧ }
    ensures ether_type { IsPlainData ⟦<EtherType as Value>⟧ }
    ensures sum_16_bit_words { IsPlainData ⟦<Sum16BitWords as Value>⟧ }
    ensures len_source { IsPlainData ⟦<LenSource as Value>⟧ }
    ensures layer { IsPlainData ⟦<Layer as Value>⟧ }
    ensures value_type { IsPlainData ⟦<ValueType as Value>⟧ }
    ensures len_error { IsPlainData ⟦<LenError as Value>⟧ }
    ensures slice_write_space_error { IsPlainData ⟦<SliceWriteSpaceError as Value>⟧ }
    ensures unknown_value_error { IsPlainData ⟦<IpDscpUnknownValueError as Value>⟧ }
{}

/// A refusal of a number of any type is copied, compared and hashed by all its fields.
pub fn value_too_big_errors<T: Clone + PartialEq + Hash>()
    requires copies { CopyIsValue T.is_clone }
    requires never_fails { CopyNeverFails T.is_infallible }
    requires equals { EqualIsSame T.eq }
    ensures copies { CopyIsValue ⟦<ValueTooBigError<T> as Clone>⟧.is_clone }
    ensures never_fails { CopyNeverFails ⟦<ValueTooBigError<T> as Clone>⟧.is_infallible }
    ensures equals { EqualIsSame ⟦<ValueTooBigError<T> as PartialEq>⟧.eq }
    ensures hash { HashIsOf (λ (e : ValueTooBigError T). T.hash_input e.actual
        ++ T.hash_input e.max_allowed ++ ⟦<ValueType as Hash>⟧.hash_input e.value_type)
        ⟦<ValueTooBigError<T> as Hash>⟧.hash_input }
{}

/// An error of a slice is copied, compared and hashed as what it holds is, whatever the format. A
/// hasher is fed 0 before an error of too few bytes, and 1 before an error in the content.
pub fn slice_errors<C: Clone + PartialEq + Hash>()
    requires copies { CopyIsValue C.is_clone }
    requires never_fails { CopyNeverFails C.is_infallible }
    requires equals { EqualIsSame C.eq }
    ensures copies { CopyIsValue ⟦<SliceError<C> as Clone>⟧.is_clone }
    ensures never_fails { CopyNeverFails ⟦<SliceError<C> as Clone>⟧.is_infallible }
    ensures equals { EqualIsSame ⟦<SliceError<C> as PartialEq>⟧.eq }
    ensures len { VariantFeeds ⟦<SliceError<C> as Hash>⟧.hash_input 0 slice_error.Len
        ⟦<LenError as Hash>⟧.hash_input }
    ensures content { VariantFeeds ⟦<SliceError<C> as Hash>⟧.hash_input 1 slice_error.Content
        C.hash_input }
{}

/// Numbers are ordered as numbers, named code points by their number, and sources of lengths as
/// they are declared.
pub fn orders_are_of_numbers()
    ensures ip_dscp { OrderIsOf (λ n. n) ⟦<IpDscp as Ord>⟧.cmp }
    ensures ip_dscp_known { OrderIsOf code_point ⟦<IpDscpKnown as Ord>⟧.cmp }
    ensures ip_ecn { OrderIsOf ecn_number ⟦<IpEcn as Ord>⟧.cmp }
    ensures ip_frag_offset { OrderIsOf (λ n. n) ⟦<IpFragOffset as Ord>⟧.cmp }
    ensures ip_number { OrderIsOf (λ number. number.0) ⟦<IpNumber as Ord>⟧.cmp }
    ensures ipv6_flow_label { OrderIsOf (λ n. n) ⟦<Ipv6FlowLabel as Ord>⟧.cmp }
    ensures ether_type { OrderIsOf (λ ether_type. ether_type.0) ⟦<EtherType as Ord>⟧.cmp }
    ensures len_source { OrderIsOf source_index ⟦<LenSource as Ord>⟧.cmp }
{}

/// The number 0 is the default, as a notification too.
pub fn defaults_are_zero()
    ensures ip_dscp { DefaultIs 0 ⟦<IpDscp as Default>⟧.is_default }
    ensures ip_ecn { DefaultIs NotEct ⟦<IpEcn as Default>⟧.is_default }
    ensures ip_frag_offset { DefaultIs 0 ⟦<IpFragOffset as Default>⟧.is_default }
    ensures ip_number { DefaultIs (record { 0 = 0 }) ⟦<IpNumber as Default>⟧.is_default }
    ensures ipv6_flow_label { DefaultIs 0 ⟦<Ipv6FlowLabel as Default>⟧.is_default }
    ensures ether_type { DefaultIs (record { 0 = 0 }) ⟦<EtherType as Default>⟧.is_default }
    ensures sum_16_bit_words { DefaultIs 0 ⟦<Sum16BitWords as Default>⟧.is_default }
{}

/// A hasher is fed a number as it is, and of a named code point its number.
pub fn hashes_are_of_numbers()
    ensures ip_dscp { HashIsOf fed.u8 ⟦<IpDscp as Hash>⟧.hash_input }
    ensures ip_dscp_known { HashIsOf (λ name. fed.u8 (code_point name))
        ⟦<IpDscpKnown as Hash>⟧.hash_input }
    ensures ip_frag_offset { HashIsOf fed.u16 ⟦<IpFragOffset as Hash>⟧.hash_input }
    ensures ip_number { HashIsOf (λ number. fed.u8 number.0) ⟦<IpNumber as Hash>⟧.hash_input }
    ensures ipv6_flow_label { HashIsOf fed.u32 ⟦<Ipv6FlowLabel as Hash>⟧.hash_input }
    ensures ether_type { HashIsOf (λ ether_type. fed.u16 ether_type.0)
        ⟦<EtherType as Hash>⟧.hash_input }
    ensures ip_ecn { HashIsOfIndex ecn_number ⟦<IpEcn as Hash>⟧.hash_input }
    ensures len_source { HashIsOfIndex source_index ⟦<LenSource as Hash>⟧.hash_input }
    ensures layer { HashIsOfIndex layer_index ⟦<Layer as Hash>⟧.hash_input }
    ensures value_type { HashIsOfIndex kind_index ⟦<ValueType as Hash>⟧.hash_input }
{}

/// An error feeds a hasher all its fields.
pub fn errors_hash_all_fields()
    ensures len_error { HashIsOf (λ (e : LenError). fed.usize e.required_len ++ fed.usize e.len
        ++ ⟦<LenSource as Hash>⟧.hash_input e.len_source ++ ⟦<Layer as Hash>⟧.hash_input e.layer
        ++ fed.usize e.layer_start_offset) ⟦<LenError as Hash>⟧.hash_input }
    ensures slice_write_space_error { HashIsOf (λ (e : SliceWriteSpaceError).
        fed.usize e.required_len ++ fed.usize e.len ++ ⟦<Layer as Hash>⟧.hash_input e.layer
        ++ fed.usize e.layer_start_offset) ⟦<SliceWriteSpaceError as Hash>⟧.hash_input }
    ensures unknown_value_error { HashIsOf (λ (e : IpDscpUnknownValueError). fed.u8 e.value)
        ⟦<IpDscpUnknownValueError as Hash>⟧.hash_input }
{}
