//! What `Clone` and `PartialEq` of the types here mean, and `Hash` of the errors, each clause about
//! the relation that the type's own impl names. `laws::ipv4` has the order and the hash of options.

ghost use Rattle.std.specs.Prelude.{◌≡◌, ℕ};
ghost use Rattle.std.specs.Hash as fed;
ghost use Rattle.ep_base.specs.Traits.{HashIsOf, IsPlainData, VariantFeeds};
ghost use Rattle.ep_ip.specs.declared.err.ipv4.bad_options_len.BadOptionsLen.{BadOptionsLen};
ghost use Rattle.ep_ip.specs.declared.err.ipv4.header_error.HeaderError.TheVariants as ipv4_fault;
ghost use Rattle.ep_ip.specs.declared.err.ipv6.header_error.HeaderError.TheVariants as ipv6_fault;

use crate::err::{ipv4, ipv6};
use crate::{Ipv4Header, Ipv4HeaderSlice, Ipv4Options, Ipv6Header, Ipv6HeaderSlice};
use ep_base::laws::traits::Value;
use std::hash::Hash;

/// A copy is the value and takes no memory. Equal are the values that are the same: all fields of a
/// header or an error, all bytes of a slice or of options.
pub fn types_are_plain_data<'a>()
    ensures ipv4_header { IsPlainData ⟦<Ipv4Header as Value>⟧ }
    ensures ipv4_header_slice { IsPlainData ⟦<Ipv4HeaderSlice<'a> as Value>⟧ }
    ensures ipv4_options { IsPlainData ⟦<Ipv4Options as Value>⟧ }
    ensures ipv6_header { IsPlainData ⟦<Ipv6Header as Value>⟧ }
    ensures ipv6_header_slice { IsPlainData ⟦<Ipv6HeaderSlice<'a> as Value>⟧ }
    ensures ipv4_header_error { IsPlainData ⟦<ipv4::HeaderError as Value>⟧ }
    ensures bad_options_len { IsPlainData ⟦<ipv4::BadOptionsLen as Value>⟧ }
    ensures ipv6_header_error { IsPlainData ⟦<ipv6::HeaderError as Value>⟧ }
{}

/// A hasher is fed all fields of an error, and before them, where there are several, which of
/// the errors it is, as they are declared.
pub fn errors_hash_all_fields()
    ensures version { VariantFeeds ⟦<ipv4::HeaderError as Hash>⟧.hash_input
        0 ipv4_fault.UnexpectedVersion fed.u8 }
    ensures header_len { VariantFeeds ⟦<ipv4::HeaderError as Hash>⟧.hash_input
        1 ipv4_fault.HeaderLengthSmallerThanHeader fed.u8 }
    ensures options_len { HashIsOf (λ (e : BadOptionsLen). fed.usize e.bad_len)
        ⟦<ipv4::BadOptionsLen as Hash>⟧.hash_input }
    ensures ipv6_version { (n : ℕ) → ⟦<ipv6::HeaderError as Hash>⟧.hash_input
        (ipv6_fault.UnexpectedVersion n) ≡ fed.u8 n }
{}
