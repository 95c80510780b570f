//! What `Hash` of the types here feeds a hasher: which variant an error is, as they are declared, and
//! then what it holds.
ghost use Rattle.std.specs.Prelude.{◌≡◌, [], pos};
ghost use Rattle.std.specs.Hash as fed;
ghost use Rattle.ep_base.specs.Traits.{HashIsOfIndex, VariantFeeds};
ghost use Rattle.ep_base.specs.declared.net.ip_number.IpNumber.{IpNumber};
ghost use Rattle.ep_ext.specs.Slot.{rank};
ghost use Rattle.ep_ext.specs.declared.err.ip_auth.header_error.HeaderError.{HeaderError as AuthError};
ghost use Rattle.ep_ext.specs.declared.err.ip_auth.icv_len_error.IcvLenError.TheVariants as icv;
ghost use Rattle.ep_ext.specs.declared.err.ipv4_exts.exts_walk_error.ExtsWalkError.TheVariants as ipv4_walk;
ghost use Rattle.ep_ext.specs.declared.err.ipv4_exts.header_write_error.HeaderWriteError.TheVariants as ipv4_write;
ghost use Rattle.ep_ext.specs.declared.err.ipv6_exts.exts_walk_error.ExtsWalkError.TheVariants as ipv6_walk;
ghost use Rattle.ep_ext.specs.declared.err.ipv6_exts.ext_payload_len_error.ExtPayloadLenError.TheVariants as payload;
ghost use Rattle.ep_ext.specs.declared.err.ipv6_exts.header_error.HeaderError.TheVariants as ipv6;
ghost use Rattle.ep_ext.specs.declared.err.ipv6_exts.header_write_error.HeaderWriteError.TheVariants as ipv6_write;
ghost use Rattle.ep_ext.specs.declared.err.ip_exts.exts_walk_error.ExtsWalkError.TheVariants as walk;
ghost use Rattle.ep_ext.specs.declared.err.ip_exts.header_error.HeaderError.TheVariants as exts;

use crate::Ipv6ExtSlot;
use crate::err::{ip_auth, ip_exts, ipv4_exts, ipv6_exts};
use ep_base::IpNumber;
use std::hash::Hash;

/// Why bytes are no check value or payload of a header comes with their number.
pub fn length_errors_hash_all_fields()
    ensures icv_too_big { VariantFeeds ⟦<ip_auth::IcvLenError as Hash>⟧.hash_input
        0 icv.TooBig fed.usize }
    ensures icv_unaligned { VariantFeeds ⟦<ip_auth::IcvLenError as Hash>⟧.hash_input
        1 icv.Unaligned fed.usize }
    ensures too_small { VariantFeeds ⟦<ipv6_exts::ExtPayloadLenError as Hash>⟧.hash_input
        0 payload.TooSmall fed.usize }
    ensures too_big { VariantFeeds ⟦<ipv6_exts::ExtPayloadLenError as Hash>⟧.hash_input
        1 payload.TooBig fed.usize }
    ensures unaligned { VariantFeeds ⟦<ipv6_exts::ExtPayloadLenError as Hash>⟧.hash_input
        2 payload.Unaligned fed.usize }
{}

/// Why headers don't follow one another comes with the number of the header that isn't named; of
/// both versions, with that of the version.
pub fn walk_errors_hash_all_fields()
    ensures ipv4 { (number : IpNumber) → ⟦<ipv4_exts::ExtsWalkError as Hash>⟧.hash_input
        (ipv4_walk.ExtNotReferenced number) ≡ fed.u8 number.0 }
    ensures ipv6_start { ⟦<ipv6_exts::ExtsWalkError as Hash>⟧.hash_input ipv6_walk.HopByHopNotAtStart
        ≡ fed.isize (pos 0) }
    ensures ipv6_missing { VariantFeeds ⟦<ipv6_exts::ExtsWalkError as Hash>⟧.hash_input
        1 ipv6_walk.ExtNotReferenced ⟦<IpNumber as Hash>⟧.hash_input }
    ensures of_ipv4 { VariantFeeds ⟦<ip_exts::ExtsWalkError as Hash>⟧.hash_input
        0 walk.Ipv4Exts ⟦<ipv4_exts::ExtsWalkError as Hash>⟧.hash_input }
    ensures of_ipv6 { VariantFeeds ⟦<ip_exts::ExtsWalkError as Hash>⟧.hash_input
        1 walk.Ipv6Exts ⟦<ipv6_exts::ExtsWalkError as Hash>⟧.hash_input }
{}

/// Why headers were not written: no memory, or why they don't follow one another.
pub fn write_errors_hash_all_fields()
    ensures ipv4_memory { ⟦<ipv4_exts::HeaderWriteError as Hash>⟧.hash_input ipv4_write.Memory
        ≡ fed.isize (pos 0) }
    ensures ipv4_content { VariantFeeds ⟦<ipv4_exts::HeaderWriteError as Hash>⟧.hash_input
        1 ipv4_write.Content ⟦<ipv4_exts::ExtsWalkError as Hash>⟧.hash_input }
    ensures ipv6_memory { ⟦<ipv6_exts::HeaderWriteError as Hash>⟧.hash_input ipv6_write.Memory
        ≡ fed.isize (pos 0) }
    ensures ipv6_content { VariantFeeds ⟦<ipv6_exts::HeaderWriteError as Hash>⟧.hash_input
        1 ipv6_write.Content ⟦<ipv6_exts::ExtsWalkError as Hash>⟧.hash_input }
{}

/// What is wrong with the content of headers; of both versions, with that of the version. The one
/// fault of an authentication header feeds nothing more.
pub fn content_errors_hash_all_fields()
    ensures auth { (e : AuthError) → ⟦<ip_auth::HeaderError as Hash>⟧.hash_input e ≡ [] }
    ensures start { ⟦<ipv6_exts::HeaderError as Hash>⟧.hash_input ipv6.HopByHopNotAtStart
        ≡ fed.isize (pos 0) }
    ensures ip_auth { VariantFeeds ⟦<ipv6_exts::HeaderError as Hash>⟧.hash_input
        1 ipv6.IpAuth ⟦<ip_auth::HeaderError as Hash>⟧.hash_input }
    ensures of_ipv4 { VariantFeeds ⟦<ip_exts::HeaderError as Hash>⟧.hash_input
        0 exts.Ipv4Ext ⟦<ip_auth::HeaderError as Hash>⟧.hash_input }
    ensures of_ipv6 { VariantFeeds ⟦<ip_exts::HeaderError as Hash>⟧.hash_input
        1 exts.Ipv6Ext ⟦<ipv6_exts::HeaderError as Hash>⟧.hash_input }
{}

/// A slot of an extension header feeds its index in the order in which they are declared.
pub fn slots_hash_as_ranks()
    ensures { HashIsOfIndex rank ⟦<Ipv6ExtSlot as Hash>⟧.hash_input }
{}
