//! What `Clone`, `PartialEq` and `Hash` of the type here mean, each clause about the relation that
//! the type's own impl names.
ghost use Rattle.std.specs.Prelude.{◌≡◌, pos};
ghost use Rattle.std.specs.Hash as fed;
ghost use Rattle.ep_base.specs.Traits.{IsPlainData, VariantFeeds};
ghost use Rattle.etherparse.specs.declared.err.packet.build_write_error.BuildWriteError.TheVariants as write;

use crate::err::packet::BuildWriteError;
use ep_base::err::ValueTooBigError;
use ep_base::laws::traits::Value;
use ep_ext::err::{ipv4_exts, ipv6_exts};
use std::hash::Hash;

/// A copy is the value and takes no memory. Equal are the values that are the same.
pub fn types_are_plain_data()
    ensures build_write_error { IsPlainData ⟦<BuildWriteError as Value>⟧ }
{
    ep_base::laws::traits::types_are_plain_data();
    ep_ext::laws::traits::types_are_plain_data();
}

/// A hasher is fed the position of the reason why no packet was written, in the order in which they
/// are declared, and then what it holds.
pub fn write_errors_hash_all_fields()
    ensures memory { ⟦<BuildWriteError as Hash>⟧.hash_input write.Memory ≡ fed.isize (pos 0) }
    ensures payload_len { VariantFeeds ⟦<BuildWriteError as Hash>⟧.hash_input
        1 write.PayloadLen ⟦<ValueTooBigError<usize> as Hash>⟧.hash_input }
    ensures ipv4_exts { VariantFeeds ⟦<BuildWriteError as Hash>⟧.hash_input
        2 write.Ipv4Exts ⟦<ipv4_exts::ExtsWalkError as Hash>⟧.hash_input }
    ensures ipv6_exts { VariantFeeds ⟦<BuildWriteError as Hash>⟧.hash_input
        3 write.Ipv6Exts ⟦<ipv6_exts::ExtsWalkError as Hash>⟧.hash_input }
    ensures icmpv6 { ⟦<BuildWriteError as Hash>⟧.hash_input write.Icmpv6InIpv4
        ≡ fed.isize (pos 4) }
    ensures arp { ⟦<BuildWriteError as Hash>⟧.hash_input write.ArpHeaderNotMatch
        ≡ fed.isize (pos 5) }
{}
