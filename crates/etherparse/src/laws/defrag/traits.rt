//! What `Clone`, `PartialEq` and `Hash` of the types here mean, each clause about the relation that
//! the type's own impl names.
ghost use Rattle.std.specs.Prelude.{◌≡◌, ◌↔◌, ◌++◌, IsTrue, ℕ, List, ◌∷◌};
ghost use Rattle.std.specs.Hash as fed;
ghost use Rattle.ep_base.specs.Traits.{CopyIsValue, CopyNeverFails, HashIsOf, IsPlainData};
ghost use Rattle.etherparse.specs.IpDefragPool.{payload_parsed};
ghost use Rattle.etherparse.specs.PoolCalls.{answer_result, request_of_call};
ghost use Rattle.etherparse.specs.declared.defrag.ip_defrag_payload_vec.IpDefragPayloadVec.{IpDefragPayloadVec};
ghost use Rattle.etherparse.specs.declared.defrag.ip_frag_id.IpFragId.{IpFragId};
ghost use Rattle.etherparse.specs.declared.defrag.ip_frag_version_spec_id.IpFragVersionSpecId.TheVariants.{Ipv4, Ipv6};
ghost use Rattle.etherparse.specs.declared.defrag.pool_calls.PoolCall.{PoolCall};
ghost use Rattle.etherparse.specs.declared.defrag.pool_calls.PoolAnswer.{PoolAnswer};

use crate::defrag::{IpDefragPayloadVec, IpFragId, IpFragVersionSpecId, PoolAnswer, PoolCall};
use ep_base::laws::traits::Value;
use std::hash::Hash;

/// A copy is the value and takes no memory. Equal are the values that are the same.
pub fn types_are_plain_data()
    ensures ip_frag_version_spec_id { IsPlainData ⟦<IpFragVersionSpecId as Value>⟧ }
{}

/// A copy is the value.
pub fn copies_are_values<'a>()
    ensures ip_frag_id { CopyIsValue ⟦<IpFragId<u32> as Clone>⟧.is_clone }
    ensures pool_call { CopyIsValue ⟦<PoolCall<'a> as Clone>⟧.is_clone }
{}

/// To copy one of these takes no memory and doesn't fail.
pub fn copies_never_fail<'a>()
    ensures ip_frag_id { CopyNeverFails ⟦<IpFragId<u32> as Clone>⟧.is_infallible }
    ensures pool_call { CopyNeverFails ⟦<PoolCall<'a> as Clone>⟧.is_infallible }
{}

/// Reassembled datagrams are equal where protocol, source of the lengths and bytes are.
pub fn equal_payloads_have_one_value()
    ensures { (a b : IpDefragPayloadVec) → IsTrue (⟦<IpDefragPayloadVec as PartialEq>⟧.eq a b)
        ↔ (payload_parsed a ≡ payload_parsed b) }
{}

/// Calls and answers of a pool are equal where they describe the same: the kind, and its bytes and
/// numbers.
pub fn equal_calls_request_the_same<'a>()
    ensures calls { (a b : PoolCall) → IsTrue (⟦<PoolCall<'a> as PartialEq>⟧.eq a b)
        ↔ (request_of_call a ≡ request_of_call b) }
    ensures pool_answers { (a b : PoolAnswer) → IsTrue (⟦<PoolAnswer as PartialEq>⟧.eq a b)
        ↔ (answer_result a ≡ answer_result b) }
{
    crate::laws::fragments::traits::types_are_plain_data();
    equal_payloads_have_one_value();
    ep_packet::laws::traits::types_are_plain_data();
}

/// A hasher is fed source and destination of a name's packets, each in one write, and the
/// identification, its low byte first.
pub fn names_by_addresses_and_identification()
    ensures ipv4 { (source destination : List ℕ) (identification : ℕ) →
        ⟦<IpFragVersionSpecId as Hash>⟧.hash_input (Ipv4 source destination identification)
        ≡ source ∷ destination ∷ fed.u16 identification }
    ensures ipv6 { (source destination : List ℕ) (identification : ℕ) →
        ⟦<IpFragVersionSpecId as Hash>⟧.hash_input (Ipv6 source destination identification)
        ≡ source ∷ destination ∷ fed.u32 identification }
{}

/// The whole name feeds a hasher the identifiers of its VLAN tags with their number, then all other
/// fields in their order.
pub fn names_hash_all_fields<C: Hash>()
    ensures { HashIsOf (λ (id : IpFragId C). fed.slice fed.u16 id.vlan_ids.items
        ++ ⟦<IpFragVersionSpecId as Hash>⟧.hash_input id.ip ++ fed.u8 id.payload_ip_number.0
        ++ C.hash_input id.channel_id) ⟦<IpFragId<C> as Hash>⟧.hash_input }
{}
