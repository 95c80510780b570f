//! Laws of the keys of connections.

ghost use Rattle.std.specs.Prelude.{◌≡◌};
ghost use Rattle.ep_base.specs.Traits.{CopyIsValue, CopyNeverFails, EqualIsSame};
ghost use Rattle.tcp_streams.specs.FlowKeys.{BothWays, KeysAreOfOneConnection, KeysNameEndpoints, order_of};
ghost use Rattle.tcp_streams.specs.PacketKeys.{PacketsBothWays};
ghost use Rattle.tcp_streams.specs.declared.endpoint.Endpoint.{Endpoint as End};

use crate::{Endpoint, FlowKey};

/// Segments that go back have the same key and the other direction, unless both endpoints are one.
#[tactic(auto, using(crate::proofs::FlowKeyLemmas::both_ways))]
pub fn keys_go_both_ways<C>()
    ensures { BothWays C }
{}

/// So have packets: those that go back have the key of those that go there, and the other direction.
pub fn packets_go_both_ways<C>()
    ensures { PacketsBothWays C }
{}

/// A key and a direction name the source and the destination.
#[tactic(auto, using(crate::proofs::FlowKeyLemmas::name_endpoints))]
pub fn keys_name_endpoints<C>()
    ensures { KeysNameEndpoints C }
{}

/// Segments with the same key have the same VLAN identifiers, channel and pair of endpoints.
#[tactic(auto, using(crate::proofs::FlowKeyLemmas::of_one_connection))]
pub fn keys_are_of_one_connection<C>()
    ensures { KeysAreOfOneConnection C }
{}

/// Endpoints are ordered by version, then by addresses, then by ports.
#[tactic(auto, using(crate::proofs::FlowKeyLemmas::order_is))]
pub fn endpoints_are_ordered()
    ensures { (a b : End) → ⟦<Endpoint as Ord>⟧.cmp a b ≡ order_of a b }
{}

/// A key is copied and compared by all its fields, a channel as its type is.
pub fn keys_are_plain_data<C: Clone + PartialEq>()
    requires copies { CopyIsValue C.is_clone }
    requires never_fails { CopyNeverFails C.is_infallible }
    requires equals { EqualIsSame C.eq }
    ensures copies { CopyIsValue ⟦<FlowKey<C> as Clone>⟧.is_clone }
    ensures never_fails { CopyNeverFails ⟦<FlowKey<C> as Clone>⟧.is_infallible }
    ensures equals { EqualIsSame ⟦<FlowKey<C> as PartialEq>⟧.eq }
{
    super::traits::types_are_plain_data();
}
