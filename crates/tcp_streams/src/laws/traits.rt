//! What `Clone`, `PartialEq` and `Default` of the types here mean, each clause about the relation that
//! the type's own impl names.

ghost use Rattle.std.specs.Prelude.{◌≡◌, ◌+◌, ◌*◌, ◌^◌, ◌++◌, ◌∷◌, ℕ, List, false, None};
ghost use Rattle.std.specs.Hash as fed;
ghost use Rattle.std.specs.Int.{from_be_bytes, w32};
ghost use Rattle.ep_base.specs.Traits.{CopyIsValue, CopyNeverFails, DefaultIs, EqualIsSame, HashIsOf, HashIsOfIndex};
ghost use Rattle.ep_base.specs.Traits.{IsPlainData};
ghost use Rattle.tcp_streams.specs.ConnectionStates.{by_direction};
ghost use Rattle.tcp_streams.specs.declared.direction.Direction.TheVariants.{FromLower};
ghost use Rattle.tcp_streams.specs.declared.endpoint.Endpoint.TheVariants.{V4, V6};
ghost use Rattle.tcp_streams.specs.declared.flow_key.FlowKey.{FlowKey as Key};

use crate::{
    Added, Conflicts, ConnectionState, Control, Direction, Distance, Endpoint, Flow, FlowKey,
    FlowPacket, FollowedSegment, Gap, Refused, SegmentFlags, StreamCounts, Traffic,
};
use ep_base::laws::traits::Value;
use std::hash::Hash;

/// A copy is the value and takes no memory. Equal are the values that are the same: all fields.
pub fn types_are_plain_data()
    ensures added { IsPlainData ⟦<Added as Value>⟧ }
    ensures conflicts { IsPlainData ⟦<Conflicts as Value>⟧ }
    ensures connection_state { IsPlainData ⟦<ConnectionState as Value>⟧ }
    ensures control { IsPlainData ⟦<Control as Value>⟧ }
    ensures direction { IsPlainData ⟦<Direction as Value>⟧ }
    ensures distance { IsPlainData ⟦<Distance as Value>⟧ }
    ensures endpoint { IsPlainData ⟦<Endpoint as Value>⟧ }
    ensures flow_packet { IsPlainData ⟦<FlowPacket as Value>⟧ }
    ensures gap { IsPlainData ⟦<Gap as Value>⟧ }
    ensures refused { IsPlainData ⟦<Refused as Value>⟧ }
    ensures segment_flags { IsPlainData ⟦<SegmentFlags as Value>⟧ }
    ensures stream_counts { IsPlainData ⟦<StreamCounts as Value>⟧ }
    ensures traffic { IsPlainData ⟦<Traffic as Value>⟧ }
{}

/// The same of what a segment does in a connection that is followed.
pub fn followed_segments_are_plain_data()
    ensures { IsPlainData ⟦<FollowedSegment as Value>⟧ }
{
    types_are_plain_data();
}

/// By default there is no conflict, no flag is set, and no packet came.
pub fn defaults_are_none()
    ensures conflicts { DefaultIs (record { count = 0; first = None })
        ⟦<Conflicts as Default>⟧.is_default }
    ensures segment_flags { DefaultIs (record { syn = false; fin = false; rst = false })
        ⟦<SegmentFlags as Default>⟧.is_default }
    ensures traffic { DefaultIs (record { packets = 0; bytes = 0 }) ⟦<Traffic as Default>⟧.is_default }
{}

/// A flow is copied and compared by all its fields, a value as its type is.
pub fn flows_are_plain_data<T: Clone + PartialEq>()
    requires copies { CopyIsValue T.is_clone }
    requires never_fails { CopyNeverFails T.is_infallible }
    requires equals { EqualIsSame T.eq }
    ensures copies { CopyIsValue ⟦<Flow<T> as Clone>⟧.is_clone }
    ensures never_fails { CopyNeverFails ⟦<Flow<T> as Clone>⟧.is_infallible }
    ensures equals { EqualIsSame ⟦<Flow<T> as PartialEq>⟧.eq }
{
    types_are_plain_data();
}

/// A hasher is fed the index of a direction; of an endpoint over IPv4 the number that its address and
/// its port are, of one over IPv6 the address in one write and the port; of a key the identifiers of
/// its VLAN tags, both endpoints and the channel.
pub fn keys_are_hashed_by_all_fields<C: Hash>()
    ensures direction { HashIsOfIndex (λ d. by_direction d FromLower 0 1)
        ⟦<Direction as Hash>⟧.hash_input }
    ensures v4 { (address : List ℕ) (port : ℕ) → ⟦<Endpoint as Hash>⟧.hash_input (V4 address port)
        ≡ fed.u64 (from_be_bytes w32 address * 2 ^ 16 + port) }
    ensures v6 { (address : List ℕ) (port : ℕ) → ⟦<Endpoint as Hash>⟧.hash_input (V6 address port)
        ≡ address ∷ fed.u16 port }
    ensures key { HashIsOf (λ (k : Key C). fed.slice fed.u16 k.vlan_ids.items
        ++ ⟦<Endpoint as Hash>⟧.hash_input k.lower ++ ⟦<Endpoint as Hash>⟧.hash_input k.higher
        ++ C.hash_input k.channel_id) ⟦<FlowKey<C> as Hash>⟧.hash_input }
{}
