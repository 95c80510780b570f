//! Laws of the table of connections.

ghost use Rattle.tcp_streams.specs.Flows.{FlowsAreFound, FlowsAreIsolated, FlowsShowPackets, FlowsStay};

/// A flow has of each direction the number of its packets and of their bytes, the least and the
/// greatest time, the state after its packets, and the value with which it began.
#[tactic(auto, using(crate::proofs::FlowLemmas::show_packets))]
pub fn flows_show_their_packets<T>()
    ensures { FlowsShowPackets T }
{}

/// After a packet the flow of its key is found, with one packet more.
#[tactic(auto, using(crate::proofs::FlowLemmas::found))]
pub fn flows_are_found<T, K: Eq>()
    ensures { FlowsAreFound K T K.eq }
{}

/// Packets of other keys change nothing in the flow of a key, as long as they don't drop it.
#[tactic(auto, using(crate::proofs::FlowLemmas::isolated))]
pub fn flows_are_isolated<T, K: Eq>()
    ensures { FlowsAreIsolated K T K.eq }
{}

/// A flow isn't dropped while fewer other connections have packets than there may be flows.
#[tactic(auto, using(crate::proofs::StayLemmas::stay))]
pub fn flows_stay<T, K: Eq>()
    ensures { FlowsStay K T K.eq }
{}
