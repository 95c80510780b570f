//! What the segments of a TCP connection have in common.

ghost use Rattle.std.specs.Prelude.{◌≡◌};
ghost use Rattle.tcp_streams.specs.FlowKeys.{ends_of, key_between};

use super::direction::Direction;
use super::endpoint::Endpoint;
use arrayvec::ArrayVec;
use ep_tag::VlanId;

/// What the segments of a TCP connection have in common, whichever way they go: VLAN identifiers,
/// both endpoints, and the identifier of a channel.
///
/// A pair of endpoints identifies a connection (RFC 9293, section 4, "connection"). One that begins
/// once another one of them has ended has the same key.
#[derive(Clone, Debug, PartialEq, Eq, Hash, Drop)]
pub struct FlowKey<CustomChannelId = ()> {
    vlan_ids: ArrayVec<VlanId, 3>,
    lower: Endpoint,
    higher: Endpoint,
    channel_id: CustomChannelId,
}

impl<CustomChannelId> FlowKey<CustomChannelId> {
    /// The key of a segment, and its direction. Where both endpoints are the same, that is
    /// [`Direction::FromLower`].
    pub fn between(
        vlan_ids: ArrayVec<VlanId, 3>,
        source: Endpoint,
        destination: Endpoint,
        channel_id: CustomChannelId,
    ) -> (FlowKey<CustomChannelId>, Direction)
        ensures { result ≡ key_between vlan_ids.items source destination channel_id }
    {
        if source.cmp(&destination).is_gt() {
            let key = FlowKey {
                vlan_ids,
                lower: destination,
                higher: source,
                channel_id,
            };
            (key, Direction::FromHigher)
        } else {
            let key = FlowKey {
                vlan_ids,
                lower: source,
                higher: destination,
                channel_id,
            };
            (key, Direction::FromLower)
        }
    }

    /// The identifiers of the VLAN tags, the outer one first.
    pub fn vlan_ids(&self) -> &[VlanId]
        ensures { result.now ≡ self.now.vlan_ids.items }
    {
        self.vlan_ids.as_slice()
    }

    /// The source and the destination of segments in a direction.
    pub fn endpoints(&self, direction: Direction) -> (Endpoint, Endpoint)
        ensures { result ≡ ends_of self.now direction }
    {
        match direction {
            Direction::FromLower => (self.lower, self.higher),
            Direction::FromHigher => (self.higher, self.lower),
        }
    }

    /// The identifier by which the caller distinguishes connections besides, such as the interface
    /// on which packets came.
    pub fn channel_id(&self) -> &CustomChannelId
        ensures { result.now ≡ self.now.channel_id }
    {
        &self.channel_id
    }
}
