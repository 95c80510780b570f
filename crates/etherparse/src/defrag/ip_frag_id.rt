//! The name of a fragmented datagram.

use super::IpFragVersionSpecId;
use arrayvec::ArrayVec;
use ep_base::IpNumber;
use ep_tag::VlanId;

/// The name of a fragmented datagram: what its fragments share, and those of no other datagram
/// have.
#[derive(Clone, Debug, PartialEq, Eq, Hash, Drop)]
pub struct IpFragId<CustomChannelId = ()> {
    /// The identifiers of the VLAN tags, the outer one first.
    pub vlan_ids: ArrayVec<VlanId, 3>,
    /// Version, addresses and identification.
    pub ip: IpFragVersionSpecId,
    /// The number of the protocol after the extension headers. RFC 8200, section 4.5, leaves it out
    /// of the name, and takes that of the first fragment.
    pub payload_ip_number: IpNumber,
    /// The identifier by which the caller distinguishes datagrams besides, such as the interface on
    /// which they came.
    pub channel_id: CustomChannelId,
}
