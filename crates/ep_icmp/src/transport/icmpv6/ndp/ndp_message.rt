//! The messages of neighbor discovery.
ghost use Rattle.std.specs.Prelude.{◌≡◌, ◌+◌, ◌≤◌, ◌++◌, length};
ghost use Rattle.ep_base.specs.Refusals.{first_refusal};
ghost use Rattle.ep_base.specs.Bytes.{flag};
ghost use Rattle.ep_icmp.specs.Ndp as ndp;
ghost use Rattle.ep_icmp.specs.NdpValid as valid;

use super::NdpInvalid;
use arrayvec::ArrayVec;

/// A message of neighbor discovery (RFC 4861, section 4), without its checksum and its options. The
/// code is 0, and reserved bits aren't kept.
#[derive(Clone, Copy, Debug, PartialEq, Eq)]
pub enum NdpMessage {
    /// A host requests advertisements of routers (type 133, section 4.1).
    RouterSolicitation,
    /// A router advertises itself (type 134, section 4.2).
    RouterAdvertisement {
        /// The hop limit for packets to send, 0 where the router gives none.
        cur_hop_limit: u8,
        /// Addresses are available by DHCPv6: bit M.
        managed: bool,
        /// Other configuration is available by DHCPv6: bit O.
        other: bool,
        /// How long the router is a default router, in seconds; 0: it is none.
        router_lifetime: u16,
        /// How long a neighbor is reachable after a confirmation, in milliseconds; 0: not given.
        reachable_time: u32,
        /// The time between repeated solicitations, in milliseconds; 0: not given.
        retrans_timer: u32,
    },
    /// A node requests the link-layer address of a target (type 135, section 4.3).
    NeighborSolicitation {
        /// The address whose link-layer address is requested.
        target: [u8; 16],
    },
    /// The answer to it, or an unsolicited change (type 136, section 4.4).
    NeighborAdvertisement {
        /// The sender is a router: bit R.
        router: bool,
        /// It answers a solicitation: bit S.
        solicited: bool,
        /// It overrides the link-layer address that is cached: bit O.
        overrides: bool,
        /// The address whose link-layer address this is.
        target: [u8; 16],
    },
    /// A router names a better first hop (type 137, section 4.5).
    Redirect {
        /// The better first hop; the destination itself where that is a neighbor.
        target: [u8; 16],
        /// The address whose packets go there.
        destination: [u8; 16],
    },
}

impl NdpMessage {
    /// The type, 133 to 137.
    pub fn type_u8(&self) -> u8
        ensures { result ≡ ndp.type_u8 self.now }
    {
        match self {
            NdpMessage::RouterSolicitation => 133,
            NdpMessage::RouterAdvertisement { .. } => 134,
            NdpMessage::NeighborSolicitation { .. } => 135,
            NdpMessage::NeighborAdvertisement { .. } => 136,
            NdpMessage::Redirect { .. } => 137,
        }
    }

    /// The length in bytes up to the options: 8, 16, 24, 24 or 40.
    pub fn header_len(&self) -> usize
        ensures { result ≡ ndp.header_len self.now }
    {
        match self {
            NdpMessage::RouterSolicitation => 8,
            NdpMessage::RouterAdvertisement { .. } => 16,
            NdpMessage::NeighborSolicitation { .. } | NdpMessage::NeighborAdvertisement { .. } =>
                24,
            NdpMessage::Redirect { .. } => 40,
        }
    }

    // What makes the message invalid between these addresses, apart from its options.
    pub(super) fn refusal(&self, source: &[u8; 16], destination: &[u8; 16]) -> Option<NdpInvalid>
        ensures { result ≡ first_refusal
            (valid.message_refusals source.now destination.now self.now) }
    {
        match self {
            NdpMessage::RouterSolicitation => None,
            NdpMessage::RouterAdvertisement { .. } => {
                if is_link_local(source) {
                    None
                } else {
                    Some(NdpInvalid::SourceNotLinkLocal)
                }
            }
            NdpMessage::NeighborSolicitation { target } => {
                if is_multicast(target) {
                    return Some(NdpInvalid::TargetMulticast);
                }
                if is_unspecified(source) && !is_solicited_node(destination) {
                    return Some(NdpInvalid::DestinationNotSolicitedNode);
                }
                None
            }
            NdpMessage::NeighborAdvertisement {
                solicited,
                target,
                ..
            } => {
                if is_multicast(target) {
                    return Some(NdpInvalid::TargetMulticast);
                }
                if *solicited && is_multicast(destination) {
                    return Some(NdpInvalid::SolicitedToMulticast);
                }
                None
            }
            NdpMessage::Redirect {
                target,
                destination: redirected,
            } => {
                if !is_link_local(source) {
                    return Some(NdpInvalid::SourceNotLinkLocal);
                }
                if is_multicast(redirected) {
                    return Some(NdpInvalid::RedirectedMulticast);
                }
                if !is_link_local(target) && target != redirected {
                    return Some(NdpInvalid::TargetNotRouterNorDestination);
                }
                None
            }
        }
    }

    // Whether it may not have the option of its source's link-layer address.
    pub(super) fn refuses_source_option(&self, source: &[u8; 16]) -> bool
        ensures { result ≡ valid.refuses_source_option source.now self.now }
    {
        match self {
            NdpMessage::RouterSolicitation | NdpMessage::NeighborSolicitation { .. } => {
                is_unspecified(source)
            }
            NdpMessage::RouterAdvertisement { .. }
            | NdpMessage::NeighborAdvertisement { .. }
            | NdpMessage::Redirect { .. } => false,
        }
    }

    // What follows the checksum, with reserved bits 0.
    pub(super) fn field_bytes(&self) -> ArrayVec<u8, 36>
        ensures bytes { result.items ≡ ndp.fields_bytes self.now }
        ensures fits { ndp.FieldsFit self.now }
    {
        match self {
            NdpMessage::RouterSolicitation => joined(&[0; 4], &[], &[]),
            NdpMessage::RouterAdvertisement {
                cur_hop_limit,
                managed,
                other,
                router_lifetime,
                reachable_time,
                retrans_timer,
            } => {
                let flags = flag(*managed, 128) + flag(*other, 64);
                let [l0, l1] = router_lifetime.to_be_bytes();
                joined(
                    &[*cur_hop_limit, flags, l0, l1],
                    &reachable_time.to_be_bytes(),
                    &retrans_timer.to_be_bytes(),
                )
            }
            NdpMessage::NeighborSolicitation { target } => joined(&[0; 4], target, &[]),
            NdpMessage::NeighborAdvertisement {
                router,
                solicited,
                overrides,
                target,
            } => {
                let flags = flag(*router, 128) + flag(*solicited, 64) + flag(*overrides, 32);
                joined(&[flags, 0, 0, 0], target, &[])
            }
            NdpMessage::Redirect {
                target,
                destination,
            } => joined(&[0; 4], target, destination),
        }
    }
}

// fe80::/10 (RFC 4291, section 2.5.6).
fn is_link_local(address: &[u8; 16]) -> bool
    ensures { result ≡ valid.is_link_local address.now }
{
    address[0] == 0xfe && address[1] >> 6 == 0b10
}

// ff00::/8 (RFC 4291, section 2.7).
fn is_multicast(address: &[u8; 16]) -> bool
    ensures { result ≡ valid.is_multicast address.now }
{
    address[0] == 0xff
}

// :: (RFC 4291, section 2.5.2).
fn is_unspecified(address: &[u8; 16]) -> bool
    ensures { result ≡ valid.is_unspecified address.now }
{
    *address == [0; 16]
}

// ff02::1:ff00:0/104 (RFC 4291, section 2.7.1).
fn is_solicited_node(address: &[u8; 16]) -> bool
    ensures { result ≡ valid.is_solicited_node address.now }
{
    address[..13] == [0xff, 0x02, 0, 0, 0, 0, 0, 0, 0, 0, 0, 0x01, 0xff]
}

// A flag at its bit.
pub(super) fn flag(set: bool, worth: u8) -> u8
    ensures { result ≡ flag set worth }
{
    if set { worth } else { 0 }
}

// Three runs of bytes, one after the other.
fn joined(first: &[u8], second: &[u8], third: &[u8]) -> ArrayVec<u8, 36>
    requires { length first.now + length second.now + length third.now ≤ 36 }
    ensures { result.items ≡ first.now ++ second.now ++ third.now }
{
    let mut bytes = ArrayVec::new();
    bytes.try_extend_from_slice(first).unwrap();
    bytes.try_extend_from_slice(second).unwrap();
    bytes.try_extend_from_slice(third).unwrap();
    bytes
}
