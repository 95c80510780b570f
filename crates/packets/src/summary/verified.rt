//! Where packets come from whose checksums are good or bad.
ghost use Rattle.std.specs.Prelude.{◌≡◌};
ghost use Rattle.packets.specs.Counts.{sent_by, verified_of};

use crate::Outline;
use checksum_verdicts::Verdict;
use ep_packet::Addresses;
use std::net::{IpAddr, Ipv4Addr, Ipv6Addr};

/// The sender of a packet whose checksum was verified, and whether it is bad.
#[derive(Clone, Copy, Debug, PartialEq, Eq, Hash)]
pub enum Verified {
    /// Over IPv4.
    V4 {
        /// The source address.
        source: [u8; 4],
        /// Whether the checksum is bad.
        is_bad: bool,
    },
    /// Over IPv6.
    V6 {
        /// The source address.
        source: [u8; 16],
        /// Whether the checksum is bad.
        is_bad: bool,
    },
}

impl Verified {
    /// Those of a packet, if its checksum is good or bad.
    pub fn of(packet: &Outline) -> Option<Verified>
        ensures { result ≡ verified_of packet.now }
    {
        match packet.verdict {
            Some(Verdict::Good) => Verified::sent_by(packet.headers.addresses(), false),
            Some(Verdict::Bad) => Verified::sent_by(packet.headers.addresses(), true),
            Some(Verdict::None) => None,
            None => None,
        }
    }

    fn sent_by(addresses: Option<Addresses>, is_bad: bool) -> Option<Verified>
        ensures { result ≡ sent_by addresses is_bad }
    {
        match addresses {
            Some(Addresses::V4 { source, .. }) => Some(Verified::V4 { source, is_bad }),
            Some(Addresses::V6 { source, .. }) => Some(Verified::V6 { source, is_bad }),
            None => None,
        }
    }

    /// The sender. It has no contract, nor have the next two: tests compare the texts of reports.
    pub(crate) fn source(&self) -> IpAddr {
        match self {
            Verified::V4 { source, .. } => IpAddr::V4(Ipv4Addr::from(*source)),
            Verified::V6 { source, .. } => IpAddr::V6(Ipv6Addr::from(*source)),
        }
    }

    /// Whether the checksum is bad.
    pub(crate) fn is_bad(&self) -> bool {
        match self {
            Verified::V4 { is_bad, .. } | Verified::V6 { is_bad, .. } => *is_bad,
        }
    }

    /// The same sender with a good checksum.
    pub(crate) fn with_good_checksum(&self) -> Verified {
        match *self {
            Verified::V4 { source, .. } => Verified::V4 {
                source,
                is_bad: false,
            },
            Verified::V6 { source, .. } => Verified::V6 {
                source,
                is_bad: false,
            },
        }
    }
}
