//! Why a destination can't be reached over IPv4.
ghost use Rattle.std.specs.Prelude.{◌≡◌, ◌≤◌, MatchOption};
ghost use Rattle.ep_icmp.specs.Icmpv4.{HasNextHopMtu, UnreachableFits, unreachable_code, unreachable_fields};
ghost use Rattle.ep_icmp.specs.Layout.{bytes_of_fields};

/// The code of a destination unreachable message and what goes with it (RFC 792, "Destination
/// Unreachable Message"; RFC 1122, section 3.2.2.1; RFC 1812, section 5.2.7.1).
#[derive(Clone, Copy, Debug, PartialEq, Eq)]
pub enum DestUnreachableHeader {
    /// The network can't be reached (code 0).
    Network,
    /// The host can't be reached (code 1).
    Host,
    /// The host doesn't know the protocol (code 2).
    Protocol,
    /// Nothing listens at the port (code 3).
    Port,
    /// The packet is too big for the next network and may not be fragmented (code 4).
    FragmentationNeeded {
        /// The greatest packet in bytes that the next network takes, in bytes 6 and 7 (RFC 1191,
        /// section 4). 0 is written by nodes that don't report it.
        next_hop_mtu: u16,
    },
    /// The source route failed (code 5).
    SourceRouteFailed,
    /// The network isn't known (code 6).
    NetworkUnknown,
    /// The host isn't known (code 7).
    HostUnknown,
    /// The source host is isolated (code 8).
    Isolated,
    /// Traffic with the network is prohibited (code 9).
    NetworkProhibited,
    /// Traffic with the host is prohibited (code 10).
    HostProhibited,
    /// The network can't be reached with this type of service (code 11).
    TosNetwork,
    /// The host can't be reached with this type of service (code 12).
    TosHost,
    /// A filter prohibits the traffic (code 13).
    FilterProhibited,
    /// The host may not send with this precedence (code 14).
    HostPrecedenceViolation,
    /// The precedence is below the least that the network takes (code 15).
    PrecedenceCutoff,
}

impl DestUnreachableHeader {
    // The one with this code, if one has it, and for code 4 with this length.
    pub(crate) fn from_values(code_u8: u8, next_hop_mtu: u16) -> Option<DestUnreachableHeader>
        ensures { MatchOption result (16 ≤ code_u8)
            (λ header. (unreachable_code header ≡ code_u8) × HasNextHopMtu header next_hop_mtu) }
    {
        use DestUnreachableHeader::*;
        let header = match code_u8 {
            0 => Network,
            1 => Host,
            2 => Protocol,
            3 => Port,
            4 => FragmentationNeeded { next_hop_mtu },
            5 => SourceRouteFailed,
            6 => NetworkUnknown,
            7 => HostUnknown,
            8 => Isolated,
            9 => NetworkProhibited,
            10 => HostProhibited,
            11 => TosNetwork,
            12 => TosHost,
            13 => FilterProhibited,
            14 => HostPrecedenceViolation,
            15 => PrecedenceCutoff,
            _ => return None,
        };
        Some(header)
    }

    pub(crate) fn code_u8(&self) -> u8
        ensures { result ≡ unreachable_code self.now }
    {
        use DestUnreachableHeader::*;
        match self {
            Network => 0,
            Host => 1,
            Protocol => 2,
            Port => 3,
            FragmentationNeeded { .. } => 4,
            SourceRouteFailed => 5,
            NetworkUnknown => 6,
            HostUnknown => 7,
            Isolated => 8,
            NetworkProhibited => 9,
            HostProhibited => 10,
            TosNetwork => 11,
            TosHost => 12,
            FilterProhibited => 13,
            HostPrecedenceViolation => 14,
            PrecedenceCutoff => 15,
        }
    }

    // What follows the checksum.
    pub(crate) fn bytes5to8(&self) -> [u8; 4]
        ensures bytes { result ≡ bytes_of_fields (unreachable_fields self.now) }
        ensures fits { UnreachableFits self.now }
    {
        match self {
            DestUnreachableHeader::FragmentationNeeded { next_hop_mtu } => {
                let [m0, m1] = next_hop_mtu.to_be_bytes();
                [0, 0, m0, m1]
            }
            _ => [0; 4],
        }
    }
}
