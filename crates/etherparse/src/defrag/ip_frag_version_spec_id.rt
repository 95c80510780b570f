//! What names a fragmented datagram, apart from its protocol.

ghost use Rattle.std.specs.Cmp.Rules.{hashing};
ghost use Rattle.std.proofs.Common.{rules};
ghost use Rattle.etherparse.specs.IpFragId.{hashed_as};

use super::OverlapRule;
use ep_base::LenSource;
use std::hash::{Hash, Hasher};

/// What names the datagram that an IP fragment belongs to, apart from its protocol: the IP version,
/// both addresses and the identification (RFC 791, section 3.2; RFC 8200, section 4.5).
#[derive(Clone, Debug, PartialEq, Eq, Drop)]
pub enum IpFragVersionSpecId {
    /// Over IPv4.
    Ipv4 {
        /// The source address.
        source: [u8; 4],
        /// The destination address.
        destination: [u8; 4],
        /// The identification, 16 bits.
        identification: u16,
    },
    /// Over IPv6.
    Ipv6 {
        /// The source address.
        source: [u8; 16],
        /// The destination address.
        destination: [u8; 16],
        /// The identification, 32 bits.
        identification: u32,
    },
}

impl IpFragVersionSpecId {
    ghost use Rattle.std.specs.Prelude.{◌≡◌};
    ghost use Rattle.etherparse.specs.IpFragId.{len_source_of, overlap_rule_of};

    // What the length of a packet of this version comes from.
    pub(crate) fn len_source(&self) -> LenSource
        ensures { result ≡ len_source_of self.now }
    {
        match self {
            IpFragVersionSpecId::Ipv4 { .. } => LenSource::Ipv4HeaderTotalLen,
            IpFragVersionSpecId::Ipv6 { .. } => LenSource::Ipv6HeaderPayloadLen,
        }
    }

    // What becomes of fragments of this version that overlap.
    pub(crate) fn overlap_rule(&self) -> OverlapRule
        ensures { result ≡ overlap_rule_of self.now }
    {
        match self {
            IpFragVersionSpecId::Ipv4 { .. } => OverlapRule::Overwrites,
            IpFragVersionSpecId::Ipv6 { .. } => OverlapRule::Refuses,
        }
    }
}

// A derived `Hash` writes an array byte by byte.
impl Hash for IpFragVersionSpecId {
    ghost hash_input = { hashed_as };

    ghost respects_eq = { Prim.search (hashing, rules) };

    fn hash<H: Hasher>(&self, state: &mut H) {
        match self {
            IpFragVersionSpecId::Ipv4 {
                source,
                destination,
                identification,
            } => {
                state.write(source);
                state.write(destination);
                state.write_u16(*identification);
            }
            IpFragVersionSpecId::Ipv6 {
                source,
                destination,
                identification,
            } => {
                state.write(source);
                state.write(destination);
                state.write_u32(*identification);
            }
        }
    }
}
