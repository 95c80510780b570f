//! The payload of an IP packet.

ghost use Rattle.std.specs.Prelude.{nat_eq};
ghost use Rattle.std.specs.Cmp.Lexicographic.{pointwise, slice_cmp};
ghost use Rattle.std.specs.Cmp.Rules.{comparing};
ghost use Rattle.std.specs.Cmp.{partial_order_from_own_ties};
ghost use Rattle.std.specs.Ordering.{on, nat_cmp, as_partial_cmp};
ghost use Rattle.std.proofs.Common.{rules};
ghost use Rattle.ep_ipslice.specs.Compared.{hashed_as, ordered_as};
ghost use Rattle.ep_ipslice.specs.PayloadHash.{hashed_alike};
ghost use Rattle.ep_ipslice.specs.Packet.{IpPayload};

use ep_base::{IpNumber, LenSource};
use std::cmp::Ordering;
use std::hash::{Hash, Hasher};
use std::marker::Model;

/// The payload of an IP packet, after its extension headers, borrowed.
#[derive(Clone, Debug, Drop)]
pub struct IpPayloadSlice<'a> {
    /// The number of the protocol that the payload starts with.
    pub ip_number: IpNumber,
    /// Whether the payload is a fragment: other packets hold the rest of the datagram.
    pub fragmented: bool,
    /// What the payload's length came from.
    pub len_source: LenSource,
    /// The bytes.
    pub payload: &'a [u8],
}

impl<'a> Model for IpPayloadSlice<'a> {
    ghost Value = { IpPayload };

    ghost view = { λ p. record {
      ip_number = p.ip_number;
      fragmented = p.fragmented;
      len_source = p.len_source;
      payload = p.payload.now;
    } };
}

impl<'a> PartialEq for IpPayloadSlice<'a> {
    ghost eq = { on ordered_as (pointwise nat_eq) };

    ghost laws = { Prim.search (comparing, rules) };

    fn eq(&self, other: &Self) -> bool {
        self.ip_number == other.ip_number
            && self.fragmented == other.fragmented
            && self.len_source == other.len_source
            && self.payload == other.payload
    }
}

impl<'a> Eq for IpPayloadSlice<'a> {
    ghost laws = { Prim.search (comparing, rules) };
}

impl<'a> Ord for IpPayloadSlice<'a> {
    ghost cmp = { on ordered_as (slice_cmp nat_cmp) };

    ghost total = { Prim.search (comparing, rules) };

    ghost matches_partial_cmp = { Prim.search (comparing, rules) };

    ghost matches_eq = { Prim.search (comparing, rules) };

    fn cmp(&self, other: &Self) -> Ordering {
        let bytes = self.payload.cmp(other.payload);
        let source = self.len_source.cmp(&other.len_source).then(bytes);
        let fragment_flag = self.fragmented.cmp(&other.fragmented).then(source);
        self.ip_number.cmp(&other.ip_number).then(fragment_flag)
    }
}

impl<'a> PartialOrd for IpPayloadSlice<'a> {
    ghost partial_cmp = { as_partial_cmp (on ordered_as (slice_cmp nat_cmp)) };

    ghost laws = { partial_order_from_own_ties (Prim.search (comparing, rules))
        (Prim.search (comparing, rules)) };

    fn partial_cmp(&self, other: &Self) -> Option<Ordering> {
        Some(self.cmp(other))
    }
}

impl<'a> Hash for IpPayloadSlice<'a> {
    ghost hash_input = { λ p. hashed_as p };

    ghost respects_eq = { hashed_alike };

    fn hash<H: Hasher>(&self, state: &mut H) {
        self.ip_number.hash(state);
        self.fragmented.hash(state);
        (self.len_source as u8).hash(state);
        self.payload.hash(state);
    }
}
