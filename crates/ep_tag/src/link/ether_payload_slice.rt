//! Payloads that an ether type names.
ghost use Rattle.std.specs.Prelude.{◌≡◌, nat_eq};
ghost use Rattle.std.specs.Cmp.Lexicographic.{pointwise, slice_cmp};
ghost use Rattle.std.specs.Cmp.Rules.{comparing};
ghost use Rattle.std.specs.Cmp.{partial_order_from_own_ties};
ghost use Rattle.std.specs.Ordering.{on, nat_cmp, as_partial_cmp};
ghost use Rattle.std.proofs.Common.{rules};
ghost use Rattle.ep_tag.specs.Ether.{EtherPayload};
ghost use Rattle.ep_tag.specs.EtherHash.{hashed_alike};
ghost use Rattle.ep_tag.specs.EtherOrder.{ordered_as, hashed_as};

use ep_base::{EtherType, LenSource};
use std::cmp::Ordering;
use std::hash::{Hash, Hasher};
use std::marker::Model;

/// The bytes after an ether type, borrowed.
#[derive(Clone, Debug, Drop)]
pub struct EtherPayloadSlice<'a> {
    /// What the bytes are.
    pub ether_type: EtherType,
    /// What bounds them.
    pub len_source: LenSource,
    /// The bytes.
    pub payload: &'a [u8],
}

impl<'a> Model for EtherPayloadSlice<'a> {
    ghost Value = { EtherPayload };

    ghost view = { λ p. record {
      ether_type = p.ether_type;
      len_source = p.len_source;
      payload = p.payload.now;
    } };
}

impl<'a> EtherPayloadSlice<'a> {
    // A copy of the value: a type with a model and a reference can't be `Copy`.
    pub(crate) fn again(&self) -> EtherPayloadSlice<'a>
        ensures { result ≡ self.now }
    {
        EtherPayloadSlice {
            ether_type: self.ether_type,
            len_source: self.len_source,
            payload: self.payload,
        }
    }
}

impl<'a> PartialEq for EtherPayloadSlice<'a> {
    ghost eq = { on ordered_as (pointwise nat_eq) };

    ghost laws = { Prim.search (comparing, rules) };

    fn eq(&self, other: &Self) -> bool {
        self.ether_type == other.ether_type
            && self.len_source == other.len_source
            && self.payload == other.payload
    }
}

impl<'a> Eq for EtherPayloadSlice<'a> {
    ghost laws = { Prim.search (comparing, rules) };
}

impl<'a> Ord for EtherPayloadSlice<'a> {
    ghost cmp = { on ordered_as (slice_cmp nat_cmp) };

    ghost total = { Prim.search (comparing, rules) };

    ghost matches_partial_cmp = { Prim.search (comparing, rules) };

    ghost matches_eq = { Prim.search (comparing, rules) };

    fn cmp(&self, other: &Self) -> Ordering {
        self.ether_type
            .cmp(&other.ether_type)
            .then(self.len_source.cmp(&other.len_source))
            .then(self.payload.cmp(other.payload))
    }
}

impl<'a> PartialOrd for EtherPayloadSlice<'a> {
    ghost partial_cmp = { as_partial_cmp (on ordered_as (slice_cmp nat_cmp)) };

    ghost laws = { partial_order_from_own_ties (Prim.search (comparing, rules))
        (Prim.search (comparing, rules)) };

    fn partial_cmp(&self, other: &Self) -> Option<Ordering> {
        Some(self.cmp(other))
    }
}

impl<'a> Hash for EtherPayloadSlice<'a> {
    ghost hash_input = { λ p. hashed_as p };

    ghost respects_eq = { hashed_alike };

    fn hash<H: Hasher>(&self, state: &mut H) {
        self.ether_type.hash(state);
        (self.len_source as u8).hash(state);
        self.payload.hash(state);
    }
}
