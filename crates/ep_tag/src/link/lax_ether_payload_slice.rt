//! Payloads that an ether type names, as far as they are there.
ghost use Rattle.std.specs.Prelude.{◌≡◌, nat_eq};
ghost use Rattle.std.specs.Cmp.Lexicographic.{pointwise, slice_cmp};
ghost use Rattle.std.specs.Cmp.Rules.{comparing};
ghost use Rattle.std.specs.Cmp.{partial_order_from_own_ties};
ghost use Rattle.std.specs.Ordering.{on, nat_cmp, as_partial_cmp};
ghost use Rattle.std.proofs.Common.{rules};
ghost use Rattle.ep_tag.specs.Ether.{LaxEtherPayload, complete_ether, present_ether};
ghost use Rattle.ep_tag.specs.EtherHash.{lax_hashed_alike};
ghost use Rattle.ep_tag.specs.EtherOrder.{lax_ordered_as, lax_hashed_as};

use super::EtherPayloadSlice;
use ep_base::{EtherType, LenSource};
use std::cmp::Ordering;
use std::hash::{Hash, Hasher};
use std::marker::Model;

/// The bytes after an ether type, borrowed; only a prefix of them where fewer were there than the
/// length before them says.
#[derive(Clone, Debug, Drop)]
pub struct LaxEtherPayloadSlice<'a> {
    /// Whether bytes are missing.
    pub incomplete: bool,
    /// What the bytes are.
    pub ether_type: EtherType,
    /// What bounds them.
    pub len_source: LenSource,
    /// The bytes that are there.
    pub payload: &'a [u8],
}

impl<'a> Model for LaxEtherPayloadSlice<'a> {
    ghost Value = { LaxEtherPayload };

    ghost view = { λ p. record {
      incomplete = p.incomplete;
      ether_type = p.ether_type;
      len_source = p.len_source;
      payload = p.payload.now;
    } };
}

impl<'a> LaxEtherPayloadSlice<'a> {
    // A copy of the value: a type with a model and a reference can't be `Copy`.
    pub(crate) fn again(&self) -> LaxEtherPayloadSlice<'a>
        ensures { result ≡ self.now }
    {
        LaxEtherPayloadSlice {
            incomplete: self.incomplete,
            ..LaxEtherPayloadSlice::from(self.present())
        }
    }

    // The bytes that are there.
    pub(crate) fn present(&self) -> EtherPayloadSlice<'a>
        ensures { result ≡ present_ether self.now }
    {
        EtherPayloadSlice {
            ether_type: self.ether_type,
            len_source: self.len_source,
            payload: self.payload,
        }
    }
}

impl<'a> From<EtherPayloadSlice<'a>> for LaxEtherPayloadSlice<'a> {
    ghost from_gives = { λ payload r. r ≡ complete_ether payload };

    /// Bytes of which none are missing.
    fn from(payload: EtherPayloadSlice<'a>) -> Self {
        LaxEtherPayloadSlice {
            incomplete: false,
            ether_type: payload.ether_type,
            len_source: payload.len_source,
            payload: payload.payload,
        }
    }
}

impl<'a> PartialEq for LaxEtherPayloadSlice<'a> {
    ghost eq = { on lax_ordered_as (pointwise nat_eq) };

    ghost laws = { Prim.search (comparing, rules) };

    fn eq(&self, other: &Self) -> bool {
        self.incomplete == other.incomplete && self.present() == other.present()
    }
}

impl<'a> Eq for LaxEtherPayloadSlice<'a> {
    ghost laws = { Prim.search (comparing, rules) };
}

impl<'a> Ord for LaxEtherPayloadSlice<'a> {
    ghost cmp = { on lax_ordered_as (slice_cmp nat_cmp) };

    ghost total = { Prim.search (comparing, rules) };

    ghost matches_partial_cmp = { Prim.search (comparing, rules) };

    ghost matches_eq = { Prim.search (comparing, rules) };

    fn cmp(&self, other: &Self) -> Ordering {
        let present = self.present().cmp(&other.present());
        self.incomplete.cmp(&other.incomplete).then(present)
    }
}

impl<'a> PartialOrd for LaxEtherPayloadSlice<'a> {
    ghost partial_cmp = { as_partial_cmp (on lax_ordered_as (slice_cmp nat_cmp)) };

    ghost laws = { partial_order_from_own_ties (Prim.search (comparing, rules))
        (Prim.search (comparing, rules)) };

    fn partial_cmp(&self, other: &Self) -> Option<Ordering> {
        Some(self.cmp(other))
    }
}

impl<'a> Hash for LaxEtherPayloadSlice<'a> {
    ghost hash_input = { λ p. lax_hashed_as p };

    ghost respects_eq = { lax_hashed_alike };

    fn hash<H: Hasher>(&self, state: &mut H) {
        self.incomplete.hash(state);
        self.present().hash(state);
    }
}
