//! What `Clone`, `PartialEq`, `Ord` and `Hash` of the types here mean, each clause about the
//! relation that the type's own impl names.
ghost use Rattle.std.specs.Prelude.{◌≡◌, ◌↔◌, ◌++◌, [], ◌∷◌, IsTrue};
ghost use Rattle.std.specs.Cmp.Lexicographic.{slice_cmp};
ghost use Rattle.std.specs.Hash as fed;
ghost use Rattle.std.specs.Ordering.{nat_cmp};
ghost use Rattle.ep_base.specs.Traits.{HashIsOf, IsPlainData};
ghost use Rattle.ep_base.specs.declared.net.ip_number.IpNumber.{IpNumber};
ghost use Rattle.etherparse.specs.IpDefragBuf.{Contents, SameButRoom};
ghost use Rattle.etherparse.specs.IpDefragError.{hashed_as, ordered_as};
ghost use Rattle.etherparse.specs.declared.defrag.ip_defrag_error.IpDefragError.{IpDefragError};
ghost use Rattle.etherparse.specs.declared.defrag.ip_frag_range.IpFragRange.{IpFragRange};

use crate::defrag::{IpDefragBuf, IpDefragError, IpFragRange, OverlapRule};
use ep_base::laws::traits::Value;
use std::hash::Hash;

/// A copy is the value and takes no memory. Equal are the values that are the same.
pub fn types_are_plain_data()
    ensures ip_defrag_error { IsPlainData ⟦<IpDefragError as Value>⟧ }
    ensures ip_frag_range { IsPlainData ⟦<IpFragRange as Value>⟧ }
    ensures overlap_rule { IsPlainData ⟦<OverlapRule as Value>⟧ }
{}

/// Equal are the buffers that are the same, whatever their memory: all fields, also the order of
/// their sections.
pub fn equals_are_same()
    ensures { (a b : Contents IpNumber) → IsTrue (⟦<IpDefragBuf as PartialEq>⟧.eq a b)
        ↔ SameButRoom a b }
{}

/// Refusals are ordered as they are declared, and one kind by its fields in their order; a hasher
/// is fed the kind and the fields.
pub fn errors_by_kind_and_fields()
    ensures order { (a b : IpDefragError) → ⟦<IpDefragError as Ord>⟧.cmp a b
        ≡ slice_cmp nat_cmp (ordered_as a) (ordered_as b) }
    ensures hash { HashIsOf hashed_as ⟦<IpDefragError as Hash>⟧.hash_input }
{}

/// Ranges are ordered by where they start, then by where they end; a hasher is fed both.
pub fn ranges_by_start_and_end()
    ensures order { (a b : IpFragRange) → ⟦<IpFragRange as Ord>⟧.cmp a b
        ≡ slice_cmp nat_cmp (a.start ∷ a.end ∷ []) (b.start ∷ b.end ∷ []) }
    ensures hash { HashIsOf (λ a. fed.u16 a.start ++ fed.u16 a.end)
        ⟦<IpFragRange as Hash>⟧.hash_input }
{}
