//! What a buffer stores of fragments where overlaps are refused, at literal values.
ghost use Rattle.std.specs.Prelude.{true, false, [], ◌∷◌, replicate};
ghost use Rattle.etherparse.specs.Fragments.{fragment};
ghost use Rattle.etherparse.specs.StoredFragment.{KeepsAll};

/// What is stored of fragments of which one came twice: each once, without its bytes, ordered by
/// its start. A list in another order, or with one that didn't come, is not what is stored.
pub fn fragments_that_are_kept()
    ensures kept { KeepsAll (record { start = 0; end = 8; more_fragments = true }
        ∷ record { start = 8; end = 10; more_fragments = false } ∷ [])
        (fragment 1 false (replicate 2 2) ∷ fragment 0 true (replicate 8 1)
        ∷ fragment 0 true (replicate 8 1) ∷ []) }
    ensures other_order { KeepsAll (record { start = 8; end = 10; more_fragments = false }
        ∷ record { start = 0; end = 8; more_fragments = true } ∷ [])
        (fragment 1 false (replicate 2 2) ∷ fragment 0 true (replicate 8 1) ∷ []) → ⊥ }
    ensures other_fragment { KeepsAll (record { start = 0; end = 8; more_fragments = true } ∷ [])
        [] → ⊥ }
{}
