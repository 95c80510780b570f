//! Where adding fragments in a row stops since no memory is left, at literal values.
ghost use Rattle.std.specs.Prelude.{true, false, [], ◌∷◌, List, replicate};
ghost use Rattle.ep_base.specs.declared.net.ip_number.IpNumber.{IpNumber};
ghost use Rattle.etherparse.specs.Fragments.{Fragment, fragment};
ghost use Rattle.etherparse.specs.IpDefragBuf.{Contents, Shows, Stops};
ghost use Rattle.etherparse.specs.declared.defrag.ip_defrag_error.IpDefragError.{IpDefragError};
ghost use Rattle.etherparse.specs.declared.defrag.ip_defrag_error.IpDefragError.TheVariants.{AllocationFailure};
ghost use Rattle.etherparse.specs.declared.defrag.ip_defrag_error.IpDefragError.TheVariants.{ConflictingEnd};
ghost use Rattle.etherparse.specs.declared.defrag.overlap_rule.OverlapRule.{OverlapRule};
ghost use Rattle.etherparse.specs.declared.defrag.overlap_rule.OverlapRule.TheVariants.{Overwrites};

/// It stops at a fragment that isn't refused by those before it, with its end; refused ones before
/// it are skipped, and the buffer shows the others. It doesn't stop at a refused one, where there
/// is none, or with another error.
pub fn additions_that_stop()
    ensures first { (buf : Contents IpNumber) → Shows buf []
        → Stops Overwrites [] (fragment 1 true (replicate 8 1) ∷ []) buf (AllocationFailure 16) }
    ensures second { (buf : Contents IpNumber) → Shows buf (fragment 0 true (replicate 8 1) ∷ [])
        → Stops Overwrites [] (fragment 0 true (replicate 8 1) ∷ fragment 1 true (replicate 8 2)
        ∷ fragment 2 false [] ∷ []) buf (AllocationFailure 16) }
    ensures after_refused { (buf : Contents IpNumber)
        → Shows buf (fragment 0 true (replicate 8 1) ∷ [])
        → Stops Overwrites (fragment 0 true (replicate 8 1) ∷ [])
        (fragment 1 true (replicate 7 2) ∷ fragment 1 false (replicate 8 2) ∷ []) buf
        (AllocationFailure 16) }
    ensures other_end { (buf : Contents IpNumber)
        → Stops Overwrites [] (fragment 1 true (replicate 8 1) ∷ []) buf (AllocationFailure 8)
        → ⊥ }
    ensures other_error { (buf : Contents IpNumber)
        → Stops Overwrites [] (fragment 1 true (replicate 8 1) ∷ []) buf (ConflictingEnd 16 16)
        → ⊥ }
    ensures refused { (buf : Contents IpNumber) (error : IpDefragError)
        → Stops Overwrites [] (fragment 0 true (replicate 7 0) ∷ []) buf error → ⊥ }
    ensures none { (rule : OverlapRule) (fs : List Fragment) (buf : Contents IpNumber)
        (error : IpDefragError) → Stops rule fs [] buf error → ⊥ }
    ensures other_fragments { (buf : Contents IpNumber) (error : IpDefragError) → Shows buf []
        → Stops Overwrites (fragment 0 true (replicate 8 1) ∷ [])
        (fragment 1 true (replicate 8 2) ∷ []) buf error → ⊥ }
{}
