//! Lengths of fragments as networks have them, and the errors that report them, at literal values
//! after RFC 791, section 3.2, and RFC 8200, section 4.5.
ghost use Rattle.std.specs.Prelude.{◌≡◌, ℕ, true, false, [], ◌∷◌, List, None, Some, replicate};
ghost use Rattle.etherparse.specs.Fragments.{Fragment, fragment, refusal_of};
ghost use Rattle.etherparse.specs.Outcome.{memory_error, outcome};
ghost use Rattle.etherparse.specs.Outcome.Outcome.{Completed, Waiting};
ghost use Rattle.etherparse.specs.declared.defrag.ip_defrag_error.IpDefragError.TheVariants.{AllocationFailure};
ghost use Rattle.etherparse.specs.declared.defrag.ip_defrag_error.IpDefragError.TheVariants.{UnalignedFragmentPayloadLen};
ghost use Rattle.etherparse.specs.declared.defrag.overlap_rule.OverlapRule.TheVariants.{Overwrites, Refuses};

/// A fragment that others follow has a multiple of 8 bytes: of 4 and 12 bytes it is refused, and of
/// 8 it isn't. A packet of 1500 bytes has space for 1480 bytes after an IPv4 header, and one of
/// 1280 for 1232 after an IPv6 header and a fragment header; 4 bytes less or more are no such
/// multiple.
pub fn lengths_before_others()
    ensures four { refusal_of Overwrites [] (fragment 0 true (replicate 4 0))
        ≡ Some (UnalignedFragmentPayloadLen 0 4) }
    ensures eight { refusal_of Overwrites [] (fragment 0 true (replicate 8 0)) ≡ None }
    ensures twelve { refusal_of Overwrites [] (fragment 0 true (replicate 12 0))
        ≡ Some (UnalignedFragmentPayloadLen 0 12) }
    ensures below_1480 { refusal_of Overwrites [] (fragment 0 true (replicate 1476 0))
        ≡ Some (UnalignedFragmentPayloadLen 0 1476) }
    ensures at_1480 { refusal_of Overwrites [] (fragment 0 true (replicate 1480 0)) ≡ None }
    ensures above_1480 { refusal_of Overwrites [] (fragment 0 true (replicate 1484 0))
        ≡ Some (UnalignedFragmentPayloadLen 0 1484) }
    ensures below_1480_later { refusal_of Overwrites [] (fragment 185 true (replicate 1476 0))
        ≡ Some (UnalignedFragmentPayloadLen 185 1476) }
    ensures at_1480_later { refusal_of Overwrites [] (fragment 185 true (replicate 1480 0)) ≡ None }
    ensures below_1232 { refusal_of Refuses [] (fragment 154 true (replicate 1228 0))
        ≡ Some (UnalignedFragmentPayloadLen 154 1228) }
    ensures at_1232 { refusal_of Refuses [] (fragment 154 true (replicate 1232 0)) ≡ None }
    ensures above_1232 { refusal_of Refuses [] (fragment 154 true (replicate 1236 0))
        ≡ Some (UnalignedFragmentPayloadLen 154 1236) }
{}

/// The last fragment may have any length.
pub fn lengths_of_last_fragments()
    ensures one { refusal_of Overwrites [] (fragment 185 false (replicate 1 0)) ≡ None }
    ensures four { refusal_of Overwrites [] (fragment 185 false (replicate 4 0)) ≡ None }
    ensures twelve { refusal_of Refuses [] (fragment 154 false (replicate 12 0)) ≡ None }
    ensures below_1480 { refusal_of Overwrites [] (fragment 185 false (replicate 1476 0)) ≡ None }
    ensures above_1480 { refusal_of Overwrites [] (fragment 185 false (replicate 1484 0)) ≡ None }
{}

/// Out of memory is reported with the offset at which the fragment ends in its datagram, whatever
/// its length: 1480 bytes at 1480 end at 2960. It is reported of no fragment that is refused.
pub fn ends_without_memory()
    ensures waiting { (fs : List Fragment)
        → memory_error (fragment 185 true (replicate 1480 0)) (Waiting fs)
        ≡ Some (AllocationFailure 2960) }
    ensures completed { (text : List ℕ)
        → memory_error (fragment 370 false (replicate 20 0)) (Completed text)
        ≡ Some (AllocationFailure 2980) }
    ensures first { memory_error (fragment 0 true (replicate 8 0))
        (outcome Overwrites [] (fragment 0 true (replicate 8 0))) ≡ Some (AllocationFailure 8) }
    ensures later { memory_error (fragment 3 true (replicate 16 0))
        (outcome Refuses [] (fragment 3 true (replicate 16 0))) ≡ Some (AllocationFailure 40) }
    ensures refused { memory_error (fragment 3 true (replicate 12 0))
        (outcome Overwrites [] (fragment 3 true (replicate 12 0))) ≡ None }
    ensures overlap { memory_error (fragment 3 true (replicate 16 0))
        (outcome Refuses (fragment 4 true (replicate 8 1) ∷ []) (fragment 3 true (replicate 16 0)))
        ≡ None }
{}
