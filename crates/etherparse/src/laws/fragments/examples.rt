//! The definitions at literal fragments.
ghost use Rattle.std.specs.Prelude.{◌≡◌, true, false, [], ◌∷◌, ◌++◌, None, Some, replicate};
ghost use Rattle.std.specs.List.{range_with_len};
ghost use Rattle.etherparse.specs.Fragments.{accepted_count, fragment, with_all_accepted, greatest_end, is_complete};
ghost use Rattle.etherparse.specs.Fragments.{named_end, refusal_of, Covered};
ghost use Rattle.etherparse.specs.Outcome.{outcome};
ghost use Rattle.etherparse.specs.Outcome.Outcome.{Clash, Waiting};
ghost use Rattle.etherparse.specs.IpFragRange.{is_one_from_zero, merge_of, AreApart};
ghost use Rattle.etherparse.specs.FragmentBytes.{byte_at, kept_bytes, text_of, Touched};
ghost use Rattle.etherparse.specs.declared.defrag.ip_defrag_error.IpDefragError.TheVariants.{ConflictingEnd};
ghost use Rattle.etherparse.specs.declared.defrag.ip_defrag_error.IpDefragError.TheVariants.{SegmentTooBig};
ghost use Rattle.etherparse.specs.declared.defrag.ip_defrag_error.IpDefragError.TheVariants.{UnalignedFragmentPayloadLen};
ghost use Rattle.etherparse.specs.declared.defrag.ip_defrag_error.IpDefragError.TheVariants.{OverlappingFragment};
ghost use Rattle.etherparse.specs.declared.defrag.overlap_rule.OverlapRule.TheVariants.{Overwrites, Refuses};

/// Ranges that share a number are one, those that don't stay two, and a range that starts after its
/// end merges by its two ends alone.
pub fn merged_ranges()
    ensures within { merge_of (record { start = 3; end = 7 }) (record { start = 1; end = 8 })
        ≡ Some (record { start = 1; end = 8 }) }
    ensures around { merge_of (record { start = 1; end = 8 }) (record { start = 3; end = 7 })
        ≡ Some (record { start = 1; end = 8 }) }
    ensures following { merge_of (record { start = 8; end = 16 }) (record { start = 0; end = 8 })
        ≡ Some (record { start = 0; end = 16 }) }
    ensures neighbours { merge_of (record { start = 0; end = 1 })
        (record { start = 2; end = 3 }) ≡ None }
    ensures turned { merge_of (record { start = 5; end = 3 }) (record { start = 1; end = 8 })
        ≡ Some (record { start = 1; end = 8 }) }
{}

/// Sections are apart where no two share a number, and none ends before it starts.
pub fn sections_that_are_apart()
    ensures apart { AreApart (record { start = 8; end = 16 } ∷ record { start = 0; end = 7 } ∷ []) }
    ensures shared { AreApart (record { start = 0; end = 8 } ∷ record { start = 8; end = 16 } ∷ [])
        → ⊥ }
    ensures turned { AreApart (record { start = 9; end = 8 } ∷ []) → ⊥ }
    ensures whole { is_one_from_zero (record { start = 0; end = 8 } ∷ []) ≡ true }
    ensures following { is_one_from_zero (record { start = 8; end = 16 } ∷ []) ≡ false }
    ensures two { is_one_from_zero (record { start = 0; end = 7 } ∷
        record { start = 8; end = 16 } ∷ []) ≡ false }
{}

/// The last fragment of a datagram, its middle one and its first one, in this order: complete with
/// the third.
pub fn fragments_from_the_end()
    ensures last { is_complete (fragment 6 false (replicate 16 0) ∷ []) ≡ false }
    ensures middle { is_complete (fragment 6 false (replicate 16 0) ∷
        fragment 2 true (replicate 32 0) ∷ []) ≡ false }
    ensures prefix { is_complete (fragment 6 false (replicate 16 0) ∷
        fragment 2 true (replicate 32 0) ∷ fragment 0 true (replicate 16 0) ∷ []) ≡ true }
{}

/// An end that comes late, below what is there already: it is taken, the datagram isn't complete
/// while a byte below the greatest end is missing, and once it is, its text ends there.
pub fn late_ends()
    ensures taken { refusal_of Overwrites (fragment 8 true (replicate 64 0) ∷ [])
        (fragment 0 false (replicate 32 0)) ≡ None }
    ensures missing_byte { is_complete
        (fragment 8 true (replicate 64 0) ∷ fragment 0 false (replicate 32 0) ∷ []) ≡ false }
    ensures whole { is_complete (fragment 0 true (range_with_len 0 64) ∷
        fragment 4 false (replicate 16 255) ∷ []) ≡ true }
    ensures text { text_of (fragment 0 true (range_with_len 0 64) ∷
        fragment 4 false (replicate 16 255) ∷ []) ≡ range_with_len 0 32 ++ replicate 16 255 }
    ensures neighbours { is_complete
        (fragment 3 true (replicate 8 0) ∷ fragment 0 false (replicate 23 0) ∷ []) ≡ false }
{}

/// Why fragments are refused, and in which order.
pub fn refusals()
    ensures long { refusal_of Overwrites [] (fragment 8191 true (1 ∷ 2 ∷ 3 ∷ 4 ∷ 5 ∷ 6 ∷ 7 ∷ 8 ∷ []))
        ≡ Some (SegmentTooBig 8191 8 65535) }
    ensures longest { refusal_of Overwrites [] (fragment 8191 false (1 ∷ 2 ∷ 3 ∷ 4 ∷ 5 ∷ 6 ∷ 7 ∷ [])) ≡ None }
    ensures long_first { refusal_of Overwrites [] (fragment 8191 true (1 ∷ 2 ∷ 3 ∷ 4 ∷ 5 ∷ 6 ∷ 7 ∷ 8 ∷ 9 ∷ []))
        ≡ Some (SegmentTooBig 8191 9 65535) }
    ensures unaligned { refusal_of Overwrites [] (fragment 0 true (0 ∷ 1 ∷ 0 ∷ 2 ∷ 0 ∷ 16 ∷ 0 ∷ []))
        ≡ Some (UnalignedFragmentPayloadLen 0 7) }
    ensures unaligned_first { refusal_of Overwrites (fragment 0 false [] ∷ []) (fragment 1 true (1 ∷ []))
        ≡ Some (UnalignedFragmentPayloadLen 1 1) }
    ensures long_before_end { refusal_of Overwrites (fragment 1 false (replicate 8 0) ∷ [])
        (fragment 8191 true (replicate 8 0)) ≡ Some (SegmentTooBig 8191 8 65535) }
    ensures other_end { refusal_of Overwrites (fragment 1 false (replicate 8 0) ∷ [])
        (fragment 2 false (replicate 8 0)) ≡ Some (ConflictingEnd 16 24) }
    ensures lower_end { refusal_of Overwrites (fragment 1 false (replicate 8 0) ∷ [])
        (fragment 0 false (replicate 8 0)) ≡ Some (ConflictingEnd 16 8) }
    ensures after_end { refusal_of Overwrites (fragment 4 false (replicate 16 0) ∷ [])
        (fragment 6 true (replicate 16 0)) ≡ Some (ConflictingEnd 48 64) }
    ensures after_late_end { refusal_of Overwrites
        (fragment 3 true (replicate 8 0) ∷ fragment 0 false (replicate 23 0) ∷ [])
        (fragment 0 true (replicate 24 0)) ≡ Some (ConflictingEnd 23 24) }
    ensures up_to_end { refusal_of Overwrites (fragment 1 false (replicate 8 0) ∷ [])
        (fragment 1 true (replicate 8 0)) ≡ None }
    ensures same_end { refusal_of Overwrites (fragment 1 false (replicate 8 0) ∷ [])
        (fragment 0 false (replicate 16 0)) ≡ None }
{}

/// One fragment after another, more following both, where overlaps are refused. The same fragment
/// again is taken, and so are neighbours and fragments without bytes. Other bytes at the same
/// offset, and fragments inside, across and around the other one, clash; over IPv4 they don't.
pub fn overlaps_after_a_first_fragment()
    ensures repeat { outcome Refuses (fragment 0 true (replicate 8 1) ∷ [])
        (fragment 0 true (replicate 8 1))
        ≡ Waiting (fragment 0 true (replicate 8 1) ∷ fragment 0 true (replicate 8 1) ∷ []) }
    ensures other_bytes { outcome Refuses (fragment 0 true (replicate 8 1) ∷ [])
        (fragment 0 true (replicate 7 1 ++ 2 ∷ [])) ≡ Clash (OverlappingFragment 0 8) }
    ensures over_ipv4 { outcome Overwrites (fragment 0 true (replicate 8 1) ∷ [])
        (fragment 0 true (replicate 7 1 ++ 2 ∷ []))
        ≡ Waiting (fragment 0 true (replicate 8 1) ∷
        fragment 0 true (replicate 7 1 ++ 2 ∷ []) ∷ []) }
    ensures inside { refusal_of Refuses (fragment 0 true (replicate 24 1) ∷ [])
        (fragment 1 true (replicate 8 1)) ≡ Some (OverlappingFragment 1 8) }
    ensures around { refusal_of Refuses (fragment 1 true (replicate 8 1) ∷ [])
        (fragment 0 true (replicate 24 1)) ≡ Some (OverlappingFragment 0 24) }
    ensures across_start { refusal_of Refuses (fragment 1 true (replicate 16 1) ∷ [])
        (fragment 0 true (replicate 16 1)) ≡ Some (OverlappingFragment 0 16) }
    ensures across_end { refusal_of Refuses (fragment 0 true (replicate 16 1) ∷ [])
        (fragment 1 true (replicate 16 1)) ≡ Some (OverlappingFragment 1 16) }
    ensures longer { refusal_of Refuses (fragment 0 true (replicate 8 1) ∷ [])
        (fragment 0 true (replicate 16 1)) ≡ Some (OverlappingFragment 0 16) }
    ensures before { refusal_of Refuses (fragment 1 true (replicate 8 1) ∷ [])
        (fragment 0 true (replicate 8 1)) ≡ None }
    ensures following { refusal_of Refuses (fragment 0 true (replicate 8 1) ∷ [])
        (fragment 1 true (replicate 8 1)) ≡ None }
    ensures empty_inside { refusal_of Refuses (fragment 0 true (replicate 16 1) ∷ [])
        (fragment 1 true []) ≡ None }
    ensures around_empty { refusal_of Refuses (fragment 1 true [] ∷ [])
        (fragment 0 true (replicate 16 1)) ≡ None }
{}

/// A last fragment after others, where overlaps are refused: with the other flag it is no repeat,
/// and it clashes where it ends at or before an offset that another one covers.
pub fn overlaps_of_a_last_fragment()
    ensures other_flag { outcome Refuses (fragment 1 true (replicate 8 1) ∷ [])
        (fragment 1 false (replicate 8 1)) ≡ Clash (OverlappingFragment 1 8) }
    ensures end_below { outcome Refuses (fragment 2 true (replicate 8 1) ∷ [])
        (fragment 1 false (replicate 8 1)) ≡ Clash (OverlappingFragment 1 8) }
    ensures empty_below { refusal_of Refuses (fragment 2 true (replicate 8 1) ∷ [])
        (fragment 1 false []) ≡ Some (OverlappingFragment 1 0) }
    ensures after_all { refusal_of Refuses (fragment 0 true (replicate 8 1) ∷ [])
        (fragment 1 false []) ≡ None }
    ensures conflict_first { refusal_of Refuses (fragment 1 false (replicate 8 1) ∷ [])
        (fragment 0 false (replicate 8 1)) ≡ Some (ConflictingEnd 16 8) }
    ensures unaligned_first { refusal_of Refuses (fragment 0 true (replicate 8 1) ∷ [])
        (fragment 0 true (replicate 7 1)) ≡ Some (UnalignedFragmentPayloadLen 0 7) }
    ensures repeat { refusal_of Refuses (fragment 1 false (replicate 8 1) ∷ [])
        (fragment 1 false (replicate 8 1)) ≡ None }
    ensures begins_anew { with_all_accepted Refuses [] (fragment 0 true (replicate 8 1) ∷
        fragment 0 true (replicate 8 2) ∷ fragment 1 false (replicate 8 3) ∷ [])
        ≡ fragment 1 false (replicate 8 3) ∷ [] }
    ensures counted { accepted_count Refuses [] (fragment 0 true (replicate 8 1) ∷
        fragment 0 true (replicate 8 2) ∷ fragment 1 false (replicate 8 3) ∷ []) ≡ 2 }
{}

/// A repeat with other bytes, and an end after it that holds no byte.
pub fn later_bytes_count()
    ensures accepted { let fs = fragment 0 true (range_with_len 1 8) ∷
        fragment 0 true (range_with_len 17 8) ∷ fragment 1 false [] ∷ [] in with_all_accepted Overwrites [] fs
        ≡ fs }
    ensures whole { is_complete (fragment 0 true (range_with_len 1 8) ∷
        fragment 0 true (range_with_len 17 8) ∷ fragment 1 false [] ∷ []) ≡ true }
    ensures text { text_of (fragment 0 true (range_with_len 1 8) ∷
        fragment 0 true (range_with_len 17 8) ∷ fragment 1 false [] ∷ []) ≡ range_with_len 17 8 }
{}

/// An empty fragment beyond the later end keeps its datagram incomplete, and the one that is
/// refused isn't there.
pub fn empty_fragment_beyond_the_end()
    ensures accepted { with_all_accepted Overwrites [] (fragment 4 true [] ∷ fragment 0 true (replicate 8 1) ∷
        fragment 1 false (replicate 16 2) ∷ fragment 3 true (replicate 8 3) ∷ [])
        ≡ fragment 4 true [] ∷ fragment 0 true (replicate 8 1) ∷
        fragment 1 false (replicate 16 2) ∷ [] }
    ensures end { named_end (fragment 4 true [] ∷ fragment 0 true (replicate 8 1) ∷
        fragment 1 false (replicate 16 2) ∷ []) ≡ Some 24 }
    ensures greatest { greatest_end
        (fragment 4 true [] ∷ fragment 0 true (replicate 8 1) ∷
        fragment 1 false (replicate 16 2) ∷ []) ≡ 32 }
    ensures missing_byte { is_complete
        (fragment 4 true [] ∷ fragment 0 true (replicate 8 1) ∷
        fragment 1 false (replicate 16 2) ∷ []) ≡ false }
    ensures kept { kept_bytes (fragment 4 true [] ∷ fragment 0 true (replicate 8 1) ∷
        fragment 1 false (replicate 16 2) ∷ []) ≡ replicate 8 1 ++ replicate 16 2 }
{}

/// What is kept of a fragment with no bytes before it, while no end is known: 0 where no byte is
/// known.
pub fn a_fragment_without_its_predecessor()
    ensures kept { kept_bytes (fragment 1 true (range_with_len 1 8) ∷ []) ≡ replicate 8 0
        ++ range_with_len 1 8 }
    ensures missing_byte { byte_at (fragment 1 true (range_with_len 1 8) ∷ []) 7 ≡ None }
    ensures byte { byte_at (fragment 1 true (range_with_len 1 8) ∷ []) 15 ≡ Some 8 }
    ensures following { byte_at (fragment 1 true (range_with_len 1 8) ∷ []) 16 ≡ None }
    ensures covered { Covered (fragment 1 true (range_with_len 1 8) ∷ []) 15 }
    ensures not_covered { Covered (fragment 1 true (range_with_len 1 8) ∷ []) 16 → ⊥ }
    ensures touched { Touched (fragment 1 true (range_with_len 1 8) ∷ []) 16 }
    ensures not_touched { Touched (fragment 1 true (range_with_len 1 8) ∷ []) 17 → ⊥ }
{}
