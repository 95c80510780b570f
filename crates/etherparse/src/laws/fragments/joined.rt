//! Fragments in a row, disjoint fragments, and datagrams that are joined from fragments: the
//! definitions at literal fragments after RFC 791, section 3.2, RFC 5722 and RFC 8200, section 4.5,
//! and what becomes of lists of accepted fragments.
ghost use Rattle.std.specs.Prelude.{◌≡◌, ℕ, true, false, [], ◌∷◌, ◌++◌, List, replicate};
ghost use Rattle.etherparse.specs.Fragments.{AreDisjoint, Fragment, IsAccepted, fragment};
ghost use Rattle.etherparse.specs.Joined.{AreInRow, IsJoined};
ghost use Rattle.etherparse.specs.Outcome.{Held, held_after, outcome};
ghost use Rattle.etherparse.specs.Outcome.Outcome.{Completed};
ghost use Rattle.etherparse.specs.declared.defrag.overlap_rule.OverlapRule.{OverlapRule};
ghost use Rattle.etherparse.specs.declared.defrag.overlap_rule.OverlapRule.TheVariants.{Refuses};

/// The list that a datagram has after each outcome of a fragment holds accepted fragments alone.
/// Where overlaps are refused, the text of a datagram that is complete is joined from them and the
/// fragment that completed it.
pub fn lists_stay_accepted()
    ensures none { (rule : OverlapRule) → IsAccepted rule [] }
    ensures held { (rule : OverlapRule) (h : Held) (time : ℕ) (f : Fragment)
        → IsAccepted rule h.fragments
        → IsAccepted rule (held_after h time (outcome rule h.fragments f)).fragments }
    ensures completed { (rule : OverlapRule) (fs : List Fragment) (f : Fragment) (text : List ℕ)
        → IsAccepted rule fs → outcome rule fs f ≡ Completed text
        → IsAccepted rule (fs ++ f ∷ []) }
    ensures joined { (fs : List Fragment) (f : Fragment) (text : List ℕ)
        → IsAccepted Refuses fs → outcome Refuses fs f ≡ Completed text
        → IsJoined (fs ++ f ∷ []) text }
{}

/// Fragments are in a row from an offset on where the first one starts there, and each other one
/// where the one before it ends: without a gap, without an overlap, and in this order.
pub fn fragments_in_a_row()
    ensures none { AreInRow 0 [] }
    ensures row { AreInRow 0 (fragment 0 true (replicate 8 1) ∷ fragment 1 true (replicate 16 2)
        ∷ fragment 3 false (3 ∷ []) ∷ []) }
    ensures later { AreInRow 8 (fragment 1 true (replicate 16 2) ∷ fragment 3 false (3 ∷ []) ∷ []) }
    ensures prefix { AreInRow 0 (fragment 1 true (replicate 16 2) ∷ []) → ⊥ }
    ensures gap { AreInRow 0 (fragment 0 true (replicate 8 1) ∷ fragment 2 false (replicate 8 2)
        ∷ []) → ⊥ }
    ensures overlap { AreInRow 0 (fragment 0 true (replicate 16 1)
        ∷ fragment 1 false (replicate 8 2) ∷ []) → ⊥ }
    ensures order { AreInRow 0 (fragment 1 false (replicate 8 2) ∷ fragment 0 true (replicate 8 1)
        ∷ []) → ⊥ }
    ensures twice { AreInRow 0 (fragment 0 true (replicate 8 1) ∷ fragment 0 true (replicate 8 1)
        ∷ []) → ⊥ }
{}

/// Fragments are disjoint where two that cover one offset are the same fragment, and none covers an
/// offset at the end of the datagram or after it: neighbours, a repeat, and fragments with a gap
/// between them. Other bytes at one offset are not, nor is a fragment inside another one with the
/// same bytes, nor a byte at the end.
pub fn fragments_that_are_disjoint()
    ensures neighbours { AreDisjoint (fragment 0 true (replicate 8 1)
        ∷ fragment 1 false (replicate 8 2) ∷ []) }
    ensures repeat { AreDisjoint (fragment 0 true (replicate 8 1) ∷ fragment 0 true (replicate 8 1)
        ∷ []) }
    ensures gap { AreDisjoint (fragment 3 false (4 ∷ []) ∷ fragment 0 true (replicate 8 1) ∷ []) }
    ensures other_bytes { AreDisjoint (fragment 0 true (replicate 8 1)
        ∷ fragment 0 true (replicate 7 1 ++ 2 ∷ []) ∷ []) → ⊥ }
    ensures inside { AreDisjoint (fragment 0 true (replicate 24 1)
        ∷ fragment 1 true (replicate 8 1) ∷ []) → ⊥ }
    ensures other_flag { AreDisjoint (fragment 0 true (replicate 8 1)
        ∷ fragment 0 false (replicate 8 1) ∷ []) → ⊥ }
    ensures at_end { AreDisjoint (fragment 1 false [] ∷ fragment 1 true (replicate 8 1) ∷ []) → ⊥ }
    ensures after_end { AreDisjoint (fragment 0 false (replicate 8 1)
        ∷ fragment 3 true (replicate 8 1) ∷ []) → ⊥ }
{}

/// A text is joined from some of the fragments, in whatever order they came: from the start of the
/// datagram on, each where the one before it ends. No text starts after a gap or fills it, none
/// takes some bytes of a fragment and goes on with another one that overlaps it, and none has other
/// bytes.
pub fn texts_that_are_joined()
    ensures from_the_end { IsJoined (fragment 1 false (replicate 8 2)
        ∷ fragment 0 true (replicate 8 1) ∷ []) (replicate 8 1 ++ replicate 8 2) }
    ensures repeated { IsJoined (fragment 0 true (replicate 8 1) ∷ fragment 0 true (replicate 8 1)
        ∷ fragment 1 false (2 ∷ []) ∷ []) (replicate 8 1 ++ 2 ∷ []) }
    ensures after_gap { IsJoined (fragment 1 false (replicate 8 2) ∷ []) (replicate 8 2) → ⊥ }
    ensures filled_gap { IsJoined (fragment 1 false (replicate 8 2) ∷ [])
        (replicate 8 0 ++ replicate 8 2) → ⊥ }
    ensures mixed { IsJoined (fragment 0 true (replicate 16 1) ∷ fragment 1 false (replicate 8 2)
        ∷ []) (replicate 8 1 ++ replicate 8 2) → ⊥ }
    ensures other_bytes { IsJoined (fragment 0 false (1 ∷ []) ∷ []) (2 ∷ []) → ⊥ }
    ensures no_fragment { IsJoined [] (1 ∷ []) → ⊥ }
{}
