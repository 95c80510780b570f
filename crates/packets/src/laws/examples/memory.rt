//! Which datagrams are dropped to save memory.
ghost use Rattle.std.specs.Prelude.{◌≡◌, true, [], ◌∷◌, replicate};
ghost use Rattle.etherparse.specs.Fragments.{fragment};
ghost use Rattle.packets.specs.Examples.{eight_bytes, three_datagrams, named};
ghost use Rattle.packets.specs.ReassemblyMemory.{dropped_within, order_within, taken, taken_by};

/// What a datagram takes: 640 bytes, and those up to the greatest end of a fragment, whatever lies
/// between.
pub fn taken_by_fragments()
    ensures first { taken_by (fragment 0 true (replicate 8 1) ∷ []) ≡ 648 }
    ensures gap { taken_by (fragment 0 true (replicate 8 1) ∷ fragment 5 true (replicate 8 1) ∷ []) ≡ 688 }
    ensures order { taken_by (fragment 5 true (replicate 8 1) ∷ fragment 0 true (replicate 8 1) ∷ []) ≡ 688 }
{}

/// Of three datagrams with a fragment of 8 bytes each, the first ones are dropped while the others
/// take more than they may.
pub fn dropped_of_three()
    ensures all { taken eight_bytes three_datagrams ≡ 1944 }
    ensures enough { dropped_within 1944 eight_bytes three_datagrams ≡ 0 }
    ensures one { dropped_within 1943 eight_bytes three_datagrams ≡ 1 }
    ensures two { dropped_within 1295 eight_bytes three_datagrams ≡ 2 }
    ensures three { dropped_within 647 eight_bytes three_datagrams ≡ 3 }
    ensures left { order_within 1943 eight_bytes three_datagrams
        ≡ (named 2, 0) ∷ (named 3, 0) ∷ [] }
{}
