//! Bytes that came twice and weren't the same.

ghost use Rattle.std.specs.Prelude.{◌≡◌, ◌+◌, ◌^◌, ◌≤◌, [], ◌∷◌, ◌++◌, List, ℕ, length};
ghost use Rattle.tcp_streams.specs.PlacedSegments.{byte_from, clashes};
ghost use Rattle.tcp_streams.specs.SparseBytes.{counted};

/// Positions at which a segment has another byte than one before it. The first byte stays.
#[derive(Clone, Copy, Debug, Default, PartialEq, Eq)]
pub struct Conflicts {
    /// How many there are, `u64::MAX` at most.
    pub count: u64,
    /// The one that was found first.
    pub first: Option<u64>,
}

impl Conflicts {
    pub(crate) fn none() -> Conflicts
        ensures { result ≡ counted [] }
    {
        Conflicts {
            count: 0,
            first: None,
        }
    }

    // These, and then one more.
    pub(crate) fn and_at(self, position: u64) -> Conflicts
        ensures { (ps : List ℕ) → self ≡ counted ps → result ≡ counted (ps ++ position ∷ []) }
    {
        Conflicts {
            count: self.count.saturating_add(1),
            first: self.first.or(Some(position)),
        }
    }

    // These, and then others.
    pub(crate) fn and(self, later: Conflicts) -> Conflicts
        ensures { (ps qs : List ℕ) → self ≡ counted ps → later ≡ counted qs → result ≡ counted (ps ++ qs) }
    {
        Conflicts {
            count: self.count.saturating_add(later.count),
            first: self.first.or(later.first),
        }
    }
}

// The positions of those bytes that differ from the one that is held there.
pub(crate) fn differences(held: &[u8], bytes: &[u8], position: u64) -> Conflicts
    requires same { length held.now ≡ length bytes.now }
    requires short { position + length bytes.now ≤ 2 ^ 63 }
    ensures { result ≡ counted (clashes (byte_from position held.now) position bytes.now) }
{
    let mut conflicts = Conflicts::none();
    if held == bytes {
        return conflicts;
    }
    for (index, byte) in bytes.iter().enumerate() {
        if held[index] != *byte {
            conflicts = conflicts.and_at(position + index as u64);
        }
    }
    conflicts
}
