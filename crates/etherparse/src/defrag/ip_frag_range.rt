//! A range of bytes of a datagram.

/// A range of bytes of a datagram. Two ranges that follow one another share the number at which the
/// one ends and the other starts, so they merge.
#[derive(Clone, Copy, Debug, PartialEq, Eq, Hash, PartialOrd, Ord)]
pub struct IpFragRange {
    /// The first offset, in bytes.
    pub start: u16,
    /// The offset after the last one.
    pub end: u16,
}

impl IpFragRange {
    ghost use Rattle.std.specs.Prelude.{◌≡◌, ◌≤◌, ◌↔◌, ℕ, IfSome, IsSome};
    ghost use Rattle.etherparse.specs.IpFragRange.{has_number, hull, merge_of, HasNumber};

    /// Both ranges as one, where `start` or `end` of one lies in the other.
    pub fn merge(&self, other: IpFragRange) -> Option<IpFragRange>
        ensures value { result ≡ merge_of self.now other }
        ensures hull { IfSome result (λ range. range ≡ hull self.now other) }
        ensures shared { self.now.start ≤ self.now.end → other.start ≤ other.end →
            IsSome result ↔ ((n : ℕ) × HasNumber self.now n × HasNumber other n) }
    {
        if self.contains(other.start)
            || self.contains(other.end)
            || other.contains(self.start)
            || other.contains(self.end)
        {
            Some(self.hull(other))
        } else {
            None
        }
    }

    pub(crate) fn contains(&self, number: u16) -> bool
        ensures { result ≡ has_number self.now number }
    {
        self.start <= number && number <= self.end
    }

    // The least start and the greatest end.
    pub(crate) fn hull(self, other: IpFragRange) -> IpFragRange
        ensures { result ≡ hull self other }
    {
        IpFragRange {
            start: self.start.min(other.start),
            end: self.end.max(other.end),
        }
    }
}
