//! The record of a group in a report.
ghost use Rattle.std.specs.Prelude.{◌≡◌, ◌+◌, ◌≤◌, ◌*◌, ℕ, List, slice_range, drop, length, nat_eq};
ghost use Rattle.std.specs.Cmp.Lexicographic.{pointwise};
ghost use Rattle.std.specs.Cmp.Rules.{comparing};
ghost use Rattle.std.proofs.Common.{rules};
ghost use Rattle.ep_base.specs.Bytes.{num};
ghost use Rattle.ep_icmp.specs.Multicast as multicast;

use super::Sources;
use std::marker::Model;

/// The record of a group with addresses of `N` bytes, borrowed (RFC 3376, section 4.2.4; RFC 3810,
/// section 5.2.5). Its length was tested when the value was made, so that getters test nothing. A
/// contract sees the value as its bytes.
#[derive(Clone, Debug, Drop)]
pub struct GroupRecord<'a, const N: usize> {
    slice: &'a [u8],
}

impl<'a, const N: usize> Model for GroupRecord<'a, N> {
    ghost Value = { List ℕ };

    ghost view = { λ view. view.slice.now };

    ghost invariant = { λ view. (N ≤ 16) × multicast.IsRecord N view.slice.now };
}

impl<'a, const N: usize> GroupRecord<'a, N> {
    // The record that these bytes, all of it, are.
    pub(super) fn of_bytes(slice: &'a [u8]) -> GroupRecord<'a, N>
        requires small { N ≤ 16 }
        requires record { multicast.IsRecord N slice.now }
        ensures { result ≡ slice.now }
    {
        GroupRecord { slice }
    }

    /// The record's bytes.
    pub fn slice(&self) -> &'a [u8]
        ensures bytes { result.now ≡ self.now }
        ensures record { multicast.IsRecord N self.now }
    {
        self.slice
    }

    /// The type, byte 0: 1 to 6 (RFC 3376, section 4.2.12).
    pub fn kind(&self) -> u8
        ensures { result ≡ num self.now 0 1 }
    {
        self.slice[0]
    }

    /// The address of the group.
    pub fn group(&self) -> [u8; N]
        ensures { result ≡ slice_range self.now 4 (4 + N) }
    {
        self.slice[4..4 + N].try_into().unwrap()
    }

    /// The addresses of the sources.
    pub fn sources(&self) -> Sources<'a, N>
        ensures { result ≡ multicast.sources_of N self.now }
    {
        Sources::new(&self.slice[4 + N..self.sources_end()])
    }

    /// The auxiliary data, of which neither standard defines any.
    pub fn auxiliary_data(&self) -> &'a [u8]
        ensures { result.now ≡ drop (multicast.sources_end N self.now) self.now }
    {
        &self.slice[self.sources_end()..]
    }

    // The offset of what follows the sources.
    fn sources_end(&self) -> usize
        ensures value { result ≡ multicast.sources_end N self.now }
        ensures least { 4 + N ≤ result }
        ensures most { result ≤ length self.now }
    {
        let sources = u16::from_be_bytes([self.slice[2], self.slice[3]]);
        4 + N + N * usize::from(sources)
    }
}

impl<'a, const N: usize> PartialEq for GroupRecord<'a, N> {
    ghost eq = { pointwise nat_eq };

    ghost laws = { Prim.search (comparing, rules) };

    fn eq(&self, other: &Self) -> bool {
        self.slice == other.slice
    }
}

impl<'a, const N: usize> Eq for GroupRecord<'a, N> {
    ghost laws = { Prim.search (comparing, rules) };
}
