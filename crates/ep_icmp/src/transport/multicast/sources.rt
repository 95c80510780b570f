//! The sources that a query or a report lists.
ghost use Rattle.std.specs.Prelude.{◌≡◌, ◌/◌, ℕ, List, length, nat_eq};
ghost use Rattle.std.specs.Cmp.Lexicographic.{pointwise};
ghost use Rattle.std.specs.Cmp.Rules.{comparing};
ghost use Rattle.std.proofs.Common.{rules};

use std::marker::Model;

/// Source addresses of `N` bytes each, borrowed. A contract sees the value as their bytes.
#[derive(Clone, Debug, Drop)]
pub struct Sources<'a, const N: usize> {
    bytes: &'a [u8],
}

impl<'a, const N: usize> Model for Sources<'a, N> {
    ghost Value = { List ℕ };

    ghost view = { λ sources. sources.bytes.now };
}

impl<'a, const N: usize> Sources<'a, N> {
    // The addresses that these bytes are.
    pub(crate) fn new(bytes: &'a [u8]) -> Sources<'a, N>
        ensures { result ≡ bytes.now }
    {
        Sources { bytes }
    }

    /// The bytes of the addresses, one after the other.
    pub fn slice(&self) -> &'a [u8]
        ensures { result.now ≡ self.now }
    {
        self.bytes
    }
}

impl<'a, const N: usize> PartialEq for Sources<'a, N> {
    ghost eq = { pointwise nat_eq };

    ghost laws = { Prim.search (comparing, rules) };

    fn eq(&self, other: &Self) -> bool {
        self.bytes == other.bytes
    }
}

impl<'a, const N: usize> Eq for Sources<'a, N> {
    ghost laws = { Prim.search (comparing, rules) };
}
