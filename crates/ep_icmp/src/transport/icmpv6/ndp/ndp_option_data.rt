//! Bytes of an option of neighbor discovery.
ghost use Rattle.std.specs.Prelude.{◌≡◌, ℕ, List, nat_eq};
ghost use Rattle.std.specs.Cmp.Lexicographic.{pointwise};
ghost use Rattle.std.specs.Cmp.Rules.{comparing};
ghost use Rattle.std.proofs.Common.{rules};

use std::marker::Model;

/// Bytes that an option of neighbor discovery carries, borrowed. A contract sees the value as those
/// bytes.
#[derive(Clone, Debug, Drop)]
pub struct NdpOptionData<'a> {
    bytes: &'a [u8],
}

impl<'a> Model for NdpOptionData<'a> {
    ghost Value = { List ℕ };

    ghost view = { λ view. view.bytes.now };
}

impl<'a> NdpOptionData<'a> {
    /// These bytes.
    pub fn new(bytes: &'a [u8]) -> NdpOptionData<'a>
        ensures { result ≡ bytes.now }
    {
        NdpOptionData { bytes }
    }

    /// The bytes.
    pub fn slice(&self) -> &'a [u8]
        ensures { result.now ≡ self.now }
    {
        self.bytes
    }
}

impl<'a> PartialEq for NdpOptionData<'a> {
    ghost eq = { pointwise nat_eq };

    ghost laws = { Prim.search (comparing, rules) };

    fn eq(&self, other: &Self) -> bool {
        self.bytes == other.bytes
    }
}

impl<'a> Eq for NdpOptionData<'a> {
    ghost laws = { Prim.search (comparing, rules) };
}
