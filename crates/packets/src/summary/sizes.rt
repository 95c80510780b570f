//! How many packets there are of each size.
ghost use Rattle.std.specs.Prelude.{◌≡◌, ◌<◌, ◌++◌, ◌∷◌, [], List, true};
ghost use Rattle.packets.specs.Sizes.{CountsSizes, has_digits};
ghost use Rattle.packets.specs.declared.outline.Outline.{Outline};

use crate::Outline;

/// Sizes are distinguished by their number of binary digits, 0 to 64.
pub const SIZE_COUNT: usize = 65;

/// How many packets there are of each size: of `counts[n]` the bytes of the frame are a number of n
/// binary digits. Counts stop at the greatest number of 64 bits.
#[derive(Clone, Copy, Debug, PartialEq, Eq)]
pub struct Sizes {
    /// The packets of each number of digits.
    pub counts: [u64; SIZE_COUNT],
}

impl Sizes {
    /// No packet.
    pub const NONE: Sizes = Sizes {
        counts: [0; SIZE_COUNT],
    };

    /// Counts one packet more.
    pub fn add(&mut self, packet: &Outline)
        ensures { (packets : List Outline) → CountsSizes self.old packets
            → CountsSizes self.new (packets ++ packet.now ∷ []) }
    {
        let digits = digits_of(packet.len);
        self.counts[digits] = self.counts[digits].saturating_add(1);
    }
}

// How many binary digits a number has, 0 having none.
fn digits_of(n: usize) -> usize
    ensures digits { has_digits result n ≡ true }
    ensures bound { result < SIZE_COUNT }
{
    if n == 0 { 0 } else { n.ilog2() as usize + 1 }
}
