//! The orders in which fragments come.
ghost use Rattle.std.specs.Prelude.{◌<◌};

/// How many fragments of 8 bytes a datagram of the greatest length has.
pub const FRAGMENTS: u16 = 8192;

/// An order in which fragments come.
#[derive(Clone, Copy)]
pub enum Order {
    /// From the start to the end.
    Ascending,
    /// From the end to the start.
    Descending,
    /// First every second one, so that there are as many sections as there can be, and then the
    /// others.
    EvenFirst,
    /// As if shuffled, the same way each time.
    Shuffled,
}

impl Order {
    /// The offset, in units of 8 bytes, of the fragment that comes at this index.
    pub fn units(self, index: u16) -> u16
        requires { index < 8192 }
        ensures { result < 8192 }
    {
        match self {
            Order::Ascending => index,
            Order::Descending => FRAGMENTS - 1 - index,
            Order::EvenFirst if index < FRAGMENTS / 2 => 2 * index,
            Order::EvenFirst => 2 * (index - FRAGMENTS / 2) + 1,
            Order::Shuffled => shuffled(shuffled(index)),
        }
    }
}

// A permutation of the indices: an odd factor and a shift by less than all bits are both
// invertible.
fn shuffled(index: u16) -> u16
    ensures { result < 8192 }
{
    let product = index.wrapping_mul(0x1d35) % FRAGMENTS;
    (product ^ (product >> 6)) % FRAGMENTS
}
