//! Shares in percent.

use std::fmt;

/// A part of a whole. It is written in tenths of a percent, rounded. No part is more than its whole,
/// and one that is less has less than 100 percent.
#[derive(Clone, Copy)]
pub(crate) struct Share {
    pub part: u64,
    pub whole: u64,
}

/// It has no contract: tests compare the texts.
impl fmt::Display for Share {
    fn fmt<W: fmt::Write>(&self, f: &mut fmt::Formatter<W>) -> fmt::Result {
        let greatest = if self.part < self.whole { 999 } else { 1000 };
        let whole = u128::from(self.whole.max(1));
        let tenths = ((u128::from(self.part) * 1000 + whole / 2) / whole).min(greatest) as u64;
        let (percent, rest) = (tenths / 10, tenths % 10);
        write!(f, "{percent:>3}.{rest} %")
    }
}
