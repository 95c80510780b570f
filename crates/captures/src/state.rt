//! What a capture is known to be, after some of its units.
ghost use Rattle.std.specs.Prelude.{◌≡◌};
ghost use Rattle.captures.specs.Units.{seen_in, skipped_in};

use crate::byte_order::ByteOrder;
use crate::link::kind::Link;
use crate::pcapng::section::Section;
use crate::skipped::{Passing, Skipped};
use crate::time::time_unit::TimeUnit;
use crate::unfit::Unfit;

/// What a capture is known to be.
#[derive(Clone, Copy)]
pub(crate) enum State {
    /// Nothing yet.
    Start(Unfit),
    /// A classic capture of packets of such a link, with its numbers in this order, and times in
    /// this unit.
    Classic(ByteOrder, TimeUnit, Link, Passing),
    /// A pcapng file, within this section.
    Pcapng(Section),
}

impl State {
    /// The packets that were passed over by then.
    pub(crate) fn skipped(self) -> Skipped
        ensures { result ≡ skipped_in self }
    {
        match self {
            State::Start(_) => Skipped::NONE,
            State::Classic(_, _, _, passing) => passing.skipped,
            State::Pcapng(section) => section.passing.skipped,
        }
    }

    /// How many packets came by then.
    #[inline(always)]
    pub(crate) fn seen(&self) -> u64
        ensures { result ≡ seen_in self.now }
    {
        match self {
            State::Start(_) => 0,
            State::Classic(_, _, _, passing) => passing.seen,
            State::Pcapng(section) => section.passing.seen,
        }
    }
}
