//! How many packets came, and how many of them a run passed over.
ghost use Rattle.std.specs.Prelude.{◌≡◌, ◌+◌};
ghost use Rattle.captures.specs.Numbers.{capped};
ghost use Rattle.captures.specs.Skipping.{passing_from, with_reason};

use crate::unfit::Unfit;
use std::fmt;

/// How many packets a run passed over, by the reason. Counts stop at the greatest number of 64
/// bits.
#[derive(Clone, Copy, Debug, PartialEq, Eq)]
pub struct Skipped {
    /// Those on links that aren't read.
    pub of_other_links: u64,
    /// Those whose frames are too long for a line.
    pub too_long: u64,
    /// Those that have no frame.
    pub without_frame: u64,
}

impl fmt::Display for Skipped {
    fn fmt<W: fmt::Write>(&self, f: &mut fmt::Formatter<W>) -> fmt::Result {
        let Skipped {
            of_other_links,
            too_long,
            without_frame,
        } = *self;
        write!(f, "{of_other_links} of other links, ")?;
        write!(f, "{too_long} too long, {without_frame} without a frame")
    }
}

/// Why a packet is passed over.
#[derive(Clone, Copy)]
pub(crate) enum Reason {
    OtherLink,
    TooLong,
    NoFrame,
}

impl Skipped {
    /// No packet.
    pub const NONE: Skipped = Skipped {
        of_other_links: 0,
        too_long: 0,
        without_frame: 0,
    };

    // Counts one packet more.
    fn count(&mut self, reason: Reason)
        ensures { self.new ≡ with_reason self.old reason }
    {
        match reason {
            Reason::OtherLink => self.of_other_links = self.of_other_links.saturating_add(1),
            Reason::TooLong => self.too_long = self.too_long.saturating_add(1),
            Reason::NoFrame => self.without_frame = self.without_frame.saturating_add(1),
        }
    }
}

/// What happens to packets that can't be reported, and how many came and were passed over so far.
#[derive(Clone, Copy)]
pub(crate) struct Passing {
    pub unfit: Unfit,
    pub skipped: Skipped,
    /// How many packets came, those included of which no byte was captured.
    pub seen: u64,
}

impl Passing {
    /// Before the first packet.
    pub(crate) fn from(unfit: Unfit) -> Passing
        ensures { result ≡ passing_from unfit }
    {
        Passing {
            unfit,
            skipped: Skipped::NONE,
            seen: 0,
        }
    }

    /// Counts one packet more.
    pub(crate) fn count_packet(&mut self)
        ensures { self.new ≡ record self.old { seen = capped (self.old.seen + 1) } }
    {
        self.seen = self.seen.saturating_add(1);
    }

    /// Counts one packet more, which is passed over.
    pub(crate) fn count_passed_over(&mut self, reason: Reason)
        ensures { self.new ≡ record self.old {
          seen = capped (self.old.seen + 1);
          skipped = with_reason self.old.skipped reason;
        } }
    {
        self.skipped.count(reason);
        self.count_packet();
    }
}
