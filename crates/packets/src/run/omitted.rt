//! What a run leaves out.
ghost use Rattle.std.specs.Prelude.{◌≡◌, ◌+◌};
ghost use Rattle.captures.specs.Numbers.{capped};
ghost use Rattle.packets.specs.Inputs.{skipped_with};

use captures::Skipped;

/// What a run leaves out.
#[derive(Clone, Copy, Debug, PartialEq, Eq)]
pub struct Omitted {
    /// How many packets were passed over.
    pub skipped: Skipped,
    /// How many datagrams were dropped, so that the others take no more than
    /// [`Rules::reassembly_memory`](crate::Rules::reassembly_memory) bytes; up to the greatest number of
    /// 64 bits.
    pub dropped: u64,
}

impl Omitted {
    /// Nothing.
    pub const NOTHING: Omitted = Omitted {
        skipped: Skipped::NONE,
        dropped: 0,
    };

    /// With what another run leaves out. Counts stop at the greatest number of 64 bits.
    pub fn with(self, other: Omitted) -> Omitted
        ensures skipped { result.skipped ≡ skipped_with self.skipped other.skipped }
        ensures dropped { result.dropped ≡ capped (self.dropped + other.dropped) }
    {
        let (these, those) = (self.skipped, other.skipped);
        Omitted {
            skipped: Skipped {
                of_other_links: these.of_other_links.saturating_add(those.of_other_links),
                too_long: these.too_long.saturating_add(those.too_long),
                without_frame: these.without_frame.saturating_add(those.without_frame),
            },
            dropped: self.dropped.saturating_add(other.dropped),
        }
    }
}
