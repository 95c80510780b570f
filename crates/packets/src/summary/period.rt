//! When the packets came.
ghost use Rattle.std.specs.Prelude.{◌≡◌, ◌++◌, ◌∷◌, [], List};
ghost use Rattle.packets.specs.Period.{CountsPeriod, max_with, min_with};
ghost use Rattle.packets.specs.declared.outline.Outline.{Outline};

use crate::Outline;

/// When the packets came, in nanoseconds since 1970 began in UTC.
#[derive(Clone, Copy, Debug, PartialEq, Eq)]
pub struct Period {
    /// The least of their times, if there is a packet.
    pub earliest: Option<u64>,
    /// The greatest of them.
    pub latest: Option<u64>,
}

impl Period {
    /// No packet.
    pub const NONE: Period = Period {
        earliest: None,
        latest: None,
    };

    /// Takes one packet more.
    pub fn add(&mut self, packet: &Outline)
        ensures { (packets : List Outline) → CountsPeriod self.old packets
            → CountsPeriod self.new (packets ++ packet.now ∷ []) }
    {
        self.earliest = Some(min_with(self.earliest, packet.time));
        self.latest = Some(max_with(self.latest, packet.time));
    }
}

fn min_with(earliest: Option<u64>, time: u64) -> u64
    ensures { result ≡ min_with earliest time }
{
    match earliest {
        Some(earliest) => earliest.min(time),
        None => time,
    }
}

fn max_with(latest: Option<u64>, time: u64) -> u64
    ensures { result ≡ max_with latest time }
{
    match latest {
        Some(latest) => latest.max(time),
        None => time,
    }
}
