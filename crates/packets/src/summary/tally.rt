//! Counts of packets.
ghost use Rattle.std.specs.Prelude.{◌≡◌, ◌++◌, ◌∷◌, [], List, Bool, true};
ghost use Rattle.packets.specs.Tally.{tally_of};
ghost use Rattle.packets.specs.declared.outline.Outline.{Outline};

use crate::Outline;
use crate::summary::count::Count;

/// How many packets there are of a kind, how many bytes they have, and which came first. Counts
/// stop at the greatest number of 64 bits, so that none wraps around.
#[derive(Clone, Copy, Debug, PartialEq, Eq)]
pub struct Tally {
    /// The packets.
    pub packets: u64,
    /// The bytes of their frames.
    pub bytes: u64,
    /// The number of the first packet.
    pub first: Option<u64>,
}

impl Tally {
    /// No packet.
    pub const NONE: Tally = Tally {
        packets: 0,
        bytes: 0,
        first: None,
    };

    /// Counts one packet more.
    pub fn add(&mut self, packet: &Outline)
        ensures { (is_of_kind : Outline → Bool) (packets : List Outline)
            → self.old ≡ tally_of is_of_kind packets → is_of_kind packet.now ≡ true
            → self.new ≡ tally_of is_of_kind (packets ++ packet.now ∷ []) }
    {
        self.packets = self.packets.saturating_add(1);
        self.bytes = self.bytes.saturating_add(packet.len as u64);
        self.first = Some(self.first.unwrap_or(packet.number));
    }

    /// Counts one packet more if it is of the kind.
    pub fn add_if(&mut self, is_of_kind: bool, packet: &Outline)
        ensures { (kind : Outline → Bool) (packets : List Outline)
            → self.old ≡ tally_of kind packets → kind packet.now ≡ is_of_kind
            → self.new ≡ tally_of kind (packets ++ packet.now ∷ []) }
    {
        if is_of_kind {
            self.add(packet);
        }
    }
}

impl Count<Outline> for Tally {
    ghost of = { tally_of };

    fn nothing() -> Tally {
        Tally::NONE
    }

    fn count(&mut self, packet: &Outline) {
        self.add(packet);
    }
}
