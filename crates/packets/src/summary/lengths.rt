//! How many bytes packets had on the wire, and how many of them were captured.
ghost use Rattle.std.specs.Prelude.{◌++◌, ◌∷◌, [], List};
ghost use Rattle.packets.specs.Lengths.{CountsLengths};
ghost use Rattle.packets.specs.declared.outline.Outline.{Outline};

use crate::Outline;
use crate::summary::tally::Tally;

/// How many bytes packets had on the wire, how many of them were captured, and which packets were
/// cut. Counts stop at the greatest number of 64 bits.
#[derive(Clone, Copy, Debug, PartialEq, Eq)]
pub struct Lengths {
    /// The packets of which fewer bytes were captured than were on the wire.
    pub cut: Tally,
    /// The bytes of all packets on the wire.
    pub wire: u64,
    /// The bytes of them that were captured, those of their links' own headers among them.
    pub captured: u64,
}

impl Lengths {
    /// No packet.
    pub const NONE: Lengths = Lengths {
        cut: Tally::NONE,
        wire: 0,
        captured: 0,
    };

    /// Counts one packet more.
    pub fn add(&mut self, packet: &Outline)
        ensures { (packets : List Outline) → CountsLengths self.old packets
            → CountsLengths self.new (packets ++ packet.now ∷ []) }
    {
        self.cut.add_if(packet.is_cut(), packet);
        self.wire = self.wire.saturating_add(u64::from(packet.wire_len));
        self.captured = self.captured.saturating_add(packet.captured_len as u64);
    }
}
