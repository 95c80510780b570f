//! What is counted of a conversation.
ghost use Rattle.std.specs.Prelude.{◌≡◌, ◌++◌, ◌∷◌, [], Bool, List, filter};
ghost use Rattle.packets.specs.Flows.{conversation_counts, conversation_counts_of, direction_counts};
ghost use Rattle.packets.specs.declared.flows.transfer.Transfer.{Transfer};

use crate::Period;
use crate::flows::transfer::{Flags, Transfer};
use crate::summary::count::Count;

/// How many packets go one way in a conversation, how many bytes they had on the wire, and which
/// TCP flags they have. Counts stop at the greatest number of 64 bits.
#[derive(Clone, Copy, Debug, PartialEq, Eq)]
pub struct DirectionCounts {
    /// The packets.
    pub packets: u64,
    /// Their bytes on the wire.
    pub bytes: u64,
    /// The flags that some of them have.
    pub flags: Flags,
}

/// What is counted of a conversation.
#[derive(Clone, Copy, Debug, PartialEq, Eq)]
pub struct ConversationCounts {
    /// From the lower end.
    pub ascending: DirectionCounts,
    /// From the higher end.
    pub descending: DirectionCounts,
    /// When its packets came.
    pub period: Period,
    /// Whether its first packet goes from the lower end.
    pub begins_ascending: Option<bool>,
}

impl DirectionCounts {
    /// No packet.
    pub const NONE: DirectionCounts = DirectionCounts {
        packets: 0,
        bytes: 0,
        flags: Flags::NONE,
    };

    fn add(&mut self, packet: &Transfer)
        ensures { (packets : List Transfer) → self.old ≡ direction_counts packets
            → self.new ≡ direction_counts (packets ++ packet.now ∷ []) }
    {
        self.packets = self.packets.saturating_add(1);
        self.bytes = self
            .bytes
            .saturating_add(u64::from(packet.outline.wire_len));
        self.flags.add(packet.flags);
    }

    fn add_if(&mut self, is_of_kind: bool, packet: &Transfer)
        ensures { (kind : Transfer → Bool) (packets : List Transfer)
            → self.old ≡ direction_counts (filter kind packets) → kind packet.now ≡ is_of_kind
            → self.new ≡ direction_counts (filter kind (packets ++ packet.now ∷ [])) }
    {
        if is_of_kind {
            self.add(packet);
        }
    }
}

impl ConversationCounts {
    /// No packet.
    pub const NONE: ConversationCounts = ConversationCounts {
        ascending: DirectionCounts::NONE,
        descending: DirectionCounts::NONE,
        period: Period::NONE,
        begins_ascending: None,
    };

    /// Counts one packet more.
    pub fn add(&mut self, packet: &Transfer)
        ensures { (packets : List Transfer) → self.old ≡ conversation_counts packets
            → self.new ≡ conversation_counts (packets ++ packet.now ∷ []) }
    {
        self.ascending.add_if(packet.ascends, packet);
        self.descending.add_if(!packet.ascends, packet);
        self.period.add(&packet.outline);
        self.begins_ascending = Some(self.begins_ascending.unwrap_or(packet.ascends));
    }
}

impl Count<Transfer> for ConversationCounts {
    ghost of = { conversation_counts_of };

    fn nothing() -> ConversationCounts {
        ConversationCounts::NONE
    }

    fn count(&mut self, packet: &Transfer) {
        self.add(packet);
    }
}
