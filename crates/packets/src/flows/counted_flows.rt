//! Conversations, counted packet by packet.
ghost use Rattle.std.specs.Prelude.{◌≡◌, ◌<◌, ◌++◌, ◌∷◌, ◌↔◌, [], IsTrue, List, OnOk, OnErr, length, slice_get};
ghost use Rattle.std.specs.Option.{option_map};
ghost use Rattle.packets.specs.declared.flows.transfer.Transfer.{Transfer};

use crate::Dissection;
use crate::flows::conversation::Conversation;
use crate::flows::conversation_counts::ConversationCounts;
use crate::flows::row::Row;
use crate::flows::transfer::Transfer;
use crate::summary::recent::{BUCKET_COUNT, conversation_bucket};
use crate::summary::table::Table;
use crate::summary::tally::Tally;
use std::alloc::{AllocError, Global};
use std::hash::{BuildHasher, BuildHasherDefault, FoldHasher};

/// The conversations in a capture. Their memory grows with their number, and with nothing else.
#[derive(Drop)]
pub struct CountedFlows<S: BuildHasher = BuildHasherDefault<FoldHasher>> {
    /// All packets.
    pub all: Tally,
    /// Those that are refused, unless they were cut. They are in no conversation.
    pub refused: Tally,
    /// The others without an IP header. They are in none, too.
    pub without_ip: Tally,
    pub(crate) conversations: Table<Conversation, S, ConversationCounts>,
    // By buckets of conversations, the index of that which was counted last.
    recent: [usize; BUCKET_COUNT],
}

impl CountedFlows<BuildHasherDefault<FoldHasher>> {
    ghost use Rattle.packets.specs.Flows.{CountsFlows};

    /// [`CountedFlows::with_hasher`] with std's state of a fixed seed.
    pub fn new(alloc: Global) -> CountedFlows
        ensures { CountsFlows ⟦<Conversation as PartialEq>⟧.eq result [] }
    {
        CountedFlows::with_hasher(alloc, BuildHasherDefault::new())
    }
}

impl<S: BuildHasher> CountedFlows<S> {
    ghost use Rattle.packets.specs.Flows.{CountsFlows, row_of};
    ghost use Rattle.packets.specs.Transfers.{transfer_of};

    /// No packet. Conversations are hashed by this state. It takes no memory.
    pub fn with_hasher(alloc: Global, state: S) -> CountedFlows<S>
        ensures { CountsFlows ⟦<Conversation as PartialEq>⟧.eq result [] }
    {
        CountedFlows {
            all: Tally::NONE,
            refused: Tally::NONE,
            without_ip: Tally::NONE,
            conversations: Table::with_hasher(alloc, state),
            recent: [0; BUCKET_COUNT],
        }
    }

    /// Counts one packet more. Where there is no memory for its conversation, all counts stay.
    pub fn add(&mut self, dissection: &Dissection<'_>) -> Result<(), AllocError>
        ensures ok { OnOk result ((packets : List Transfer)
            → CountsFlows ⟦<Conversation as PartialEq>⟧.eq self.old packets
            → CountsFlows ⟦<Conversation as PartialEq>⟧.eq self.new
            (packets ++ transfer_of dissection.now ∷ [])) }
        ensures err { OnErr result ((packets : List Transfer)
            → CountsFlows ⟦<Conversation as PartialEq>⟧.eq self.old packets
            → CountsFlows ⟦<Conversation as PartialEq>⟧.eq self.new packets) }
    {
        let packet = Transfer::of(dissection);
        self.reserve()?;
        self.count(&packet);
        Ok(())
    }

    /// Reserves the capacity for one conversation more.
    pub(crate) fn reserve(&mut self) -> Result<(), AllocError>
        ensures capacity { OnOk result (0 < self.new.conversations.spare) }
        ensures same { (packets : List Transfer)
            → CountsFlows ⟦<Conversation as PartialEq>⟧.eq self.old packets
            → CountsFlows ⟦<Conversation as PartialEq>⟧.eq self.new packets }
    {
        self.conversations.reserve()
    }

    /// Counts a packet for whose conversation there is capacity.
    pub(crate) fn count(&mut self, packet: &Transfer)
        requires capacity { 0 < self.old.conversations.spare }
        ensures { (packets : List Transfer)
            → CountsFlows ⟦<Conversation as PartialEq>⟧.eq self.old packets
            → CountsFlows ⟦<Conversation as PartialEq>⟧.eq self.new (packets ++ packet.now ∷ []) }
    {
        let outline = &packet.outline;
        self.all.add(outline);
        self.refused.add_if(outline.is_left_out(), outline);
        self.without_ip.add_if(outline.is_without_ip(), outline);
        let bucket = conversation_bucket(packet.conversation);
        let expected = self.recent[bucket];
        self.recent[bucket] = self
            .conversations
            .add_keyed(packet.conversation, expected, packet);
    }

    /// How many conversations there are.
    pub fn len(&self) -> usize
        ensures { result ≡ length self.now.conversations.entries }
    {
        self.conversations.len()
    }

    /// Whether there is none.
    pub fn is_empty(&self) -> bool
        ensures { IsTrue result ↔ (length self.now.conversations.entries ≡ 0) }
    {
        self.conversations.is_empty()
    }

    /// The conversation with this index, in the order in which they came first.
    pub fn row(&self, index: usize) -> Option<Row>
        ensures { result ≡ option_map row_of (slice_get self.now.conversations.entries index) }
    {
        match self.conversations.get(index) {
            Some((conversation, flow)) => Some(Row::of(conversation, flow)),
            None => None,
        }
    }
}
