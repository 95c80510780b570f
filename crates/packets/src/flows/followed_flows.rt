//! Conversations, counted, with what goes over their connections.
ghost use Rattle.std.specs.Prelude.{◌≡◌, ◌++◌, ◌∷◌, [], List, OnErr, OnOk};
ghost use Rattle.std.specs.HashMap.{hash_map_len};
ghost use Rattle.packets.specs.declared.dissection.Dissection.{Dissection};
ghost use Rattle.packets.specs.declared.flows.transfer.Transfer.{Transfer};

use crate::flows::conversation::Conversation;
use crate::flows::counted_flows::CountedFlows;
use crate::flows::streams::Streams;
use crate::flows::tcp_packet::tcp_packet;
use crate::flows::transfer::transfer_with;
use crate::message_header::MessageHeader;
use crate::{Dissection, Outline};
use std::alloc::{AllocError, Global};
use std::hash::BuildHasher;

/// The conversations in a capture, and of those over TCP their connections, followed.
#[derive(Drop)]
pub struct FollowedFlows<S: BuildHasher> {
    /// The conversations.
    pub flows: CountedFlows<S>,
    /// Those over TCP, followed.
    pub streams: Streams<S>,
}

impl<S: BuildHasher> FollowedFlows<S> {
    ghost use Rattle.packets.specs.Flows.{CountsFlows};
    ghost use Rattle.packets.specs.Streams.{FollowsStreams, MissPacket, TakePacket};
    ghost use Rattle.packets.specs.Transfers.{transfer_of};

    /// No packet. Conversations and streams are hashed by a state each. It takes no memory.
    pub fn with_hashers(alloc: Global, conversations: S, streams: S) -> FollowedFlows<S>
        ensures flows { CountsFlows ⟦<Conversation as PartialEq>⟧.eq result.flows [] }
        ensures streams { FollowsStreams ⟦<Conversation as PartialEq>⟧.eq result.streams [] }
        ensures none { hash_map_len result.streams.streams ≡ 0 }
    {
        FollowedFlows {
            flows: CountedFlows::with_hasher(alloc, conversations),
            streams: Streams::with_hasher(alloc, streams),
        }
    }

    /// Takes one packet more. Where there is no memory for its conversation or for what its stream would
    /// hold, it isn't counted; in the second case the stream isn't followed any more.
    pub fn add(&mut self, dissection: &Dissection<'_>) -> Result<(), AllocError>
        ensures ok { OnOk result (((packets : List Transfer)
            → CountsFlows ⟦<Conversation as PartialEq>⟧.eq self.old.flows packets
            → CountsFlows ⟦<Conversation as PartialEq>⟧.eq self.new.flows
            (packets ++ transfer_of dissection.now ∷ []))
            × ((packets : List Dissection)
            → FollowsStreams ⟦<Conversation as PartialEq>⟧.eq self.old.streams packets
            → FollowsStreams ⟦<Conversation as PartialEq>⟧.eq self.new.streams
            (packets ++ dissection.now ∷ []))) }
        ensures takes { OnOk result (TakePacket ⟦<Conversation as PartialEq>⟧.eq self.old.streams dissection.now
            self.new.streams) }
        ensures stops { OnErr result (MissPacket ⟦<Conversation as PartialEq>⟧.eq self.old.streams dissection.now
            self.new.streams) }
        ensures err { OnErr result (((packets : List Transfer)
            → CountsFlows ⟦<Conversation as PartialEq>⟧.eq self.old.flows packets
            → CountsFlows ⟦<Conversation as PartialEq>⟧.eq self.new.flows packets)
            × ((packets : List Dissection)
            → FollowsStreams ⟦<Conversation as PartialEq>⟧.eq self.old.streams packets
            → FollowsStreams ⟦<Conversation as PartialEq>⟧.eq self.new.streams packets)) }
    {
        let header = MessageHeader::of(dissection);
        let transfer = transfer_with(Outline::of(dissection), header);
        self.flows.reserve()?;
        self.streams.reserve()?;
        self.streams.add(dissection, tcp_packet(&transfer, header))?;
        self.flows.count(&transfer);
        Ok(())
    }
}
