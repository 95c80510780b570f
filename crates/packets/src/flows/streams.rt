//! The connections of conversations over TCP, followed.
ghost use Rattle.std.specs.Prelude.{◌≡◌, ◌<◌, ◌++◌, ◌∷◌, [], Bool, List, OnErr, OnOk, option_copied, true};
ghost use Rattle.std.specs.HashMap.{get, hash_map_len, spare};
ghost use Rattle.packets.specs.declared.dissection.Dissection.{Dissection};

use crate::Dissection;
use crate::flows::conversation::Conversation;
use crate::flows::stream::Stream;
use crate::flows::tcp_packet::TcpPacket;
use std::alloc::{AllocError, Global};
use std::collections::HashMap;
use std::hash::BuildHasher;

/// So many conversations are followed at most: those that begin after them aren't.
pub const STREAM_COUNT: usize = 1 << 16;

/// So much is held of all streams at most, in bytes.
pub const HELD_SIZE: u64 = 64 << 20;

/// The connections of conversations over TCP, followed: the first [`STREAM_COUNT`] that come, each as long as
/// all hold no more than [`HELD_SIZE`].
#[derive(Drop)]
pub struct Streams<S: BuildHasher> {
    alloc: Global,
    pub(crate) streams: HashMap<Conversation, Stream, S>,
    // How much all hold.
    held: u64,
}

impl<S: BuildHasher> Streams<S> {
    ghost use Rattle.packets.specs.Streams.{AreSame, FollowsStreams, StopBy, StopsOne, TakePacket, tcp_packet_of};

    /// No packet. Conversations are hashed by this state. It takes no memory.
    pub fn with_hasher(alloc: Global, state: S) -> Streams<S>
        ensures follows { FollowsStreams ⟦<Conversation as PartialEq>⟧.eq result [] }
        ensures empty { hash_map_len result.streams ≡ 0 }
    {
        Streams {
            alloc,
            streams: HashMap::with_hasher(alloc, state),
            held: 0,
        }
    }

    /// The stream of a conversation from the lower end.
    pub fn get(&self, conversation: &Conversation) -> Option<&Stream>
        ensures { option_copied result ≡ get ⟦<Conversation as PartialEq>⟧.eq self.now.streams conversation.now }
    {
        self.streams.get(conversation)
    }

    /// Reserves the capacity for one stream more.
    pub(crate) fn reserve(&mut self) -> Result<(), AllocError>
        ensures capacity { OnOk result (0 < spare self.new.streams) }
        ensures same { AreSame ⟦<Conversation as PartialEq>⟧.eq self.old self.new }
        ensures follows { (packets : List Dissection)
            → FollowsStreams ⟦<Conversation as PartialEq>⟧.eq self.old packets
            → FollowsStreams ⟦<Conversation as PartialEq>⟧.eq self.new packets }
    {
        self.streams.try_reserve(1)
    }

    /// Takes a packet for whose stream there is capacity. Where there is no memory for what its stream
    /// would hold, the packet isn't counted, and the stream isn't followed any more.
    pub(crate) fn add(
        &mut self,
        packet: &Dissection<'_>,
        tcp_packet: Option<TcpPacket>,
    ) -> Result<(), AllocError>
        requires capacity { 0 < spare self.old.streams }
        requires packet { tcp_packet ≡ tcp_packet_of packet.now }
        ensures takes { OnOk result (TakePacket ⟦<Conversation as PartialEq>⟧.eq self.old packet.now self.new) }
        ensures ok { OnOk result ((packets : List Dissection)
            → FollowsStreams ⟦<Conversation as PartialEq>⟧.eq self.old packets
            → FollowsStreams ⟦<Conversation as PartialEq>⟧.eq self.new (packets ++ packet.now ∷ [])) }
        ensures stops { OnErr result (StopBy ⟦<Conversation as PartialEq>⟧.eq self.old self.new tcp_packet) }
        ensures err { OnErr result ((packets : List Dissection)
            → FollowsStreams ⟦<Conversation as PartialEq>⟧.eq self.old packets
            → FollowsStreams ⟦<Conversation as PartialEq>⟧.eq self.new packets) }
    {
        match tcp_packet {
            Some(tcp_packet) => self.take(packet, tcp_packet),
            None => Ok(()),
        }
    }

    fn take(&mut self, packet: &Dissection<'_>, tcp_packet: TcpPacket) -> Result<(), AllocError>
        requires capacity { 0 < spare self.old.streams }
        requires packet { tcp_packet_of packet.now ≡ Some tcp_packet }
        // Conversations are equal only where they are the same.
        requires exact { (a b : Conversation) → ⟦<Conversation as PartialEq>⟧.eq a b ≡ true → a ≡ b }
        ensures takes { OnOk result (TakePacket ⟦<Conversation as PartialEq>⟧.eq self.old packet.now self.new) }
        ensures ok { OnOk result ((packets : List Dissection)
            → FollowsStreams ⟦<Conversation as PartialEq>⟧.eq self.old packets
            → FollowsStreams ⟦<Conversation as PartialEq>⟧.eq self.new (packets ++ packet.now ∷ [])) }
        ensures stops { OnErr result (StopsOne ⟦<Conversation as PartialEq>⟧.eq self.old tcp_packet.conversation
            self.new) }
        ensures err { OnErr result ((packets : List Dissection)
            → FollowsStreams ⟦<Conversation as PartialEq>⟧.eq self.old packets
            → FollowsStreams ⟦<Conversation as PartialEq>⟧.eq self.new packets) }
    {
        if let Some(stream) = self.streams.get_mut(&tcp_packet.conversation) {
            let others = self.held.saturating_sub(stream.size());
            let taken: Result<(), AllocError> = stream.take(others, packet, tcp_packet);
            self.held = others.saturating_add(stream.size());
            return taken;
        }
        if self.streams.len() < STREAM_COUNT {
            let mut stream = Stream::new(self.alloc);
            stream.take(self.held, packet, tcp_packet)?;
            self.held = self.held.saturating_add(stream.size());
            // The capacity is reserved.
            let inserted: Result<_, _> = self.streams.insert(tcp_packet.conversation, stream);
            inserted.unwrap();
        }
        Ok(())
    }
}
