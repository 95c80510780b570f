//! Counts the conversations of a capture, and follows those over TCP.
ghost use Rattle.std.specs.Prelude.{◌≡◌, ◌++◌, ◌⊎◌, false, List, map};
ghost use Rattle.packets.specs.Courses.{shown};
ghost use Rattle.packets.specs.Flows.{CountsFlows};
ghost use Rattle.packets.specs.Reported.{Reports};
ghost use Rattle.packets.specs.Streams.{FollowsStreams, LeavesStreams};
ghost use Rattle.packets.specs.Transfers.{transfer_of};
ghost use Rattle.packets.specs.declared.dissection.Dissection.{Dissection};
ghost use Rattle.packets.specs.declared.flows.transfer.Transfer.{Transfer};

use crate::run::progress::Progress;
use crate::run::rules::Rules;
use crate::run::visit_all::{Ending, visit_all};
use crate::run::walk::Visitor;
use crate::{Conversation, Dissection, FollowedFlows};
use captures::RunError;
use std::alloc::{AllocError, Global};
use std::hash::BuildHasher;
use std::io::Read;

/// Counts the conversations of the packets that the filter lets through, as
/// [`summarize`](crate::summarize) counts these packets, and follows those over TCP.
pub fn count_flows<R: Read + Drop, S: BuildHasher + Drop, P: Progress>(
    alloc: Global,
    state: S,
    rules: &Rules,
    flows: &mut FollowedFlows<S>,
    reader: R,
    progress: &mut P,
) -> Ending
    ensures { (reported : List Dissection)
        × Reports false rules.now (R.remaining reader) result reported
        × ((counted : List Transfer)
        → CountsFlows ⟦<Conversation as PartialEq>⟧.eq flows.old.flows counted
        → CountsFlows ⟦<Conversation as PartialEq>⟧.eq flows.new.flows
        (counted ++ map transfer_of (shown rules.now.filter reported)))
        × ((followed : List Dissection)
        → FollowsStreams ⟦<Conversation as PartialEq>⟧.eq flows.old.streams followed
        → FollowsStreams ⟦<Conversation as PartialEq>⟧.eq flows.new.streams
        (followed ++ shown rules.now.filter reported))
        × LeavesStreams ⟦<Conversation as PartialEq>⟧.eq flows.old.streams (shown rules.now.filter reported)
        result.result flows.new.streams }
{
    visit_all(alloc, state, rules, flows, reader, progress)
}

impl<S: BuildHasher> Visitor for FollowedFlows<S> {
    ghost use Rattle.packets.specs.Flows.{CountsFlows};
    ghost use Rattle.packets.specs.Streams.{FollowsStreams, TakeAndStop, TakePackets};
    ghost use Rattle.packets.specs.Transfers.{transfer_of};

    ghost writes = { false };

    // All packets that are seen are counted and followed beside those that were.
    ghost goes = { λ start now seen. ((counted : List Transfer)
        → CountsFlows ⟦<Conversation as PartialEq>⟧.eq start.flows counted
        → CountsFlows ⟦<Conversation as PartialEq>⟧.eq now.flows (counted ++ map transfer_of seen))
        × ((followed : List Dissection)
        → FollowsStreams ⟦<Conversation as PartialEq>⟧.eq start.streams followed
        → FollowsStreams ⟦<Conversation as PartialEq>⟧.eq now.streams (followed ++ seen))
        × TakePackets ⟦<Conversation as PartialEq>⟧.eq start.streams seen now.streams };

    // So they are, and then there was no memory for what a stream would hold.
    ghost fails = { λ start now seen. ((counted : List Transfer)
        → CountsFlows ⟦<Conversation as PartialEq>⟧.eq start.flows counted
        → CountsFlows ⟦<Conversation as PartialEq>⟧.eq now.flows (counted ++ map transfer_of seen))
        × ((followed : List Dissection)
        → FollowsStreams ⟦<Conversation as PartialEq>⟧.eq start.streams followed
        → FollowsStreams ⟦<Conversation as PartialEq>⟧.eq now.streams (followed ++ seen))
        × TakeAndStop ⟦<Conversation as PartialEq>⟧.eq start.streams seen now.streams };

    ghost breaks = { λ start now seen. ⊥ };

    fn visit(&mut self, packet: &Dissection<'_>) -> Result<(), AllocError> {
        self.add(packet)
    }

    fn before_packet(&mut self) -> Result<(), RunError> {
        Ok(())
    }

    fn before_read(&mut self) -> Result<(), RunError> {
        Ok(())
    }
}
