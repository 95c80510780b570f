//! Counts the packets of a capture.
ghost use Rattle.std.specs.Prelude.{◌≡◌, ◌++◌, false, List, ℕ, Option, map};
ghost use Rattle.std.specs.Io.KnownBytes.{Consumes};
ghost use Rattle.captures.specs.declared.packet.Packet.{Packet};
ghost use Rattle.etherparse.specs.OpenReassemblies.{IsOpenCount};
ghost use Rattle.packets.specs.Counts.{CountsAll};
ghost use Rattle.packets.specs.Courses.{AreDissected, course_after, no_course, shown};
ghost use Rattle.packets.specs.Transfers.{transfer_of};
ghost use Rattle.packets.specs.PacketRuns.{EndsWithin, UnlessOutOfMemory};
ghost use Rattle.packets.specs.declared.dissection.Dissection.{Dissection};
ghost use Rattle.packets.specs.declared.flows.transfer.Transfer.{Transfer};

use crate::run::progress::Progress;
use crate::run::rules::Rules;
use crate::run::visit_all::{Ending, visit_all};
use crate::run::walk::Visitor;
use crate::{Conversation, Dissection, Reason, Summary, Verified};
use captures::RunError;
use std::alloc::{AllocError, Global};
use std::hash::BuildHasher;
use std::io::Read;

/// Counts the packets that the filter lets through, up to the end of the capture, to where it is
/// refused or to a limit. The names of datagrams are hashed by this state, as in
/// [`Dissector::with_hasher`].
pub fn summarize<R: Read + Drop, S: BuildHasher + Drop, P: Progress>(
    alloc: Global,
    state: S,
    rules: &Rules,
    summary: &mut Summary<S>,
    reader: R,
    progress: &mut P,
) -> Ending
    ensures { (read : List ℕ) × (left : Option (List ℕ)) × (given : List Packet)
        × (reported : List Dissection) × Consumes (R.remaining reader) left read
        × EndsWithin false rules.now result.skipped left read given result.result
        × AreDissected rules.now.checksums rules.now.forget (no_course rules.now.reassembly_memory) given reported
        × ((counted : List Transfer)
        → CountsAll ⟦<Reason as PartialEq>⟧.eq ⟦<Conversation as PartialEq>⟧.eq
        ⟦<Verified as PartialEq>⟧.eq summary.old counted
        → CountsAll ⟦<Reason as PartialEq>⟧.eq ⟦<Conversation as PartialEq>⟧.eq
        ⟦<Verified as PartialEq>⟧.eq summary.new
        (counted ++ map transfer_of (shown rules.now.filter reported)))
        × UnlessOutOfMemory result.result
        (IsOpenCount (course_after rules.now.forget (no_course rules.now.reassembly_memory) given).lists result.open)
        × (result.dropped
        ≡ (course_after rules.now.forget (no_course rules.now.reassembly_memory) given).dropped) }
{
    visit_all(alloc, state, rules, summary, reader, progress)
}

impl<S: BuildHasher> Visitor for Summary<S> {
    ghost use Rattle.packets.specs.Counts.{CountsAll};
    ghost use Rattle.packets.specs.Transfers.{transfer_of};

    ghost writes = { false };

    // All packets that are seen are counted beside those that were.
    ghost goes = { λ start now seen. (counted : List Transfer)
        → CountsAll ⟦<Reason as PartialEq>⟧.eq ⟦<Conversation as PartialEq>⟧.eq
        ⟦<Verified as PartialEq>⟧.eq start counted
        → CountsAll ⟦<Reason as PartialEq>⟧.eq ⟦<Conversation as PartialEq>⟧.eq
        ⟦<Verified as PartialEq>⟧.eq now
        (counted ++ map transfer_of seen) };

    ghost fails = { λ start now seen. ⊥ };

    ghost breaks = { λ start now seen. ⊥ };

    fn visit(&mut self, packet: &Dissection<'_>) -> Result<(), AllocError> {
        self.add(packet)
    }

    fn before_packet(&mut self) -> Result<(), RunError> {
        Ok(())
    }

    fn before_read(&mut self) -> Result<(), RunError> {
        Ok(())
    }
}
