//! What a report on captures counts.
ghost use Rattle.std.specs.Prelude.{◌≡◌, ◌++◌, ◌∷◌, [], false, List, OnOk, OnErr, map};
ghost use Rattle.packets.specs.Courses.{shown};
ghost use Rattle.packets.specs.Overviews.{CountsOverview, refused_count};
ghost use Rattle.packets.specs.Reported.{Reports};
ghost use Rattle.packets.specs.Transfers.{transfer_of};
ghost use Rattle.packets.specs.declared.dissection.Dissection.{Dissection};
ghost use Rattle.packets.specs.declared.flows.transfer.Transfer.{Transfer};

use crate::run::progress::Progress;
use crate::run::rules::Rules;
use crate::run::visit_all::{Ending, visit_all};
use crate::run::walk::Visitor;
use crate::{Conversation, Dissection, Outline, Rate, Reason, Summary, Verified};
use captures::RunError;
use std::alloc::{AllocError, Global};
use std::hash::BuildHasher;
use std::io::Read;

/// What a report on captures counts: a summary, and what there is of bytes and of refused packets in
/// the spans of time of its rate.
#[derive(Drop)]
pub struct Overview<S: BuildHasher> {
    /// The summary.
    pub summary: Summary<S>,
    /// The bytes on the wire.
    pub bytes: Rate,
    /// The packets that are refused.
    pub refused: Rate,
}

impl<S: BuildHasher> Overview<S> {
    ghost use Rattle.packets.specs.Counts.{CountsAll};
    ghost use Rattle.packets.specs.Overviews.{CountsOverview};
    ghost use Rattle.packets.specs.Transfers.{transfer_of};

    /// No packet, where the summary has none.
    pub fn new(summary: Summary<S>) -> Overview<S>
        ensures { CountsAll ⟦<Reason as PartialEq>⟧.eq ⟦<Conversation as PartialEq>⟧.eq
            ⟦<Verified as PartialEq>⟧.eq summary []
            → CountsOverview ⟦<Reason as PartialEq>⟧.eq ⟦<Conversation as PartialEq>⟧.eq
            ⟦<Verified as PartialEq>⟧.eq result [] }
    {
        Overview {
            summary,
            bytes: Rate::new(),
            refused: Rate::new(),
        }
    }

    /// Counts one packet more. Where there is no memory for what is new about it, all counts stay.
    pub fn add(&mut self, dissection: &Dissection<'_>) -> Result<(), AllocError>
        ensures ok { OnOk result ((packets : List Transfer)
            → CountsOverview ⟦<Reason as PartialEq>⟧.eq ⟦<Conversation as PartialEq>⟧.eq
            ⟦<Verified as PartialEq>⟧.eq self.old packets
            → CountsOverview ⟦<Reason as PartialEq>⟧.eq ⟦<Conversation as PartialEq>⟧.eq
            ⟦<Verified as PartialEq>⟧.eq self.new (packets ++ transfer_of dissection.now ∷ [])) }
        ensures err { OnErr result ((packets : List Transfer)
            → CountsOverview ⟦<Reason as PartialEq>⟧.eq ⟦<Conversation as PartialEq>⟧.eq
            ⟦<Verified as PartialEq>⟧.eq self.old packets
            → CountsOverview ⟦<Reason as PartialEq>⟧.eq ⟦<Conversation as PartialEq>⟧.eq
            ⟦<Verified as PartialEq>⟧.eq self.new packets) }
    {
        if let Err(error) = self.summary.add(dissection) {
            return Err(error);
        }
        let packet = Outline::of(dissection);
        self.bytes.add(&packet, packet.wire_len.into());
        self.refused.add(&packet, refused_count(&packet));
        Ok(())
    }
}

fn refused_count(packet: &Outline) -> u64
    ensures { result ≡ refused_count packet.now }
{
    if packet.refusal.is_some() { 1 } else { 0 }
}

/// Counts the packets that the filter lets through, as [`summarize`](crate::summarize) counts them.
pub fn count_overview<R: Read + Drop, S: BuildHasher + Drop, P: Progress>(
    alloc: Global,
    state: S,
    rules: &Rules,
    overview: &mut Overview<S>,
    reader: R,
    progress: &mut P,
) -> Ending
    ensures { (reported : List Dissection)
        × Reports false rules.now (R.remaining reader) result reported
        × ((counted : List Transfer)
        → CountsOverview ⟦<Reason as PartialEq>⟧.eq ⟦<Conversation as PartialEq>⟧.eq
        ⟦<Verified as PartialEq>⟧.eq overview.old counted
        → CountsOverview ⟦<Reason as PartialEq>⟧.eq ⟦<Conversation as PartialEq>⟧.eq
        ⟦<Verified as PartialEq>⟧.eq overview.new
        (counted ++ map transfer_of (shown rules.now.filter reported))) }
{
    visit_all(alloc, state, rules, overview, reader, progress)
}

impl<S: BuildHasher> Visitor for Overview<S> {
    ghost use Rattle.packets.specs.Overviews.{CountsOverview};
    ghost use Rattle.packets.specs.Transfers.{transfer_of};

    ghost writes = { false };

    // All packets that are seen are counted beside those that were.
    ghost goes = { λ start now seen. (counted : List Transfer)
        → CountsOverview ⟦<Reason as PartialEq>⟧.eq ⟦<Conversation as PartialEq>⟧.eq
        ⟦<Verified as PartialEq>⟧.eq start counted
        → CountsOverview ⟦<Reason as PartialEq>⟧.eq ⟦<Conversation as PartialEq>⟧.eq
        ⟦<Verified as PartialEq>⟧.eq now (counted ++ map transfer_of seen) };

    ghost fails = { λ start now seen. ⊥ };

    ghost breaks = { λ start now seen. ⊥ };

    fn visit(&mut self, packet: &Dissection<'_>) -> Result<(), AllocError> {
        self.add(packet)
    }

    fn before_packet(&mut self) -> Result<(), RunError> {
        Ok(())
    }

    fn before_read(&mut self) -> Result<(), RunError> {
        Ok(())
    }
}
