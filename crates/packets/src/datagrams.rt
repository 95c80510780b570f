//! The reassembly of datagrams from their fragments.
ghost use Rattle.std.specs.Prelude.{◌≡◌, ◌<◌, ℕ, true, [], length, None, Some, IsSomeAnd, Ok, IfOk, Option, option_map, nat_eq, nat_le};
ghost use Rattle.etherparse.specs.IpDefragPool.{same_id};
ghost use Rattle.etherparse.specs.declared.defrag.ip_frag_id.IpFragId.{IpFragId};
ghost use Rattle.etherparse.specs.ReassemblyTable.{Retained, reassembly_at};
ghost use Rattle.etherparse.specs.OpenReassemblies.{IsOpenCount};
ghost use Rattle.etherparse.specs.PoolCalls.{Lists, fault_in, no_lists, retained_from, as_call_result};
ghost use Rattle.ep_packet.specs.Class.{IdentificationFits, as_class, sliced_class, packet_parsed};
ghost use Rattle.ep_packet.specs.Readable.{message_at};
ghost use Rattle.ep_packet.specs.declared.class.Class.TheVariants as class;
ghost use Rattle.packets.specs.Started.{AnswersStarted, BeganIn, Started, ShowsStarted, ShowsFragments, none_started};
ghost use Rattle.packets.specs.Started.{received_with};
ghost use Rattle.packets.specs.ReassemblyMemory.{AnswersOrder, DropsOldest, KeepsWithin, Order, ShowsOrder, beside_bytes, taken};
ghost use Rattle.packets.specs.ReassemblyMemory.{order_of_waiting};
ghost use Rattle.etherparse.specs.Starts.{names_there};
ghost use Rattle.packets.specs.Dissected.{Answers, IsFound, completed_verdict, found_reported, fragment_result};
ghost use Rattle.packets.specs.Dissected.{is_out_of_memory, result_if_found, verdict_if_read, verdict_on};

use crate::Fragment;
use crate::verification::Verification;
use checksum_verdicts::Verdict;
use ep_packet::err::packet::SliceError;
use ep_packet::{Addresses, Class, IpFragment, SlicedPacket, read_message};
use etherparse::defrag::{IpDefragError, IpDefragPayloadVec, IpDefragPool};
use etherparse::laws::defrag::names::equal_names;
use etherparse::laws::defrag::reassemblies::{
    a_new_pool_shows_no_lists, memory_errors_are_reported, open_reassemblies_are_counted,
    packets_are_answered,
};
use etherparse::laws::defrag::timestamps::{
    processed_packets_are_read, read_pools_have_as_many_reassemblies, retained_lists_are_read,
    timestamps_are_read,
};
use std::alloc::{AllocError, Global};
use std::hash::{BuildHasher, BuildHasherDefault, FoldHasher};

// What a datagram that is not complete takes beside its bytes, about.
const BESIDE_BYTES: u128 = 640;

/// The reassemblies.
#[derive(Drop)]
pub(crate) struct Datagrams<S: BuildHasher = BuildHasherDefault<FoldHasher>> {
    pub pool: IpDefragPool<Received, u32, S>,
}

/// Of a reassembly, the number of the packet whose fragment came first, and when the fragment came
/// that was accepted last.
#[derive(Clone, Copy)]
pub(crate) struct Received {
    pub first: u64,
    pub last: u64,
}

/// The number of a packet, and when and where it came.
#[derive(Clone, Copy)]
pub(crate) struct Arrival {
    pub number: u64,
    pub time: u64,
    pub interface: u32,
}

impl Arrival {
    // What is kept of a datagram with a fragment in this packet.
    fn received(self, before: Option<Received>) -> Received
        ensures { result ≡ received_with self.number self.time before }
    {
        Received {
            first: first_in(before).unwrap_or(self.number),
            last: self.time,
        }
    }
}

fn first_in(received: Option<Received>) -> Option<u64>
    ensures { result ≡ option_map (λ received. received.first) received }
{
    match received {
        Some(received) => Some(received.first),
        None => None,
    }
}

/// What is found in a packet, beside its headers.
#[derive(Drop)]
pub(crate) struct Finding {
    pub fragment: Option<Fragment>,
    pub verdict: Option<Verdict>,
}

impl Finding {
    pub(crate) fn nothing() -> Finding
        ensures fragment { result.fragment ≡ None }
        ensures verdict { result.verdict ≡ None }
    {
        Finding {
            fragment: None,
            verdict: None,
        }
    }

    fn of_fragment(fragment: Fragment, verdict: Option<Verdict>) -> Finding
        ensures fragment { result.fragment ≡ Some fragment }
        ensures verdict { result.verdict ≡ verdict }
    {
        Finding {
            fragment: Some(fragment),
            verdict,
        }
    }
}

impl<S: BuildHasher> Datagrams<S> {
    /// No fragment waits. The names of datagrams are hashed by this state. It takes no memory.
    pub(crate) fn with_hasher(alloc: Global, state: S) -> Datagrams<S>
        ensures lists { ShowsFragments result no_lists }
        ensures started { ShowsStarted result none_started }
        ensures order { ShowsOrder result [] }
    {
        a_new_pool_shows_no_lists();
        Datagrams {
            pool: IpDefragPool::with_hasher(alloc, state),
        }
    }

    /// Takes a packet with these headers. It gives the verdict on its checksum, verified so, and, if
    /// it is a fragment, what became of it. Where there is no memory for a fragment, the reassemblies are
    /// as they were.
    pub(crate) fn take(
        &mut self,
        layers: &Result<SlicedPacket<'_>, SliceError>,
        verification: Verification,
        arrival: Arrival,
    ) -> Result<Finding, AllocError>
        ensures answers { Answers self.old self.new (sliced_class layers.now)
            arrival.time arrival.interface (fault_in layers.now)
            (result_if_found layers.now result) }
        ensures started { AnswersStarted self.old self.new (sliced_class layers.now)
            arrival.interface arrival.number result }
        ensures order { AnswersOrder self.old self.new (sliced_class layers.now)
            arrival.time arrival.interface result }
        ensures verdict { IfOk result (λ finding. finding.verdict
            ≡ verdict_on verification (sliced_class layers.now) (fragment_result finding.fragment)) }
    {
        match layers {
            Ok(layers) => self.take_packet(layers, verification, arrival),
            Err(_) => Ok(Finding::nothing()),
        }
    }

    fn take_packet(
        &mut self,
        layers: &SlicedPacket<'_>,
        verification: Verification,
        arrival: Arrival,
    ) -> Result<Finding, AllocError>
        ensures answers { Answers self.old self.new (packet_parsed layers.now)
            arrival.time arrival.interface None (result_if_found (Ok layers.now) result) }
        ensures started { AnswersStarted self.old self.new (packet_parsed layers.now)
            arrival.interface arrival.number result }
        ensures order { AnswersOrder self.old self.new (packet_parsed layers.now)
            arrival.time arrival.interface result }
        ensures verdict { IfOk result (λ finding. finding.verdict
            ≡ verdict_on verification (packet_parsed layers.now) (fragment_result finding.fragment)) }
    {
        match layers.class() {
            Class::Whole(message) => Ok(Finding {
                fragment: None,
                verdict: verification.judge(&message.addresses, &message.message),
            }),
            Class::Cut(message) => self.take_fragment(message, verification, arrival),
            Class::Other => Ok(Finding::nothing()),
            Class::Refused => Ok(Finding::nothing()),
        }
    }

    // Takes a fragment.
    fn take_fragment(
        &mut self,
        message: IpFragment<'_>,
        verification: Verification,
        arrival: Arrival,
    ) -> Result<Finding, AllocError>
        requires { IdentificationFits message.addresses message.identification }
        ensures answers { Answers self.old self.new (as_class (class.Cut message.entry))
            arrival.time arrival.interface None (found_reported result) }
        ensures started { AnswersStarted self.old self.new (as_class (class.Cut message.entry))
            arrival.interface arrival.number result }
        ensures order { AnswersOrder self.old self.new (as_class (class.Cut message.entry))
            arrival.time arrival.interface result }
        ensures verdict { IfOk result (λ finding. finding.verdict
            ≡ verdict_on verification (as_class (class.Cut message.entry))
            (fragment_result finding.fragment)) }
    {
        equal_names::<u32>();
        packets_are_answered();
        processed_packets_are_read::<Received>();
        timestamps_are_read::<Received>();
        memory_errors_are_reported();
        let addresses = message.addresses;
        let (before, outcome) = self.pool.process_fragment_with(
            message,
            |before: Option<Received>| arrival.received(before),
            arrival.interface,
        );
        let known = first_in(before);
        let verdict = completed_verdict(verification, &addresses, &outcome);
        found_in(verdict, known, known.unwrap_or(arrival.number), outcome)
    }

    /// How many datagrams are not complete.
    pub(crate) fn len(&self) -> usize
        ensures { (lists : Lists) → ShowsFragments self.now lists → IsOpenCount lists result }
    {
        open_reassemblies_are_counted();
        read_pools_have_as_many_reassemblies::<Received>();
        self.pool.open_len()
    }

    /// Drops the reassemblies whose last fragment came before this time.
    pub(crate) fn forget_before(&mut self, time: u64)
        ensures lists { (lists : Lists) → ShowsFragments self.old lists
            → ShowsFragments self.new (λ name channel. retained_from time (lists name channel)) }
        ensures started { (started : Started) → ShowsStarted self.old started → ShowsStarted self.new started }
        ensures order { (lists : Lists) (order : Order) → ShowsFragments self.old lists
            → ShowsOrder self.old order → ShowsOrder self.new
            (order_of_waiting (λ name channel. retained_from time (lists name channel)) order) }
    {
        retained_lists_are_read::<Received>();
        timestamps_are_read::<Received>();
        keep_from(&mut self.pool, time);
        self.pool.free_spare();
    }

    /// Drops the datagrams that started first until the others take no more than so many bytes, and
    /// returns how many.
    pub(crate) fn keep_within(&mut self, limit: u64) -> u64
        ensures { (lists : Lists) (order : Order) → ShowsFragments self.old lists
            → ShowsOrder self.old order → KeepsWithin self.old self.new limit result lists order }
    {
        let mut dropped: u64 = 0;
        'above: while self.taken() > u128::from(limit) {
            if !self.drop_oldest() {
                return dropped;
            }
            dropped = dropped.saturating_add(1);
        }
        dropped
    }

    /// Frees the buffers of datagrams that ended. One may be large, and would be taken for a small
    /// datagram.
    pub(crate) fn free_spare(&mut self)
        ensures freed { (self.new.pool.spare ≡ 0) × (self.new.pool.spare_sections ≡ 0) }
        ensures lists { (lists : Lists) → ShowsFragments self.old lists → ShowsFragments self.new lists }
        ensures started { (started : Started) → ShowsStarted self.old started → ShowsStarted self.new started }
        ensures order { (order : Order) → ShowsOrder self.old order → ShowsOrder self.new order }
    {
        self.pool.free_spare();
    }

    // How many bytes the datagrams that are not complete take.
    fn taken(&self) -> u128
        ensures { (lists : Lists) (order : Order) → ShowsFragments self.now lists
            → ShowsOrder self.now order → result ≡ taken lists order }
    {
        timestamps_are_read::<Received>();
        self.pool.open_bytes() as u128 + BESIDE_BYTES * self.pool.open_len() as u128
    }

    // Drops the datagram that started first, if there is one.
    fn drop_oldest(&mut self) -> bool
        ensures dropped { (lists : Lists) (order : Order) → ShowsFragments self.old lists
            → ShowsOrder self.old order → DropsOldest self.old self.new lists order result }
        ensures fewer { result ≡ true → length self.new.pool.starts < length self.old.pool.starts }
    {
        equal_names::<u32>();
        timestamps_are_read::<Received>();
        let Some(_) = self.pool.forget_oldest() else {
            return false;
        };
        // A spare buffer may be large, and would be taken for a small datagram.
        self.pool.free_spare();
        true
    }
}

// Keeps the reassemblies of which a fragment came at this time or later.
fn keep_from<S: BuildHasher>(pool: &mut IpDefragPool<Received, u32, S>, time: u64)
    ensures retained { (id : IpFragId ℕ) → Retained (λ received stays. stays ≡ nat_le time received.last)
        (reassembly_at (same_id nat_eq) pool.old id) (reassembly_at (same_id nat_eq) pool.new id) }
    ensures starts { pool.new.starts ≡ names_there (same_id nat_eq) pool.new pool.old.starts }
{
    // To drop reassemblies takes no memory.
    let _ = pool.retain(
        |received: &Received| -> bool
            ensures { result ≡ nat_le time received.now.last }
        { received.last >= time },
    );
}

// The verdict on the checksum of the message that a fragment completes, if it does and the message
// can be read.
fn completed_verdict(
    verification: Verification,
    header: &Addresses,
    outcome: &Result<Option<IpDefragPayloadVec>, IpDefragError>,
) -> Option<Verdict>
    ensures { result ≡ completed_verdict verification header.now (as_call_result outcome.now) }
{
    match outcome {
        Ok(Some(message)) => verdict_of_whole(verification, header, message),
        _ => None,
    }
}

// What is found in a fragment, by what became of it: its datagram is known to have started in a
// packet, and otherwise starts in this one.
fn found_in(
    verdict: Option<Verdict>,
    known: Option<u64>,
    started: u64,
    outcome: Result<Option<IpDefragPayloadVec>, IpDefragError>,
) -> Result<Finding, AllocError>
    ensures reported { IsFound (as_call_result outcome) result }
    ensures started { IfOk result (λ finding. IsSomeAnd finding.fragment (BeganIn known started)) }
    ensures verdict { IfOk result (λ finding. finding.verdict ≡ verdict) }
{
    match outcome {
        Ok(None) => Ok(Finding::of_fragment(Fragment::Waits { started }, verdict)),
        Ok(Some(message)) => Ok(Finding::of_fragment(
            Fragment::Completes { started, message },
            verdict,
        )),
        Err(error) => {
            if is_out_of_memory(&error) {
                return Err(AllocError);
            }
            let fragment = Fragment::Refused {
                started: known,
                error,
            };
            Ok(Finding::of_fragment(fragment, verdict))
        }
    }
}

// Whether there was no memory for a fragment.
fn is_out_of_memory(error: &IpDefragError) -> bool
    ensures { result ≡ is_out_of_memory error.now }
{
    match error {
        IpDefragError::AllocationFailure { .. } => true,
        IpDefragError::UnalignedFragmentPayloadLen { .. } => false,
        IpDefragError::SegmentTooBig { .. } => false,
        IpDefragError::ConflictingEnd { .. } => false,
        IpDefragError::OverlappingFragment { .. } => false,
    }
}

// The verdict on the checksum of a reassembled message, if it can be read.
fn verdict_of_whole(
    verification: Verification,
    header: &Addresses,
    message: &IpDefragPayloadVec,
) -> Option<Verdict>
    ensures { result ≡ verdict_if_read verification header.now
        (message_at message.now.ip_number.0 message.now.payload.items) }
{
    match read_message(message.ip_number, message.payload.as_slice()) {
        Ok(message) => verification.judge(header, &message),
        Err(_) => None,
    }
}
