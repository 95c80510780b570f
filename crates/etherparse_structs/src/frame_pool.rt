//! A pool of reassemblies, and one message that is complete.
ghost use Rattle.std.specs.Prelude.{◌≡◌, Option, Some, None, IsSome, length};
ghost use Rattle.etherparse.specs.IpDefragPool.{payload_parsed};
ghost use Rattle.etherparse.specs.PoolCalls.{FrameAnswered, Lists, ShowsLists, fault_in, retained_from, as_call_result};
ghost use Rattle.etherparse.specs.OpenReassemblies.{IsOpenCount};
ghost use Rattle.etherparse.specs.packet.Class.{IdentificationFits, as_class, packet_parsed, sliced_class};
ghost use Rattle.etherparse.specs.packet.Class.Class.{Refused as Faulty};
ghost use Rattle.etherparse.specs.packet.declared.class.Class.TheVariants as class;
ghost use Rattle.etherparse.specs.packet.declared.err.packet.slice_error.SliceError.{SliceError as Fault};
ghost use Rattle.etherparse_structs.specs.FramePool.{HasAddresses, IsAnswered, Kept, added, call_result_of};
ghost use Rattle.etherparse_structs.specs.FramePool.{addresses_in, completed, kept_of, kept_of_message, written};

use crate::message::message_of;
use crate::{COMPLETED, DONE, EpAdded, NO_ROOM, WRONG_STATE};
use etherparse::defrag::{IpDefragError, IpDefragPayloadVec, IpDefragPool};
use etherparse::err::packet::SliceError;
use etherparse::laws::defrag::reassemblies::{
    open_reassemblies_are_counted, packets_are_answered, spare_buffers_show_nothing,
};
use etherparse::{Addresses, Class, IpFragment, SlicedPacket};

/// The reassemblies, and one message that is complete and wasn't returned.
#[derive(Drop)]
pub struct FramePool {
    /// The reassemblies.
    pub pool: IpDefragPool<u64, u32>,
    /// The message that is complete.
    pub kept: Option<Completed>,
}

/// A message that is complete.
#[derive(Drop)]
pub struct Completed {
    /// Where it came from and went to.
    pub addresses: Addresses,
    /// Its number and its bytes.
    pub payload: IpDefragPayloadVec,
}

/// What became of a frame.
#[derive(Drop)]
pub enum Added {
    /// It is no fragment, or its datagram waits for others.
    Nothing,
    /// It is the last fragment of this message that was missing.
    Completed(Completed),
    /// It is a fragment that is refused.
    Refused(IpDefragError),
    /// It is refused.
    NotSliced(SliceError),
}

impl FramePool {
    /// Takes a frame that was sliced, which came at this time on this channel, and writes the message
    /// that is complete with it, unless the output is too short. While a message is kept, no frame
    /// is taken.
    pub(crate) fn take_frame(
        &mut self,
        sliced: Result<SlicedPacket<'_>, SliceError>,
        time: u64,
        channel: u32,
        output: &mut [u8],
    ) -> EpAdded
        ensures answered { self.old.kept ≡ None → (lists : Lists) → ShowsLists self.old.pool lists
            → IsAnswered
            (λ next kept. ShowsLists self.new.pool next × (kept_of_message self.new.kept ≡ kept)) lists
            (sliced_class sliced.entry) time channel (fault_in sliced.entry)
            output.old output.new result }
        ensures keeps { IsSome self.old.kept
            → (self.new ≡ self.old) × (result ≡ added 4) × (output.new ≡ output.old) }
    {
        if self.kept.is_some() {
            return EpAdded::of(WRONG_STATE);
        }
        match add(&mut self.pool, sliced, time, channel) {
            Added::Nothing => EpAdded::of(DONE),
            Added::Completed(message) => self.copy_out(message, output),
            Added::Refused(error) => EpAdded::fragment_refused(&error),
            Added::NotSliced(error) => EpAdded::frame_refused(error),
        }
    }

    /// Writes the message that is kept, unless the output is too short.
    pub(crate) fn take_kept(&mut self, output: &mut [u8]) -> EpAdded
        ensures taken { (kept : Kept) → kept_of_message self.old.kept ≡ Some kept
            → (kept_of_message self.new.kept ≡ kept_of (length output.old) (Some kept.0) kept.1)
            × (result ≡ completed (length output.old) kept.0 kept.1)
            × (output.new ≡ written output.old kept.1) }
        ensures none { self.old.kept ≡ None
            → (self.new.kept ≡ None) × (result ≡ added 4) × (output.new ≡ output.old) }
        ensures lists { (lists : Lists) → ShowsLists self.old.pool lists
            → ShowsLists self.new.pool lists }
    {
        match self.kept.take() {
            Some(message) => self.copy_out(message, output),
            None => EpAdded::of(WRONG_STATE),
        }
    }

    /// Drops the reassemblies whose last fragment came before this time.
    pub(crate) fn forget_before(&mut self, time: u64)
        ensures lists { (lists : Lists) → ShowsLists self.old.pool lists
            → ShowsLists self.new.pool (λ name channel. retained_from time (lists name channel)) }
        ensures kept { self.new.kept ≡ self.old.kept }
    {
        // To drop reassemblies takes no memory.
        let _ = self.pool.retain(|last: &u64| *last >= time);
    }

    /// How many datagrams are not complete.
    pub(crate) fn open_len(&self) -> usize
        ensures { (lists : Lists) → ShowsLists self.now.pool lists → IsOpenCount lists result }
    {
        open_reassemblies_are_counted();
        self.pool.open_len()
    }

    // Writes a message that is complete, or keeps it where the output is too short.
    fn copy_out(&mut self, message: Completed, output: &mut [u8]) -> EpAdded
        requires { self.old.kept ≡ None }
        ensures reported { result ≡ completed (length output.old) message.addresses
            (payload_parsed message.payload) }
        ensures kept { kept_of_message self.new.kept ≡ kept_of (length output.old)
            (Some message.addresses) (payload_parsed message.payload) }
        ensures output { output.new ≡ written output.old (payload_parsed message.payload) }
        ensures lists { (lists : Lists) → ShowsLists self.old.pool lists
            → ShowsLists self.new.pool lists }
    {
        spare_buffers_show_nothing();
        let reported = message_of(&message.addresses, &message.payload);
        let len = message.payload.payload.len();
        if output.len() < len {
            self.kept = Some(message);
            return EpAdded {
                message: reported,
                ..EpAdded::of(NO_ROOM)
            };
        }
        output[..len].copy_from_slice(message.payload.payload.as_slice());
        // A buffer for which there is no free slot is dropped.
        drop(self.pool.return_buf(message.payload));
        EpAdded {
            message: reported,
            ..EpAdded::of(COMPLETED)
        }
    }
}

// Takes a frame that was sliced, which came at this time on this channel.
fn add(
    pool: &mut IpDefragPool<u64, u32>,
    sliced: Result<SlicedPacket<'_>, SliceError>,
    time: u64,
    channel: u32,
) -> Added
    ensures reported { (lists : Lists) → ShowsLists pool.old lists
        → FrameAnswered (ShowsLists pool.new) lists (sliced_class sliced.entry) time channel
        (fault_in sliced.entry) (call_result_of result) }
    ensures addresses { HasAddresses (addresses_in (sliced_class sliced.entry)) result }
{
    match sliced {
        Ok(packet) => add_packet(pool, &packet, time, channel),
        Err(error) => Added::NotSliced(error),
    }
}

fn add_packet(
    pool: &mut IpDefragPool<u64, u32>,
    packet: &SlicedPacket<'_>,
    time: u64,
    channel: u32,
) -> Added
    requires { packet_parsed packet.now ≡ Faulty → ⊥ }
    ensures reported { (fault : Option Fault) (lists : Lists) → ShowsLists pool.old lists
        → FrameAnswered (ShowsLists pool.new) lists (packet_parsed packet.now) time channel fault
        (call_result_of result) }
    ensures addresses { HasAddresses (addresses_in (packet_parsed packet.now)) result }
{
    match packet.class() {
        Class::Cut(message) => add_fragment(pool, message, time, channel),
        Class::Whole(_) => Added::Nothing,
        Class::Other => Added::Nothing,
        Class::Refused => Added::Nothing,
    }
}

fn add_fragment(
    pool: &mut IpDefragPool<u64, u32>,
    message: IpFragment<'_>,
    time: u64,
    channel: u32,
) -> Added
    requires { IdentificationFits message.addresses message.identification }
    ensures reported { (fault : Option Fault) (lists : Lists) → ShowsLists pool.old lists
        → FrameAnswered (ShowsLists pool.new) lists (as_class (class.Cut message.entry)) time
        channel fault (call_result_of result) }
    ensures addresses { HasAddresses (Some message.entry.addresses) result }
{
    packets_are_answered();
    let addresses = message.addresses;
    outcome_of(addresses, pool.process_fragment(message, time, channel))
}

// What became of a fragment between these addresses.
fn outcome_of(
    addresses: Addresses,
    outcome: Result<Option<IpDefragPayloadVec>, IpDefragError>,
) -> Added
    ensures reported { call_result_of result ≡ as_call_result outcome }
    ensures addresses { HasAddresses (Some addresses) result }
{
    match outcome {
        Ok(Some(payload)) => Added::Completed(Completed { addresses, payload }),
        Ok(None) => Added::Nothing,
        Err(error) => Added::Refused(error),
    }
}
