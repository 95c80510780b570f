//! Lists of calls of a pool.

ghost use Rattle.std.specs.Prelude.{◌≡◌, ◌≤◌, ◌+◌, ℕ, Option, map, OnErr, IfOk, vec_len, length};
ghost use Rattle.std.specs.List.{AllByRecursion};
ghost use Rattle.ep_packet.specs.Class.{class_of, packet_parsed};
ghost use Rattle.ep_packet.specs.Class.Class.{Refused};
ghost use Rattle.ep_packet.specs.Sliced.{sliced_ethernet};
ghost use Rattle.ep_packet.specs.declared.err.packet.slice_error.SliceError.{SliceError};
ghost use Rattle.etherparse.specs.Counts.{Bounded, open_in};
ghost use Rattle.etherparse.specs.JoinedCalls.{AreAccepted, JoinAnswers};
ghost use Rattle.etherparse.specs.OpenReassemblies.{NeverMore};
ghost use Rattle.etherparse.specs.PoolCalls.{Answered, FrameAnswered, HasMemory, Lists, CallsAnswered, ShowsLists};
ghost use Rattle.etherparse.specs.PoolCalls.{answers, fault_in, lists_after, retained_from, answer_result};
ghost use Rattle.etherparse.specs.PoolCalls.{as_call_result};
ghost use Rattle.etherparse.specs.PoolCalls.CallResult.{Retained};

use super::{IpDefragError, IpDefragPayloadVec, IpDefragPool};
use crate::laws::defrag::reassemblies::{open_reassemblies_are_counted, packets_are_answered};
use ep_packet::SlicedPacket;
use ep_packet::err::packet::SliceError;
use std::alloc::{AllocError, Global};
use std::hash::BuildHasher;

/// What is requested of a pool.
#[derive(Clone, Copy, Debug, PartialEq, Eq)]
pub enum PoolCall<'a> {
    /// An Ethernet II frame came.
    Frame {
        /// Its bytes.
        frame: &'a [u8],
        /// When it came.
        timestamp: u64,
        /// The channel on which it came.
        channel: u32,
    },
    /// The reassemblies whose last fragment came before this time are dropped.
    RetainFrom(u64),
}

/// What a pool answers to a call.
#[derive(Debug, PartialEq, Eq, Drop)]
pub enum PoolAnswer {
    /// The frame is no fragment, or its datagram isn't complete yet.
    Nothing,
    /// The fragment completed this datagram.
    Payload(IpDefragPayloadVec),
    /// The fragment was refused.
    Refused(IpDefragError),
    /// The frame breaks its format.
    NotSliced(SliceError),
    /// The other reassemblies stay.
    Retained,
    /// No memory was left to drop reassemblies. All of them stay. No call answers it yet, since to
    /// drop reassemblies takes no memory.
    NoMemory,
}

// Answers one call.
fn answer<S: BuildHasher>(pool: &mut IpDefragPool<u64, u32, S>, call: &PoolCall<'_>) -> PoolAnswer
    ensures answered { (lists : Lists) → ShowsLists pool.old lists
        → Answered (ShowsLists pool.new) lists call.now (answer_result result) }
    ensures bound { Bounded pool.old pool.new }
{
    match call {
        PoolCall::Frame {
            frame,
            timestamp,
            channel,
        } => answer_frame(pool, frame, *timestamp, *channel),
        PoolCall::RetainFrom(from) => retain_from(pool, *from),
    }
}

fn answer_frame<S: BuildHasher>(
    pool: &mut IpDefragPool<u64, u32, S>,
    frame: &[u8],
    timestamp: u64,
    channel: u32,
) -> PoolAnswer
    ensures answered { (lists : Lists) → ShowsLists pool.old lists
        → FrameAnswered (ShowsLists pool.new) lists (class_of frame.now) timestamp channel
        (fault_in (sliced_ethernet frame.now)) (answer_result result) }
    ensures bound { Bounded pool.old pool.new }
{
    match SlicedPacket::from_ethernet(frame) {
        Ok(packet) => answer_packet(pool, &packet, timestamp, channel),
        Err(error) => PoolAnswer::NotSliced(error),
    }
}

fn answer_packet<S: BuildHasher>(
    pool: &mut IpDefragPool<u64, u32, S>,
    packet: &SlicedPacket<'_>,
    timestamp: u64,
    channel: u32,
) -> PoolAnswer
    requires { packet_parsed packet.now ≡ Refused → ⊥ }
    ensures answered { (fault : Option SliceError) (lists : Lists) → ShowsLists pool.old lists
        → FrameAnswered (ShowsLists pool.new) lists
        (packet_parsed packet.now) timestamp channel fault (answer_result result) }
    ensures bound { Bounded pool.old pool.new }
{
    packets_are_answered();
    answer_of(pool.process_sliced_packet(packet, timestamp, channel))
}

// The answer that reports what became of a packet.
fn answer_of(outcome: Result<Option<IpDefragPayloadVec>, IpDefragError>) -> PoolAnswer
    ensures { answer_result result ≡ as_call_result outcome }
{
    match outcome {
        Ok(Some(payload)) => PoolAnswer::Payload(payload),
        Ok(None) => PoolAnswer::Nothing,
        Err(error) => PoolAnswer::Refused(error),
    }
}

fn retain_from<S: BuildHasher>(pool: &mut IpDefragPool<u64, u32, S>, from: u64) -> PoolAnswer
    ensures reported { answer_result result ≡ Retained }
    ensures lists { (lists : Lists) → ShowsLists pool.old lists
        → ShowsLists pool.new (λ name channel. retained_from from (lists name channel)) }
    ensures bound { Bounded pool.old pool.new }
{
    match pool.retain(|timestamp: &u64| *timestamp >= from) {
        Ok(()) => PoolAnswer::Retained,
        Err(_) => PoolAnswer::NoMemory,
    }
}

/// Answers calls in turn, over a pool with any hasher's state. The answers have their capacity
/// first, so that an error changes nothing.
pub fn run_calls<S: BuildHasher>(
    alloc: Global,
    pool: &mut IpDefragPool<u64, u32, S>,
    calls: &[PoolCall<'_>],
) -> Result<Vec<PoolAnswer>, AllocError>
    // Each answer is that of its name's own list of fragments; or it reports out of memory, to a
    // fragment that isn't refused, and then its call changed nothing.
    ensures pool_answers { IfOk result (λ pool_answers. (lists : Lists) → ShowsLists pool.old lists
        → CallsAnswered (ShowsLists pool.new) lists calls.now (map answer_result pool_answers.items)) }
    // Where none reports it, they are the answers with enough memory.
    ensures reported { IfOk result (λ pool_answers. (lists : Lists) → ShowsLists pool.old lists
        → AllByRecursion HasMemory (map answer_result pool_answers.items)
        → map answer_result pool_answers.items ≡ answers lists calls.now) }
    // Over IPv6 each datagram is joined from accepted fragments, no two of which cover the same
    // offset.
    ensures joined { IfOk result (λ pool_answers. (lists : Lists) → ShowsLists pool.old lists
        → AreAccepted lists → JoinAnswers lists calls.now (map answer_result pool_answers.items)) }
    ensures lists { IfOk result (λ pool_answers. (lists : Lists) → ShowsLists pool.old lists
        → AllByRecursion HasMemory (map answer_result pool_answers.items)
        → ShowsLists pool.new (lists_after lists calls.now)) }
    // Nor are there more reassemblies and spare buffers than there were, or than reassemblies at
    // once.
    ensures bound { IfOk result (λ pool_answers. (lists : Lists) (most : ℕ) → ShowsLists pool.old lists
        → AllByRecursion HasMemory (map answer_result pool_answers.items)
        → open_in pool.old + pool.old.spare ≤ most → NeverMore lists calls.now most
        → open_in pool.new + pool.new.spare ≤ most) }
    ensures len { IfOk result (λ pool_answers. vec_len pool_answers ≡ length calls.now) }
    ensures err { OnErr result (pool.new ≡ pool.old) }
{
    open_reassemblies_are_counted();
    let mut pool_answers = Vec::with_capacity(alloc, calls.len())?;
    for call in calls {
        let pool_answer = answer(pool, call);
        // No effect at run time. The proof reads here that no name is there twice.
        let _ = pool.open_len();
        pool_answers.push(pool_answer).unwrap();
    }
    Ok(pool_answers)
}
