//! What is counted of the bytes that go over the connections of a conversation.
ghost use Rattle.std.specs.Prelude.{◌≡◌, OnErr, OnOk, Some};
ghost use Rattle.packets.specs.Followed.{whole_segment};
ghost use Rattle.packets.specs.Streams.{CountsSegment, IsFresh, StreamTakes, acknowledgment_in, counter_within};
ghost use Rattle.packets.specs.Streams.{flags_in, stopped, stopped_stream, stream_size};

use crate::Dissection;
use crate::flows::streams::HELD_SIZE;
use crate::flows::tcp_packet::TcpPacket;
use crate::whole_segment::whole_segment;
use ep_tcpudp::TcpSlice;
use std::alloc::{AllocError, Global};
use tcp_streams::{ConnectionState, Direction, SegmentFlags, StreamCounter};

/// How many bytes of each direction of a stream are kept, and how many are taken after them.
pub const STREAM_WINDOW: u32 = 1 << 16;

/// The connections of a conversation over TCP, followed.
#[derive(Drop)]
pub struct Stream {
    state: ConnectionState,
    counter: StreamCounter,
}

impl Stream {
    /// No packet came.
    pub(crate) fn new(alloc: Global) -> Stream
        ensures { IsFresh result }
    {
        Stream {
            state: ConnectionState::Unseen,
            counter: StreamCounter::new(alloc, STREAM_WINDOW),
        }
    }

    /// How far the last connection came, by the flags of all its segments.
    pub fn state(&self) -> ConnectionState
        ensures { result ≡ self.now.state }
    {
        self.state
    }

    /// What is counted of its bytes.
    pub fn counter(&self) -> &StreamCounter
        ensures { result.now ≡ self.now.counter }
    {
        &self.counter
    }

    /// How much is held of it, in bytes; 16 more for each gap.
    pub(crate) fn size(&self) -> u64
        ensures { result ≡ stream_size self.now }
    {
        self.counter.size()
    }

    /// Takes a packet while so much is held of others. If more would be held than may be, it isn't
    /// followed any more.
    ///
    /// Where there is no memory for it, it isn't followed any more either, and the rest stays.
    pub(crate) fn take(
        &mut self,
        others: u64,
        packet: &Dissection<'_>,
        tcp_packet: TcpPacket,
    ) -> Result<(), AllocError>
        ensures ok { OnOk result (StreamTakes others self.old tcp_packet packet.now self.new) }
        ensures err { OnErr result (self.new ≡ stopped_stream self.old) }
    {
        count_packet(&mut self.counter, tcp_packet.direction, packet)?;
        stop_beyond(&mut self.counter, others);
        self.state = self.state.after(tcp_packet.direction, tcp_packet.control);
        Ok(())
    }
}

// Stops a counter where more would be held than may be, with what is held of others.
fn stop_beyond(counter: &mut StreamCounter, others: u64)
    ensures { counter.new ≡ counter_within others counter.old }
{
    if others.saturating_add(counter.size()) > HELD_SIZE {
        counter.stop();
    }
}

// Counts the segment of a packet, or of the message that it completes, if its IP packet is whole.
fn count_packet(
    counter: &mut StreamCounter,
    direction: Direction,
    packet: &Dissection<'_>,
) -> Result<(), AllocError>
    ensures ok { OnOk result (CountsSegment counter.old direction (whole_segment packet.now) counter.new) }
    ensures err { OnErr result (counter.new ≡ stopped counter.old) }
{
    match whole_segment(packet) {
        Some(segment) => count_segment(counter, direction, &segment),
        None => Ok(()),
    }
}

fn count_segment(
    counter: &mut StreamCounter,
    direction: Direction,
    segment: &TcpSlice<'_>,
) -> Result<(), AllocError>
    ensures ok { OnOk result (CountsSegment counter.old direction (Some segment.now) counter.new) }
    ensures err { OnErr result (counter.new ≡ stopped counter.old) }
{
    let number = segment.sequence_number();
    let acknowledgment = acknowledgment_in(segment);
    let flags = flags_in(segment);
    counter.add(direction, number, acknowledgment, flags, segment.payload())
}

fn acknowledgment_in(segment: &TcpSlice<'_>) -> Option<u32>
    ensures { result ≡ acknowledgment_in segment.now }
{
    if segment.ack() {
        Some(segment.acknowledgment_number())
    } else {
        None
    }
}

fn flags_in(segment: &TcpSlice<'_>) -> SegmentFlags
    ensures { result ≡ flags_in segment.now }
{
    SegmentFlags {
        syn: segment.syn(),
        fin: segment.fin(),
        rst: segment.rst(),
    }
}
