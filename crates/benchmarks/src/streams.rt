//! TCP streams of 1000 connections at once, each of 64 KiB from one endpoint.

use crate::measured::Measured;
use arrayvec::ArrayVec;
use std::alloc::{AllocError, Global};
use std::io;
use std::num::NonZeroUsize;
use std::time::{Duration, Instant};
use tcp_streams::{
    ConnectionState, Control, Direction, Endpoint, FlowKey, FlowPacket, Flows, SegmentFlags,
    StreamBuf,
};

const CONNECTIONS: u32 = 1000;

const SEGMENTS: u32 = 64;

const SEGMENT_LEN: usize = 1024;

const WINDOW: usize = 65_535;

// The connections that a table holds at most.
const FLOWS: usize = 4096;

/// How the segments of a connection come.
#[derive(Clone, Copy)]
pub enum Arrival {
    /// In order.
    Ordered,
    /// Each second one before the one that it follows.
    Swapped,
    /// Each eighth one after the next seven.
    Late,
    /// In order, each twice.
    Repeated,
}

impl Arrival {
    // How many segments of a connection come.
    fn count(self) -> u32 {
        match self {
            Arrival::Repeated => 2 * SEGMENTS,
            _ => SEGMENTS,
        }
    }

    // The segment that comes at this index.
    fn segment(self, index: u32) -> u32 {
        match self {
            Arrival::Ordered => index,
            Arrival::Swapped => index ^ 1,
            Arrival::Late => index / 8 * 8 + (index % 8 + 1) % 8,
            Arrival::Repeated => index / 2,
        }
    }
}

/// The connections whose streams are put together.
#[derive(Drop)]
struct Connections {
    // Of each the index of its stream.
    flows: Flows<usize>,
    streams: Vec<StreamBuf>,
    time: u64,
    sum: u64,
}

impl Connections {
    fn new(alloc: Global) -> Result<Connections, AllocError> {
        let most = NonZeroUsize::new(FLOWS).ok_or(AllocError)?;
        Ok(Connections {
            flows: Flows::new(alloc, most)?,
            streams: Vec::new(alloc),
            time: 0,
            sum: 0,
        })
    }

    // Adds a segment with ACK, or with SYN alone, and takes what becomes available with it.
    fn add(
        &mut self,
        alloc: Global,
        client: u32,
        flags: SegmentFlags,
        number: u32,
        payload: &[u8],
    ) -> Result<(), AllocError> {
        let (key, direction) = key_of(client);
        let packet = FlowPacket {
            time: self.time,
            bytes: payload.len() as u64,
            direction,
            control: Control::of_flags(flags.syn, !flags.syn, flags.fin, flags.rst),
        };
        self.time = self.time.wrapping_add(1);
        let index = match self.flows.count(&key, packet) {
            Some(index) => index,
            None => {
                let index = self.streams.len();
                self.streams.push(StreamBuf::new(alloc, WINDOW))?;
                self.flows.add(key, packet, index)?;
                index
            }
        };
        if let Some(stream) = self.streams.get_mut(index) {
            if let Ok(added) = stream.add(number, flags, payload) {
                self.sum = sum_with(self.sum, added.position, stream);
                stream.consume(usize::MAX);
            }
        }
        Ok(())
    }

    // The sum with what is known of each connection.
    fn total(&self) -> u64 {
        let mut sum = self.sum;
        for client in 0..CONNECTIONS {
            let (key, _) = key_of(client);
            if let Some(flow) = self.flows.get(&key) {
                let conflicts = match self.streams.get(flow.value) {
                    Some(stream) => stream.conflicts().count,
                    None => 0,
                };
                let packets = flow
                    .from_lower
                    .packets
                    .wrapping_add(flow.from_higher.packets);
                let bytes = flow.from_lower.bytes.wrapping_add(flow.from_higher.bytes);
                let is_closing = matches!(flow.state, ConnectionState::Closing { .. });
                sum = sum
                    .wrapping_add(packets)
                    .wrapping_add(bytes)
                    .wrapping_add(flow.last.wrapping_sub(flow.first))
                    .wrapping_add(conflicts)
                    .wrapping_add(u64::from(is_closing));
            }
        }
        sum
    }
}

fn key_of(client: u32) -> (FlowKey, Direction) {
    let [_, high, low, _] = client.to_be_bytes();
    let source = Endpoint::V4 {
        address: [10, 0, high, low],
        port: (1024 + client % 50_000) as u16,
    };
    let destination = Endpoint::V4 {
        address: [10, 1, 0, 1],
        port: 80,
    };
    FlowKey::between(ArrayVec::new(), source, destination, ())
}

fn sum_with(sum: u64, position: u64, stream: &StreamBuf) -> u64 {
    let bytes = stream.available();
    let ends = bytes.first().zip(bytes.last());
    let (first, last) = ends.map_or((0, 0), |(first, last)| (*first, *last));
    sum.wrapping_mul(31)
        .wrapping_add(position)
        .wrapping_add(bytes.len() as u64)
        .wrapping_add(u64::from(first))
        .wrapping_add(u64::from(last))
        .wrapping_add(u64::from(stream.is_finished()))
}

fn low_byte(number: u32) -> u8 {
    let [_, _, _, low] = number.to_be_bytes();
    low
}

fn initial_number(client: u32) -> u32 {
    client.wrapping_mul(0x9e37_79b9)
}

// The number of the byte at the start of a segment.
fn number_of(client: u32, segment: u32) -> u32 {
    let offset = segment.wrapping_mul(SEGMENT_LEN as u32);
    initial_number(client).wrapping_add(1).wrapping_add(offset)
}

/// Puts the streams together so many times, and returns the time of the fastest one. It has no
/// contract: the time is a measurement, and the sum is compared with that of a plain program.
pub fn measure(rt: &HostRuntime, arrival: Arrival, turns: u32) -> io::Result<Measured> {
    let mut sum = 0;
    let mut fastest = Duration::MAX;
    for _ in 0..turns {
        let start = Instant::now(rt)?;
        sum = put_together(rt.alloc(), arrival)?;
        fastest = fastest.min(start.elapsed(rt)?);
    }
    Ok(Measured { sum, fastest })
}

// All connections side by side: the SYN of each, then a segment of each, and so on.
fn put_together(alloc: Global, arrival: Arrival) -> Result<u64, AllocError> {
    let mut connections = Connections::new(alloc)?;
    let mut payload = [0; SEGMENT_LEN];
    let syn = SegmentFlags {
        syn: true,
        fin: false,
        rst: false,
    };
    let ack = SegmentFlags {
        syn: false,
        fin: false,
        rst: false,
    };
    let fin = SegmentFlags {
        syn: false,
        fin: true,
        rst: false,
    };
    for client in 0..CONNECTIONS {
        connections.add(alloc, client, syn, initial_number(client), &[])?;
    }
    for index in 0..arrival.count() {
        let segment = arrival.segment(index);
        for client in 0..CONNECTIONS {
            payload[0] = low_byte(segment);
            payload[SEGMENT_LEN - 1] = low_byte(client);
            connections.add(alloc, client, ack, number_of(client, segment), &payload)?;
        }
    }
    for client in 0..CONNECTIONS {
        connections.add(alloc, client, fin, number_of(client, SEGMENTS), &[])?;
    }
    Ok(connections.total())
}
