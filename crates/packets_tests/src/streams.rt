//! What is counted of TCP streams. The numbers are worked by hand after RFC 9293, section 3.4.

use crate::captured::{captured, dissected, first};
use crate::checks::{equal, fail, holds};
use crate::frames::FRAMES;
use packets::{CountedFlows, Dissector, FollowedFlows, Streams, Transfer};
use std::hash::{BuildHasher, BuildHasherDefault, FoldHasher};
use tcp_streams::{
    ConnectionState, Direction, Endpoint, Follower, SegmentFlags, StreamBuf, StreamCounter,
    StreamCounts,
};

const NO_FLAGS: SegmentFlags = SegmentFlags {
    syn: false,
    fin: false,
    rst: false,
};

// Five bytes, the same with another third one, and two after three that are missing.
const SENT: &[(u32, &[u8])] = &[(100, b"abcde"), (100, b"abXde"), (108, b"ij")];

const COUNTED: StreamCounts = StreamCounts {
    repeated: 5,
    gaps: 1,
    missing: 3,
    conflicts: 1,
};

// The other endpoint acknowledges all ten bytes.
#[test]
fn counts_of_a_direction(rt: HostRuntime) {
    let mut counter = StreamCounter::new(rt.alloc(), 16);
    equal(rt, counter.size(), 0);
    for (number, payload) in SENT {
        let added = counter.add(Direction::FromLower, *number, Some(500), NO_FLAGS, payload);
        holds(rt, added.is_ok());
    }
    let acknowledged = counter.add(Direction::FromHigher, 500, Some(110), NO_FLAGS, b"");
    holds(
        rt,
        acknowledged.is_ok() && counter.is_followed() && counter.size() > 0,
    );
    counter.stop();
    equal(rt, (counter.is_followed(), counter.size()), (false, 0));
    let repeated = counter.add(Direction::FromLower, 100, Some(500), NO_FLAGS, b"k");
    holds(rt, repeated.is_ok());
    equal(rt, counter.counts(Direction::FromLower), COUNTED);
    equal(
        rt,
        counter.counts(Direction::FromHigher),
        StreamCounts::NONE,
    );
}

// Six positions, between which three bytes are missing, and sixteen bytes for the gap.
#[test]
fn sizes(rt: HostRuntime) {
    let mut buf = StreamBuf::new(rt.alloc(), 16);
    holds(rt, buf.add(100, NO_FLAGS, b"ab").is_ok());
    equal(rt, buf.size(), 2);
    holds(rt, buf.add(105, NO_FLAGS, b"c").is_ok());
    equal(rt, buf.size(), 6 + 16);
    equal(rt, Follower::new(rt.alloc(), 16).size(), 0);
}

// The number of 10.0.0.1 and port 80, in six bytes.
#[test]
fn hash_of_an_endpoint(rt: HostRuntime) {
    let state: BuildHasherDefault<FoldHasher> = BuildHasherDefault::new();
    let endpoint = Endpoint::V4 {
        address: [10, 0, 0, 1],
        port: 80,
    };
    equal(
        rt,
        state.hash_one(endpoint),
        state.hash_one(0x0a00_0001_0050_u64),
    );
}

// A SYN from the lower end.
#[test]
fn streams_of_conversations(rt: HostRuntime) {
    let capture = captured(rt, rt.alloc(), 1, &FRAMES[..1]);
    let packet = first(rt, capture.as_slice());
    let mut dissector = Dissector::new(rt.alloc());
    let dissection = dissected(rt, &mut dissector, &packet);
    let Some(conversation) = Transfer::of(&dissection).conversation else {
        fail(rt, "no conversation");
    };
    let state: BuildHasherDefault<FoldHasher> = BuildHasherDefault::new();
    equal(rt, CountedFlows::new(rt.alloc()).len(), 0);
    equal(rt, CountedFlows::with_hasher(rt.alloc(), state).len(), 0);
    holds(
        rt,
        Streams::with_hasher(rt.alloc(), state)
            .get(&conversation)
            .is_none(),
    );
    let mut followed = FollowedFlows::with_hashers(rt.alloc(), state, state);
    holds(rt, followed.add(&dissection).is_ok());
    let Some(stream) = followed.streams.get(&conversation) else {
        fail(rt, "no stream");
    };
    equal(
        rt,
        stream.state(),
        ConnectionState::SynSent {
            opener: Direction::FromLower,
        },
    );
    holds(rt, stream.counter().is_followed());
    equal(
        rt,
        stream.counter().counts(Direction::FromLower),
        StreamCounts::NONE,
    );
}
