//! Timestamps that are made of earlier ones: that of the fragment which came first, by which RFC
//! 8200, section 4.5, gives a datagram up.

use crate::checks::{equal, fail};
use crate::defrag::frames::{AFTER, FIRST, IPV6_FIRST, SECOND};
use crate::defrag::pool_overlaps::IPV6_OTHER_BYTES;
use ep_packet::{Class, SlicedPacket};
use etherparse::defrag::{IpDefragError, IpDefragPayloadVec, IpDefragPool};
use std::process::Abort;
use std::test::*;

#[derive(Clone, Copy, Debug, PartialEq, Eq)]
enum Outcome {
    Waits,
    Completes,
    Refused,
}

use Outcome::{Completes, Refused, Waits};

fn outcome_of(processed: &Result<Option<IpDefragPayloadVec>, IpDefragError>) -> Outcome {
    match processed {
        Ok(None) => Waits,
        Ok(Some(_)) => Completes,
        Err(_) => Refused,
    }
}

// The answer to a frame that came now, and when the first fragment of its datagram had come. Each
// reassembly keeps the time of that one.
fn process(
    rt: impl Abort + Copy,
    pool: &mut IpDefragPool<u64, u32>,
    frame: &[u8],
    now: u64,
    channel: u32,
) -> (Option<u64>, Outcome) {
    let Ok(packet) = SlicedPacket::from_ethernet(frame) else {
        fail(rt, "a frame isn't sliced");
    };
    let (before, result) = pool.process_sliced_packet_with(
        &packet,
        |first| first.unwrap_or(now),
        channel,
    );
    (before, outcome_of(&result))
}

#[test]
fn reassemblies_keep_when_they_started(rt: HostRuntime) {
    let mut pool = IpDefragPool::new(rt.alloc());
    for (frame, now, channel, described) in [
        (FIRST, 1, 0, (None, Waits)),
        // Another datagram, and the first one again.
        (FIRST, 2, 1, (None, Waits)),
        (FIRST, 3, 0, (Some(1), Waits)),
        // One that is refused changes nothing.
        (SECOND, 4, 2, (None, Waits)),
        (AFTER, 5, 2, (Some(4), Refused)),
        // One that overlaps another one over IPv6 ends its reassembly, and starts none.
        (IPV6_FIRST, 6, 0, (None, Waits)),
        (IPV6_OTHER_BYTES, 7, 0, (Some(6), Refused)),
        (IPV6_FIRST, 8, 0, (None, Waits)),
        // With one that completes its datagram its reassembly ends, too.
        (SECOND, 9, 1, (Some(2), Completes)),
        (SECOND, 10, 1, (None, Waits)),
    ] {
        equal(rt, process(rt, &mut pool, frame, now, channel), described);
    }
    // Those stay of which the first fragment came from then on.
    equal(rt, pool.retain(|first: &u64| *first >= 4).is_ok(), true);
    equal(rt, pool.open_len(), 3);
    for (frame, channel, described) in [
        (SECOND, 0, (None, Waits)),
        (FIRST, 2, (Some(4), Completes)),
        (IPV6_FIRST, 0, (Some(8), Waits)),
    ] {
        equal(rt, process(rt, &mut pool, frame, 11, channel), described);
    }
}

#[test]
fn fragments_by_their_class(rt: HostRuntime) {
    let mut pool: IpDefragPool<u64, u32> = IpDefragPool::new(rt.alloc());
    for (frame, now, described) in [(FIRST, 1, (None, Waits)), (SECOND, 2, (Some(1), Completes))] {
        let Class::Cut(message) = Class::from_ethernet(frame) else {
            fail(rt, "a frame has no part");
        };
        let (before, result) = pool.process_fragment_with(message, |first| first.unwrap_or(now), 0);
        equal(rt, (before, outcome_of(&result)), described);
    }
}
