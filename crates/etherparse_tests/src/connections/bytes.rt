//! Bytes of TCP connections, put together from their segments: what is answered to each segment, and
//! what the buffer shows after it. The rows are worked by hand after RFC 9293, section 3.4.

use crate::checks::{equal_in, holds_in};
use std::process::Abort;
use tcp_streams::{Conflicts, Distance, Gap, Refused, SegmentFlags, StreamBuf, distance_between};

const NONE: SegmentFlags = SegmentFlags {
    syn: false,
    fin: false,
    rst: false,
};

const SYN: SegmentFlags = SegmentFlags {
    syn: true,
    fin: false,
    rst: false,
};

const FIN: SegmentFlags = SegmentFlags {
    syn: false,
    fin: true,
    rst: false,
};

const RST: SegmentFlags = SegmentFlags {
    syn: false,
    fin: false,
    rst: true,
};

/// A segment by name, its position or why it is refused, and the bytes that are available then, of which so
/// many are consumed.
struct Step(
    &'static str,
    u32,
    SegmentFlags,
    &'static [u8],
    Result<u64, Refused>,
    &'static [u8],
    usize,
);

/// What the buffer shows at last: consumed bytes, conflicts, gap, whether it is finished, was reset,
/// joined late.
#[derive(Drop)]
struct Last(u64, Conflicts, Option<Gap>, bool, bool, bool);

// The number of SYN is the greatest but two, so the third byte has number 0.
const WRAPPED: &[Step] = &[
    Step("SYN", 4294967293, SYN, b"", Ok(0), b"", 0),
    Step("after a gap", 0, NONE, b"cd", Ok(2), b"", 0),
    Step("over the gap", 4294967294, NONE, b"abX", Ok(0), b"abcd", 3),
    Step("repeat", 4294967295, NONE, b"bcde", Ok(3), b"de", 0),
    Step("FIN", 3, FIN, b"f", Ok(5), b"def", 0),
    Step("acknowledgement", 5, NONE, b"", Ok(7), b"def", 0),
    Step("FIN again", 3, FIN, b"f", Ok(5), b"def", 9),
    Step(
        "after FIN",
        6,
        NONE,
        b"x",
        Err(Refused::AfterFin { fin: 6 }),
        b"",
        0,
    ),
    Step(
        "far",
        2000,
        NONE,
        b"x",
        Err(Refused::OutsideWindow { window_end: 22 }),
        b"",
        0,
    ),
];

const JOINED: &[Step] = &[
    Step("first", 500, NONE, b"hello", Ok(0), b"hello", 5),
    Step("early FIN", 501, FIN, b"", Ok(5), b"", 0),
    Step("after a gap", 507, NONE, b"gap", Ok(7), b"", 0),
    Step(
        "FIN before bytes",
        506,
        FIN,
        b"",
        Err(Refused::AfterFin { fin: 6 }),
        b"",
        0,
    ),
    Step("RST elsewhere", 506, RST, b"", Ok(6), b"", 0),
    Step("RST", 505, RST, b"why", Ok(5), b"", 0),
    Step(
        "after RST",
        505,
        NONE,
        b"x",
        Err(Refused::AfterReset),
        b"",
        0,
    ),
];

fn is_same(described: &[u8], wanted: &[u8]) -> bool {
    described == wanted
}

// What is answered, and which bytes are available.
fn follow(rt: impl Abort + Copy, buf: &mut StreamBuf, steps: &[Step]) {
    for Step(name, number, flags, payload, answer, available, count) in steps {
        let added = buf.add(*number, *flags, payload);
        let position = match added {
            Ok(added) => Ok(added.position),
            Err(refused) => Err(refused),
        };
        equal_in(rt, name, &position, answer);
        holds_in(rt, name, is_same(buf.available(), available));
        buf.consume(*count);
    }
}

fn shows(rt: impl Abort + Copy, name: &str, buf: &StreamBuf, last: &Last) {
    let Last(consumed, conflicts, gap, finished, reset, late) = last;
    equal_in(rt, name, &buf.consumed(), consumed);
    equal_in(rt, name, &buf.conflicts(), conflicts);
    equal_in(rt, name, &buf.gap(), gap);
    equal_in(rt, name, &buf.is_finished(), finished);
    equal_in(rt, name, &buf.is_reset(), reset);
    equal_in(rt, name, &buf.joined_late(), late);
}

#[test]
fn segments_are_put_together(rt: HostRuntime) {
    let mut wrapped = StreamBuf::new(rt.alloc(), 16);
    follow(&rt, &mut wrapped, WRAPPED);
    let one = Conflicts {
        count: 1,
        first: Some(2),
    };
    shows(
        &rt,
        "wrapped",
        &wrapped,
        &Last(6, one, None, true, false, false),
    );
    let mut joined = StreamBuf::new(rt.alloc(), 16);
    follow(&rt, &mut joined, JOINED);
    let gap = Some(Gap { start: 5, end: 7 });
    shows(
        &rt,
        "joined",
        &joined,
        &Last(5, Conflicts::default(), gap, false, true, true),
    );
    holds_in(
        &rt,
        "wraps",
        distance_between(4294967295, 1) == Distance::After(2),
    );
}
