//! Connections that are followed: what each segment does, and what is held after gaps. The rows are worked by hand after
//! RFC 9293, section 3.4.

use crate::checks::{equal_in, fail, holds_in};
use std::process::Abort;
use tcp_streams::{
    Conflicts, ConnectionState, Control, Direction, FollowedSegment, Follower, Gap, Refused,
    SegmentFlags, StreamBuf,
};

const NONE: SegmentFlags = SegmentFlags {
    syn: false,
    fin: false,
    rst: false,
};

const SYN: SegmentFlags = SegmentFlags {
    syn: true,
    fin: false,
    rst: false,
};

const FIN: SegmentFlags = SegmentFlags {
    syn: false,
    fin: true,
    rst: false,
};

const RST: SegmentFlags = SegmentFlags {
    syn: false,
    fin: false,
    rst: true,
};

/// A segment by name, whether it comes from the lower endpoint and has ACK, what it does, and the bytes that it
/// makes available.
struct Step(
    &'static str,
    bool,
    u32,
    SegmentFlags,
    bool,
    &'static [u8],
    FollowedSegment,
    &'static [u8],
);

const NOTHING_AT_0: FollowedSegment = FollowedSegment {
    begins_anew: false,
    position: 0,
    gap: None,
    begins_gap: false,
    conflicts: Conflicts {
        count: 0,
        first: None,
    },
    repeated: 0,
    refused: None,
};

const NOTHING_AT_7: FollowedSegment = FollowedSegment {
    begins_anew: false,
    position: 7,
    gap: None,
    begins_gap: false,
    conflicts: Conflicts {
        count: 0,
        first: None,
    },
    repeated: 0,
    refused: None,
};

const BEFORE_THE_KEPT: FollowedSegment = FollowedSegment {
    begins_anew: false,
    position: 7,
    gap: None,
    begins_gap: false,
    conflicts: Conflicts {
        count: 0,
        first: None,
    },
    repeated: 3,
    refused: None,
};

const OUTSIDE: FollowedSegment = FollowedSegment {
    begins_anew: false,
    position: 4,
    gap: None,
    begins_gap: false,
    conflicts: Conflicts {
        count: 0,
        first: None,
    },
    repeated: 0,
    refused: Some(Refused::OutsideWindow { window_end: 8 }),
};

const CONFLICT: FollowedSegment = FollowedSegment {
    begins_anew: false,
    position: 7,
    gap: None,
    begins_gap: false,
    conflicts: Conflicts {
        count: 1,
        first: Some(6),
    },
    repeated: 2,
    refused: None,
};

const AFTER_A_GAP: FollowedSegment = FollowedSegment {
    begins_anew: false,
    position: 0,
    gap: Some(Gap { start: 0, end: 2 }),
    begins_gap: true,
    conflicts: Conflicts {
        count: 0,
        first: None,
    },
    repeated: 0,
    refused: None,
};

const ANEW: FollowedSegment = FollowedSegment {
    begins_anew: true,
    position: 0,
    gap: None,
    begins_gap: false,
    conflicts: Conflicts {
        count: 0,
        first: None,
    },
    repeated: 0,
    refused: None,
};

// Four bytes are kept. The number of SYN is the greatest but two.
const STEPS: &[Step] = &[
    Step("SYN", true, 4294967293, SYN, false, b"", NOTHING_AT_0, b""),
    Step("its answer", false, 1000, SYN, true, b"", NOTHING_AT_0, b""),
    Step(
        "bytes",
        true,
        4294967294,
        NONE,
        true,
        b"GET /\r\n",
        NOTHING_AT_0,
        b"GET /\r\n",
    ),
    Step(
        "others, which are not kept",
        true,
        4294967294,
        NONE,
        true,
        b"PUT",
        BEFORE_THE_KEPT,
        b"",
    ),
    Step(
        "others, of which one is",
        true,
        3,
        NONE,
        true,
        b"\rX",
        CONFLICT,
        b"",
    ),
    Step(
        "after a gap",
        false,
        1003,
        NONE,
        true,
        b"cd",
        AFTER_A_GAP,
        b"",
    ),
    Step(
        "the gap",
        false,
        1001,
        NONE,
        true,
        b"ab",
        NOTHING_AT_0,
        b"abcd",
    ),
    Step("far", false, 1010, NONE, true, b"zz", OUTSIDE, b""),
    Step("RST", true, 5, RST, false, b"why", NOTHING_AT_7, b""),
    Step("SYN again", true, 77, SYN, false, b"", ANEW, b""),
    Step(
        "without SYN",
        false,
        1001,
        NONE,
        true,
        b"new",
        NOTHING_AT_0,
        b"new",
    ),
    Step("SYN repeated", true, 77, SYN, false, b"", NOTHING_AT_0, b""),
    Step(
        "without ACK",
        true,
        78,
        NONE,
        false,
        b"no",
        NOTHING_AT_0,
        b"",
    ),
    Step(
        "SYN with another number",
        true,
        700,
        SYN,
        false,
        b"",
        ANEW,
        b"",
    ),
    Step(
        "without SYN",
        false,
        1001,
        NONE,
        true,
        b"more",
        NOTHING_AT_0,
        b"more",
    ),
];

fn direction(from_lower: bool) -> Direction {
    if from_lower {
        Direction::FromLower
    } else {
        Direction::FromHigher
    }
}

fn is_same(described: &[u8], wanted: &[u8]) -> bool {
    described == wanted
}

#[test]
fn segments_in_both_directions(rt: HostRuntime) {
    let mut follower = Follower::new(rt.alloc(), 4);
    for Step(name, from_lower, number, flags, ack, payload, wanted, bytes) in STEPS {
        let way = direction(*from_lower);
        let control = Control::of_flags(flags.syn, *ack, flags.fin, flags.rst);
        holds_in(
            &rt,
            name,
            follower.begins_anew(way, *number, control) == wanted.begins_anew,
        );
        match follower.add(way, *number, *flags, *ack, payload) {
            Ok(followed) => equal_in(&rt, name, &followed, wanted),
            Err(_) => fail(&rt, "no memory"),
        }
        let shown = follower.buf(way).available_from(wanted.position);
        holds_in(&rt, name, is_same(shown, bytes));
    }
    let opener = Direction::FromLower;
    equal_in(
        &rt,
        "state",
        &follower.state(),
        &ConnectionState::SynSent { opener },
    );
    let late = follower.buf(Direction::FromHigher).joined_late();
    equal_in(&rt, "joined late", &late, &true);
}

// A direction of which the first segment has this number, and bytes are missing after it.
fn with_gaps(rt: impl Abort + Copy, follower: &mut Follower) {
    for (number, payload) in [(7, b"ab"), (12, b"fg"), (16, b"jk")] {
        let added = follower.add(Direction::FromLower, number, NONE, true, payload);
        holds_in(rt, "added", added.is_ok());
    }
}

#[test]
fn bytes_that_are_lost(rt: HostRuntime) {
    let mut follower = Follower::new(rt.alloc(), 64);
    with_gaps(&rt, &mut follower);
    // Of the gap from 2 to 5 the first two, then all; of that from 7 to 9 one.
    let way = Direction::FromLower;
    equal_in(&rt, "two of three", &follower.give_up(way, 11), &None);
    let first = Some(Gap { start: 2, end: 5 });
    equal_in(&rt, "three", &follower.give_up(way, 15), &first);
    holds_in(
        &rt,
        "bytes",
        is_same(follower.buf(way).available_from(5), b"fg"),
    );
    equal_in(&rt, "one of two", &follower.give_up(way, 15), &None);
    holds_in(
        &rt,
        "late",
        follower.add(way, 9, NONE, true, b"cde").is_ok(),
    );
    equal_in(
        &rt,
        "conflicts",
        &follower.buf(way).conflicts(),
        &Conflicts::default(),
    );
    // Nothing is held after 11, and the window ends at 137, 128 after the last gap.
    let second = Some(Gap { start: 7, end: 9 });
    equal_in(&rt, "two", &follower.give_up(way, 140), &second);
    equal_in(&rt, "in the window", &follower.give_up(way, 7 + 137), &None);
    let far = Some(Gap {
        start: 11,
        end: 138,
    });
    equal_in(
        &rt,
        "after the window",
        &follower.give_up(way, 7 + 138),
        &far,
    );
}

fn is_after(rt: impl Abort + Copy, buf: &StreamBuf, position: u64, gap: Gap, bytes: &[u8]) {
    match buf.gap_after(position) {
        Some((found, held)) => {
            equal_in(rt, "gap", &found, &gap);
            holds_in(rt, "held", is_same(held, bytes));
        }
        None => fail(rt, "no gap"),
    }
}

#[test]
fn bytes_after_gaps(rt: HostRuntime) {
    let mut buf = StreamBuf::new(rt.alloc(), 64);
    for (number, payload) in [(7, b"ab"), (12, b"fg"), (16, b"jk")] {
        holds_in(&rt, "added", buf.add(number, NONE, payload).is_ok());
    }
    is_after(&rt, &buf, 0, Gap { start: 2, end: 5 }, b"fg");
    is_after(&rt, &buf, 4, Gap { start: 2, end: 5 }, b"fg");
    is_after(&rt, &buf, 5, Gap { start: 7, end: 9 }, b"jk");
    holds_in(&rt, "no more", buf.gap_after(9).is_none());
    equal_in(&rt, "end", &buf.available_end(), &2);
    equal_in(&rt, "no FIN", &buf.fin(), &None);
    holds_in(&rt, "added", buf.add(20, FIN, b"").is_ok());
    equal_in(&rt, "FIN", &buf.fin(), &Some(13));
    holds_in(&rt, "not finished", !buf.is_finished());
    holds_in(&rt, "from 1", is_same(buf.available_from(1), b"b"));
    holds_in(&rt, "from 9", buf.available_from(9).is_empty());
}
