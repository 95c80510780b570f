//! Fragments that overlap, where a buffer refuses that (RFC 5722; RFC 8200, section 4.5).

use crate::checks::{equal, fail, holds};
use crate::defrag::buffer_scripts::Answer::{Open, Refused, Whole};
use crate::defrag::buffer_scripts::{
    Answer, Left, Script, Step, goes, goes_through, is_left_as, runs_all,
};
use crate::defrag::fragments::{ZEROS, empty, offset, refusing};
use crate::defrag::refusals::Refusal::{Conflict, Overlap, Unaligned};
use ep_base::IpFragOffset;
use etherparse::defrag::{IpFragRange, OverlapRule};
use std::test::*;

// The bytes from one index to another of a datagram whose bytes count from 1.
const BYTES_0_8: &[u8] = &[1, 2, 3, 4, 5, 6, 7, 8];

const BYTES_8_16: &[u8] = &[9, 10, 11, 12, 13, 14, 15, 16];

const BYTES_16_24: &[u8] = &[17, 18, 19, 20, 21, 22, 23, 24];

const BYTES_24_32: &[u8] = &[25, 26, 27, 28, 29, 30, 31, 32];

const BYTES_0_16: &[u8] = &[1, 2, 3, 4, 5, 6, 7, 8, 9, 10, 11, 12, 13, 14, 15, 16];

const BYTES_8_24: &[u8] = &[
    9, 10, 11, 12, 13, 14, 15, 16, 17, 18, 19, 20, 21, 22, 23, 24,
];

const BYTES_16_32: &[u8] = &[
    17, 18, 19, 20, 21, 22, 23, 24, 25, 26, 27, 28, 29, 30, 31, 32,
];

const BYTES_0_24: &[u8] = &[
    1, 2, 3, 4, 5, 6, 7, 8, 9, 10, 11, 12, 13, 14, 15, 16, 17, 18, 19, 20, 21, 22, 23, 24,
];

const BYTES_8_32: &[u8] = &[
    9, 10, 11, 12, 13, 14, 15, 16, 17, 18, 19, 20, 21, 22, 23, 24, 25, 26, 27, 28, 29, 30, 31, 32,
];

const BYTES_0_32: &[u8] = &[
    1, 2, 3, 4, 5, 6, 7, 8, 9, 10, 11, 12, 13, 14, 15, 16, 17, 18, 19, 20, 21, 22, 23, 24, 25, 26,
    27, 28, 29, 30, 31, 32,
];

// Bytes 8 to 24 after eight that are missing.
const OPEN_BYTES: &[u8] = &[
    0, 0, 0, 0, 0, 0, 0, 0, 9, 10, 11, 12, 13, 14, 15, 16, 17, 18, 19, 20, 21, 22, 23, 24,
];

// Units 1 and 2, of 8 bytes each, of a datagram.
const MIDDLE: Step = Step(1, true, BYTES_8_24, Open, 24);

const CLASH_AT_0: Answer = Refused(Overlap(0, 8));

// As it was made.
const NEW: Left = Left {
    end: None,
    sections: &[],
    data: &[],
};

/// After units 1 and 2 of a datagram each of these clashes, and the buffer is empty then.
const CLASHES: &[Script] = &[
    Script {
        name: "the first of the units",
        rule: OverlapRule::Refuses,
        steps: &[MIDDLE, Step(1, true, BYTES_8_16, Refused(Overlap(1, 8)), 0)],
        left: NEW,
    },
    Script {
        name: "the second of the units",
        rule: OverlapRule::Refuses,
        steps: &[
            MIDDLE,
            Step(2, true, BYTES_16_24, Refused(Overlap(2, 8)), 0),
        ],
        left: NEW,
    },
    Script {
        name: "across the front",
        rule: OverlapRule::Refuses,
        steps: &[
            MIDDLE,
            Step(0, true, BYTES_0_16, Refused(Overlap(0, 16)), 0),
        ],
        left: NEW,
    },
    Script {
        name: "across the end",
        rule: OverlapRule::Refuses,
        steps: &[
            MIDDLE,
            Step(2, true, BYTES_16_32, Refused(Overlap(2, 16)), 0),
        ],
        left: NEW,
    },
    Script {
        name: "around",
        rule: OverlapRule::Refuses,
        steps: &[
            MIDDLE,
            Step(0, true, BYTES_0_32, Refused(Overlap(0, 32)), 0),
        ],
        left: NEW,
    },
    Script {
        name: "beyond the end",
        rule: OverlapRule::Refuses,
        steps: &[
            MIDDLE,
            Step(1, true, BYTES_8_32, Refused(Overlap(1, 24)), 0),
        ],
        left: NEW,
    },
    Script {
        name: "from before the front",
        rule: OverlapRule::Refuses,
        steps: &[
            MIDDLE,
            Step(0, true, BYTES_0_24, Refused(Overlap(0, 24)), 0),
        ],
        left: NEW,
    },
    Script {
        name: "the same as the last one",
        rule: OverlapRule::Refuses,
        steps: &[
            MIDDLE,
            Step(1, false, BYTES_8_24, Refused(Overlap(1, 16)), 0),
        ],
        left: NEW,
    },
    Script {
        name: "a last one before the front",
        rule: OverlapRule::Refuses,
        steps: &[MIDDLE, Step(0, false, BYTES_0_8, CLASH_AT_0, 0)],
        left: NEW,
    },
    Script {
        name: "an empty last one at the front",
        rule: OverlapRule::Refuses,
        steps: &[MIDDLE, Step(1, false, &[], Refused(Overlap(1, 0)), 0)],
        left: NEW,
    },
    Script {
        name: "an empty last one inside",
        rule: OverlapRule::Refuses,
        steps: &[MIDDLE, Step(2, false, &[], Refused(Overlap(2, 0)), 0)],
        left: NEW,
    },
];

#[test]
fn each_overlap_empties_the_buffer(rt: HostRuntime) {
    runs_all(rt, rt.alloc(), CLASHES);
}

/// After the same units these are taken: the same fragment, neighbours, fragments without bytes
/// where more follow, and a last one after them.
const NO_OVERLAPS: &[Script] = &[
    Script {
        name: "the same fragment",
        rule: OverlapRule::Refuses,
        steps: &[MIDDLE, MIDDLE],
        left: Left {
            end: None,
            sections: &[IpFragRange { start: 8, end: 24 }],
            data: OPEN_BYTES,
        },
    },
    Script {
        name: "before the front",
        rule: OverlapRule::Refuses,
        steps: &[MIDDLE, Step(0, true, BYTES_0_8, Open, 24)],
        left: Left {
            end: None,
            sections: &[IpFragRange { start: 0, end: 24 }],
            data: BYTES_0_24,
        },
    },
    Script {
        name: "after the end",
        rule: OverlapRule::Refuses,
        steps: &[MIDDLE, Step(3, true, BYTES_24_32, Open, 32)],
        left: Left {
            end: None,
            sections: &[IpFragRange { start: 8, end: 32 }],
            data: OPEN_BYTES,
        },
    },
    Script {
        name: "a last one after the end",
        rule: OverlapRule::Refuses,
        steps: &[MIDDLE, Step(3, false, BYTES_24_32, Open, 32)],
        left: Left {
            end: Some(32),
            sections: &[IpFragRange { start: 8, end: 32 }],
            data: OPEN_BYTES,
        },
    },
    Script {
        name: "an empty last one at the end",
        rule: OverlapRule::Refuses,
        steps: &[MIDDLE, Step(3, false, &[], Open, 24)],
        left: Left {
            end: Some(24),
            sections: &[IpFragRange { start: 8, end: 24 }],
            data: OPEN_BYTES,
        },
    },
    Script {
        name: "an empty one at the front",
        rule: OverlapRule::Refuses,
        steps: &[MIDDLE, Step(1, true, &[], Open, 24)],
        left: Left {
            end: None,
            sections: &[IpFragRange { start: 8, end: 24 }],
            data: OPEN_BYTES,
        },
    },
    Script {
        name: "an empty one inside",
        rule: OverlapRule::Refuses,
        steps: &[MIDDLE, Step(2, true, &[], Open, 24)],
        left: Left {
            end: None,
            sections: &[IpFragRange { start: 8, end: 24 }],
            data: OPEN_BYTES,
        },
    },
    Script {
        name: "an empty one at zero",
        rule: OverlapRule::Refuses,
        steps: &[MIDDLE, Step(0, true, &[], Open, 24)],
        left: Left {
            end: None,
            sections: &[
                IpFragRange { start: 0, end: 0 },
                IpFragRange { start: 8, end: 24 },
            ],
            data: OPEN_BYTES,
        },
    },
];

#[test]
fn what_is_no_overlap(rt: HostRuntime) {
    runs_all(rt, rt.alloc(), NO_OVERLAPS);
}

#[rattlefmt::skip]
const DATAGRAMS: &[Script] = &[
    Script { name: "a new buffer", rule: OverlapRule::Refuses, steps: &[], left: NEW },
    Script {
        name: "other bytes at the same place",
        rule: OverlapRule::Refuses,
        steps: &[
            Step(0, true, BYTES_0_8, Open, 8),
            Step(0, true, &[0; 8], CLASH_AT_0, 0),
        ],
        left: NEW,
    },
    Script {
        name: "the clashing fragment began nothing",
        rule: OverlapRule::Refuses,
        steps: &[
            Step(0, true, BYTES_0_8, Open, 8),
            Step(0, true, &[0; 8], CLASH_AT_0, 0),
            Step(1, false, BYTES_8_16, Open, 16),
            Step(0, true, BYTES_0_8, Whole, 16),
        ],
        left: Left {
            end: Some(16),
            sections: &[IpFragRange { start: 0, end: 16 }],
            data: BYTES_0_16,
        },
    },
    Script {
        name: "fragments in any order",
        rule: OverlapRule::Refuses,
        steps: &[
            Step(3, false, BYTES_24_32, Open, 32),
            Step(1, true, BYTES_8_16, Open, 32),
            Step(2, true, BYTES_16_24, Open, 32),
            Step(1, true, BYTES_8_16, Open, 32),
            Step(3, false, BYTES_24_32, Open, 32),
            Step(0, true, BYTES_0_8, Whole, 32),
        ],
        left: Left {
            end: Some(32),
            sections: &[IpFragRange { start: 0, end: 32 }],
            data: BYTES_0_32,
        },
    },
    Script {
        name: "refusals before an overlap",
        rule: OverlapRule::Refuses,
        steps: &[
            Step(1, false, BYTES_8_16, Open, 16),
            Step(1, true, &[0; 16], Refused(Conflict(16, 24)), 16),
            Step(1, true, &[0; 7], Refused(Unaligned(1, 7)), 16),
        ],
        left: Left {
            end: Some(16),
            sections: &[IpFragRange { start: 8, end: 16 }],
            data: &[0, 0, 0, 0, 0, 0, 0, 0, 9, 10, 11, 12, 13, 14, 15, 16],
        },
    },
    Script {
        name: "a message after the refusals",
        rule: OverlapRule::Refuses,
        steps: &[
            Step(1, false, BYTES_8_16, Open, 16),
            Step(1, true, &[0; 16], Refused(Conflict(16, 24)), 16),
            Step(1, true, &[0; 7], Refused(Unaligned(1, 7)), 16),
            Step(0, true, &[0; 8], Whole, 16),
        ],
        left: Left {
            end: Some(16),
            sections: &[IpFragRange { start: 0, end: 16 }],
            data: &[0, 0, 0, 0, 0, 0, 0, 0, 9, 10, 11, 12, 13, 14, 15, 16],
        },
    },
];

#[test]
fn datagrams_without_overlaps(rt: HostRuntime) {
    runs_all(rt, rt.alloc(), DATAGRAMS);
}

const FROM_THE_START: Left = Left {
    end: Some(16),
    sections: &[IpFragRange { start: 0, end: 16 }],
    data: BYTES_0_16,
};

/// An overlap among fragments in a row is skipped, and the next ones go into the empty buffer.
#[test]
fn all_go_on_after_an_overlap(rt: HostRuntime) {
    let zero = IpFragOffset::ZERO;
    let all = [
        (zero, true, &BYTES_0_8[..]),
        (zero, true, &BYTES_0_8[..]),
        (zero, true, &ZEROS[..8]),
        (offset(rt, 1), false, &BYTES_8_16[..]),
        (zero, true, &BYTES_0_8[..]),
    ];
    let mut buf = refusing(rt.alloc());
    equal(rt, buf.add_all(&all), Ok(4));
    equal(rt, buf.data().len(), 16);
    holds(rt, buf.is_complete() && is_left_as(&buf, &FROM_THE_START));
}

const TO_BE_COPIED: Script = Script {
    name: "to be copied",
    rule: OverlapRule::Refuses,
    steps: &[
        Step(0, true, BYTES_0_8, Open, 8),
        Step(1, true, &[], Open, 8),
    ],
    left: Left {
        end: None,
        sections: &[IpFragRange { start: 0, end: 8 }],
        data: BYTES_0_8,
    },
};

const REPEAT: Step = Step(0, true, BYTES_0_8, Open, 8);

const CLASH: Step = Step(0, true, BYTES_0_16, Refused(Overlap(0, 16)), 0);

#[test]
fn a_copy_refuses_overlaps_too(rt: HostRuntime) {
    let mut buf = refusing(rt.alloc());
    holds(rt, buf != empty(rt.alloc()));
    goes_through(rt, &mut buf, &TO_BE_COPIED);
    let Ok(mut copy) = buf.try_clone() else {
        fail(rt, "no memory for a copy");
    };
    equal(rt, &copy, &buf);
    goes(rt, "a repeat in the copy", &mut copy, &REPEAT);
    equal(rt, &copy, &buf);
    goes(rt, "a clash in the copy", &mut copy, &CLASH);
    holds(rt, copy == refusing(rt.alloc()) && buf != copy);
}
