//! Datagrams reassembled, with memory enough.

use crate::checks::{equal, fail, holds};
use crate::defrag::buffer_scripts::Answer::{Open, Refused, Whole};
use crate::defrag::buffer_scripts::{Left, Script, Step, goes, goes_through, is_left_as, runs_all};
use crate::defrag::fragments::{ZEROS, empty, has_bytes, is_its_copy, offset};
use crate::defrag::refusals::Refusal::{Conflict, TooBig, Unaligned};
use crate::defrag::refusals::error_of;
use ep_base::{IpFragOffset, IpNumber};
use etherparse::defrag::{IpDefragBuf, IpFragRange, OverlapRule};
use std::alloc::Global;
use std::process::Abort;
use std::test::*;

const SCRIPTS: &[Script] = &[
    Script {
        name: "a new buffer",
        rule: OverlapRule::Overwrites,
        steps: &[],
        left: Left {
            end: None,
            sections: &[],
            data: &[],
        },
    },
    Script {
        name: "from the end",
        rule: OverlapRule::Overwrites,
        steps: &[
            Step(6, false, &[0; 16], Open, 64),
            Step(2, true, &[0; 32], Open, 64),
            Step(0, true, &[0; 16], Whole, 64),
        ],
        left: Left {
            end: Some(64),
            sections: &[IpFragRange { start: 0, end: 64 }],
            data: &[0; 64],
        },
    },
    Script {
        name: "ends that conflict",
        rule: OverlapRule::Overwrites,
        steps: &[
            Step(4, false, &[0; 16], Open, 48),
            Step(6, true, &[0; 16], Refused(Conflict(48, 64)), 48),
            Step(1, false, &[0; 16], Refused(Conflict(48, 24)), 48),
        ],
        left: Left {
            end: Some(48),
            sections: &[IpFragRange { start: 32, end: 48 }],
            data: &[0; 48],
        },
    },
    Script {
        name: "an end that comes late",
        rule: OverlapRule::Overwrites,
        steps: &[
            Step(8, true, &[0; 64], Open, 128),
            Step(0, false, &[0; 32], Open, 32),
        ],
        left: Left {
            end: Some(32),
            sections: &[
                IpFragRange { start: 0, end: 32 },
                IpFragRange {
                    start: 64,
                    end: 128,
                },
            ],
            data: &[0; 32],
        },
    },
    Script {
        name: "neighbours that share no number",
        rule: OverlapRule::Overwrites,
        steps: &[
            Step(3, true, &[0; 8], Open, 32),
            Step(0, false, &[0; 23], Open, 23),
            Step(0, true, &[0; 24], Refused(Conflict(23, 24)), 23),
        ],
        left: Left {
            end: Some(23),
            sections: &[
                IpFragRange { start: 0, end: 23 },
                IpFragRange { start: 24, end: 32 },
            ],
            data: &[0; 23],
        },
    },
    Script {
        name: "later bytes replace earlier ones",
        rule: OverlapRule::Overwrites,
        steps: &[
            Step(0, true, &[1; 32], Open, 32),
            Step(1, true, &[2; 16], Open, 32),
        ],
        left: Left {
            end: None,
            sections: &[IpFragRange { start: 0, end: 32 }],
            data: &[
                1, 1, 1, 1, 1, 1, 1, 1, 2, 2, 2, 2, 2, 2, 2, 2, 2, 2, 2, 2, 2, 2, 2, 2, 1, 1, 1, 1,
                1, 1, 1, 1,
            ],
        },
    },
    Script {
        name: "repeats complete nothing",
        rule: OverlapRule::Overwrites,
        steps: &[
            Step(1, false, &[0; 8], Open, 16),
            Step(1, false, &[0; 8], Open, 16),
            Step(1, true, &[0; 8], Open, 16),
            Step(0, true, &[0; 8], Whole, 16),
            Step(0, true, &[0; 8], Whole, 16),
        ],
        left: Left {
            end: Some(16),
            sections: &[IpFragRange { start: 0, end: 16 }],
            data: &[0; 16],
        },
    },
    Script {
        name: "a fragment without bytes",
        rule: OverlapRule::Overwrites,
        steps: &[Step(0, true, &[], Open, 0)],
        left: Left {
            end: None,
            sections: &[IpFragRange { start: 0, end: 0 }],
            data: &[],
        },
    },
    Script {
        name: "a message without bytes",
        rule: OverlapRule::Overwrites,
        steps: &[Step(0, true, &[], Open, 0), Step(0, false, &[], Whole, 0)],
        left: Left {
            end: Some(0),
            sections: &[IpFragRange { start: 0, end: 0 }],
            data: &[],
        },
    },
    Script {
        name: "ends at the greatest length",
        rule: OverlapRule::Overwrites,
        steps: &[
            Step(8191, true, &[0; 8], Refused(TooBig(8191, 8, 65535)), 0),
            Step(8191, true, &[0; 7], Refused(Unaligned(8191, 7)), 0),
            Step(8191, false, &[0; 7], Open, 65535),
        ],
        left: Left {
            end: Some(65535),
            sections: &[IpFragRange {
                start: 65528,
                end: 65535,
            }],
            data: &[0; 64],
        },
    },
];

#[test]
fn fragments_as_they_come(rt: HostRuntime) {
    runs_all(rt, rt.alloc(), SCRIPTS);
}

const FIRST: &[u8] = &[0x01, 0x02, 0x03, 0x04, 0x05, 0x06, 0x07, 0x08];

const SECOND: &[u8] = &[0x11, 0x12, 0x13, 0x14, 0x15, 0x16, 0x17, 0x18];

#[test]
fn all_of_a_repeat_and_its_end(rt: HostRuntime) {
    let zero = IpFragOffset::ZERO;
    let all = [
        (zero, true, &FIRST[..]),
        (zero, true, &SECOND[..]),
        (offset(rt, 1), false, &ZEROS[..0]),
    ];
    let mut buf = empty(rt.alloc());
    equal(rt, buf.add_all(&all), Ok(3));
    holds(rt, buf.is_complete() && has_bytes(&buf, SECOND));
}

const WITH_A_GAP: Left = Left {
    end: Some(24),
    sections: &[
        IpFragRange { start: 0, end: 24 },
        IpFragRange { start: 32, end: 32 },
    ],
    data: &[
        1, 2, 3, 4, 5, 6, 7, 8, 0, 0, 0, 0, 0, 0, 0, 0, 0, 0, 0, 0, 0, 0, 0, 0,
    ],
};

const BEYOND: Step = Step(3, true, &[0; 8], Refused(Conflict(24, 32)), 24);

#[test]
fn all_but_one_beyond_the_end(rt: HostRuntime) {
    let all = [
        (offset(rt, 4), true, &ZEROS[..0]),
        (offset(rt, 0), true, &FIRST[..]),
        (offset(rt, 1), false, &ZEROS[..16]),
        (offset(rt, 3), true, &ZEROS[..8]),
    ];
    let mut buf = empty(rt.alloc());
    equal(rt, buf.add_all(&all), Ok(3));
    holds(rt, !buf.is_complete() && is_left_as(&buf, &WITH_A_GAP));
    goes(rt, "beyond the end", &mut buf, &BEYOND);
    equal(rt, is_its_copy(&buf), Some(true));
}

const OPEN_AT_ZERO: Script = Script {
    name: "open at zero",
    rule: OverlapRule::Overwrites,
    steps: &[
        Step(4, true, &[], Open, 32),
        Step(1, false, &[0; 16], Open, 24),
    ],
    left: Left {
        end: Some(24),
        sections: &[
            IpFragRange { start: 8, end: 24 },
            IpFragRange { start: 32, end: 32 },
        ],
        data: &[0; 24],
    },
};

const AT_ZERO: Step = Step(0, true, &[0; 8], Open, 24);

#[test]
fn a_copy_is_equal(rt: HostRuntime) {
    let mut buf = empty(rt.alloc());
    goes_through(rt, &mut buf, &OPEN_AT_ZERO);
    let Ok(copy) = buf.try_clone() else {
        fail(rt, "no memory for a copy");
    };
    equal(rt, &copy, &buf);
    goes(rt, "after the copy", &mut buf, &AT_ZERO);
    holds(rt, copy != buf);
}

// A fragment for a buffer, and the script that is run where its memory serves again.
const AGAIN: &[(Step, Script)] = &[
    (
        Step(0, false, &[0; 9], Whole, 9),
        Script {
            name: "after a whole message",
            rule: OverlapRule::Overwrites,
            steps: &[Step(1, true, &[0; 8], Open, 16)],
            left: Left {
                end: None,
                sections: &[IpFragRange { start: 8, end: 16 }],
                data: &[0; 16],
            },
        },
    ),
    (
        Step(2, true, &[1; 32], Open, 48),
        Script {
            name: "open places are zero",
            rule: OverlapRule::Overwrites,
            steps: &[Step(1, true, &[2; 8], Open, 16)],
            left: Left {
                end: None,
                sections: &[IpFragRange { start: 8, end: 16 }],
                data: &[0, 0, 0, 0, 0, 0, 0, 0, 2, 2, 2, 2, 2, 2, 2, 2],
            },
        },
    ),
];

// Runs a script with the memory of a buffer that took a fragment. It has no contract, as tests
// alone call it.
fn serves_again(rt: impl Abort + Copy, alloc: Global, step: &Step, script: &Script) {
    let mut buf = empty(alloc);
    goes(rt, script.name, &mut buf, step);
    let (bytes, sections) = buf.take_bufs();
    equal(rt, bytes.len(), step.4);
    let mut again = IpDefragBuf::new(IpNumber::TCP, bytes, sections);
    goes_through(rt, &mut again, script);
}

#[test]
fn buffers_serve_again(rt: HostRuntime) {
    for (step, script) in AGAIN.iter() {
        serves_again(rt, rt.alloc(), step, script);
    }
}

// 65536 bytes are too many, and none are a datagram. It has no contract, as above.
fn are_too_many(rt: impl Abort + Copy, alloc: Global, bytes: &[u8]) {
    let zero = IpFragOffset::ZERO;
    let mut buf = empty(alloc);
    let long = buf.add(zero, true, bytes);
    equal(rt, long, Err(error_of(rt, TooBig(0, 65536, 65535))));
    let taken = buf.add_all(&[(zero, false, bytes), (zero, false, &[])]);
    equal(rt, taken, Ok(1));
    holds(rt, buf.is_complete());
}

#[test]
fn bytes_above_the_greatest_length(rt: HostRuntime) -> Result<(), Fail> {
    let bytes = vec![in rt.alloc(); 0u8; 65536]?;
    are_too_many(rt, rt.alloc(), &bytes);
    Ok(())
}
