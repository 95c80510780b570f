//! Overlaps in a pool: over IPv6 they end their reassembly (RFC 5722; RFC 8200, section
//! 4.5), over IPv4 later bytes overwrite earlier ones (RFC 791, section 3.2).

use crate::defrag::frames::{FIRST, IPV6_FIRST, IPV6_LATER, IPV6_SECOND, IPV6_UDP, SECOND};
use crate::defrag::pool_scripts::{KEEP_FROM, NOTHING, RETAINED, Script, runs_all};
use std::test::*;

// The first half with another last byte.
pub const IPV6_OTHER_BYTES: &[u8] = &[
    0x02, 0, 0, 0, 0, 0x02, 0x02, 0, 0, 0, 0, 0x01, 0x86, 0xdd, 0x60, 0, 0, 0, 0, 0x10, 0x2c, 0x40,
    0xfd, 0, 0, 0, 0, 0, 0, 0, 0, 0, 0, 0, 0, 0, 0, 0x01, 0xfd, 0, 0, 0, 0, 0, 0, 0, 0, 0, 0, 0, 0,
    0, 0, 0x02, 0x11, 0, 0, 0x01, 0, 0, 0, 0x07, 0, 0x01, 0, 0x02, 0, 0x10, 0xf5, 0xb3,
];

// The second half, after which more follow.
const IPV6_SECOND_MORE: &[u8] = &[
    0x02, 0, 0, 0, 0, 0x02, 0x02, 0, 0, 0, 0, 0x01, 0x86, 0xdd, 0x60, 0, 0, 0, 0, 0x10, 0x2c, 0x40,
    0xfd, 0, 0, 0, 0, 0, 0, 0, 0, 0, 0, 0, 0, 0, 0, 0x01, 0xfd, 0, 0, 0, 0, 0, 0, 0, 0, 0, 0, 0, 0,
    0, 0, 0x02, 0x11, 0, 0, 0x09, 0, 0, 0, 0x07, 0x01, 0x02, 0x03, 0x04, 0x05, 0x06, 0x07, 0x08,
];

// The first half over IPv4 with another last byte.
const OTHER_BYTES: &[u8] = &[
    0x02, 0, 0, 0, 0, 0x02, 0x02, 0, 0, 0, 0, 0x01, 0x08, 0, 0x45, 0, 0, 0x1c, 0, 0x07, 0x20, 0,
    0x40, 0x11, 0x46, 0xc8, 0x0a, 0, 0, 0x01, 0x0a, 0, 0, 0x02, 0, 0x01, 0, 0x02, 0, 0x10, 0xdb,
    0xb5,
];

// The datagram over IPv4 with that byte.
const OTHER_UDP: &str = "Payload(IpDefragPayloadVec { ip_number: IpNumber(17), \
    len_source: Ipv4HeaderTotalLen, \
    payload: [0, 1, 0, 2, 0, 16, 219, 181, 1, 2, 3, 4, 5, 6, 7, 8] })";

const FIRST_CLASHES: &str =
    "Refused(OverlappingFragment { offset: IpFragOffset(0), payload_len: 8 })";

const SECOND_CLASHES: &str =
    "Refused(OverlappingFragment { offset: IpFragOffset(1), payload_len: 8 })";

#[rattlefmt::skip]
const SCRIPTS: &[Script] = &[
    (
        "an exact repeat waits",
        &[
            (IPV6_FIRST, 1, 0, NOTHING, 1, 0),
            (IPV6_FIRST, 2, 0, NOTHING, 1, 0),
            (IPV6_SECOND, 3, 0, IPV6_UDP, 0, 0),
        ],
    ),
    (
        "an overlap ends the message",
        &[
            (IPV6_FIRST, 1, 0, NOTHING, 1, 0),
            (IPV6_OTHER_BYTES, 2, 0, FIRST_CLASHES, 0, 0),
            (IPV6_SECOND, 3, 0, NOTHING, 1, 0),
            (IPV6_FIRST, 4, 0, IPV6_UDP, 0, 0),
        ],
    ),
    // It starts no reassembly.
    (
        "another flag is an overlap",
        &[
            (IPV6_SECOND_MORE, 1, 0, NOTHING, 1, 0),
            (IPV6_SECOND, 2, 0, SECOND_CLASHES, 0, 0),
            (IPV6_FIRST, 3, 0, NOTHING, 1, 0),
            (IPV6_SECOND, 4, 0, IPV6_UDP, 0, 0),
        ],
    ),
    ("an end below an accepted place", &[(IPV6_LATER, 1, 0, NOTHING, 1, 0), (IPV6_SECOND, 2, 0, SECOND_CLASHES, 0, 0)]),
    (
        "a repeat renews the time",
        &[
            (IPV6_FIRST, 1, 0, NOTHING, 1, 0),
            (IPV6_FIRST, 2, 0, NOTHING, 1, 0),
            (KEEP_FROM, 2, 0, RETAINED, 1, 0),
            (IPV6_SECOND, 3, 0, IPV6_UDP, 0, 0),
        ],
    ),
    (
        "other messages stay",
        &[
            (IPV6_FIRST, 1, 0, NOTHING, 1, 0),
            (IPV6_FIRST, 1, 1, NOTHING, 2, 0),
            (IPV6_OTHER_BYTES, 2, 1, FIRST_CLASHES, 1, 0),
            (IPV6_SECOND, 3, 0, IPV6_UDP, 0, 0),
        ],
    ),
    (
        "an overlap over IPv4 is taken",
        &[
            (FIRST, 1, 0, NOTHING, 1, 0),
            (OTHER_BYTES, 2, 0, NOTHING, 1, 0),
            (SECOND, 3, 0, OTHER_UDP, 0, 0),
        ],
    ),
    (
        "overlaps in a row",
        &[
            (IPV6_FIRST, 1, 0, NOTHING, 1, 0),
            (IPV6_OTHER_BYTES, 1, 0, FIRST_CLASHES, 0, 0),
            (IPV6_SECOND, 1, 0, NOTHING, 1, 0),
            (IPV6_SECOND, 1, 0, NOTHING, 1, 0),
            (IPV6_FIRST, 1, 0, IPV6_UDP, 0, 0),
        ],
    ),
];

#[test]
fn overlaps_by_version(rt: HostRuntime) {
    runs_all(rt, rt.alloc(), SCRIPTS);
}
