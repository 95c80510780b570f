//! What a pool refuses, over both versions, and that a refusal changes nothing.

use crate::checks::holds;
use crate::defrag::frames::{
    AFTER, FIRST, IPV6_FIRST, IPV6_LATER, IPV6_SECOND, IPV6_UDP, SECOND, UDP, process,
};
use crate::defrag::pool_scripts::{
    NOTHING, REFUSED_LATER, REFUSED_LONG, REFUSED_UNALIGNED, Script, runs_all,
};
use etherparse::defrag::{IpDefragError, IpDefragPool};
use std::test::*;

// Eight bytes over IPv4 at the greatest offset, so that they end at 65536.
const LONG: &[u8] = &[
    0x02, 0, 0, 0, 0, 0x02, 0x02, 0, 0, 0, 0, 0x01, 0x08, 0, 0x45, 0, 0, 0x1c, 0, 0x07, 0x1f, 0xff,
    0x40, 0x11, 0x46, 0xc9, 0x0a, 0, 0, 0x01, 0x0a, 0, 0, 0x02, 0x01, 0x02, 0x03, 0x04, 0x05, 0x06,
    0x07, 0x08,
];

/// Seven bytes over IPv4, after which more follow.
pub const UNALIGNED: &[u8] = &[
    0x02, 0, 0, 0, 0, 0x02, 0x02, 0, 0, 0, 0, 0x01, 0x08, 0, 0x45, 0, 0, 0x1b, 0, 0x07, 0x20, 0,
    0x40, 0x11, 0x46, 0xc9, 0x0a, 0, 0, 0x01, 0x0a, 0, 0, 0x02, 0, 0x01, 0, 0x02, 0, 0x10, 0,
];

// Offset and flag are the fragment header's third and fourth bytes, the length the fifth and sixth
// of the IPv6 header (RFC 8200, sections 3 and 4.5).

// Eight bytes over IPv6 at the greatest offset.
const IPV6_LONG: &[u8] = &[
    0x02, 0, 0, 0, 0, 0x02, 0x02, 0, 0, 0, 0, 0x01, 0x86, 0xdd, 0x60, 0, 0, 0, 0, 0x10, 0x2c, 0x40,
    0xfd, 0, 0, 0, 0, 0, 0, 0, 0, 0, 0, 0, 0, 0, 0, 0x01, 0xfd, 0, 0, 0, 0, 0, 0, 0, 0, 0, 0, 0, 0,
    0, 0, 0x02, 0x11, 0, 0xff, 0xf8, 0, 0, 0, 0x07, 0x01, 0x02, 0x03, 0x04, 0x05, 0x06, 0x07, 0x08,
];

// Seven bytes over IPv6, after which more follow.
const IPV6_UNALIGNED: &[u8] = &[
    0x02, 0, 0, 0, 0, 0x02, 0x02, 0, 0, 0, 0, 0x01, 0x86, 0xdd, 0x60, 0, 0, 0, 0, 0x0f, 0x2c, 0x40,
    0xfd, 0, 0, 0, 0, 0, 0, 0, 0, 0, 0, 0, 0, 0, 0, 0x01, 0xfd, 0, 0, 0, 0, 0, 0, 0, 0, 0, 0, 0, 0,
    0, 0, 0x02, 0x11, 0, 0, 0x01, 0, 0, 0, 0x07, 0, 0x01, 0, 0x02, 0, 0x10, 0xf5,
];

// The second half over IPv6, 4 bytes of it.
const IPV6_LOWER: &[u8] = &[
    0x02, 0, 0, 0, 0, 0x02, 0x02, 0, 0, 0, 0, 0x01, 0x86, 0xdd, 0x60, 0, 0, 0, 0, 0x0c, 0x2c, 0x40,
    0xfd, 0, 0, 0, 0, 0, 0, 0, 0, 0, 0, 0, 0, 0, 0, 0x01, 0xfd, 0, 0, 0, 0, 0, 0, 0, 0, 0, 0, 0, 0,
    0, 0, 0x02, 0x11, 0, 0, 0x08, 0, 0, 0, 0x07, 0x01, 0x02, 0x03, 0x04,
];

// The end of which differs from that of the second half.
const REFUSED_LOWER: &str = "Refused(ConflictingEnd { previous_end: 16, conflicting_end: 12 })";

const SCRIPTS: &[Script] = &[
    (
        "refused over IPv4",
        &[
            (LONG, 1, 0, REFUSED_LONG, 0, 0),
            (UNALIGNED, 1, 0, REFUSED_UNALIGNED, 0, 0),
            (SECOND, 1, 0, NOTHING, 1, 0),
            (AFTER, 1, 0, REFUSED_LATER, 1, 0),
            (LONG, 1, 0, REFUSED_LONG, 1, 0),
            (UNALIGNED, 1, 0, REFUSED_UNALIGNED, 1, 0),
            (FIRST, 1, 0, UDP, 0, 0),
        ],
    ),
    (
        "refused over IPv6",
        &[
            (IPV6_LONG, 1, 0, REFUSED_LONG, 0, 0),
            (IPV6_UNALIGNED, 1, 0, REFUSED_UNALIGNED, 0, 0),
            (IPV6_SECOND, 1, 0, NOTHING, 1, 0),
            (IPV6_LATER, 1, 0, REFUSED_LATER, 1, 0),
            (IPV6_LOWER, 1, 0, REFUSED_LOWER, 1, 0),
            (IPV6_FIRST, 1, 0, IPV6_UDP, 0, 0),
        ],
    ),
    (
        "refusals in a row",
        &[
            (SECOND, 1, 0, NOTHING, 1, 0),
            (LONG, 1, 0, REFUSED_LONG, 1, 0),
            (UNALIGNED, 1, 0, REFUSED_UNALIGNED, 1, 0),
            (AFTER, 1, 0, REFUSED_LATER, 1, 0),
            (FIRST, 1, 0, UDP, 0, 0),
        ],
    ),
];

#[test]
fn refused_fragments(rt: HostRuntime) {
    runs_all(rt, rt.alloc(), SCRIPTS);
}

/// To be run with each allocation failing in turn, too: a datagram's first fragment is refused then
/// as ever.
#[test]
fn refused_without_memory(rt: HostRuntime) {
    let mut pool = IpDefragPool::new(rt.alloc());
    for _ in 0..2 {
        let long = process(rt, &mut pool, LONG, 1, 0);
        holds(rt, matches!(long, Err(IpDefragError::SegmentTooBig { .. })));
        let unaligned = process(rt, &mut pool, UNALIGNED, 1, 1);
        holds(
            rt,
            matches!(
                unaligned,
                Err(IpDefragError::UnalignedFragmentPayloadLen { .. })
            ),
        );
    }
}
