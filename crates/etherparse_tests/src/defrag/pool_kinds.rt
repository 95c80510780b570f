//! What a pool makes of packets that are no fragments, and of frames that aren't sliced: nothing.
//! The frames were put together by hand after the RFCs that the comments name.

use crate::defrag::frames::{FIRST, SECOND, UDP};
use crate::defrag::pool_scripts::{KEEP_FROM, NOTHING, RETAINED, Script, runs_all};
use std::test::*;

// The whole datagram over IPv4.
const UNCUT: &[u8] = &[
    0x02, 0, 0, 0, 0, 0x02, 0x02, 0, 0, 0, 0, 0x01, 0x08, 0, 0x45, 0, 0, 0x24, 0, 0x07, 0, 0, 0x40,
    0x11, 0x66, 0xc0, 0x0a, 0, 0, 0x01, 0x0a, 0, 0, 0x02, 0, 0x01, 0, 0x02, 0, 0x10, 0xdb, 0xb4,
    0x01, 0x02, 0x03, 0x04, 0x05, 0x06, 0x07, 0x08,
];

// The whole datagram over IPv6.
const IPV6_UNCUT: &[u8] = &[
    0x02, 0, 0, 0, 0, 0x02, 0x02, 0, 0, 0, 0, 0x01, 0x86, 0xdd, 0x60, 0, 0, 0, 0, 0x10, 0x11, 0x40,
    0xfd, 0, 0, 0, 0, 0, 0, 0, 0, 0, 0, 0, 0, 0, 0, 0x01, 0xfd, 0, 0, 0, 0, 0, 0, 0, 0, 0, 0, 0, 0,
    0, 0, 0x02, 0, 0x01, 0, 0x02, 0, 0x10, 0xf5, 0xb2, 0x01, 0x02, 0x03, 0x04, 0x05, 0x06, 0x07,
    0x08,
];

// The same after a fragment header of offset 0 after which no more fragments follow (RFC 6946).
const ATOMIC: &[u8] = &[
    0x02, 0, 0, 0, 0, 0x02, 0x02, 0, 0, 0, 0, 0x01, 0x86, 0xdd, 0x60, 0, 0, 0, 0, 0x18, 0x2c, 0x40,
    0xfd, 0, 0, 0, 0, 0, 0, 0, 0, 0, 0, 0, 0, 0, 0, 0x01, 0xfd, 0, 0, 0, 0, 0, 0, 0, 0, 0, 0, 0, 0,
    0, 0, 0x02, 0x11, 0, 0, 0, 0, 0, 0, 0x07, 0, 0x01, 0, 0x02, 0, 0x10, 0xf5, 0xb2, 0x01, 0x02,
    0x03, 0x04, 0x05, 0x06, 0x07, 0x08,
];

// The same after such a header and one with more fragments: the first one counts.
const FIRST_ATOMIC: &[u8] = &[
    0x02, 0, 0, 0, 0, 0x02, 0x02, 0, 0, 0, 0, 0x01, 0x86, 0xdd, 0x60, 0, 0, 0, 0, 0x20, 0x2c, 0x40,
    0xfd, 0, 0, 0, 0, 0, 0, 0, 0, 0, 0, 0, 0, 0, 0, 0x01, 0xfd, 0, 0, 0, 0, 0, 0, 0, 0, 0, 0, 0, 0,
    0, 0, 0x02, 0x2c, 0, 0, 0, 0, 0, 0, 0x07, 0x11, 0, 0, 0x01, 0, 0, 0, 0x07, 0, 0x01, 0, 0x02, 0,
    0x10, 0xf5, 0xb2, 0x01, 0x02, 0x03, 0x04, 0x05, 0x06, 0x07, 0x08,
];

// An ARP request (RFC 826).
const ARP: &[u8] = &[
    0x02, 0, 0, 0, 0, 0x02, 0x02, 0, 0, 0, 0, 0x01, 0x08, 0x06, 0, 0x01, 0x08, 0, 0x06, 0x04, 0,
    0x01, 0x02, 0, 0, 0, 0, 0x01, 0x0a, 0, 0, 0x01, 0, 0, 0, 0, 0, 0, 0x0a, 0, 0, 0x02,
];

// Four VLAN tags: three are read.
const FOUR_TAGS: &[u8] = &[
    0x02, 0, 0, 0, 0, 0x02, 0x02, 0, 0, 0, 0, 0x01, 0x81, 0, 0, 0x01, 0x81, 0, 0, 0x02, 0x81, 0, 0,
    0x03, 0x81, 0, 0, 0x04, 0x08, 0,
];

// No packet of IP.
const NO_IP: &[u8] = &[0x02, 0, 0, 0, 0, 0x02, 0x02, 0, 0, 0, 0, 0x01, 0x12, 0x34];

// MACsec, encrypted.
const ENCRYPTED: &[u8] = &[
    0x02, 0, 0, 0, 0, 0x02, 0x02, 0, 0, 0, 0, 0x01, 0x88, 0xe5, 0x0c, 0, 0, 0, 0, 0x01, 0x08, 0,
    0x45, 0, 0, 0x24, 0, 0x07, 0, 0, 0x40, 0x11, 0x66, 0xc0, 0x0a, 0, 0, 0x01, 0x0a, 0, 0, 0x02, 0,
    0x01, 0, 0x02, 0, 0x10, 0xdb, 0xb4, 0x01, 0x02, 0x03, 0x04, 0x05, 0x06, 0x07, 0x08,
];

// One byte less than the header of Ethernet II.
const SHORT_FRAME: &[u8] = &[0x02, 0, 0, 0, 0, 0x02, 0x02, 0, 0, 0, 0, 0x01, 0x08];

const TOO_SHORT_A_FRAME: &str = "NotSliced(Len(LenError { required_len: 14, len: 13, \
    len_source: Slice, layer: Ethernet2Header, layer_start_offset: 0 }))";

// One byte of the header of IPv4.
const SHORT_HEADER: &[u8] = &[
    0x02, 0, 0, 0, 0, 0x02, 0x02, 0, 0, 0, 0, 0x01, 0x08, 0, 0x45,
];

const TOO_SHORT_A_HEADER: &str = "NotSliced(Len(LenError { required_len: 20, len: 1, \
    len_source: Slice, layer: Ipv4Header, layer_start_offset: 14 }))";

const SCRIPTS: &[Script] = &[
    (
        "no fragments",
        &[
            (FIRST, 1, 0, NOTHING, 1, 0),
            (UNCUT, 2, 0, NOTHING, 1, 0),
            (IPV6_UNCUT, 2, 0, NOTHING, 1, 0),
            (ATOMIC, 2, 0, NOTHING, 1, 0),
            (FIRST_ATOMIC, 2, 0, NOTHING, 1, 0),
            (ARP, 2, 0, NOTHING, 1, 0),
            (FOUR_TAGS, 2, 0, NOTHING, 1, 0),
            (NO_IP, 2, 0, NOTHING, 1, 0),
            (ENCRYPTED, 2, 0, NOTHING, 1, 0),
            (SECOND, 3, 0, UDP, 0, 0),
        ],
    ),
    // The reassembly whose half came at time 1 is dropped: nothing renewed its time.
    (
        "no fragments renew no time",
        &[
            (FIRST, 1, 0, NOTHING, 1, 0),
            (UNCUT, 2, 0, NOTHING, 1, 0),
            (IPV6_UNCUT, 2, 0, NOTHING, 1, 0),
            (ATOMIC, 2, 0, NOTHING, 1, 0),
            (FIRST_ATOMIC, 2, 0, NOTHING, 1, 0),
            (ARP, 2, 0, NOTHING, 1, 0),
            (FOUR_TAGS, 2, 0, NOTHING, 1, 0),
            (NO_IP, 2, 0, NOTHING, 1, 0),
            (ENCRYPTED, 2, 0, NOTHING, 1, 0),
            (KEEP_FROM, 2, 0, RETAINED, 0, 1),
            (SECOND, 3, 0, NOTHING, 1, 0),
        ],
    ),
    (
        "frames that are not sliced",
        &[
            (FIRST, 1, 0, NOTHING, 1, 0),
            (SHORT_FRAME, 1, 0, TOO_SHORT_A_FRAME, 1, 0),
            (SHORT_HEADER, 1, 0, TOO_SHORT_A_HEADER, 1, 0),
            (UNCUT, 1, 0, NOTHING, 1, 0),
            (SECOND, 1, 0, UDP, 0, 0),
        ],
    ),
];

#[test]
fn what_is_no_fragment(rt: HostRuntime) {
    runs_all(rt, rt.alloc(), SCRIPTS);
}
