//! A datagram of three fragments, in each order and with repeats.

use crate::defrag::pool_scripts::{NOTHING, Script, goes_through};
use etherparse::defrag::IpDefragPool;
use std::test::*;

// A TCP header with no option, cut at 8 and 16.
const TCP_FIRST: &[u8] = &[
    0x02, 0, 0, 0, 0, 0x02, 0x02, 0, 0, 0, 0, 0x01, 0x08, 0, 0x45, 0, 0, 0x1c, 0, 0x07, 0x20, 0,
    0x40, 0x06, 0x46, 0xd3, 0x0a, 0, 0, 0x01, 0x0a, 0, 0, 0x02, 0, 0x01, 0, 0x02, 0, 0, 0, 0x03,
];

const TCP_SECOND: &[u8] = &[
    0x02, 0, 0, 0, 0, 0x02, 0x02, 0, 0, 0, 0, 0x01, 0x08, 0, 0x45, 0, 0, 0x1c, 0, 0x07, 0x20, 0x01,
    0x40, 0x06, 0x46, 0xd2, 0x0a, 0, 0, 0x01, 0x0a, 0, 0, 0x02, 0, 0, 0, 0, 0x50, 0x02, 0x04, 0,
];

const TCP_THIRD: &[u8] = &[
    0x02, 0, 0, 0, 0, 0x02, 0x02, 0, 0, 0, 0, 0x01, 0x08, 0, 0x45, 0, 0, 0x18, 0, 0x07, 0, 0x02,
    0x40, 0x06, 0x66, 0xd5, 0x0a, 0, 0, 0x01, 0x0a, 0, 0, 0x02, 0x97, 0xda, 0, 0,
];

const TCP: &str = "Payload(IpDefragPayloadVec { ip_number: IpNumber(6), \
    len_source: Ipv4HeaderTotalLen, \
    payload: [0, 1, 0, 2, 0, 0, 0, 3, 0, 0, 0, 0, 80, 2, 4, 0, 151, 218, 0, 0] })";

#[rattlefmt::skip]
const ORDERS: &[Script] = &[
    ("1, 2, 3", &[(TCP_FIRST, 1, 0, NOTHING, 1, 0), (TCP_SECOND, 1, 0, NOTHING, 1, 0), (TCP_THIRD, 1, 0, TCP, 0, 0)]),
    ("1, 3, 2", &[(TCP_FIRST, 1, 0, NOTHING, 1, 0), (TCP_THIRD, 1, 0, NOTHING, 1, 0), (TCP_SECOND, 1, 0, TCP, 0, 0)]),
    ("2, 1, 3", &[(TCP_SECOND, 1, 0, NOTHING, 1, 0), (TCP_FIRST, 1, 0, NOTHING, 1, 0), (TCP_THIRD, 1, 0, TCP, 0, 0)]),
    ("2, 3, 1", &[(TCP_SECOND, 1, 0, NOTHING, 1, 0), (TCP_THIRD, 1, 0, NOTHING, 1, 0), (TCP_FIRST, 1, 0, TCP, 0, 0)]),
    ("3, 1, 2", &[(TCP_THIRD, 1, 0, NOTHING, 1, 0), (TCP_FIRST, 1, 0, NOTHING, 1, 0), (TCP_SECOND, 1, 0, TCP, 0, 0)]),
    ("3, 2, 1", &[(TCP_THIRD, 1, 0, NOTHING, 1, 0), (TCP_SECOND, 1, 0, NOTHING, 1, 0), (TCP_FIRST, 1, 0, TCP, 0, 0)]),
];

// All of them in one pool.
#[test]
fn each_order(rt: HostRuntime) {
    let mut pool = IpDefragPool::new(rt.alloc());
    for script in ORDERS.iter() {
        goes_through(rt, rt.alloc(), &mut pool, script);
    }
}

const REPEATS: &[Script] = &[
    (
        "1, 1, 2, 1, 2, 3",
        &[
            (TCP_FIRST, 1, 0, NOTHING, 1, 0),
            (TCP_FIRST, 1, 0, NOTHING, 1, 0),
            (TCP_SECOND, 1, 0, NOTHING, 1, 0),
            (TCP_FIRST, 1, 0, NOTHING, 1, 0),
            (TCP_SECOND, 1, 0, NOTHING, 1, 0),
            (TCP_THIRD, 1, 0, TCP, 0, 0),
        ],
    ),
    (
        "1, 1, 3, 1, 3, 2",
        &[
            (TCP_FIRST, 1, 0, NOTHING, 1, 0),
            (TCP_FIRST, 1, 0, NOTHING, 1, 0),
            (TCP_THIRD, 1, 0, NOTHING, 1, 0),
            (TCP_FIRST, 1, 0, NOTHING, 1, 0),
            (TCP_THIRD, 1, 0, NOTHING, 1, 0),
            (TCP_SECOND, 1, 0, TCP, 0, 0),
        ],
    ),
    (
        "2, 2, 1, 2, 1, 3",
        &[
            (TCP_SECOND, 1, 0, NOTHING, 1, 0),
            (TCP_SECOND, 1, 0, NOTHING, 1, 0),
            (TCP_FIRST, 1, 0, NOTHING, 1, 0),
            (TCP_SECOND, 1, 0, NOTHING, 1, 0),
            (TCP_FIRST, 1, 0, NOTHING, 1, 0),
            (TCP_THIRD, 1, 0, TCP, 0, 0),
        ],
    ),
    (
        "2, 2, 3, 2, 3, 1",
        &[
            (TCP_SECOND, 1, 0, NOTHING, 1, 0),
            (TCP_SECOND, 1, 0, NOTHING, 1, 0),
            (TCP_THIRD, 1, 0, NOTHING, 1, 0),
            (TCP_SECOND, 1, 0, NOTHING, 1, 0),
            (TCP_THIRD, 1, 0, NOTHING, 1, 0),
            (TCP_FIRST, 1, 0, TCP, 0, 0),
        ],
    ),
    (
        "3, 3, 1, 3, 1, 2",
        &[
            (TCP_THIRD, 1, 0, NOTHING, 1, 0),
            (TCP_THIRD, 1, 0, NOTHING, 1, 0),
            (TCP_FIRST, 1, 0, NOTHING, 1, 0),
            (TCP_THIRD, 1, 0, NOTHING, 1, 0),
            (TCP_FIRST, 1, 0, NOTHING, 1, 0),
            (TCP_SECOND, 1, 0, TCP, 0, 0),
        ],
    ),
    (
        "3, 3, 2, 3, 2, 1",
        &[
            (TCP_THIRD, 1, 0, NOTHING, 1, 0),
            (TCP_THIRD, 1, 0, NOTHING, 1, 0),
            (TCP_SECOND, 1, 0, NOTHING, 1, 0),
            (TCP_THIRD, 1, 0, NOTHING, 1, 0),
            (TCP_SECOND, 1, 0, NOTHING, 1, 0),
            (TCP_FIRST, 1, 0, TCP, 0, 0),
        ],
    ),
];

#[test]
fn each_order_with_repeats(rt: HostRuntime) {
    let mut pool = IpDefragPool::new(rt.alloc());
    for script in REPEATS.iter() {
        goes_through(rt, rt.alloc(), &mut pool, script);
    }
}
