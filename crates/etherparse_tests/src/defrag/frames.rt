//! Frames with the two halves of a UDP datagram, as the tests pass them to pools. The functions
//! have no contracts: tests alone call them, and are run.

use crate::checks::{fail, holds};
use ep_packet::SlicedPacket;
use etherparse::defrag::{IpDefragError, IpDefragPayloadVec, IpDefragPool};
use std::hash::BuildHasher;
use std::process::Abort;
use std::test::*;

/// The first half over IPv4, with identification 7.
pub const FIRST: &[u8] = &[
    0x02, 0, 0, 0, 0, 0x02, 0x02, 0, 0, 0, 0, 0x01, 0x08, 0x00, 0x45, 0, 0, 0x1c, 0, 0x07, 0x20,
    0x00, 0x40, 0x11, 0x46, 0xc8, 0x0a, 0, 0, 0x01, 0x0a, 0, 0, 0x02, 0x00, 0x01, 0x00, 0x02, 0x00,
    0x10, 0xdb, 0xb4,
];

/// The second half.
pub const SECOND: &[u8] = &[
    0x02, 0, 0, 0, 0, 0x02, 0x02, 0, 0, 0, 0, 0x01, 0x08, 0x00, 0x45, 0, 0, 0x1c, 0, 0x07, 0x00,
    0x01, 0x40, 0x11, 0x66, 0xc7, 0x0a, 0, 0, 0x01, 0x0a, 0, 0, 0x02, 0x01, 0x02, 0x03, 0x04, 0x05,
    0x06, 0x07, 0x08,
];

/// The datagram.
pub const DATAGRAM: &[u8] = &[
    0x00, 0x01, 0x00, 0x02, 0x00, 0x10, 0xdb, 0xb4, 0x01, 0x02, 0x03, 0x04, 0x05, 0x06, 0x07, 0x08,
];

/// The datagram over IPv4 as it is returned.
pub const UDP: &str = "Payload(IpDefragPayloadVec { ip_number: IpNumber(17), \
    len_source: Ipv4HeaderTotalLen, \
    payload: [0, 1, 0, 2, 0, 16, 219, 180, 1, 2, 3, 4, 5, 6, 7, 8] })";

/// The same where it is given back then.
pub const LENT_UDP: &str = "Payload(IpDefragPayloadVec { ip_number: IpNumber(17), \
    len_source: Ipv4HeaderTotalLen, \
    payload: [0, 1, 0, 2, 0, 16, 219, 180, 1, 2, 3, 4, 5, 6, 7, 8] }) given back";

/// The datagram over IPv6 as it is returned.
pub const IPV6_UDP: &str = "Payload(IpDefragPayloadVec { ip_number: IpNumber(17), \
    len_source: Ipv6HeaderPayloadLen, \
    payload: [0, 1, 0, 2, 0, 16, 245, 178, 1, 2, 3, 4, 5, 6, 7, 8] })";

/// The same where it is given back then.
pub const LENT_IPV6_UDP: &str = "Payload(IpDefragPayloadVec { ip_number: IpNumber(17), \
    len_source: Ipv6HeaderPayloadLen, \
    payload: [0, 1, 0, 2, 0, 16, 245, 178, 1, 2, 3, 4, 5, 6, 7, 8] }) given back";

/// The second half over IPv6, with identification 7.
pub const IPV6_SECOND: &[u8] = &[
    0x02, 0, 0, 0, 0, 0x02, 0x02, 0, 0, 0, 0, 0x01, 0x86, 0xdd, 0x60, 0, 0, 0, 0, 0x10, 0x2c, 0x40,
    0xfd, 0, 0, 0, 0, 0, 0, 0, 0, 0, 0, 0, 0, 0, 0, 0x01, 0xfd, 0, 0, 0, 0, 0, 0, 0, 0, 0, 0, 0, 0,
    0, 0, 0x02, 0x11, 0, 0, 0x08, 0, 0, 0, 0x07, 0x01, 0x02, 0x03, 0x04, 0x05, 0x06, 0x07, 0x08,
];

/// The first half.
pub const IPV6_FIRST: &[u8] = &[
    0x02, 0, 0, 0, 0, 0x02, 0x02, 0, 0, 0, 0, 0x01, 0x86, 0xdd, 0x60, 0, 0, 0, 0, 0x10, 0x2c, 0x40,
    0xfd, 0, 0, 0, 0, 0, 0, 0, 0, 0, 0, 0, 0, 0, 0, 0x01, 0xfd, 0, 0, 0, 0, 0, 0, 0, 0, 0, 0, 0, 0,
    0, 0, 0x02, 0x11, 0, 0, 0x01, 0, 0, 0, 0x07, 0, 0x01, 0, 0x02, 0, 0x10, 0xf5, 0xb2,
];

/// The second half at an offset 8 bytes greater.
pub const AFTER: &[u8] = &[
    0x02, 0, 0, 0, 0, 0x02, 0x02, 0, 0, 0, 0, 0x01, 0x08, 0, 0x45, 0, 0, 0x1c, 0, 0x07, 0, 0x02,
    0x40, 0x11, 0x66, 0xc7, 0x0a, 0, 0, 0x01, 0x0a, 0, 0, 0x02, 0x01, 0x02, 0x03, 0x04, 0x05, 0x06,
    0x07, 0x08,
];

/// The second half over IPv6 at an offset 8 bytes greater, after which more follow.
pub const IPV6_LATER: &[u8] = &[
    0x02, 0, 0, 0, 0, 0x02, 0x02, 0, 0, 0, 0, 0x01, 0x86, 0xdd, 0x60, 0, 0, 0, 0, 0x10, 0x2c, 0x40,
    0xfd, 0, 0, 0, 0, 0, 0, 0, 0, 0, 0, 0, 0, 0, 0, 0x01, 0xfd, 0, 0, 0, 0, 0, 0, 0, 0, 0, 0, 0, 0,
    0, 0, 0x02, 0x11, 0, 0, 0x11, 0, 0, 0, 0x07, 0x01, 0x02, 0x03, 0x04, 0x05, 0x06, 0x07, 0x08,
];

/// The first half over IPv4 after three VLAN tags, of the identifiers 5, 6 and 7.
pub const TAGGED_FIRST: &[u8] = &[
    0x02, 0, 0, 0, 0, 0x02, 0x02, 0, 0, 0, 0, 0x01, 0x81, 0, 0, 0x05, 0x81, 0, 0, 0x06, 0x81, 0, 0,
    0x07, 0x08, 0, 0x45, 0, 0, 0x1c, 0, 0x07, 0x20, 0, 0x40, 0x11, 0x46, 0xc8, 0x0a, 0, 0, 0x01,
    0x0a, 0, 0, 0x02, 0, 0x01, 0, 0x02, 0, 0x10, 0xdb, 0xb4,
];

/// The second half after the same tags.
pub const TAGGED_SECOND: &[u8] = &[
    0x02, 0, 0, 0, 0, 0x02, 0x02, 0, 0, 0, 0, 0x01, 0x81, 0, 0, 0x05, 0x81, 0, 0, 0x06, 0x81, 0, 0,
    0x07, 0x08, 0, 0x45, 0, 0, 0x1c, 0, 0x07, 0, 0x01, 0x40, 0x11, 0x66, 0xc7, 0x0a, 0, 0, 0x01,
    0x0a, 0, 0, 0x02, 0x01, 0x02, 0x03, 0x04, 0x05, 0x06, 0x07, 0x08,
];

/// Passes a frame to a pool; no contract, as above.
pub fn process<S: BuildHasher>(
    rt: impl Abort + Copy,
    pool: &mut IpDefragPool<u64, u32, S>,
    frame: &[u8],
    timestamp: u64,
    channel: u32,
) -> Result<Option<IpDefragPayloadVec>, IpDefragError> {
    let Ok(packet) = SlicedPacket::from_ethernet(frame) else {
        fail(rt, "a frame isn't sliced");
    };
    pool.process_sliced_packet(&packet, timestamp, channel)
}

/// Passes a frame to a pool, and returns whether it completes a datagram; no contract, as above.
pub fn delivers<S: BuildHasher>(
    rt: impl Abort + Copy,
    pool: &mut IpDefragPool<u64, u32, S>,
    frame: &[u8],
    timestamp: u64,
    channel: u32,
) -> bool {
    match process(rt, pool, frame, timestamp, channel) {
        Ok(message) => message.is_some(),
        Err(error) => panic!(rt; "{error}"),
    }
}

/// Passes a frame to a pool whose datagram waits for more; no contract, as above.
pub fn waits<S: BuildHasher>(
    rt: impl Abort + Copy,
    pool: &mut IpDefragPool<u64, u32, S>,
    frame: &[u8],
    timestamp: u64,
    channel: u32,
) {
    holds(rt, !delivers(rt, pool, frame, timestamp, channel));
}

/// Keeps the reassemblies of this time and of later ones: from `u64::MAX` on there are none. No
/// contract, as above.
pub fn keep_from<S: BuildHasher>(
    rt: impl Abort + Copy,
    pool: &mut IpDefragPool<u64, u32, S>,
    least: u64,
) {
    holds(rt, pool.retain(|time: &u64| *time >= least).is_ok());
}
