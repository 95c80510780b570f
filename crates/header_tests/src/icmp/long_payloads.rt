//! Checksums over payloads of each length up to 130, and of a long one. Expected values are
//! calculated by hand, or from those of the length before.

use crate::payloads::{complement, counted, filled};
use ep_icmp::{IcmpEchoHeader, Icmpv4Type, Icmpv6Type};
use std::test::*;

const NOTHING: IcmpEchoHeader = IcmpEchoHeader { id: 0, seq: 0 };

// An echo reply of zeros, which adds nothing to the sum of its payload.
fn over_v4(payload: &[u8]) -> u16 {
    Icmpv4Type::EchoReply(NOTHING).calc_checksum(payload)
}

// The same over IPv6 with addresses of zeros: 8100 for its type and 3a for its number are added,
// and the length, which is 8 more than that of the payload.
fn over_v6(payload: &[u8]) -> Option<u16> {
    let kind = Icmpv6Type::EchoReply(NOTHING);
    kind.calc_checksum([0; 16], [0; 16], payload).ok()
}

#[test]
fn payloads_of_one_byte_repeated(rt: HostRuntime) {
    let over_v4 = [over_v4(&[0xff; 64]), over_v4(&[0; 64]), over_v4(&[1; 33])];
    let over_v6 = [over_v6(&[0xff; 64]), over_v6(&[0; 64]), over_v6(&[1; 33])];
    let sums = (over_v4, over_v6);
    assert!(rt;
        sums == (
            [0, 0xffff, 0xeeef],
            [Some(0x7e7d), Some(0x7e7d), Some(0x6d8c)]
        )
    );
}

#[test]
fn payloads_of_every_length(rt: HostRuntime) {
    let (bytes, sums) = counted();
    for len in 0..=130usize {
        let prefix = &bytes[..len];
        let with_pseudo = sums[len].wrapping_add(0x8100 + 0x3a + 8 + len as u32);
        let wanted = (complement(sums[len]), Some(complement(with_pseudo)));
        assert!(rt; (over_v4(prefix), over_v6(prefix)) == wanted);
    }
}

// Words ffff and a last ff00. Over IPv6 the length of the message is 10007.
#[test]
fn a_long_payload(rt: HostRuntime) {
    let payload = filled(rt.alloc(), &[], 0xff, 65535);
    assert!(rt; (over_v4(&payload), over_v6(&payload)) == (0x00ff, Some(0x7fbc)));
}
