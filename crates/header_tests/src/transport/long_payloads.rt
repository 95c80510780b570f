//! Checksums over payloads of each length up to 130, and of the greatest. Expected values are
//! calculated by hand, or from those of the length before. A pseudo header of either version with
//! addresses of zeros adds the number and the length, up to 65535.

use crate::checks::equal;
use crate::payloads::{complement, counted, filled};
use crate::transport::checksums::Checksum;
use ep_tcpudp::{TcpHeader, UdpHeader};
use std::test::*;

// From and to port 0: 11 for the number is added, and the length twice.
fn udp(payload: &[u8]) -> [Checksum; 2] {
    let header = UdpHeader {
        source_port: 0,
        destination_port: 0,
        length: payload.len().saturating_add(8).min(65535) as u16,
        checksum: 0,
    };
    [
        header.calc_checksum_ipv4_raw([0; 4], [0; 4], payload),
        header.calc_checksum_ipv6_raw([0; 16], [0; 16], payload),
    ]
}

// The same of TCP: 6 for the number is added, the length, and 5000 for the data offset.
fn tcp(payload: &[u8]) -> [Checksum; 2] {
    let header = TcpHeader::new(0, 0, 0, 0);
    [
        header.calc_checksum_ipv4_raw([0; 4], [0; 4], payload),
        header.calc_checksum_ipv6_raw([0; 16], [0; 16], payload),
    ]
}

fn both(payload: &[u8]) -> [[Checksum; 2]; 2] {
    [udp(payload), tcp(payload)]
}

#[test]
fn payloads_of_one_byte_repeated(rt: HostRuntime) {
    let of_64 = [[Ok(0xff5e); 2], [Ok(0xafa5); 2]];
    equal(rt, both(&[0xff; 64]), of_64);
    equal(rt, both(&[0; 64]), of_64);
    equal(rt, both(&[1; 33]), [[Ok(0xee8c); 2], [Ok(0x9eb4); 2]]);
}

// Of so many bytes with this sum.
fn wanted(len: u8, total: u32) -> [[Checksum; 2]; 2] {
    let udp = total.wrapping_add(0x11 + 2 * (8 + u32::from(len)));
    let tcp = total.wrapping_add(0x5000 + 6 + 20 + u32::from(len));
    [[Ok(complement(udp)); 2], [Ok(complement(tcp)); 2]]
}

#[test]
fn payloads_of_every_length(rt: HostRuntime) {
    let (bytes, sums) = counted();
    for len in 0..=130u8 {
        let index = usize::from(len);
        let found = both(&bytes[..index]);
        equal(rt, (len, found), (len, wanted(len, sums[index])));
    }
}

// Words ffff and a last ff00 after headers of 8 and of 20 bytes, 65535 bytes in all.
#[test]
fn greatest_payloads(rt: HostRuntime) {
    let datagram = filled(rt.alloc(), &[], 0xff, 65527);
    let segment = filled(rt.alloc(), &[], 0xff, 65515);
    equal(rt, udp(&datagram), [Ok(0x00ee); 2]);
    equal(rt, tcp(&segment), [Ok(0xb0f8); 2]);
}
