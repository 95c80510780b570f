//! Sums of pseudo headers: checksums of UDP datagrams that other tools give.
use crate::checks::equal;
use ep_base::IpNumber;
use ep_base::checksum::message_sum;
use ep_ip::checksum::{pseudo_sum_v4, pseudo_sum_v6};

// Ports 1 and 2, length 16, and the payload 1 to 8.
const HEADER: [u8; 8] = [0, 1, 0, 2, 0, 16, 0, 0];

const PAYLOAD: [u8; 8] = [1, 2, 3, 4, 5, 6, 7, 8];

#[test]
fn pseudo_sum_over_ipv4(rt: HostRuntime) {
    let pseudo = pseudo_sum_v4([10, 0, 0, 1], [10, 0, 0, 2], IpNumber::UDP, 16);
    let sum = message_sum(pseudo, &HEADER, &PAYLOAD);
    equal(rt, sum.ones_complement().swap_bytes(), 0xdbb4);
}

#[test]
fn pseudo_sum_over_ipv6(rt: HostRuntime) {
    let source = [0xfd, 0, 0, 0, 0, 0, 0, 0, 0, 0, 0, 0, 0, 0, 0, 1];
    let destination = [0xfd, 0, 0, 0, 0, 0, 0, 0, 0, 0, 0, 0, 0, 0, 0, 2];
    let pseudo = pseudo_sum_v6(source, destination, IpNumber::UDP, 16);
    let sum = message_sum(pseudo, &HEADER, &PAYLOAD);
    equal(rt, sum.ones_complement().swap_bytes(), 0xf5b2);
}
